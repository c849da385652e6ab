//! A receive window, with the bytes that were consumed and not yet given back.
ghost use Rattle.std.specs.Prelude.{◌≡◌, ◌+◌, ◌-◌, ◌≤◌, MatchOption, ◌<◌};

/// The size of a receive window as it begins, in bytes (RFC 9113, section 6.9.2).
pub const FIRST_WINDOW: u32 = 65_535;

/// What the peer may still send, and what is consumed and not yet given back to it, in bytes.
#[derive(Clone, Copy, Debug)]
pub struct Receiving {
    pub room: u32,
    pub consumed: u32,
    ghost within: { room + consumed ≤ 65535 },
}

impl Receiving {
    pub fn new() -> Receiving
        ensures room { result.room ≡ 65535 }
        ensures consumed { result.consumed ≡ 0 }
    {
        Receiving {
            room: FIRST_WINDOW,
            consumed: 0,
        }
    }

    /// The window after so many bytes came, unless they pass it.
    pub fn after_data(self, length: u32) -> Option<Receiving>
        ensures { MatchOption result (self.room < length) (λ after. (after.room + length ≡ self.room) × (after.consumed ≡ self.consumed)) }
    {
        if length > self.room {
            return None;
        }
        Some(Receiving {
            room: self.room - length,
            consumed: self.consumed,
        })
    }

    /// The window after so many of the bytes that came were consumed. No more are than came.
    pub fn after_consuming(self, length: u32) -> Receiving
        ensures room { result.room ≡ self.room }
        ensures consumed { self.room + self.consumed + length ≤ 65535 → result.consumed ≡ self.consumed + length }
    {
        let most = FIRST_WINDOW - self.room - self.consumed;
        Receiving {
            room: self.room,
            consumed: self.consumed + length.min(most),
        }
    }

    /// The window after all that is consumed was given back.
    pub fn after_giving_back(self) -> Receiving
        ensures room { result.room ≡ self.room + self.consumed }
        ensures consumed { result.consumed ≡ 0 }
    {
        Receiving {
            room: self.room + self.consumed,
            consumed: 0,
        }
    }
}
