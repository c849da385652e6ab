//! A live stream with its windows.
ghost use Rattle.std.specs.Prelude.{◌≡◌, ℕ, ◌+◌, ◌-◌, ◌≤◌, ◌<◌, ◌^◌, ◌+ℤ◌, ◌<ℤ◌, ◌≤ℤ◌, pos, MatchOption, min, false, true};
ghost use Rattle.mq_streams.specs.Balance.{IsBalance, stays_within};

use crate::receiving::Receiving;

/// The largest window, in bytes (RFC 9113, section 6.9.1).
pub const MAX_WINDOW: u32 = 0x7fff_ffff;

/// A live stream.
#[derive(Clone, Copy, Debug)]
pub struct Stream {
    pub id: u32,
    /// The client has ended its side.
    pub has_ended: bool,
    pub receiving: Receiving,
    /// What the client granted less what was sent. With the initial window it makes the send window, so that
    /// a new initial window changes no stream.
    pub balance: i64,
    ghost is_no_connection: { 0 < id },
    ghost not_too_low: { pos 0 ≤ℤ (balance +ℤ pos (2 ^ 32)) },
    ghost not_too_high: { balance <ℤ pos (2 ^ 31) },
}

impl Stream {
    pub fn new(id: u32) -> Stream
        requires { 0 < id }
        ensures id { result.id ≡ id }
        ensures open { result.has_ended ≡ false }
        ensures room { result.receiving.room ≡ 65535 }
        ensures consumed { result.receiving.consumed ≡ 0 }
        ensures balance { result.balance ≡ pos 0 }
    {
        Stream {
            id,
            has_ended: false,
            receiving: Receiving::new(),
            balance: 0,
        }
    }

    /// The stream with its client's side ended.
    pub fn after_end(self) -> Stream
        ensures id { result.id ≡ self.id }
        ensures ended { result.has_ended ≡ true }
        ensures receiving { result.receiving ≡ self.receiving }
        ensures balance { result.balance ≡ self.balance }
    {
        let mut after = self;
        after.has_ended = true;
        after
    }

    /// The stream with another receive window.
    pub fn with_receiving(self, receiving: Receiving) -> Stream
        ensures id { result.id ≡ self.id }
        ensures ended { result.has_ended ≡ self.has_ended }
        ensures receiving { result.receiving ≡ receiving }
        ensures balance { result.balance ≡ self.balance }
    {
        let mut after = self;
        after.receiving = receiving;
        after
    }

    /// The bytes of its send window, or 0 where that isn't positive, and `limit` where it is larger.
    pub fn room(self, initial: u32, limit: u32) -> u32
        ensures exact { (extended sent : ℕ) → IsBalance self.balance extended sent → result ≡ min (initial + extended - sent) limit }
        ensures limited { result ≤ limit }
        ensures low { pos result ≤ℤ (self.balance +ℤ pos (2 ^ 32)) }
    {
        let window = self.balance + i64::from(initial);
        window.clamp(0, i64::from(limit)) as u32
    }

    /// The stream after so many bytes were sent, which its room held.
    pub fn after_sending(self, length: u32) -> Stream
        requires { pos length ≤ℤ (self.balance +ℤ pos (2 ^ 32)) }
        ensures id { result.id ≡ self.id }
        ensures ended { result.has_ended ≡ self.has_ended }
        ensures receiving { result.receiving ≡ self.receiving }
        ensures balance { (result.balance +ℤ pos length) ≡ self.balance }
    {
        let mut after = self;
        after.balance = self.balance - i64::from(length);
        after
    }

    /// The stream after its send window grew, unless the window would pass the largest.
    pub fn after_grant(self, initial: u32, grow: u32) -> Option<Stream>
        ensures { MatchOption result
            ((extended sent : ℕ) → IsBalance self.balance extended sent → stays_within (initial + extended + grow) sent ≡ false)
            (λ after. (after.id ≡ self.id) × (after.has_ended ≡ self.has_ended) × (after.receiving ≡ self.receiving)
            × (after.balance ≡ (self.balance +ℤ pos grow))
            × ((extended sent : ℕ) → IsBalance self.balance extended sent → stays_within (initial + extended + grow) sent ≡ true)) }
    {
        let balance = self.balance + i64::from(grow);
        if balance + i64::from(initial) > i64::from(MAX_WINDOW) {
            return None;
        }
        let mut after = self;
        after.balance = balance;
        Some(after)
    }

    /// Its send window stays within the largest where this is the initial window.
    pub fn can_shift(self, initial: u32) -> bool
        ensures { (extended sent : ℕ) → IsBalance self.balance extended sent → result ≡ stays_within (initial + extended) sent }
    {
        self.balance + i64::from(initial) <= i64::from(MAX_WINDOW)
    }
}
