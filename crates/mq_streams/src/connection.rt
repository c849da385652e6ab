//! The windows of the connection.
ghost use Rattle.std.specs.Prelude.{◌≡◌, ◌+◌, ◌≤◌, ◌<◌, ◌^◌, MatchOption};

use crate::receiving::{FIRST_WINDOW, Receiving};
use crate::stream::MAX_WINDOW;

/// The windows of the connection.
#[derive(Clone, Copy, Debug)]
pub struct Connection {
    pub receiving: Receiving,
    /// What may still be sent, in bytes.
    pub room: u32,
    ghost within: { room < 2 ^ 31 },
}

impl Connection {
    pub fn new() -> Connection
        ensures receiving_room { result.receiving.room ≡ 65535 }
        ensures consumed { result.receiving.consumed ≡ 0 }
        ensures room { result.room ≡ 65535 }
    {
        Connection {
            receiving: Receiving::new(),
            room: FIRST_WINDOW,
        }
    }

    /// The connection after its send window grew, unless the window would pass the largest.
    pub fn after_grant(self, grow: u32) -> Option<Connection>
        ensures { MatchOption result (2147483647 < self.room + grow)
            (λ after. (after.receiving ≡ self.receiving) × (after.room ≡ self.room + grow)) }
    {
        if grow > MAX_WINDOW - self.room {
            return None;
        }
        Some(Connection {
            receiving: self.receiving,
            room: self.room + grow,
        })
    }

    /// The connection after so many bytes were sent.
    pub fn after_sending(self, length: u32) -> Connection
        requires { length ≤ self.room }
        ensures receiving { result.receiving ≡ self.receiving }
        ensures room { result.room + length ≡ self.room }
    {
        Connection {
            receiving: self.receiving,
            room: self.room - length,
        }
    }
}
