//! Where bytes come from.
ghost use Rattle.std.specs.Prelude.{ℕ, ◌<◌, List, length, Option};
ghost use Rattle.mq_outside.specs.Outside.{Reads, ReadCounts};

use crate::Got;

/// Where bytes come from.
pub trait Source {
    /// The bytes that are left, where it tells them.
    ghost left: { Self → Option (List ℕ) };
    /// How often it has failed.
    ghost faults: { Self → ℕ };

    /// Reads some bytes to the front of a buffer.
    fn read(&mut self, into: &mut [u8]) -> Got
        requires { 0 < length into.old }
        ensures reads { Reads (left self.old) (left self.new) into.new result }
        ensures counts { ReadCounts (faults self.old) (faults self.new) result };
}
