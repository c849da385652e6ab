//! Where bytes go.
ghost use Rattle.std.specs.Prelude.{ℕ, ◌<◌, List, length, Option};
ghost use Rattle.mq_outside.specs.Outside.{Writes, TakesSome, WriteCounts};

use crate::Put;

/// Where bytes go.
pub trait Sink {
    /// The bytes that it has taken, where it tells them.
    ghost taken: { Self → Option (List ℕ) };
    /// How often it has failed.
    ghost faults: { Self → ℕ };

    /// Takes some bytes from the front.
    fn write(&mut self, bytes: &[u8]) -> Put
        requires { 0 < length bytes.now }
        ensures some { TakesSome bytes.now result }
        ensures writes { Writes (taken self.old) (taken self.new) bytes.now result }
        ensures counts { WriteCounts (faults self.old) (faults self.new) result };
}
