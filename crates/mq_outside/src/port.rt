//! A bound UDP port.
ghost use Rattle.std.specs.Prelude.{◌≡◌, ℕ, ◌≤◌, length, Option};
ghost use Rattle.mq_outside.specs.Counts.{PortCounts};
ghost use Rattle.mq_outside.specs.Ports.{PortHolds, PortPast, PortSends, after_send, past_sent, PortReceives, IsWithin, after_receive, past_received};

use crate::{PortGot, PortPut};

/// A UDP port, bound to one remote address and port.
pub trait Port: Drop {
    /// What it holds, where it tells that: then each answer is a function of it.
    ghost holds: { Self → Option PortHolds };
    /// What it gave and sent, where it tells that.
    ghost past: { Self → PortPast };
    /// How often its calls waited and failed.
    ghost counts: { Self → PortCounts };
    /// The longest payload that it takes.
    ghost most: { Self → ℕ };
    /// At which place it is among the ports that were bound, where it tells that.
    ghost place: { Self → Option ℕ };

    /// Sends one datagram.
    fn send(&mut self, bytes: &[u8]) -> PortPut
        requires { length bytes.now ≤ 65535 }
        ensures sends { PortSends (holds self.old) (holds self.new) result }
        ensures past { past self.new ≡ past_sent (past self.old) bytes.now result }
        ensures counts { counts self.new ≡ after_send (counts self.old) result }
        ensures most { most self.new ≡ most self.old }
        ensures place { place self.new ≡ place self.old };

    /// Receives one datagram, whole, to the front of a buffer. One of no bytes counts 0.
    fn recv(&mut self, into: &mut [u8]) -> PortGot
        requires { 65535 ≤ length into.old }
        ensures within { IsWithin into.new result }
        ensures receives { PortReceives (holds self.old) (holds self.new) into.new result }
        ensures past { past self.new ≡ past_received (past self.old) into.new result }
        ensures counts { counts self.new ≡ after_receive (counts self.old) result }
        ensures most { most self.new ≡ most self.old }
        ensures place { place self.new ≡ place self.old };

    /// The longest payload that it takes.
    fn limit(&self) -> u32
        ensures { result ≡ most self.now };
}
