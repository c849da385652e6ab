//! The network: whole IP packets, both ways.
ghost use Rattle.std.specs.Prelude.{◌≡◌, ◌≤◌, length, Option};
ghost use Rattle.mq_outside.specs.Counts.{PortCounts};
ghost use Rattle.mq_outside.specs.Nets.{NetHolds, NetSends, NetReceives};
ghost use Rattle.mq_outside.specs.Ports.{PortPast, after_send, past_sent, IsWithin, after_receive, past_received};

use crate::{PortGot, PortPut};

/// Where IP packets come from and go to.
pub trait Net: Drop {
    /// What it holds, where it tells that: then each answer is a function of it.
    ghost holds: { Self → Option NetHolds };
    /// What it gave and sent, where it tells that.
    ghost past: { Self → PortPast };
    /// How often its calls waited and failed.
    ghost counts: { Self → PortCounts };

    /// Sends one packet.
    fn send(&mut self, packet: &[u8]) -> PortPut
        requires { length packet.now ≤ 65535 }
        ensures sends { NetSends (holds self.old) (holds self.new) packet.now result }
        ensures past { past self.new ≡ past_sent (past self.old) packet.now result }
        ensures counts { counts self.new ≡ after_send (counts self.old) result };

    /// Receives one packet, whole, to the front of a buffer.
    fn recv(&mut self, into: &mut [u8]) -> PortGot
        requires { 65535 ≤ length into.old }
        ensures within { IsWithin into.new result }
        ensures receives { NetReceives (holds self.old) (holds self.new) into.new result }
        ensures past { past self.new ≡ past_received (past self.old) into.new result }
        ensures counts { counts self.new ≡ after_receive (counts self.old) result };
}
