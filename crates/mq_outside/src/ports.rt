//! What binds UDP ports, and is handed them back.
ghost use Rattle.std.specs.Prelude.{◌≡◌, ℕ, Option, IfOk};
ghost use Rattle.mq_outside.specs.Counts.{risen_by, no_port_counts};
ghost use Rattle.mq_outside.specs.Ports.{PortsHolds, PortsPast, PortsBind, after_bind, past_bound, CanRetire, past_retired, next_place, limit_of, IsNothing};

use crate::port::Port;
use mq_addr::Addr;

/// A call failed, and the faults rose.
#[derive(Clone, Copy, Debug, PartialEq, Eq)]
pub struct Failed;

/// What a port was bound for: a remote address and port number.
#[derive(Clone, Copy, Debug, PartialEq, Eq)]
pub struct Binding {
    pub addr: Addr,
    pub number: u16,
}

/// What binds ports. Each goes back to it in the end.
pub trait Ports: Drop {
    /// The ports that it binds.
    type P: Port;

    /// What it holds, where it tells that: then it says which bind fails, and what a bound port holds.
    ghost holds: { Self → Option PortsHolds };
    /// What was bound and handed back, in order, where it tells that.
    ghost past: { Self → Option PortsPast };
    /// How often it failed, with the failures of the ports that were handed back.
    ghost faults: { Self → ℕ };

    /// Binds a port for one remote address and port number.
    fn bind(&mut self, addr: &Addr, port: u16) -> Result<Self::P, Failed>
        ensures binds { PortsBind Self.P.holds (holds self.old) (holds self.new) result }
        ensures past { past self.new ≡ past_bound (past self.old) (record { addr = addr.now; number = port }) result }
        ensures faults { faults self.new ≡ after_bind (faults self.old) result }
        ensures most { IfOk result (λ bound. Self.P.most bound ≡ limit_of addr.now) }
        ensures place { IfOk result (λ bound. Self.P.place bound ≡ next_place (past self.old)) }
        ensures fresh { IfOk result (λ bound. (Self.P.counts bound ≡ no_port_counts) × IsNothing (Self.P.past bound).gave × IsNothing (Self.P.past bound).sent) };

    /// Takes a port back, whose tunnel has closed. Takes no memory.
    fn retire(&mut self, port: Self::P)
        ensures holds { holds self.new ≡ holds self.old }
        ensures past { CanRetire (past self.old) → past self.new ≡ past_retired (past self.old) (record { place = Self.P.place port; past = Self.P.past port }) }
        ensures faults { faults self.new ≡ risen_by (Self.P.counts port).faults (faults self.old) };
}
