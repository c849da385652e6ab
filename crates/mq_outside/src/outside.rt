//! The outside as a whole: what a server and a client take their links, ports and networks from, and hand them back to.
ghost use Rattle.std.specs.Prelude.{◌≡◌, Option, IfOk};
ghost use Rattle.mq_outside.specs.Ports.{IsNothing};
ghost use Rattle.mq_outside.specs.Counts.{no_port_counts};
ghost use Rattle.mq_outside.specs.Outsides.{OutsideHolds, OutsidePast, OutsideFaults, IsSame, IsUnbound, Opens, Dials, IsFresh, after_acceptor, after_dial, after_back, after_back_acceptor, past_back, past_back_ports, past_back_net};

use crate::acceptor::Acceptor;
use crate::bell::Bell;
use crate::link::Link;
use crate::net::Net;
use crate::ports::{Failed, Ports};
use mq_addr::Addr;
use mq_wire::NoMemory;

/// Everything that is outside.
pub trait Outside: Send
where
    <Self::L as Link>::Rest: Send,
{
    /// The links, dialled and accepted.
    type L: Link + Send;
    /// What accepts links.
    type A: Acceptor<L = Self::L> + Send;
    /// What binds ports.
    type Ps: Ports + Send;
    /// The network.
    type N: Net + Send;
    /// What wakes a worker.
    type B: Bell + Sync + Drop;

    /// What it holds, where it tells that.
    ghost holds: { Self → OutsideHolds };
    /// What was handed back, in order, where it tells that.
    ghost past: { Self → Option OutsidePast };
    /// How often it failed.
    ghost faults: { Self → OutsideFaults };

    /// What accepts so many links on a port.
    fn acceptor(&mut self, port: u16, count: u32) -> Result<Self::A, Failed>
        ensures left { IfOk result (λ acceptor. Self.A.left acceptor ≡ count) }
        ensures unused { IfOk result (λ acceptor. Self.A.counts acceptor ≡ record { waits = 0; faults = 0 }) }
        ensures opens { Opens Self.A.coming (holds self.old).accepted (holds self.new).accepted result }
        ensures dialled { (holds self.new).dialled ≡ (holds self.old).dialled }
        ensures past { past self.new ≡ past self.old }
        ensures faults { faults self.new ≡ after_acceptor (faults self.old) result };

    /// What binds ports, for one worker.
    fn ports(&mut self) -> Self::Ps
        ensures unused { (Self.Ps.faults result ≡ 0) × IsUnbound (Self.Ps.past result) }
        ensures same { IsSame (holds self.old) (holds self.new) (past self.old) (past self.new) (faults self.old) (faults self.new) };

    /// The network, in which these hosts answer.
    fn net(&mut self, hosts: &[Addr]) -> Result<Self::N, NoMemory>
        ensures unused { IfOk result (λ net. (Self.N.counts net ≡ no_port_counts) × IsNothing (Self.N.past net).gave × IsNothing (Self.N.past net).sent) }
        ensures same { IsSame (holds self.old) (holds self.new) (past self.old) (past self.new) (faults self.old) (faults self.new) };

    /// Opens a link to a server.
    fn dial(&mut self, addr: &Addr, port: u16) -> Result<Self::L, Failed>
        ensures unused { IfOk result (λ link. IsFresh (Self.L.past link) (Self.L.counts link)) }
        ensures dials { Dials Self.L.holds (holds self.old).dialled (holds self.new).dialled result }
        ensures accepted { (holds self.new).accepted ≡ (holds self.old).accepted }
        ensures past { past self.new ≡ past self.old }
        ensures faults { faults self.new ≡ after_dial (faults self.old) result };

    /// What wakes the workers.
    fn bell(&mut self) -> Self::B
        ensures same { IsSame (holds self.old) (holds self.new) (past self.old) (past self.new) (faults self.old) (faults self.new) };

    /// Takes back what is left of a closed link: a dialled one, or the accepted one of this number. Takes no memory.
    fn back(&mut self, dialled: bool, number: u32, rest: <Self::L as Link>::Rest)
        ensures holds { holds self.new ≡ holds self.old }
        ensures past { past self.new ≡ past_back (past self.old)
            (record { dialled = dialled; number = number; past = Self.L.rest_past rest; counts = Self.L.rest_counts rest }) }
        ensures faults { faults self.new ≡ after_back (faults self.old) (Self.L.rest_counts rest) };

    /// Takes back an acceptor. Takes no memory.
    fn back_acceptor(&mut self, acceptor: Self::A)
        ensures holds { holds self.new ≡ holds self.old }
        ensures past { past self.new ≡ past self.old }
        ensures faults { faults self.new ≡ after_back_acceptor (faults self.old) (Self.A.counts acceptor) };

    /// Takes back what bound a worker's ports. Takes no memory.
    fn back_ports(&mut self, worker: u32, ports: Self::Ps)
        ensures holds { holds self.new ≡ holds self.old }
        ensures past { past self.new ≡ past_back_ports (past self.old) (record { worker = worker; past = Self.Ps.past ports }) }
        ensures faults { faults self.new ≡ faults self.old };

    /// Takes back the network. Takes no memory.
    fn back_net(&mut self, net: Self::N)
        ensures holds { holds self.new ≡ holds self.old }
        ensures past { past self.new ≡ past_back_net (past self.old) (Self.N.past net) }
        ensures faults { faults self.new ≡ faults self.old };

    /// A short pause, or none.
    fn rest(&mut self)
        ensures { IsSame (holds self.old) (holds self.new) (past self.old) (past self.new) (faults self.old) (faults self.new) };
}
