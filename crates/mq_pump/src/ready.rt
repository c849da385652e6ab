//! Whether a network may now give a packet: by it the pump takes memory only where there is something to do.
ghost use Rattle.mq_pump.specs.Ready.{WouldGive};

use mq_mem::MemNet;
use mq_net::SimNet;
use mq_outside::Net;

/// A network that says whether a receive may now give a packet. One that doesn't tell what it holds always says `true`: a
/// receive may be tried.
pub trait NetReady: Net {
    /// Whether a receive may now give a packet. Takes no memory.
    fn would_give(&self) -> bool
        ensures { WouldGive (Self.holds self.now) result };
}

impl NetReady for MemNet {
    #[tactic(auto, using(crate::proofs::Telling::would_give))]
    fn would_give(&self) -> bool {
        !self.tells() || self.would_recv()
    }
}

/// It tells what it holds, and no receive fails.
impl NetReady for SimNet {
    fn would_give(&self) -> bool {
        self.waiting()
    }
}
