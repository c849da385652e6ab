//! What hands out the links that clients open.
ghost use Rattle.std.specs.Prelude.{◌≡◌, ℕ};
ghost use Rattle.mq_outside.specs.Outsides.{Coming, AcceptorCounts, Accepts, AcceptsLeft, ArrivesFresh, after_accept};

use crate::link::Link;

/// What an acceptor answers.
#[derive(Debug, Drop)]
pub enum Arrival<L: Drop> {
    /// A client opened this link.
    Link(L),
    /// None is there yet, and the waits rose.
    NotNow,
    /// All links were handed out that the acceptor was made for.
    Done,
    /// The faults rose.
    Failed,
}

/// Where links come from.
pub trait Acceptor: Drop {
    /// The links that it hands out.
    type L: Link;

    /// What the coming links hold, where it tells that.
    ghost coming: { Self → Coming };
    /// How many links it has still to hand out.
    ghost left: { Self → ℕ };
    /// How often it waited and failed.
    ghost counts: { Self → AcceptorCounts };

    /// The next link.
    fn next(&mut self) -> Arrival<Self::L>
        ensures accepts { Accepts Self.L.holds (coming self.old) (coming self.new) result }
        ensures left { AcceptsLeft (left self.old) (left self.new) result }
        ensures fresh { ArrivesFresh Self.L.past Self.L.counts result }
        ensures counts { counts self.new ≡ after_accept (counts self.old) result };
}
