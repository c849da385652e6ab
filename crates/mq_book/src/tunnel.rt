//! A live tunnel: what the history says of it.
ghost use Rattle.std.specs.Prelude.{◌≡◌, ◌↔◌, ◌⊎◌, IsTrue};
ghost use Rattle.std.specs.List.{Any};
ghost use Rattle.mq_addr.specs.Block.{IsIn};
ghost use Rattle.mq_addr.specs.Ranges.{InRange, Leads, ListsMeet};
ghost use Rattle.mq_book.specs.Stand.{Has, IsClear};

use mq_addr::{Addr, Given, Range, contains, in_range};
use mq_route::RouteList;
use mq_wire::Seq;

/// A live tunnel, with the blocks that it holds, the ranges that it leads to, and the routes that it was told.
#[derive(Drop)]
pub(crate) struct Tunnel {
    pub number: u32,
    pub actor: u32,
    pub held: Seq<Given>,
    pub ranges: RouteList,
    pub routes: RouteList,
}

impl Tunnel {
    /// Whether a block or a range of the tunnel has an address.
    #[tactic(auto, unfolding(crate::specs::Stand::Has))]
    pub fn has(&self, addr: &Addr) -> bool
        ensures { IsTrue result ↔ Has self.now addr.now }
    {
        holds(self.held.as_slice(), addr) || leads(self.ranges.ranges(), addr)
    }

    /// Whether an address is the tunnel's for this protocol.
    pub fn owns(&self, addr: &Addr, protocol: u8) -> bool
        ensures { IsTrue result ↔ (Any (λ g. IsIn g.block addr.now) self.now.held ⊎ Leads self.now.ranges addr.now protocol) }
    {
        holds(self.held.as_slice(), addr) || self.ranges.allows(addr, protocol)
    }

    /// Whether the tunnel has this number, or leads to no address of some ranges.
    #[tactic(auto, unfolding(crate::specs::Stand::IsClear))]
    pub fn is_clear(&self, number: u32, offered: &RouteList) -> bool
        ensures { IsTrue result ↔ IsClear number offered.now self.now }
    {
        self.number == number || !offered.overlaps(&self.ranges)
    }
}

/// Whether a block of a list has an address.
fn holds(held: &[Given], addr: &Addr) -> bool
    ensures { IsTrue result ↔ Any (λ g. IsIn g.block addr.now) held.now }
{
    held.iter().any(|given| contains(&given.block, addr))
}

/// Whether a range of a list has an address.
fn leads(ranges: &[Range], addr: &Addr) -> bool
    ensures { IsTrue result ↔ Any (λ r. InRange r addr.now) ranges.now }
{
    ranges.iter().any(|range| in_range(range, addr))
}
