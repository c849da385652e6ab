//! Routes in order.
ghost use Rattle.std.specs.Prelude.{◌≡◌, ◌↔◌, IsTrue, IfOk};
ghost use Rattle.std.specs.List.{All, Any};
ghost use Rattle.mq_addr.specs.Ranges.{IsMeet, IsOrdered, IsRange, Leads, ListsMeet, RangesMeet};

use crate::meet::meet_all;
use mq_addr::{Addr, Prefix, Range, allows, in_range, ranges_meet};
use mq_wire::{NoMemory, Seq};
use std::alloc::Global;
use std::marker::Model;

/// Ranges by version, then by protocol; those of one version and protocol rise and are apart.
#[derive(Drop)]
pub struct RouteList {
    ranges: Seq<Range>,
}

impl Model for RouteList {
    ghost use Rattle.std.specs.Prelude.{List};
    ghost use Rattle.mq_addr.specs.declared.range.Range.{Range};
    ghost use Rattle.mq_addr.specs.Ranges.{IsOrdered};

    ghost Value = { List Range };

    ghost view = { λ list. list.ranges };

    ghost invariant = { λ list. IsOrdered list.ranges };
}

impl RouteList {
    /// The list of these ranges, which are in order.
    pub fn new(ranges: Seq<Range>) -> RouteList
        requires { IsOrdered ranges }
        ensures { result ≡ ranges }
    {
        RouteList { ranges }
    }

    /// The ranges, in order.
    pub fn ranges(&self) -> &[Range]
        ensures value { result.now ≡ self.now }
        ensures ordered { IsOrdered self.now }
    {
        self.ranges.as_slice()
    }

    /// Whether a packet of this protocol may go to, or come from, this address. ICMP always may, where a range has the
    /// address.
    pub fn allows(&self, addr: &Addr, protocol: u8) -> bool
        ensures { IsTrue result ↔ Leads self.now addr.now protocol }
    {
        self.ranges()
            .iter()
            .any(|range| in_range(range, addr) && allows(range, protocol))
    }

    /// What the list has for a request: the addresses of the area, or all, and the protocol, or all. A range for all
    /// protocols is for the asked one, and a range for another falls away. For each version and protocol value the
    /// addresses stand in maximal intervals.
    pub fn meet(
        &self,
        alloc: Global,
        area: Option<Prefix>,
        protocol: Option<u8>,
    ) -> Result<RouteList, NoMemory>
        ensures { IfOk result (λ list. IsMeet self.now area protocol list) }
    {
        let list = meet_all(alloc, self.ranges(), &area, protocol)?;
        Ok(RouteList {
            ranges: Seq::from_vec(list),
        })
    }

    /// Whether an address is in a range of each of both lists, whatever the protocols.
    pub fn overlaps(&self, other: &RouteList) -> bool
        ensures { IsTrue result ↔ ListsMeet self.now other.now }
    {
        self.ranges()
            .iter()
            .any(|range| meets_list(range, other.ranges()))
    }
}

/// Whether an address of a range is in one of a list.
fn meets_list(range: &Range, ranges: &[Range]) -> bool
    requires first { IsRange range.now }
    requires second { All IsRange ranges.now }
    ensures { IsTrue result ↔ Any (λ s. RangesMeet range.now s) ranges.now }
{
    ranges.iter().any(|other| ranges_meet(range, other))
}
