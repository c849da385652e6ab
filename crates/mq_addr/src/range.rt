//! Ranges of addresses, and what a packet says of its way.
ghost use Rattle.std.specs.Prelude.{◌↔◌, IsTrue};
ghost use Rattle.mq_addr.specs.Ranges.{Allows, InRange, IsInside, IsRange, RangesMeet};

use crate::aligned::number;
use crate::prefix::contains;
use crate::{Addr, Prefix};

/// The addresses from `first` to `last`, both of one version, for packets of one protocol (RFC 9484, section 4.7.3).
/// `first` is not above `last`, and the protocol 0 stands for all.
#[derive(Clone, Copy, Debug, PartialEq, Eq)]
pub struct Range {
    pub first: Addr,
    pub last: Addr,
    pub protocol: u8,
}

/// The ends of a packet, both of one version, and its upper-layer protocol.
#[derive(Clone, Copy, Debug, PartialEq, Eq)]
pub struct Flow {
    pub source: Addr,
    pub target: Addr,
    pub protocol: u8,
}

/// Whether both ends are of one version, and the first is not above the last.
pub fn is_range(range: &Range) -> bool
    ensures { IsTrue result ↔ IsRange range.now }
{
    match (range.first, range.last) {
        (Addr::V4(first), Addr::V4(last)) => first <= last,
        (Addr::V6(first), Addr::V6(last)) => first <= last,
        _ => false,
    }
}

/// Whether an address is in a range.
pub fn in_range(range: &Range, addr: &Addr) -> bool
    ensures { IsTrue result ↔ InRange range.now addr.now }
{
    match (range.first, range.last, *addr) {
        (Addr::V4(first), last, Addr::V4(a)) => first <= a && u128::from(a) <= number(&last),
        (Addr::V6(first), last, Addr::V6(a)) => first <= a && a <= number(&last),
        _ => false,
    }
}

/// Whether a range is for packets of a protocol. ICMP is always allowed, by its number in this version.
pub fn allows(range: &Range, protocol: u8) -> bool
    ensures { IsTrue result ↔ Allows range.now protocol }
{
    let icmp = match range.first {
        Addr::V4(_) => 1,
        Addr::V6(_) => 58,
    };
    range.protocol == 0 || range.protocol == protocol || protocol == icmp
}

/// Whether some address is in both ranges, whatever their protocols.
pub fn ranges_meet(a: &Range, b: &Range) -> bool
    requires first { IsRange a.now }
    requires second { IsRange b.now }
    ensures { IsTrue result ↔ RangesMeet a.now b.now }
{
    in_range(a, &b.first) || in_range(b, &a.first)
}

/// Whether every address of a range is in a block.
pub fn is_inside(range: &Range, block: &Prefix) -> bool
    requires { IsRange range.now }
    ensures { IsTrue result ↔ IsInside range.now block.now }
{
    contains(block, &range.first) && contains(block, &range.last)
}
