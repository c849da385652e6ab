//! Areas: a block of addresses, or all of them.
ghost use Rattle.std.specs.Prelude.{◌↔◌, IsTrue};
ghost use Rattle.mq_policy.specs.Areas.{InArea, Covers};

use mq_addr::{Addr, Prefix, contains, covers};

/// Whether an address lies in an area.
pub fn has_addr(area: &Option<Prefix>, addr: &Addr) -> bool
    ensures { IsTrue result ↔ InArea area.now addr.now }
{
    match area {
        None => true,
        Some(block) => contains(block, addr),
    }
}

/// Whether every address of an area lies in another. No block holds all addresses.
pub fn covers_area(whole: &Option<Prefix>, part: &Option<Prefix>) -> bool
    ensures { IsTrue result ↔ Covers whole.now part.now }
{
    match (whole, part) {
        (None, _) => true,
        (Some(_), None) => false,
        (Some(whole), Some(part)) => covers(whole, part),
    }
}
