//! The order of a route advertisement (RFC 9484, section 4.7.3).
ghost use Rattle.std.specs.Prelude.{◌≡◌, ◌↔◌, ◌<◌, IsTrue, length, slice_index_or, take};
ghost use Rattle.mq_addr.specs.Ranges.{IsOrdered, Precedes};
ghost use Rattle.mq_route.specs.Orders.{MayFollow};

use mq_addr::{Range, is_range, number, version_of};

/// Whether these ranges are in order, as `RouteList::new` needs them.
pub fn is_ordered(ranges: &[Range]) -> bool
    ensures { IsTrue result ↔ IsOrdered ranges.now }
{
    for place in 0..ranges.len() {
        let (before, _) = ranges.split_at(place);
        if !may_follow(before, &ranges[place]) {
            return false;
        }
    }
    true
}

/// Whether a range may stand behind some others.
fn may_follow(before: &[Range], range: &Range) -> bool
    ensures { IsTrue result ↔ MayFollow before.now range.now }
{
    is_range(range) && before.iter().all(|other| is_before(other, range))
}

/// Whether a range is before another by version, then by protocol; else it ends before the other begins.
fn is_before(a: &Range, b: &Range) -> bool
    ensures { IsTrue result ↔ Precedes 0 a.now b.now }
{
    let (before, behind) = (version_of(&a.first), version_of(&b.first));
    if before != behind {
        before < behind
    } else if a.protocol != b.protocol {
        a.protocol < b.protocol
    } else {
        number(&a.last) < number(&b.first)
    }
}
