//! Ranges put one by one into a list of maximal intervals.
ghost use Rattle.std.specs.Prelude.{◌≡◌, ◌+◌, nat_lt, IfOk};
ghost use Rattle.mq_route.specs.Puts.{hull, precedes, put};

use crate::clip::{higher, lower};
use mq_addr::{Range, number, version_of};
use mq_wire::NoMemory;
use std::alloc::Global;

/// The list with a range more: what it touches is joined to it.
pub(crate) fn put(alloc: Global, range: Range, list: &[Range]) -> Result<Vec<Range>, NoMemory>
    ensures { IfOk result (λ new. new.items ≡ put range list.now) }
{
    let mut new = Vec::new(alloc);
    let mut joined = range;
    let mut next = 0;
    while next < list.len() && !precedes(&joined, &list[next]) {
        if precedes(&list[next], &joined) {
            new.push(list[next])?;
        } else {
            joined = hull(&joined, &list[next]);
        }
        next += 1;
    }
    new.push(joined)?;
    let (_, rest) = list.split_at(next);
    new.extend_from_slice(rest)?;
    Ok(new)
}

/// Whether one range is before another and doesn't touch it, by version, protocol and addresses.
fn precedes(a: &Range, b: &Range) -> bool
    ensures { result ≡ precedes a.now b.now }
{
    let (before, behind) = (version_of(&a.first), version_of(&b.first));
    before < behind
        || before == behind
            && (a.protocol < b.protocol
                || a.protocol == b.protocol && is_apart(number(&a.last), number(&b.first)))
}

/// Whether another number is between two.
fn is_apart(low: u128, high: u128) -> bool
    ensures { result ≡ nat_lt (low + 1) high }
{
    low < high && high - low > 1
}

/// The range from the first address of both to the last.
fn hull(a: &Range, b: &Range) -> Range
    ensures { result ≡ hull a.now b.now }
{
    Range {
        first: lower(a.first, b.first),
        last: higher(a.last, b.last),
        protocol: a.protocol,
    }
}
