//! A list of ranges met with what a request asks for.
ghost use Rattle.std.specs.Prelude.{◌≡◌, IfOk};
ghost use Rattle.std.specs.List.{All};
ghost use Rattle.mq_addr.specs.Ranges.{IsMeet, IsOrdered, IsRange};
ghost use Rattle.mq_route.specs.Puts.{IsMore};

use crate::clip::clip;
use crate::put::put;
use mq_addr::{Prefix, Range};
use mq_wire::NoMemory;
use std::alloc::Global;

/// The ranges of a request, as maximal intervals.
pub(crate) fn meet_all(
    alloc: Global,
    ranges: &[Range],
    area: &Option<Prefix>,
    asked: Option<u8>,
) -> Result<Vec<Range>, NoMemory>
    requires { All IsRange ranges.now }
    ensures meet { IfOk result (λ list. IsMeet ranges.now area.now asked list.items) }
    ensures ordered { IfOk result (λ list. IsOrdered list.items) }
{
    let mut list = Vec::new(alloc);
    for range in ranges {
        list = with_range(alloc, list, range, area, asked)?;
    }
    Ok(list)
}

/// A list of maximal intervals with what one range more is for.
fn with_range(
    alloc: Global,
    list: Vec<Range>,
    range: &Range,
    area: &Option<Prefix>,
    asked: Option<u8>,
) -> Result<Vec<Range>, NoMemory>
    requires { IsRange range.now }
    ensures { IfOk result (λ new. IsMore list.items range.now area.now asked new.items) }
{
    match clip(range, area, asked) {
        Some(part) => {
            let new = put(alloc, part, list.as_slice())?;
            Ok(new)
        }
        None => Ok(list),
    }
}
