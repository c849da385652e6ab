//! Ranges of a route advertisement (RFC 9484, section 4.7.3).
ghost use Rattle.std.specs.Prelude.{◌≡◌};
ghost use Rattle.mq_ipcaps.specs.Reading.{Tells, is_behind, is_in_order, range_at, route_at};
ghost use Rattle.mq_ipcaps.specs.Writing.{range_text};

use super::fault::CapsFault;
use super::field::{addr_at, addr_size, byte_at, version, version_at, write_addr};
use super::item::Item;
use mq_addr::{Range, number};
use mq_wire::NoMemory;

/// A range that is in order behind the one before.
impl Item for Range {
    ghost MOST = { 32 };

    const MOST: usize = 32;

    ghost item_at = { route_at };

    #[tactic(auto, unfolding(crate::specs::Reading::route_at))]
    fn read(before: Option<Range>, bytes: &[u8]) -> Result<(Range, &[u8]), CapsFault>
        ensures { Tells (λ x. (x.0, x.1.now)) result (route_at before bytes.now) }
    {
        let (range, rest) = range_at(bytes)?;
        if !is_in_order(before, &range) {
            return Err(CapsFault::Order);
        }
        Ok((range, rest))
    }

    ghost IsLarge = { λ _. ⊥ };

    fn is_large(&self) -> bool {
        false
    }

    ghost item_text = { range_text };

    #[tactic(auto, unfolding(crate::specs::Writing::range_text))]
    fn size(&self) -> u8 {
        2 + addr_size(&self.first) + addr_size(&self.last)
    }

    #[tactic(auto, unfolding(crate::specs::Writing::range_text))]
    fn write(&self, out: &mut Vec<u8>) -> Result<(), NoMemory> {
        out.push(version(&self.first))?;
        write_addr(out, &self.first)?;
        write_addr(out, &self.last)?;
        out.push(self.protocol)?;
        Ok(())
    }
}

/// A version, two addresses and a protocol.
#[tactic(auto, unfolding(crate::specs::Reading::range_at))]
fn range_at(bytes: &[u8]) -> Result<(Range, &[u8]), CapsFault>
    ensures { Tells (λ x. (x.0, x.1.now)) result (range_at bytes.now) }
{
    let (version, rest) = version_at(bytes)?;
    let (first, rest) = addr_at(version, rest)?;
    let (last, rest) = addr_at(version, rest)?;
    let (protocol, rest) = byte_at(rest)?;
    let range = Range {
        first,
        last,
        protocol,
    };
    Ok((range, rest))
}

/// Whether a range isn't upside down, and stands behind the one before.
#[tactic(auto, unfolding(crate::specs::Reading::is_in_order))]
fn is_in_order(before: Option<Range>, range: &Range) -> bool
    ensures { result ≡ is_in_order before range.now }
{
    if number(&range.last) < number(&range.first) {
        return false;
    }
    match before {
        None => true,
        Some(before) => is_behind(&before, range),
    }
}

/// By version, then by protocol, then by address.
#[tactic(auto, unfolding(crate::specs::Reading::is_behind))]
fn is_behind(before: &Range, range: &Range) -> bool
    ensures { result ≡ is_behind before.now range.now }
{
    let old = version(&before.first);
    let new = version(&range.first);
    if old != new {
        old < new
    } else if before.protocol != range.protocol {
        before.protocol < range.protocol
    } else {
        number(&before.last) < number(&range.first)
    }
}
