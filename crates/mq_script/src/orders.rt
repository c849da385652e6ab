//! Which blocks and ranges may stand behind others.
ghost use Rattle.std.specs.Prelude.{◌≡◌, ◌↔◌, IsTrue};
ghost use Rattle.std.specs.List.{Any};
ghost use Rattle.mq_addr.specs.Block.{Overlap, bits_of};
ghost use Rattle.mq_addr.specs.Cover.{version_of};
ghost use Rattle.mq_addr.specs.Ranges.{Precedes};
ghost use Rattle.mq_script.specs.Settings.{AreApart, MayEnd};

use mq_addr::{Addr, Prefix, Range, overlaps};

/// Whether a block has an address of one of these.
fn meets_any(blocks: &[Prefix], block: &Prefix) -> bool
    ensures { IsTrue result ↔ Any (λ other. Overlap other block.now) blocks.now }
{
    blocks.iter().any(|other| overlaps(other, block))
}

/// Whether a block has no address of one of these.
pub fn are_apart(blocks: &[Prefix], block: &Prefix) -> bool
    ensures { IsTrue result ↔ AreApart blocks.now block.now }
{
    !meets_any(blocks, block)
}

/// The version of an address and its bits.
fn place(addr: Addr) -> (u8, u128)
    ensures { result ≡ (version_of addr, bits_of addr) }
{
    match addr {
        Addr::V4(bits) => (4, u128::from(bits)),
        Addr::V6(bits) => (6, bits),
    }
}

/// Whether a range comes before another: by version, then by protocol, and then the one ends before the other begins.
fn precedes(range: &Range, other: &Range) -> bool
    ensures { IsTrue result ↔ Precedes 0 range.now other.now }
{
    let (version, _) = place(range.first);
    let (_, last) = place(range.last);
    let (other_version, first) = place(other.first);
    if version != other_version {
        version < other_version
    } else if range.protocol != other.protocol {
        range.protocol < other.protocol
    } else {
        last < first
    }
}

/// Whether each of these ranges comes before one.
pub fn may_end(ranges: &[Range], range: &Range) -> bool
    ensures { IsTrue result ↔ MayEnd ranges.now range.now }
{
    ranges.iter().all(|other| precedes(other, range))
}
