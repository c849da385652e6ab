//! The search of one block of a pool. It goes from one start to the next that what is taken there leaves, and not through
//! all blocks.
ghost use Rattle.std.specs.Prelude.{◌≡◌, ◌≤◌, ◌-◌, ◌<◌, length, MatchOption};
ghost use Rattle.std.specs.List.{All, Contains};
ghost use Rattle.mq_addr.specs.Block.{width, Overlap};
ghost use Rattle.mq_addr.specs.Cover.{IsLeast};
ghost use Rattle.mq_pool.specs.Search.{IsBehind, IsSpare, IsStart, IsTry};

use mq_addr::{
    Prefix, first_of, free_bits, full_length, last_of, number, overlaps, with_number,
    within_by_bits,
};

/// What is at a start: a spare block, a next start, or the end of the whole.
pub(crate) enum Try {
    Free(Prefix),
    Behind(u128),
    End,
}

/// The first block of this length in the whole that has no address of a taken one.
pub(crate) fn first_spare(whole: &Prefix, taken: &[Prefix], length: u8) -> Option<Prefix>
    requires { length ≤ width whole.now.addr }
    ensures { IsLeast (λ block. IsSpare whole.now taken.now length block) result }
{
    within_by_bits();
    if free_bits(whole) < full_length(&whole.addr) - length {
        return None;
    }
    let mut at = first_of(number(&whole.addr), free_bits(whole));
    loop {
        match try_at(whole, taken, length, at) {
            Try::Free(block) => return Some(block),
            Try::Behind(next) => at = next,
            Try::End => return None,
        }
    }
}

/// Tries the block that starts there. Where a taken one overlaps it, no block is spare up to the end of the longer of both.
fn try_at(whole: &Prefix, taken: &[Prefix], length: u8, at: u128) -> Try
    requires { IsStart whole.now length at }
    ensures { IsTry whole.now taken.now length at result }
{
    within_by_bits();
    let block = Prefix {
        addr: with_number(&whole.addr, at),
        length,
    };
    match first_overlap(&block, taken) {
        None => Try::Free(block),
        Some(other) => behind(whole, at, free_bits(&block).max(free_bits(&other))),
    }
}

/// The start behind the aligned block of so many bits, if that is in the whole.
fn behind(whole: &Prefix, at: u128, bits: u8) -> Try
    requires { bits ≤ 128 }
    ensures { IsBehind whole.now at bits result }
{
    let end = last_of(at, bits);
    if end < last_of(at, free_bits(whole)) {
        Try::Behind(end + 1)
    } else {
        Try::End
    }
}

/// A taken block that has an address of this one.
fn first_overlap(block: &Prefix, taken: &[Prefix]) -> Option<Prefix>
    ensures { MatchOption result
        (All (λ other. ¬ (Overlap other block.now)) taken.now)
        (λ other. Contains taken.now other × Overlap other block.now) }
{
    let place = taken.iter().position(|other| overlaps(other, block))?;
    Some(taken[place])
}
