//! Which configurations a book may have.
ghost use Rattle.std.specs.Prelude.{◌↔◌, ◌≤◌, IsTrue, IfOk, length};
ghost use Rattle.std.specs.List.{All, AllPairs, Any};
ghost use Rattle.mq_addr.specs.Block.{Overlap};
ghost use Rattle.mq_talk.specs.Config.{HasNoZero, IsConfig};

use mq_addr::{Addr, Prefix, contains, overlaps};
use mq_route::is_ordered;
use mq_talk::Config;
use mq_wire::NoMemory;
use std::alloc::Global;

/// Whether a book may have this configuration.
pub fn is_config(alloc: Global, config: &Config) -> Result<bool, NoMemory>
    ensures { IfOk result (λ is. IsTrue is ↔ IsConfig config.now) }
{
    let mut blocks = Vec::from_slice(alloc, config.pool.as_slice())?;
    blocks.extend_from_slice(config.reach.as_slice())?;
    if !is_short(config) {
        return Ok(false);
    }
    if !are_apart(blocks.as_slice()) {
        return Ok(false);
    }
    if !have_no_zero(blocks.as_slice()) {
        return Ok(false);
    }
    Ok(is_ordered(config.routes.as_slice()))
}

/// Whether a configuration has no more blocks and routes than it may.
fn is_short(config: &Config) -> bool
    ensures { IsTrue result
        ↔ ((length config.now.pool ≤ 16) × (length config.now.reach ≤ 16) × (length config.now.routes ≤ 32)) }
{
    config.pool.as_slice().len() <= 16
        && config.reach.as_slice().len() <= 16
        && config.routes.as_slice().len() <= 32
}

/// Whether no two of some blocks have an address in common.
fn are_apart(blocks: &[Prefix]) -> bool
    ensures { IsTrue result ↔ AllPairs (λ a b. ¬ (Overlap a b)) blocks.now }
{
    for place in 0..blocks.len() {
        let (before, _) = blocks.split_at(place);
        if meets_any(before, &blocks[place]) {
            return false;
        }
    }
    true
}

/// Whether a block of a list has an address of another block.
fn meets_any(blocks: &[Prefix], block: &Prefix) -> bool
    ensures { IsTrue result ↔ Any (λ other. Overlap other block.now) blocks.now }
{
    blocks.iter().any(|other| overlaps(other, block))
}

/// Whether none of some blocks has the all-zero address.
fn have_no_zero(blocks: &[Prefix]) -> bool
    ensures { IsTrue result ↔ All HasNoZero blocks.now }
{
    blocks.iter().all(has_no_zero)
}

/// Whether a block has the all-zero address of neither version.
fn has_no_zero(block: &Prefix) -> bool
    ensures { IsTrue result ↔ HasNoZero block.now }
{
    !contains(block, &Addr::V4(0)) && !contains(block, &Addr::V6(0))
}
