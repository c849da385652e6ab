//! The texts that write a prefix: an address, or an address, `/` and a length.
ghost use Rattle.std.specs.Prelude.{◌≡◌, ◌↔◌, ◌%◌, ◌^◌, ℕ, ◌≤◌, IsTrue, MatchOption};
ghost use Rattle.mq_text.specs.Number.{Spells};
ghost use Rattle.mq_addr.specs.Addr.{IsAddrText};
ghost use Rattle.mq_addr.specs.Block.{EndsInZeros, width};
ghost use Rattle.mq_addr.specs.Prefixes.{HasOnePrefix, IsAlone, IsPrefixForm, ReadsPrefix};
ghost use Rattle.mq_addr.specs.declared.addr.Addr.{Addr};
ghost use Rattle.mq_addr.specs.declared.prefix.Prefix.{Prefix};

use crate::prefix::{free_bits, full_length};
use crate::{Addr, AddrFault, Prefix, one_addr, parse_addr};
use mq_text::{cut, cut_once, parse_number, reads_one};

/// The prefix that a text writes: an address, which has its full length, or an address, `/` and a length in decimal
/// without leading zeros (RFC 4632, section 3.1; RFC 4291, section 2.3). `Bits` where the text is such and a bit past
/// the length is set, `Syntax` for every other text.
pub fn parse_prefix(text: &[u8]) -> Result<Prefix, AddrFault>
    ensures { ReadsPrefix text.now result }
{
    let Some(block) = form_of(text) else {
        return Err(AddrFault::Syntax);
    };
    if ends_in_zeros(&block) {
        Ok(block)
    } else {
        Err(AddrFault::Bits)
    }
}

/// A text has the form of at most one prefix.
pub fn one_prefix()
    ensures { HasOnePrefix }
{
    one_addr();
    cut_once();
    reads_one();
}

/// The prefix whose form a text has, whatever the bits past its length.
fn form_of(text: &[u8]) -> Option<Prefix>
    ensures { MatchOption result ((block : Prefix) → ¬ (IsPrefixForm text.now block)) (λ block. IsPrefixForm text.now block) }
{
    cut_once();
    match cut(b'/', text) {
        None => alone(text),
        Some((front, digits)) => with_length(front, digits),
    }
}

/// The block of the one address that a text writes.
fn alone(text: &[u8]) -> Option<Prefix>
    ensures { MatchOption result ((addr : Addr) → ¬ (IsAddrText text.now addr)) (λ block. IsAlone text.now block) }
{
    let Ok(addr) = parse_addr(text) else {
        return None;
    };
    Some(Prefix {
        addr,
        length: full_length(&addr),
    })
}

/// The block of an address and a length.
fn with_length(front: &[u8], digits: &[u8]) -> Option<Prefix>
    ensures { MatchOption result
        ((block : Prefix) → IsAddrText front.now block.addr → Spells digits.now block.length → ¬ (block.length ≤ width block.addr))
        (λ block. IsAddrText front.now block.addr × Spells digits.now block.length × (block.length ≤ width block.addr)) }
{
    one_addr();
    let Ok(addr) = parse_addr(front) else {
        return None;
    };
    let length = parse_number(u64::from(full_length(&addr)), digits)?;
    Some(Prefix {
        addr,
        length: length as u8,
    })
}

/// Whether no bit past the length is set.
fn ends_in_zeros(block: &Prefix) -> bool
    ensures { IsTrue result ↔ EndsInZeros block.now }
{
    let free = free_bits(block);
    match block.addr {
        Addr::V4(bits) => ends_in_zero_bits(u128::from(bits), free),
        Addr::V6(bits) => ends_in_zero_bits(bits, free),
    }
}

/// Whether a number ends in so many zero bits.
fn ends_in_zero_bits(bits: u128, free: u8) -> bool
    requires { free ≤ 128 }
    ensures { IsTrue result ↔ (bits % 2 ^ free ≡ 0) }
{
    if free == 128 {
        bits == 0
    } else {
        bits >> free << free == bits
    }
}
