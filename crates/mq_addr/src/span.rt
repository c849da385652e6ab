//! A block as a range.
ghost use Rattle.std.specs.Prelude.{◌≡◌, ◌↔◌};
ghost use Rattle.mq_addr.specs.Block.{IsIn};
ghost use Rattle.mq_addr.specs.Ranges.{InRange, IsRange};
ghost use Rattle.mq_addr.specs.declared.addr.Addr.{Addr};

use crate::aligned::{first_of, last_of, number, with_number};
use crate::prefix::free_bits;
use crate::{Prefix, Range};

/// The addresses of a block as a range for a protocol.
pub fn span_of(block: &Prefix, protocol: u8) -> Range
    ensures range { IsRange result }
    ensures protocol { result.protocol ≡ protocol }
    ensures same { (a : Addr) → InRange result a ↔ IsIn block.now a }
{
    let bits = number(&block.addr);
    let free = free_bits(block);
    Range {
        first: with_number(&block.addr, first_of(bits, free)),
        last: with_number(&block.addr, last_of(bits, free)),
        protocol,
    }
}
