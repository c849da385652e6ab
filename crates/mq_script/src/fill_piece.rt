//! Bytes in hex, filled up with one value.
ghost use Rattle.std.specs.Prelude.{◌≡◌, ◌++◌, replicate};
ghost use Rattle.mq_play.specs.Lines.{IsFilled, most_filled};
ghost use Rattle.mq_play.specs.Parts.{IsByte, IsNumber, Means, Parted};
ghost use Rattle.mq_script.specs.Reading.{IsParsed};

use crate::fault::LineFault;
use crate::hex_piece::{parse_byte, parse_hex};
use crate::number::number_in;
use mq_text::{cut, cut_once};
use mq_wire::Bytes;
use std::alloc::Global;

/// The most bytes that fill a piece up.
const MOST_FILLED: u32 = 99_999;

/// So many bytes of one value behind the first ones.
fn filled(front: Bytes, count: u32, byte: u8) -> Result<Bytes, LineFault>
    ensures { IsParsed (λ bytes. bytes ≡ front ++ replicate count byte) result }
{
    let mut bytes = front.into_vec();
    bytes.reserve(count as usize)?;
    bytes.resize(bytes.len() + count as usize, byte)?;
    Ok(Bytes::from_vec(bytes))
}

/// How many bytes of which value come behind the first ones.
fn parse_behind(alloc: Global, front: Bytes, text: &[u8]) -> Result<Bytes, LineFault>
    ensures { IsParsed (Parted (IsNumber 1 most_filled) (λ count. Means IsByte (λ byte. front ++ replicate count byte)) text.now) result }
{
    cut_once();
    let Some((number, value)) = cut(b' ', text) else {
        return Err(LineFault::Syntax);
    };
    let Some(count) = number_in(1, MOST_FILLED, number) else {
        return Err(LineFault::Syntax);
    };
    let byte = parse_byte(alloc, value)?;
    filled(front, count, byte)
}

/// The bytes of `HEX N HH`.
pub fn parse_filled(alloc: Global, text: &[u8]) -> Result<Bytes, LineFault>
    ensures { IsParsed (IsFilled text.now) result }
{
    cut_once();
    let Some((digits, behind)) = cut(b' ', text) else {
        return Err(LineFault::Syntax);
    };
    let front = parse_hex(alloc, digits)?;
    parse_behind(alloc, front, behind)
}
