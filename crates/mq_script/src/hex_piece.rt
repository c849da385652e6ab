//! Bytes in lower-case hex.
ghost use Rattle.std.specs.Prelude.{◌≡◌, ◌∷◌, [], ◌↔◌, ◌<◌, ◌≤◌, ◌⊎◌, IsTrue, All};
ghost use Rattle.mq_play.specs.Lines.{IsHexUpTo, IsPacket, IsPayload};
ghost use Rattle.mq_play.specs.Parts.{IsByte, IsHex};
ghost use Rattle.mq_script.specs.Reading.{IsFound, IsParsed};

use crate::fault::LineFault;
use mq_wire::Bytes;
use std::alloc::Global;

/// The most bytes of a payload (RFC 9298, section 5).
const MOST_PAYLOAD: usize = 65_527;

/// The most bytes of a packet.
const MOST_PACKET: usize = 65_535;

/// How far a byte stands behind `A`, counted on from the last byte to the first: five or less are capital hex digits.
fn behind_capitals(digit: u8) -> u8
    ensures { (5 < result) ↔ ((digit < 65) ⊎ (70 < digit)) }
{
    if digit < b'A' {
        digit + 191
    } else {
        digit - b'A'
    }
}

/// Whether a text has no capital hex digit, which `hex::decode` takes. It looks at each byte, so that it can look at many at
/// once.
fn lacks_capitals(text: &[u8]) -> bool
    ensures { IsTrue result ↔ All (λ digit. (digit < 65) ⊎ (70 < digit)) text.now }
{
    let mut least = u8::MAX;
    for digit in text {
        least = least.min(behind_capitals(*digit));
    }
    least > 5
}

/// The bytes that a text spells in hex, in pairs of digits from `0` to `9` and `a` to `f`. There are some.
#[inline(always)]
pub fn parse_hex(alloc: Global, text: &[u8]) -> Result<Bytes, LineFault>
    ensures { IsParsed (IsHex text.now) result }
{
    if text.is_empty() {
        return Err(LineFault::Syntax);
    }
    if !lacks_capitals(text) {
        return Err(LineFault::Syntax);
    }
    let bytes = hex::decode(alloc, text)?;
    Ok(Bytes::from_vec(bytes))
}

/// The bytes that a text spells in hex, so many at most.
fn parse_up_to(alloc: Global, most: usize, text: &[u8]) -> Result<Bytes, LineFault>
    ensures { IsParsed (IsHexUpTo most text.now) result }
{
    let bytes = parse_hex(alloc, text)?;
    if bytes.as_slice().len() > most {
        return Err(LineFault::Syntax);
    }
    Ok(bytes)
}

/// The payload that a text spells in hex.
pub fn parse_payload(alloc: Global, text: &[u8]) -> Result<Bytes, LineFault>
    ensures { IsParsed (IsPayload text.now) result }
{
    parse_up_to(alloc, MOST_PAYLOAD, text)
}

/// The packet that a text spells in hex.
pub fn parse_packet(alloc: Global, text: &[u8]) -> Result<Bytes, LineFault>
    ensures { IsParsed (IsPacket text.now) result }
{
    parse_up_to(alloc, MOST_PACKET, text)
}

/// The byte, where there is just one.
pub fn single(bytes: &[u8]) -> Option<u8>
    ensures { IsFound (λ byte. bytes.now ≡ byte ∷ []) result }
{
    match bytes {
        [byte] => Some(*byte),
        _ => None,
    }
}

/// The one byte that a text spells in hex.
pub fn parse_byte(alloc: Global, text: &[u8]) -> Result<u8, LineFault>
    ensures { IsParsed (IsByte text.now) result }
{
    let bytes = parse_hex(alloc, text)?;
    let found = single(bytes.as_slice());
    drop(bytes);
    match found {
        Some(byte) => Ok(byte),
        None => Err(LineFault::Syntax),
    }
}
