//! Bytes said by a text with escapes.
ghost use Rattle.std.specs.Prelude.{◌≡◌, ◌≤◌, ◌↔◌, IsTrue};
ghost use Rattle.mq_play.specs.Parts.{IsText};
ghost use Rattle.mq_script.specs.Reading.{IsParsed, escaped_by};

use crate::fault::LineFault;
use mq_wire::Bytes;
use std::alloc::Global;

/// The byte that stands behind a backslash in place of another.
fn escaped(letter: u8) -> Option<u8>
    ensures { result ≡ escaped_by letter }
{
    match letter {
        b'r' => Some(b'\r'),
        b'n' => Some(b'\n'),
        b'\\' => Some(b'\\'),
        _ => None,
    }
}

/// Whether a byte, which isn't the backslash, stands for itself.
fn is_plain(byte: u8) -> bool
    ensures { IsTrue result ↔ ((32 ≤ byte) × (byte ≤ 126)) }
{
    byte >= 0x20 && byte <= 0x7e
}

/// The bytes that a text says, of which there are some: each from 0x20 to 0x7e itself, but CR, LF and the backslash as `\r`, `\n` and `\\`.
pub fn parse_text(alloc: Global, text: &[u8]) -> Result<Bytes, LineFault>
    ensures { IsParsed (IsText text.now) result }
{
    if text.is_empty() {
        return Err(LineFault::Syntax);
    }
    let mut bytes = Vec::with_capacity(alloc, text.len())?;
    let mut is_escape = false;
    for byte in text {
        if is_escape {
            let Some(byte) = escaped(*byte) else {
                return Err(LineFault::Syntax);
            };
            if bytes.push(byte).is_err() {
                return Err(LineFault::NoMemory);
            }
            is_escape = false;
        } else if *byte == b'\\' {
            is_escape = true;
        } else if !is_plain(*byte) {
            return Err(LineFault::Syntax);
        } else if bytes.push(*byte).is_err() {
            return Err(LineFault::NoMemory);
        }
    }
    if is_escape {
        return Err(LineFault::Syntax);
    }
    Ok(Bytes::from_vec(bytes))
}
