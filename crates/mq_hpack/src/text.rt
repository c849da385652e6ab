//! String literals (RFC 7541, section 5.2).
ghost use Rattle.std.specs.Prelude.{◌≡◌, ℕ, slice_index, nat_le};
ghost use Rattle.mq_hpack.specs.Text.{IsLong, IsPlain, IsString, Tells};

use crate::fault::HpackFault;
use crate::field::Text;
use crate::integer::read_integer;
use mq_huff::{HuffFault, decode};
use std::alloc::Global;

/// Reads the string at the front, and the bytes after it.
pub fn read_string(alloc: Global, bytes: &[u8]) -> Result<(Text, &[u8]), HpackFault>
    ensures { Tells (λ x. (x.0, x.1.now)) (IsString bytes.now) result }
{
    let (len, after) = read_integer(7, bytes).ok_or(HpackFault::Integer)?;
    take_text(alloc, is_coded(bytes), len as usize, after)
}

/// Whether the string at the front is in the Huffman code.
fn is_coded(bytes: &[u8]) -> bool
    ensures { result ≡ nat_le 128 (slice_index bytes.now 0) }
{
    match bytes {
        [first, ..] => *first >= 128,
        [] => false,
    }
}

/// Reads so many bytes as a text, and the bytes after them.
fn take_text(
    alloc: Global,
    coded: bool,
    len: usize,
    bytes: &[u8],
) -> Result<(Text, &[u8]), HpackFault>
    ensures { Tells (λ x. (x.0, x.1.now)) (IsLong coded len bytes.now) result }
{
    if bytes.len() < len {
        return Err(HpackFault::Text);
    }
    let (raw, rest) = bytes.split_at(len);
    let text = plain_text(alloc, coded, raw)?;
    Ok((text, rest))
}

/// The text that these bytes spell.
fn plain_text(alloc: Global, coded: bool, raw: &[u8]) -> Result<Text, HpackFault>
    ensures { Tells (λ t. t) (IsPlain coded raw.now) result }
{
    if !coded {
        return Ok(Text::copy_of(alloc, raw)?);
    }
    match decode(alloc, raw) {
        Ok(text) => Ok(Text::from_vec(text)),
        Err(HuffFault::NoMemory) => Err(HpackFault::NoMemory),
        Err(_) => Err(HpackFault::Text),
    }
}
