//! Writing integers and strings (RFC 7541, sections 5.1 and 5.2).
ghost use Rattle.std.specs.Prelude.{◌≡◌, ℕ, ◌+◌, ◌^◌, ◌<◌, ◌≤◌, ◌++◌, List, length, OnOk};
ghost use Rattle.mq_huff.specs.Coded.{IsCoded};
ghost use Rattle.mq_hpack.specs.Encoder.{coded_len, spelled, Appends, IsText};

use mq_huff::{encode, encoded_len};
use mq_wire::NoMemory;

/// Writes an integer whose first bits are the lowest ones of the first byte. The bits above them tell
/// the representation.
pub fn write_integer(out: &mut Vec<u8>, form: u8, prefix: u32, number: u64) -> Result<(), NoMemory>
    requires prefix { (1 ≤ prefix) × (prefix ≤ 8) }
    requires fits { form + 2 ^ prefix ≤ 256 }
    ensures { OnOk result (out.new.items ≡ out.old.items ++ spelled form prefix number) }
{
    let full = (1u64 << prefix) - 1;
    if number < full {
        out.push(form + number as u8)?;
        return Ok(());
    }
    out.push(form + full as u8)?;
    let mut left = number - full;
    while left >= 128 {
        out.push((left % 128 + 128) as u8)?;
        left /= 128;
    }
    out.push(left as u8)?;
    Ok(())
}

/// No text is so long.
const TOO_LONG: usize = 0x4000_0000_0000_0000;

/// Writes a string, in the Huffman code where that is shorter.
pub fn write_string(out: &mut Vec<u8>, text: &[u8]) -> Result<(), NoMemory>
    ensures { OnOk result (Appends out.old.items out.new.items (IsText text.now)) }
{
    if text.len() >= TOO_LONG {
        return Err(NoMemory);
    }
    let coded = encoded_len(text);
    if coded < text.len() as u64 {
        write_coded(out, coded, text)
    } else {
        write_plain(out, text)
    }
}

/// Writes a string in the Huffman code, where it has so many bytes.
fn write_coded(out: &mut Vec<u8>, coded: u64, text: &[u8]) -> Result<(), NoMemory>
    requires shorter { coded < length text.now }
    requires exact { (raw : List ℕ) → IsCoded text.now raw → coded ≡ length raw }
    ensures { OnOk result (Appends out.old.items out.new.items (IsText text.now)) }
{
    write_integer(out, 128, 7, coded)?;
    encode(out, text)?;
    Ok(())
}

/// Writes a string as it is.
fn write_plain(out: &mut Vec<u8>, text: &[u8]) -> Result<(), NoMemory>
    requires { length text.now ≤ coded_len text.now }
    ensures { OnOk result (Appends out.old.items out.new.items (IsText text.now)) }
{
    write_integer(out, 0, 7, text.len() as u64)?;
    out.extend_from_slice(text)?;
    Ok(())
}
