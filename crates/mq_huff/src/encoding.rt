//! Encoding, by a word that collects the bits.
ghost use Rattle.std.specs.Prelude.{◌≡◌, ◌+◌, ◌^◌, ◌<◌, ◌≤◌, ◌++◌, ◌-◌, OnErr, OnOk, IfOk};
ghost use Rattle.mq_huff.specs.Code.{bits_of};
ghost use Rattle.mq_huff.specs.Coded.{coded_of, joined};
ghost use Rattle.mq_huff.specs.Encoded.{Appends, AppendsBits, AppendsCoded, AppendsPadded};

use crate::codes::code_at;
use std::alloc::AllocError;

/// Writes the code of a text at the end: each byte's code, and then ones up to a whole byte.
pub fn encode(out: &mut Vec<u8>, text: &[u8]) -> Result<(), AllocError>
    ensures ok { OnOk result (AppendsCoded out.old.items out.new.items text.now) }
    ensures spelled { OnOk result (out.new.items ≡ out.old.items ++ coded_of text.now) }
    ensures err { OnErr result (out.new.items ≡ out.old.items) }
{
    let before = out.len();
    match append(out, text) {
        Ok(()) => Ok(()),
        Err(fault) => {
            out.truncate(before);
            Err(fault)
        }
    }
}

/// Writes the codes and the padding. What an `Err` leaves behind the old bytes is to be cut off.
fn append(out: &mut Vec<u8>, text: &[u8]) -> Result<(), AllocError>
    ensures ok { OnOk result (AppendsPadded out.old.items out.new.items (joined text.now)) }
    ensures err { OnErr result (Appends out.old.items out.new.items) }
{
    // The bits that are not written yet are the lowest ones of the word.
    let mut word: u64 = 0;
    let mut waiting: u32 = 0;
    for byte in text {
        let code = code_at(*byte);
        let size = u32::from(code.size);
        word = with_bits(word, waiting, u64::from(code.number), size);
        waiting += size;
        if waiting >= 32 {
            word = put_word(out, word, waiting)?;
            waiting -= 32;
        }
    }
    finish(out, word, waiting)
}

/// The word with more bits below those that it has.
fn with_bits(word: u64, waiting: u32, number: u64, size: u32) -> u64
    requires word_fits { word < 2 ^ waiting }
    requires number_fits { number < 2 ^ size }
    requires room { waiting + size ≤ 62 }
    ensures fits { result < 2 ^ (waiting + size) }
    ensures joined { bits_of (waiting + size) result ≡ bits_of waiting word ++ bits_of size number }
{
    (word << size) + number
}

/// Writes the upper 32 bits of those that wait, and gives the others.
fn put_word(out: &mut Vec<u8>, word: u64, waiting: u32) -> Result<u64, AllocError>
    requires fits { word < 2 ^ waiting }
    requires many { 32 ≤ waiting }
    requires room { waiting ≤ 62 }
    ensures ok { IfOk result (λ rest. AppendsBits out.old.items out.new.items (bits_of (waiting - 32) rest) (bits_of waiting word)) }
    ensures fits { IfOk result (λ rest. rest < 2 ^ (waiting - 32)) }
    ensures err { OnErr result (Appends out.old.items out.new.items) }
{
    let left = waiting - 32;
    out.extend_from_slice(&((word >> left) as u32).to_be_bytes())?;
    Ok(word % (1 << left))
}

/// Writes the last bits, with ones up to a whole byte.
fn finish(out: &mut Vec<u8>, word: u64, waiting: u32) -> Result<(), AllocError>
    requires fits { word < 2 ^ waiting }
    requires few { waiting < 32 }
    ensures ok { OnOk result (AppendsPadded out.old.items out.new.items (bits_of waiting word)) }
    ensures err { OnErr result (Appends out.old.items out.new.items) }
{
    let padding = (32 - waiting) % 8;
    let padded = with_bits(word, waiting, (1 << padding) - 1, padding);
    let mut left = waiting + padding;
    while left > 0 {
        left -= 8;
        out.push(((padded >> left) % 256) as u8)?;
    }
    Ok(())
}
