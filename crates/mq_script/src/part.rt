//! The words of a printed line.
ghost use Rattle.std.specs.Prelude.{◌≡◌, ◌+◌, ◌<◌, ◌++◌, ◌∷◌, [], OnOk, OnErr, decimal, map};
ghost use Rattle.hex.specs.Hex.{encode_lower};
ghost use Rattle.mq_play.specs.Text.{bytes_text, given_text, newline, spaced};
ghost use Rattle.mq_script.specs.Counting.{bytes_line};
ghost use Rattle.mq_script.specs.Words.{Appends, behind_spaces, line_words, part_text};

use itoa::Buffer;
use mq_addr::{Given, prefix_text};
use mq_wire::NoMemory;

/// A word of a printed line.
#[derive(Clone, Copy)]
pub enum Part<'a> {
    /// These bytes.
    Text(&'a [u8]),
    /// A number in decimal.
    Number(u64),
    /// The port of this tunnel.
    Port(u32),
    /// Bytes in hex, or a dash where there are none.
    Hex(&'a [u8]),
}

/// Appends a text; an `Err` leaves a part of it.
pub fn append(out: &mut Vec<u8>, text: &[u8]) -> Result<(), NoMemory>
    ensures { Appends out.old.items text.now out.new.items result }
{
    out.extend_from_slice(text)?;
    Ok(())
}

/// Appends a byte; an `Err` leaves nothing of it.
fn append_byte(out: &mut Vec<u8>, byte: u8) -> Result<(), NoMemory>
    ensures { Appends out.old.items (byte ∷ []) out.new.items result }
{
    match out.push(byte) {
        Ok(()) => Ok(()),
        Err(_) => Err(NoMemory),
    }
}

/// Appends a number of any length in decimal; an `Err` leaves a part of it.
#[inline(never)]
fn append_digits(out: &mut Vec<u8>, number: u64) -> Result<(), NoMemory>
    ensures { Appends out.old.items (decimal number) out.new.items result }
{
    let mut buffer = Buffer::new();
    append(out, buffer.format(number).as_bytes())
}

/// Appends one decimal digit.
fn append_digit(out: &mut Vec<u8>, digit: u64) -> Result<(), NoMemory>
    requires { digit < 10 }
    ensures { Appends out.old.items ((48 + digit) ∷ []) out.new.items result }
{
    append_byte(out, b'0' + digit as u8)
}

/// Appends a number in decimal; an `Err` leaves a part of it. Most numbers have one digit or two, which need no buffer.
pub fn append_number(out: &mut Vec<u8>, number: u64) -> Result<(), NoMemory>
    ensures { Appends out.old.items (decimal number) out.new.items result }
{
    if number < 10 {
        return append_digit(out, number);
    }
    if number < 100 {
        append_digit(out, number / 10)?;
        return append_digit(out, number % 10);
    }
    append_digits(out, number)
}

/// Appends bytes in hex, in twice as many digits; an `Err` leaves a part of them.
#[inline(always)]
pub fn append_hex(out: &mut Vec<u8>, bytes: &[u8]) -> Result<(), NoMemory>
    ensures { Appends out.old.items (encode_lower bytes.now) out.new.items result }
{
    let start = out.len();
    let count = 2 * bytes.len();
    out.reserve(count)?;
    out.resize(start + count, 0)?;
    let (_, digits) = out.as_mut_slice().split_at_mut(start);
    let _ = hex::encode_to_slice(bytes, digits);
    Ok(())
}

#[inline(always)]
fn append_bytes(out: &mut Vec<u8>, bytes: &[u8]) -> Result<(), NoMemory>
    ensures { Appends out.old.items (bytes_text bytes.now) out.new.items result }
{
    if bytes.is_empty() {
        append_byte(out, b'-')
    } else {
        append_hex(out, bytes)
    }
}

/// Bytes in hex, or a dash, and a newline.
pub fn append_bytes_line(out: &mut Vec<u8>, bytes: &[u8]) -> Result<(), NoMemory>
    ensures { Appends out.old.items (bytes_line bytes.now) out.new.items result }
{
    append_bytes(out, bytes)?;
    append_byte(out, b'\n')
}

fn append_port(out: &mut Vec<u8>, tunnel: u32) -> Result<(), NoMemory>
    ensures { Appends out.old.items (part_text (Part.Port tunnel)) out.new.items result }
{
    append(out, b"port")?;
    append_number(out, u64::from(tunnel))
}

fn append_part(out: &mut Vec<u8>, part: Part<'_>) -> Result<(), NoMemory>
    ensures { Appends out.old.items (part_text part.entry) out.new.items result }
{
    match part {
        Part::Text(text) => append(out, text),
        Part::Number(number) => append_number(out, number),
        Part::Port(tunnel) => append_port(out, tunnel),
        Part::Hex(bytes) => append_bytes(out, bytes),
    }
}

/// A Request ID and its block.
fn append_given(out: &mut Vec<u8>, given: &Given) -> Result<(), NoMemory>
    ensures { Appends out.old.items (given_text given.now) out.new.items result }
{
    append_number(out, given.id)?;
    append_byte(out, b'=')?;
    append(out, prefix_text(&given.block).as_slice())
}

/// Each part behind a space.
fn append_parts(out: &mut Vec<u8>, parts: &[Part<'_>]) -> Result<(), NoMemory>
    ensures { Appends out.old.items (behind_spaces (map part_text parts.now)) out.new.items result }
{
    for part in parts {
        append_byte(out, b' ')?;
        append_part(out, *part)?;
    }
    Ok(())
}

/// Each block behind a space.
fn append_list(out: &mut Vec<u8>, list: &[Given]) -> Result<(), NoMemory>
    ensures { Appends out.old.items (behind_spaces (map given_text list.now)) out.new.items result }
{
    for given in list {
        append_byte(out, b' ')?;
        append_given(out, given)?;
    }
    Ok(())
}

fn append_line(
    out: &mut Vec<u8>,
    word: &[u8],
    parts: &[Part<'_>],
    list: &[Given],
) -> Result<(), NoMemory>
    ensures { Appends out.old.items (spaced (line_words word.now parts.now list.now) ++ newline ∷ []) out.new.items result }
{
    append(out, word)?;
    append_parts(out, parts)?;
    append_list(out, list)?;
    append_byte(out, b'\n')
}

/// Appends the line of a word, its parts and a list, or changes nothing.
pub fn print_line(
    out: &mut Vec<u8>,
    word: &[u8],
    parts: &[Part<'_>],
    list: &[Given],
) -> Result<(), NoMemory>
    ensures ok { OnOk result (out.new.items ≡ out.old.items ++ (spaced (line_words word.now parts.now list.now) ++ newline ∷ [])) }
    ensures err { OnErr result (out.new.items ≡ out.old.items) }
{
    let before = out.len();
    let appended = append_line(out, word, parts, list);
    if appended.is_err() {
        out.truncate(before);
    }
    appended
}
