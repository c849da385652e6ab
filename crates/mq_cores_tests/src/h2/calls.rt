//! Calls on a connection as lines `CALL => WHAT IT GIVES`.
//!
//! Bytes are words: hex; `HH*N` for N bytes of one value; `P` for the client's SETTINGS and `S` for what is owed then;
//! `B` for the header block of a tunnel's request, `H5` for HEADERS on stream 5 with it, and `E5` with END_STREAM too;
//! `G5` for HEADERS with END_STREAM and GET for `/`.
use mq_h2::{H2, StreamEvent};
use mq_hpack::{Field, Text};
use std::alloc::{AllocError, Global};
use std::fmt::Write;
use std::process::Abort;
use std::test::Fail;

const SETTINGS: &str = "000000040000000000";

const OWED_FIRST: &str = "\
000012040000000000000300000064000600004000000800000001\
000000040100000000";

const BLOCK: &str = "\
0207434f4e4e45435487\
04102f752f3139322e302e322e362f343433\
010170\
00093a70726f746f636f6c0b636f6e6e6563742d756470";

/// The fields of that block, which an event tells as `B`.
const FIELDS: &str =
    " :method=CONNECT :scheme=https :path=/u/192.0.2.6/443 :authority=p :protocol=connect-udp";

const GET: &str = "828684";

/// What was seen is what is wanted, at this place.
pub fn is(rt: &impl Abort, seen: &str, want: &str, place: &str) {
    assert!(rt; seen == want, "{place}");
}

/// So many are what is wanted, at call `n`.
pub fn is_count(rt: &impl Abort, seen: usize, want: usize, n: u32) {
    assert!(rt; seen == want, "call {n}");
}

/// Adds a letter, and numbers behind it.
fn add_row(text: &mut String, letter: &str, numbers: &[u32]) -> Result<(), AllocError> {
    text.push_str(letter)?;
    for number in numbers {
        write!(text, " {number}")?;
    }
    Ok(())
}

/// Adds short contents in hex, and of long ones how many bytes they are.
fn add_contents(alloc: Global, text: &mut String, bytes: &[u8]) -> Result<(), AllocError> {
    if bytes.is_empty() {
        return Ok(());
    }
    if bytes.len() > 64 {
        return write!(text, " #{}", bytes.len());
    }
    text.push_str(" ")?;
    text.push_str(hex::encode(alloc, bytes)?.as_str())
}

/// Adds bytes as text.
fn add_lossy(alloc: Global, text: &mut String, bytes: &[u8]) -> Result<(), AllocError> {
    text.push_str(String::from_utf8_lossy(alloc, bytes)?.as_str())
}

fn add_field(alloc: Global, text: &mut String, field: &Field) -> Result<(), AllocError> {
    text.push_str(" ")?;
    add_lossy(alloc, text, field.name.as_slice())?;
    text.push_str("=")?;
    add_lossy(alloc, text, field.value.as_slice())
}

fn add_fields(alloc: Global, text: &mut String, fields: &[Field]) -> Result<(), AllocError> {
    for field in fields {
        add_field(alloc, text, field)?;
    }
    Ok(())
}

/// Adds fields, or `B` for those of that block.
fn add_fields_or_b(alloc: Global, text: &mut String, fields: &[Field]) -> Result<(), AllocError> {
    let mut shown = String::new(alloc);
    add_fields(alloc, &mut shown, fields)?;
    let is_b = shown.as_str() == FIELDS;
    text.push_str(if is_b { " B" } else { shown.as_str() })
}

/// Adds an event: its letter, its numbers, and what it holds.
fn add_event(alloc: Global, text: &mut String, event: &StreamEvent) -> Result<(), AllocError> {
    match event {
        StreamEvent::Request {
            stream,
            fields,
            end,
        } => {
            add_row(text, "Q", &[*stream, u32::from(*end)])?;
            add_fields_or_b(alloc, text, fields.as_slice())
        }
        StreamEvent::Malformed { stream, code } => add_row(text, "M", &[*stream, *code]),
        StreamEvent::Content {
            stream,
            bytes,
            length,
            end,
        } => {
            add_row(text, "C", &[*stream, *length, u32::from(*end)])?;
            add_contents(alloc, text, bytes.as_slice())
        }
        StreamEvent::Reset { stream, code } => add_row(text, "R", &[*stream, *code]),
        StreamEvent::ConnectionError { code } => add_row(text, "E", &[*code]),
    }
}

fn add_events(alloc: Global, text: &mut String, events: &[StreamEvent]) -> Result<(), AllocError> {
    for event in events {
        if !text.is_empty() {
            text.push_str("; ")?;
        }
        add_event(alloc, text, event)?;
    }
    Ok(())
}

fn number(word: &str) -> Result<u32, Fail> {
    Ok(word.parse::<u32>()?)
}

fn add_hex(alloc: Global, out: &mut Vec<u8>, text: &str) -> Result<(), Fail> {
    out.extend_from_slice(hex::decode(alloc, text)?.as_slice())?;
    Ok(())
}

/// Adds the head of HEADERS on a stream, for a block of so many bytes.
fn add_head(out: &mut Vec<u8>, stream: &str, flags: u8, length: usize) -> Result<(), Fail> {
    let length = u8::try_from(length)?;
    let [a, b, c, d] = number(stream)?.to_be_bytes();
    out.extend_from_slice(&[0, 0, length, 1, flags, a, b, c, d])?;
    Ok(())
}

fn add_headers(
    alloc: Global,
    out: &mut Vec<u8>,
    stream: &str,
    flags: u8,
    block: &str,
) -> Result<(), Fail> {
    add_head(out, stream, flags, block.len() / 2)?;
    add_hex(alloc, out, block)
}

/// Adds a byte so many times.
fn add_many(alloc: Global, out: &mut Vec<u8>, byte: &str, count: u32) -> Result<(), Fail> {
    for _ in 0..count {
        add_hex(alloc, out, byte)?;
    }
    Ok(())
}

fn add_word(alloc: Global, out: &mut Vec<u8>, word: &str) -> Result<(), Fail> {
    let stream = word.get(1..).unwrap_or("");
    match word.as_bytes() {
        [b'H', ..] => add_headers(alloc, out, stream, 4, BLOCK),
        [b'E', ..] => add_headers(alloc, out, stream, 5, BLOCK),
        [b'G', ..] => add_headers(alloc, out, stream, 5, GET),
        [b'P', ..] => add_hex(alloc, out, SETTINGS),
        [b'S', ..] => add_hex(alloc, out, OWED_FIRST),
        [b'B', ..] => add_hex(alloc, out, BLOCK),
        _ => match word.split_once('*') {
            Some((byte, count)) => add_many(alloc, out, byte, number(count)?),
            None => add_hex(alloc, out, word),
        },
    }
}

/// The bytes of words.
pub fn bytes(alloc: Global, words: &str) -> Result<Vec<u8>, Fail> {
    let mut out = Vec::new(alloc);
    for word in words.split(' ') {
        add_word(alloc, &mut out, word)?;
    }
    Ok(out)
}

/// A connection that was fed `P`, and `S` was written.
pub fn begun(alloc: Global) -> Result<H2, Fail> {
    let mut h2 = H2::new(alloc)?;
    h2.feed(alloc, bytes(alloc, "P")?.as_slice())?;
    write_all(&mut h2);
    Ok(h2)
}

/// All that is owed is written.
pub fn write_all(h2: &mut H2) {
    h2.wrote(u32::try_from(h2.owed().len()).unwrap_or(u32::MAX));
}

/// The events of a piece.
pub fn fed(alloc: Global, h2: &mut H2, piece: &[u8]) -> Result<String, Fail> {
    let events = h2.feed(alloc, piece)?;
    let mut text = String::new(alloc);
    add_events(alloc, &mut text, events.as_slice())?;
    Ok(text)
}

fn field(alloc: Global, name: &str, value: &str) -> Result<Field, Fail> {
    Ok(Field {
        name: Text::copy_of(alloc, name.as_bytes())?,
        value: Text::copy_of(alloc, value.as_bytes())?,
    })
}

/// What is done with a connection.
#[derive(Clone, Copy)]
enum Call {
    /// Another takes its place, of which nothing was read.
    New,
    /// One that was fed `P`.
    Begin,
    Feed,
    Wrote,
    Act,
    Begun,
    /// What is owed, which is written then.
    Owed,
    Respond,
    Send,
    Fits,
    Room,
    Live,
    End,
    Reset,
    Consumed,
}

const CALLS: [(&str, Call); 15] = [
    ("new", Call::New),
    ("begin", Call::Begin),
    ("feed", Call::Feed),
    ("wrote", Call::Wrote),
    ("act", Call::Act),
    ("begun", Call::Begun),
    ("owed", Call::Owed),
    ("respond", Call::Respond),
    ("send", Call::Send),
    ("fits", Call::Fits),
    ("room", Call::Room),
    ("live", Call::Live),
    ("end", Call::End),
    ("reset", Call::Reset),
    ("consumed", Call::Consumed),
];

fn call_of(word: &str) -> Result<Call, Fail> {
    for &(name, call) in &CALLS {
        if name == word {
            return Ok(call);
        }
    }
    Err(Fail::from("no such call"))
}

fn respond(alloc: Global, h2: &mut H2, stream: u32, status: &str) -> Result<String, Fail> {
    let mut fields = Vec::new(alloc);
    fields.push(field(alloc, ":status", status)?)?;
    let accepts = status == "200";
    if accepts {
        fields.push(field(alloc, "capsule-protocol", "?1")?)?;
    }
    h2.respond(stream, fields.as_slice(), !accepts)?;
    Ok(String::new(alloc))
}

/// Sends bytes from two slices, and says how many were.
fn send(alloc: Global, h2: &mut H2, stream: u32, words: &str) -> Result<String, Fail> {
    let piece = bytes(alloc, words)?;
    let (front, rest) = piece.as_slice().split_at(piece.len() / 2);
    shown(alloc, h2.send_parts(stream, front, rest)?)
}

/// What is owed, which is written then.
pub fn taken(alloc: Global, h2: &mut H2) -> Result<String, Fail> {
    let text = hex::encode(alloc, h2.owed())?;
    write_all(h2);
    Ok(text)
}

/// Another connection takes the place of this one.
fn replaced(alloc: Global, h2: &mut H2, other: H2) -> String {
    *h2 = other;
    String::new(alloc)
}

fn shown(alloc: Global, number: u32) -> Result<String, Fail> {
    Ok(format!(in alloc; "{number}")?)
}

/// Does a call that answers nothing: one on a stream, with a number where it takes one.
fn does(h2: &mut H2, call: Call, stream: u32, count: u32) {
    match call {
        Call::End => h2.end_stream(stream),
        Call::Reset => h2.reset(stream, count),
        Call::Consumed => h2.consumed(stream, count),
        Call::Wrote => h2.wrote(stream),
        _ => h2.end_act(),
    }
}

/// Does a call on a stream, with what else it is given, and says what it gives.
fn done_on(
    alloc: Global,
    h2: &mut H2,
    call: Call,
    stream: u32,
    rest: &str,
) -> Result<String, Fail> {
    match call {
        Call::Respond => respond(alloc, h2, stream, rest),
        Call::Send => send(alloc, h2, stream, rest),
        Call::Fits => shown(alloc, h2.data_room(stream, number(rest)? as usize)),
        Call::Room => shown(alloc, h2.room(stream)),
        Call::Live => shown(alloc, u32::from(h2.is_live(stream))),
        _ => {
            let count = if rest.is_empty() { 0 } else { number(rest)? };
            does(h2, call, stream, count);
            Ok(String::new(alloc))
        }
    }
}

/// Does a call, and says what it gives.
fn done(alloc: Global, h2: &mut H2, call: Call, words: &str) -> Result<String, Fail> {
    match call {
        Call::New => Ok(replaced(alloc, h2, H2::new(alloc)?)),
        Call::Begin => Ok(replaced(alloc, h2, begun(alloc)?)),
        Call::Feed => fed(alloc, h2, bytes(alloc, words)?.as_slice()),
        Call::Begun => shown(alloc, u32::from(h2.begun())),
        Call::Owed => taken(alloc, h2),
        Call::Act => done_on(alloc, h2, call, 0, words),
        _ => {
            let (stream, rest) = words.split_once(' ').unwrap_or((words, ""));
            done_on(alloc, h2, call, number(stream)?, rest)
        }
    }
}

/// What a call is to give: bytes in hex, where they are owed.
fn wanted(alloc: Global, call: Call, want: &str) -> Result<String, Fail> {
    match call {
        Call::Owed => Ok(hex::encode(alloc, bytes(alloc, want)?.as_slice())?),
        _ => Ok(String::from_str(alloc, want)?),
    }
}

fn check_call(
    rt: &impl Abort,
    alloc: Global,
    h2: &mut H2,
    text: &str,
    want: &str,
) -> Result<(), Fail> {
    let (word, words) = text.split_once(' ').unwrap_or((text, ""));
    let call = call_of(word)?;
    let seen = done(alloc, h2, call, words)?;
    let want = wanted(alloc, call, want.strip_prefix(' ').unwrap_or(""))?;
    is(rt, seen.as_str(), want.as_str(), text);
    Ok(())
}

/// Each line's call on a connection gives what the line says.
pub fn check_on(rt: &impl Abort, alloc: Global, h2: &mut H2, lines: &str) -> Result<(), Fail> {
    for line in lines.lines() {
        if let Some((text, want)) = line.split_once(" =>") {
            check_call(rt, alloc, h2, text, want)?;
        }
    }
    Ok(())
}

/// Each line's call gives what the line says. `new` begins another connection, and `begin` one that was fed `P`.
pub fn check(rt: &impl Abort, alloc: Global, lines: &str) -> Result<(), Fail> {
    let mut h2 = H2::new(alloc)?;
    check_on(rt, alloc, &mut h2, lines)
}
