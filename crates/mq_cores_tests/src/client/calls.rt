//! Calls on a client over HTTP/2 as lines `CALL => WHAT IT GIVES`.
//!
//! A call is `new`, `asked` or `tunnel`, each another client; `feed`, `send`; `owed`, which is written then; `length`, of what is
//! owed; and `waiting`.
//! Bytes are words: hex; `HH*N` for N bytes of one value; `S` for SETTINGS that offer extended CONNECT; `A` for an answer
//! with status 200.
use mq_client::{Client, ClientEvent};
use mq_wire::Bytes;
use std::alloc::{AllocError, Global};
use std::fmt::Write;
use std::process::Abort;
use std::test::Fail;

/// ENABLE_CONNECT_PROTOCOL 1.
const SETTINGS: &str = "000006040000000000000800000001";

/// `:status` 200.
const ANSWER: &str = "00000101040000000188";

/// A client of this path, at this host.
pub fn client(alloc: Global, h2: bool) -> Result<Client, Fail> {
    let path = Vec::from_slice(alloc, b"/.well-known/masque/udp/192.0.2.6/443/")?;
    let host = Vec::from_slice(alloc, b"127.0.0.1:8080")?;
    Ok(Client::new(alloc, h2, Bytes::from_vec(path), Bytes::from_vec(host))?)
}

/// What was seen is what is wanted, at this place.
pub fn is(rt: &impl Abort, seen: &str, want: &str, place: &str) {
    assert!(rt; seen == want, "{place}");
}

fn add_hex(alloc: Global, out: &mut Vec<u8>, text: &str) -> Result<(), Fail> {
    out.extend_from_slice(hex::decode(alloc, text)?.as_slice())?;
    Ok(())
}

/// Adds a byte so many times.
fn add_many(alloc: Global, out: &mut Vec<u8>, byte: &str, count: u32) -> Result<(), Fail> {
    for _ in 0..count {
        add_hex(alloc, out, byte)?;
    }
    Ok(())
}

fn add_word(alloc: Global, out: &mut Vec<u8>, word: &str) -> Result<(), Fail> {
    match word.as_bytes() {
        [b'S', ..] => add_hex(alloc, out, SETTINGS),
        [b'A', ..] => add_hex(alloc, out, ANSWER),
        _ => match word.split_once('*') {
            Some((byte, count)) => add_many(alloc, out, byte, count.parse::<u32>()?),
            None => add_hex(alloc, out, word),
        },
    }
}

/// The bytes of words.
pub fn bytes(alloc: Global, words: &str) -> Result<Vec<u8>, Fail> {
    let mut out = Vec::new(alloc);
    for word in words.split(' ') {
        add_word(alloc, &mut out, word)?;
    }
    Ok(out)
}

/// Adds a short payload in hex, and of a long one how many bytes it has.
fn add_payload(alloc: Global, text: &mut String, payload: &[u8]) -> Result<(), AllocError> {
    if payload.len() > 16 {
        return write!(text, "#{}", payload.len());
    }
    text.push_str(hex::encode(alloc, payload)?.as_str())
}

fn add_event(alloc: Global, text: &mut String, event: &ClientEvent) -> Result<(), AllocError> {
    match event {
        ClientEvent::Opened => text.push_str("opened"),
        ClientEvent::Refused { status } => write!(text, "refused {status}"),
        ClientEvent::Datagram { payload } => {
            text.push_str("payload ")?;
            add_payload(alloc, text, payload.as_slice())
        }
        ClientEvent::Closed => text.push_str("closed"),
        ClientEvent::BadPeer { code } => write!(text, "bad peer {code}"),
    }
}

fn add_events(alloc: Global, text: &mut String, events: &[ClientEvent]) -> Result<(), AllocError> {
    for event in events {
        if !text.is_empty() {
            text.push_str("; ")?;
        }
        add_event(alloc, text, event)?;
    }
    Ok(())
}

/// The events of pieces, one behind the other.
pub fn fed_all(alloc: Global, client: &mut Client, pieces: &[&[u8]]) -> Result<String, Fail> {
    let mut text = String::new(alloc);
    for piece in pieces {
        let events = client.feed(alloc, piece)?;
        add_events(alloc, &mut text, events.as_slice())?;
    }
    Ok(text)
}

/// The events of a piece.
pub fn fed(alloc: Global, client: &mut Client, piece: &[u8]) -> Result<String, Fail> {
    fed_all(alloc, client, &[piece])
}

/// All that is owed is written.
pub fn write_all(client: &mut Client) {
    client.wrote(u32::try_from(client.owed().len()).unwrap_or(u32::MAX));
}

/// A client that was fed `S`, and wrote all.
pub fn asked(alloc: Global) -> Result<Client, Fail> {
    let mut client = client(alloc, true)?;
    client.feed(alloc, bytes(alloc, SETTINGS)?.as_slice())?;
    write_all(&mut client);
    Ok(client)
}

/// A client whose tunnel was opened, and that wrote all.
pub fn opened(alloc: Global) -> Result<Client, Fail> {
    let mut client = asked(alloc)?;
    client.feed(alloc, bytes(alloc, ANSWER)?.as_slice())?;
    Ok(client)
}

/// What is done with a client.
#[derive(Clone, Copy)]
enum Call {
    /// Another client takes its place, of which nothing was read.
    New,
    /// One that was fed `S`.
    Asked,
    /// One that was fed `S A`.
    Tunnel,
    Feed,
    Send,
    Owed,
    /// How many bytes are owed.
    Length,
    Waiting,
}

/// The call with this first letter.
fn call_of(text: &[u8]) -> Call {
    match text {
        [b'n', ..] => Call::New,
        [b'a', ..] => Call::Asked,
        [b't', ..] => Call::Tunnel,
        [b'f', ..] => Call::Feed,
        [b's', ..] => Call::Send,
        [b'o', ..] => Call::Owed,
        [b'l', ..] => Call::Length,
        _ => Call::Waiting,
    }
}

/// What is owed, which is written then.
fn taken(alloc: Global, client: &mut Client) -> Result<String, Fail> {
    let text = hex::encode(alloc, client.owed())?;
    write_all(client);
    Ok(text)
}

fn sent(alloc: Global, client: &mut Client, payload: &[u8]) -> Result<String, Fail> {
    client.send(payload)?;
    Ok(String::new(alloc))
}

/// Another client takes the place of this one.
fn replaced(alloc: Global, client: &mut Client, other: Client) -> String {
    *client = other;
    String::new(alloc)
}

fn shown(alloc: Global, number: usize) -> Result<String, Fail> {
    Ok(format!(in alloc; "{number}")?)
}

/// Does a call, and says what it gives.
fn done(alloc: Global, current: &mut Client, call: Call, words: &str) -> Result<String, Fail> {
    match call {
        Call::New => Ok(replaced(alloc, current, client(alloc, true)?)),
        Call::Asked => Ok(replaced(alloc, current, asked(alloc)?)),
        Call::Tunnel => Ok(replaced(alloc, current, opened(alloc)?)),
        Call::Feed => fed(alloc, current, bytes(alloc, words)?.as_slice()),
        Call::Send => sent(alloc, current, bytes(alloc, words)?.as_slice()),
        Call::Owed => taken(alloc, current),
        Call::Length => shown(alloc, current.owed().len()),
        Call::Waiting => shown(alloc, usize::from(current.waiting())),
    }
}

/// What a call is to give: bytes in hex, where they are owed.
fn wanted(alloc: Global, call: Call, want: &str) -> Result<String, Fail> {
    match call {
        Call::Owed => Ok(hex::encode(alloc, bytes(alloc, want)?.as_slice())?),
        _ => Ok(String::from_str(alloc, want)?),
    }
}

fn check_call(
    rt: &impl Abort,
    alloc: Global,
    current: &mut Client,
    text: &str,
    want: &str,
) -> Result<(), Fail> {
    let (word, words) = text.split_once(' ').unwrap_or((text, ""));
    let call = call_of(word.as_bytes());
    let seen = done(alloc, current, call, words)?;
    let want = wanted(alloc, call, want.strip_prefix(' ').unwrap_or(""))?;
    is(rt, seen.as_str(), want.as_str(), text);
    Ok(())
}

fn check_lines(
    rt: &impl Abort,
    alloc: Global,
    current: &mut Client,
    lines: &str,
) -> Result<(), Fail> {
    for line in lines.lines() {
        if let Some((text, want)) = line.split_once(" =>") {
            check_call(rt, alloc, current, text, want)?;
        }
    }
    Ok(())
}

/// Each line's call gives what the line says. A call is known by its first letter.
pub fn check(rt: &impl Abort, alloc: Global, lines: &str) -> Result<(), Fail> {
    let mut current = client(alloc, true)?;
    check_lines(rt, alloc, &mut current, lines)
}
