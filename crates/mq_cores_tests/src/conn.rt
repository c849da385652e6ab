//! A connection between a client and an outside that answers as it is told. What it does is written as the lines of a replay.

ghost use Rattle.mq_iptun.specs.Answers.{CanTell};

mod cuts;
mod ends;
mod limits;
mod packets;
mod rows;
mod waiting;

use mq_addr::Kind;
use mq_conn::{Conn, Want};
use mq_machine::Setup;
use mq_outside::PortPut;
use mq_policy::Policy;
use mq_talk::{Call, From, Judged, Note, Place, Pushed, Reply, Verdict};
use mq_target::Template;
use mq_wire::{Bytes, Seq};
use std::alloc::{AllocError, Global};
use std::fmt::Write;
use std::process::Abort;
use std::test::Fail;

/// A request for a tunnel to 192.0.2.6, port 443.
pub const REQUEST: &[u8] =
    b"GET https://example.org/.well-known/masque/udp/192.0.2.6/443/ HTTP/1.1\r\nHost: example.org\r\nConnection: Upgrade\r\nUpgrade: connect-udp\r\nCapsule-Protocol: ?1\r\n\r\n";

/// The success in the bytes of RFC 9298, section 3.3.
pub const SWITCHING: &str =
    "485454502f312e312031303120537769746368696e672050726f746f636f6c730d0a436f6e6e656374696f6e3a20557067726164650d0a557067726164653a20636f6e6e6563742d7564700d0a43617073756c652d50726f746f636f6c3a203f310d0a0d0a";

/// What the outside answers. Where an inbox is full, a parcel comes back.
#[derive(Clone, Copy)]
pub struct Outside {
    pub binds: bool,
    pub opens: bool,
    pub put: PortPut,
    pub limit: u32,
    pub verdict: Verdict,
    pub has_room: bool,
}

/// One that does all that is asked. It takes what fits into a packet of IPv4.
pub const WILLING: Outside = Outside {
    binds: true,
    opens: true,
    put: PortPut::Sent,
    limit: 65_507,
    verdict: Verdict::Pass(Place::Net),
    has_room: true,
};

pub fn setup(alloc: Global) -> Result<Setup, Fail> {
    Ok(Setup {
        udp: Template::well_known(alloc, Kind::Udp)?,
        ip: Template::well_known(alloc, Kind::Ip)?,
        policy: Policy::new(alloc),
        mtu: 1500,
        pump: 1,
    })
}

pub fn copied(alloc: Global, bytes: &[u8]) -> Result<Bytes, Fail> {
    Ok(Bytes::from_vec(Vec::from_slice(alloc, bytes)?))
}

/// So many bytes of this value.
pub fn filled(alloc: Global, value: u8, count: usize) -> Result<Bytes, Fail> {
    Ok(Bytes::from_vec(Vec::from_elem(alloc, value, count)?))
}

/// What was seen is what is wanted.
pub fn is(rt: &impl Abort, seen: &str, want: &str) {
    assert_eq!(rt; seen, want);
}

/// Adds a word, and numbers behind it.
fn add_row(text: &mut String, word: &str, numbers: &[u32]) -> Result<(), AllocError> {
    text.push_str(word)?;
    for number in numbers {
        write!(text, " {number}")?;
    }
    Ok(())
}

/// Adds bytes in hex, or how many they are where that is long.
fn add_bytes(alloc: Global, text: &mut String, bytes: &[u8]) -> Result<(), AllocError> {
    if bytes.len() > 200 {
        return write!(text, " #{}", bytes.len());
    }
    text.push_str(" ")?;
    text.push_str(hex::encode(alloc, bytes)?.as_str())
}

fn add_from(text: &mut String, from: From) -> Result<(), AllocError> {
    match from {
        From::Tunnel(tunnel) => add_row(text, "", &[tunnel]),
        From::Net => text.push_str(" net"),
        From::Port(tunnel) => write!(text, " port{tunnel}"),
    }
}

/// Adds what happens to a packet: where it comes from, and its number.
fn add_packet(text: &mut String, word: &str, from: From, n: u64) -> Result<(), AllocError> {
    text.push_str(word)?;
    add_from(text, from)?;
    write!(text, " {n}")
}

fn add_place(text: &mut String, to: Place) -> Result<(), AllocError> {
    match to {
        Place::Tunnel { tunnel, actor: _ } => add_row(text, " to", &[tunnel]),
        Place::Net => text.push_str(" to net"),
    }
}

/// Adds what the book answers a tunnel, at this place.
fn add_answer(text: &mut String, word: &str, tunnel: u32, at: u32) -> Result<(), AllocError> {
    add_row(text, word, &[tunnel])?;
    add_row(text, " at", &[at])
}

/// Adds what happens to a packet of a tunnel or of the network, if the note is of one.
fn add_packet_note(alloc: Global, text: &mut String, note: &Note) -> Result<(), AllocError> {
    match note {
        Note::Passed { from, n, at, to } => {
            add_packet(text, "passed", *from, *n)?;
            add_row(text, " at", &[*at])?;
            add_place(text, *to)
        }
        Note::PushedNote { from, n, to } => {
            add_packet(text, "pushed", *from, *n)?;
            add_place(text, *to)
        }
        Note::Sent { from, n, packet } => {
            add_packet(text, "sent", *from, *n)?;
            add_bytes(alloc, text, packet.as_slice())
        }
        Note::Queued { from, n, to } => {
            add_packet(text, "queued", *from, *n)?;
            add_row(text, " to", &[*to])
        }
        Note::Delivered {
            from,
            n,
            to,
            packet,
        } => {
            add_packet(text, "delivered", *from, *n)?;
            add_row(text, " to", &[*to])?;
            add_bytes(alloc, text, packet.as_slice())
        }
        Note::Dropped { from, n, cause } => {
            add_packet(text, "dropped", *from, *n)?;
            write!(text, " {cause:?}")
        }
        _ => text.push_str("another"),
    }
}

/// Adds what a connection does, where it gives such a note.
fn add_note(alloc: Global, text: &mut String, note: &Note) -> Result<(), AllocError> {
    match note {
        Note::Ported { conn, stream } => add_row(text, "ported", &[*conn, *stream]),
        Note::Opened {
            tunnel,
            conn,
            stream,
            kind,
        } => {
            add_row(text, "opened", &[*tunnel, *conn, *stream])?;
            text.push_str(match kind {
                Kind::Udp => " udp",
                Kind::Ip => " ip",
            })
        }
        Note::Assigned { tunnel, at, list } => {
            add_answer(text, "assigned", *tunnel, *at)?;
            write!(text, " #{}", list.as_slice().len())
        }
        Note::Advertised { tunnel, at, yes } => {
            add_answer(text, "advertised", *tunnel, *at)?;
            text.push_str(if *yes { " true" } else { " false" })
        }
        Note::Control { tunnel, capsule } => {
            add_row(text, "control", &[*tunnel])?;
            add_bytes(alloc, text, capsule.as_slice())
        }
        Note::Refused {
            conn,
            stream,
            status,
            rule,
        } => add_row(
            text,
            "refused",
            &[*conn, *stream, u32::from(*status), *rule],
        ),
        Note::Closed { tunnel, why, left } => {
            add_row(text, "closed", &[*tunnel])?;
            write!(text, " {why:?} left {left}")
        }
        _ => add_packet_note(alloc, text, note),
    }
}

/// Adds the line of a note.
pub fn add_line(alloc: Global, text: &mut String, note: &Note) -> Result<(), AllocError> {
    add_note(alloc, text, note)?;
    text.push_str("\n")
}

/// The line of a note is this.
pub fn is_line(rt: &impl Abort, alloc: Global, note: &Note, want: &str) -> Result<(), Fail> {
    let mut text = String::new(alloc);
    add_line(alloc, &mut text, note)?;
    is(rt, text.as_str(), want);
    Ok(())
}

/// The book opens a tunnel under number 0.
fn opened(alloc: Global) -> Reply
    ensures { CanTell result }
{
    Reply::Opened {
        tunnel: 0,
        routes: Seq::from_vec(Vec::new(alloc)),
    }
}

/// What the book answers.
fn reply(alloc: Global, outside: Outside, call: &Call) -> Reply
    ensures { CanTell result }
{
    match call {
        Call::Open { .. } if outside.opens => opened(alloc),
        Call::Open { .. } => Reply::HistoryFull {
            entries: 1,
            live: 0,
        },
        Call::Assign { .. } => Reply::Assigned {
            list: Seq::from_vec(Vec::new(alloc)),
            at: 1,
        },
        Call::Advertise { .. } => Reply::Accepted { yes: true, at: 1 },
        Call::Close { .. } => Reply::Closed,
    }
}

/// The parcel is taken, or comes back whole.
fn push(conn: &mut Conn, outside: Outside) -> Note {
    let parcel = conn.parcel();
    conn.pushed(if outside.has_room {
        Pushed::Taken
    } else {
        Pushed::Full(parcel)
    })
}

/// The note of what the connection wants, if it wants something.
pub fn note_of(alloc: Global, conn: &mut Conn, outside: Outside) -> Result<Option<Note>, Fail> {
    match conn.next()? {
        Want::Bind { .. } => Ok(Some(conn.bound(outside.binds)?)),
        Want::Ask(call) => Ok(Some(conn.answer(reply(alloc, outside, &call))?)),
        Want::SendUdp { .. } => Ok(Some(conn.sent(outside.put, outside.limit))),
        Want::Judge { .. } => Ok(Some(conn.judged(Judged {
            verdict: outside.verdict,
            at: 2,
        }))),
        Want::Push { .. } => Ok(Some(push(conn, outside))),
        Want::Say => Ok(Some(conn.say()?)),
        Want::Nothing | Want::Ended(_) => Ok(None),
    }
}

/// What the connection wants is done, and its notes are written.
pub fn acts(
    alloc: Global,
    conn: &mut Conn,
    outside: Outside,
    text: &mut String,
) -> Result<(), Fail> {
    for _ in 0..200 {
        match note_of(alloc, conn, outside)? {
            None => return Ok(()),
            Some(note) => add_line(alloc, text, &note)?,
        }
    }
    Err(Fail::from("it acts on and on"))
}

/// All that it owes is written.
pub fn writes(alloc: Global, conn: &mut Conn, text: &mut String) -> Result<(), Fail> {
    if conn.owed().is_empty() {
        return Ok(());
    }
    text.push_str("wrote")?;
    add_bytes(alloc, text, conn.owed())?;
    text.push_str("\n")?;
    let Ok(count) = u32::try_from(conn.owed().len()) else {
        return Err(Fail::from("too much is owed"));
    };
    conn.wrote(count);
    Ok(())
}

/// Why it is over, where it is.
pub fn over(alloc: Global, conn: &Conn, text: &mut String) -> Result<(), Fail> {
    if let Want::Ended(why) = conn.next()? {
        write!(text, "ended {why:?}\n")?;
    }
    Ok(())
}

/// What it wants, frames and owes is done.
pub fn settles(
    alloc: Global,
    conn: &mut Conn,
    outside: Outside,
    text: &mut String,
) -> Result<(), Fail> {
    acts(alloc, conn, outside, text)?;
    for _ in 0..100 {
        if conn.can_frame() {
            let note = conn.frame()?;
            add_line(alloc, text, &note)?;
        }
    }
    writes(alloc, conn, text)?;
    over(alloc, conn, text)
}

/// A piece is read, and what it asks for is done.
pub fn reads(
    alloc: Global,
    conn: &mut Conn,
    outside: Outside,
    piece: &[u8],
    text: &mut String,
) -> Result<(), Fail> {
    if !conn.can_read() {
        return Ok(());
    }
    conn.feed(&setup(alloc)?, piece)?;
    settles(alloc, conn, outside, text)
}

/// Pieces are read, and then the end of the link, if that ends.
fn reads_all(
    alloc: Global,
    conn: &mut Conn,
    outside: Outside,
    pieces: &[&[u8]],
    ends: bool,
    text: &mut String,
) -> Result<(), Fail> {
    for piece in pieces {
        reads(alloc, conn, outside, piece, text)?;
    }
    if ends && conn.can_read() {
        conn.finish();
        settles(alloc, conn, outside, text)?;
    }
    Ok(())
}

/// What a new connection does with these pieces, and then with the end of its link, if that ends.
pub fn told(alloc: Global, outside: Outside, pieces: &[&[u8]], ends: bool) -> Result<String, Fail> {
    let mut text = String::new(alloc);
    reads_all(
        alloc,
        &mut Conn::new(alloc, 0, 0)?,
        outside,
        pieces,
        ends,
        &mut text,
    )?;
    Ok(text)
}

/// A connection whose tunnel is open by this request, and to which nothing is owed.
pub fn tunneled_by(alloc: Global, request: &[u8]) -> Result<Conn, Fail> {
    let mut conn = Conn::new(alloc, 0, 0)?;
    let mut text = String::new(alloc);
    reads(alloc, &mut conn, WILLING, request, &mut text)?;
    Ok(conn)
}

/// One with a tunnel for UDP.
pub fn tunneled(alloc: Global) -> Result<Conn, Fail> {
    tunneled_by(alloc, REQUEST)
}
