//! Lines that tell what happens.
ghost use Rattle.mq_play.specs.declared.line.Line.{Line};
ghost use Rattle.mq_play.specs.declared.word.Word.TheVariants as word;
ghost use Rattle.mq_play.specs.Lines.{IsFilled, SaysBehind, SaysPiece};
ghost use Rattle.mq_play.specs.Parts.{IsHex, IsText};
ghost use Rattle.mq_script.specs.Reading.{CutsName, IsParsed};

use crate::fault::LineFault;
use crate::fill_piece::parse_filled;
use crate::hex_piece::{parse_hex, parse_packet, parse_payload};
use crate::number::{LAST_WORKER, number_in, parse_name, parse_room};
use crate::text_piece::parse_text;
use mq_machine::Event;
use mq_play::Line;
use mq_text::{cut, cut_once};
use mq_wire::Bytes;
use std::alloc::Global;

/// The most copies of a packet that arrive at once.
const MOST_COPIES: u32 = 1024;

/// The number of a link or a tunnel, and what stands behind it and a space.
fn cut_name(rest: &[u8]) -> Option<(u32, &[u8])>
    ensures { CutsName rest.now result }
{
    cut_once();
    let (number, behind) = cut(b' ', rest)?;
    let name = parse_name(number)?;
    Some((name, behind))
}

/// The worker of `conn W`.
#[inline(never)]
pub fn parse_conn(rest: &[u8]) -> Result<Line, LineFault>
    ensures { IsParsed (SaysBehind word.Conn rest.now) result }
{
    match number_in(0, LAST_WORKER, rest) {
        Some(actor) => Ok(Line::Happens(Event::Conn { actor })),
        None => Err(LineFault::Syntax),
    }
}

/// The piece of `bytes C HEX`.
pub fn parse_bytes(alloc: Global, rest: &[u8]) -> Result<Line, LineFault>
    ensures { IsParsed (SaysPiece IsHex rest.now) result }
{
    cut_once();
    let Some((conn, digits)) = cut_name(rest) else {
        return Err(LineFault::Syntax);
    };
    let bytes = parse_hex(alloc, digits)?;
    Ok(Line::Happens(Event::Piece { conn, bytes }))
}

/// The piece of `text C TEXT`.
#[inline(never)]
pub fn parse_said(alloc: Global, rest: &[u8]) -> Result<Line, LineFault>
    ensures { IsParsed (SaysPiece IsText rest.now) result }
{
    cut_once();
    let Some((conn, text)) = cut_name(rest) else {
        return Err(LineFault::Syntax);
    };
    let bytes = parse_text(alloc, text)?;
    Ok(Line::Happens(Event::Piece { conn, bytes }))
}

/// The piece of `fill C HEX N HH`.
#[inline(never)]
pub fn parse_fill(alloc: Global, rest: &[u8]) -> Result<Line, LineFault>
    ensures { IsParsed (SaysPiece IsFilled rest.now) result }
{
    cut_once();
    let Some((conn, text)) = cut_name(rest) else {
        return Err(LineFault::Syntax);
    };
    let bytes = parse_filled(alloc, text)?;
    Ok(Line::Happens(Event::Piece { conn, bytes }))
}

/// The datagram of `dgram T HEX`.
pub fn parse_dgram(alloc: Global, rest: &[u8]) -> Result<Line, LineFault>
    ensures { IsParsed (SaysBehind word.Dgram rest.now) result }
{
    cut_once();
    let Some((tunnel, digits)) = cut_name(rest) else {
        return Err(LineFault::Syntax);
    };
    let bytes = parse_payload(alloc, digits)?;
    Ok(Line::Happens(Event::Datagram { tunnel, bytes }))
}

/// The packets of `packet N HEX`.
#[inline(never)]
pub fn parse_packets(alloc: Global, rest: &[u8]) -> Result<Line, LineFault>
    ensures { IsParsed (SaysBehind word.Packet rest.now) result }
{
    cut_once();
    let Some((count, digits)) = cut(b' ', rest) else {
        return Err(LineFault::Syntax);
    };
    let Some(count) = number_in(1, MOST_COPIES, count) else {
        return Err(LineFault::Syntax);
    };
    let bytes = parse_packet(alloc, digits)?;
    Ok(Line::Happens(Event::Packet { count, bytes }))
}

/// The room of `room C N` and `room C all`.
#[inline(never)]
pub fn parse_link_room(rest: &[u8]) -> Result<Line, LineFault>
    ensures { IsParsed (SaysBehind word.Room rest.now) result }
{
    cut_once();
    let Some((conn, text)) = cut_name(rest) else {
        return Err(LineFault::Syntax);
    };
    match parse_room(text) {
        Some(room) => Ok(Line::Happens(Event::Room { conn, room })),
        None => Err(LineFault::Syntax),
    }
}

/// The link of `end C`.
#[inline(never)]
pub fn parse_end(rest: &[u8]) -> Result<Line, LineFault>
    ensures { IsParsed (SaysBehind word.End rest.now) result }
{
    match parse_name(rest) {
        Some(conn) => Ok(Line::Happens(Event::End { conn })),
        None => Err(LineFault::Syntax),
    }
}

/// The link of `failread C`.
#[inline(never)]
pub fn parse_fail_read(rest: &[u8]) -> Result<Line, LineFault>
    ensures { IsParsed (SaysBehind word.FailRead rest.now) result }
{
    match parse_name(rest) {
        Some(conn) => Ok(Line::Happens(Event::FailRead { conn })),
        None => Err(LineFault::Syntax),
    }
}

/// The link of `failwrite C`.
#[inline(never)]
pub fn parse_fail_write(rest: &[u8]) -> Result<Line, LineFault>
    ensures { IsParsed (SaysBehind word.FailWrite rest.now) result }
{
    match parse_name(rest) {
        Some(conn) => Ok(Line::Happens(Event::FailWrite { conn })),
        None => Err(LineFault::Syntax),
    }
}

/// The tunnel of `failport T`.
#[inline(never)]
pub fn parse_fail_port(rest: &[u8]) -> Result<Line, LineFault>
    ensures { IsParsed (SaysBehind word.FailPort rest.now) result }
{
    match parse_name(rest) {
        Some(tunnel) => Ok(Line::Happens(Event::FailPort { tunnel })),
        None => Err(LineFault::Syntax),
    }
}
