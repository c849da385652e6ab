//! How far a client has read the bytes of its proxy, over HTTP/1.1.
ghost use Rattle.std.specs.Prelude.{◌≡◌, [], drop, IfOk, IsErr};
ghost use Rattle.mq_client.specs.Standing.{IsReading, Reads, ReadsData};

use crate::answer::{Answer, AnswerReader};
use crate::event::{ClientEvent, MALFORMED};
use crate::laws::nothing_follows;
use crate::payload::tell_items;
use mq_capsule::{Reader, says_nothing};
use mq_wire::NoMemory;
use std::alloc::Global;

/// How far the bytes were read.
#[derive(Drop)]
pub enum Reading {
    /// Up to somewhere in the head of the answer.
    Head(AnswerReader),
    /// Up to somewhere in the data stream of an opened tunnel.
    Data(Reader),
    /// Up to the last event, behind which nothing is read.
    Over,
    /// Memory ran out. Nothing is read any more.
    Spent,
}

/// The bytes of a piece behind so many of them.
fn behind(piece: &[u8], used: usize) -> &[u8]
    ensures { result.now ≡ drop used piece.now }
{
    let (_, rest) = piece.split_at(used.min(piece.len()));
    rest
}

/// Reads bytes of a data stream, and tells what they bring.
fn read_data(
    alloc: Global,
    mut reader: Reader,
    piece: &[u8],
    events: &mut Vec<ClientEvent>,
) -> Result<Reading, NoMemory>
    ensures { IfOk result (ReadsData reader piece.now events.old.items events.new.items) }
{
    let items = reader.feed(alloc, piece)?;
    let over = tell_items(items.into_vec(), events)?;
    if over {
        Ok(Reading::Over)
    } else {
        Ok(Reading::Data(reader))
    }
}

/// Reads bytes behind those of a head that waited for more, and tells what they bring.
fn read_head(
    alloc: Global,
    mut reader: AnswerReader,
    piece: &[u8],
    events: &mut Vec<ClientEvent>,
) -> Result<Reading, NoMemory>
    ensures { IfOk result (Reads (Reading.Head reader) piece.now events.old.items events.new.items) }
{
    let answer = reader.feed(alloc, piece)?;
    match answer {
        Answer::More => Ok(Reading::Head(reader)),
        Answer::Switched { used } => {
            events.push(ClientEvent::Opened)?;
            says_nothing();
            read_data(alloc, Reader::new(false), behind(piece, used), events)
        }
        Answer::Status { status } => {
            events.push(ClientEvent::Refused { status })?;
            Ok(Reading::Over)
        }
        Answer::Bad => {
            events.push(ClientEvent::BadPeer { code: MALFORMED })?;
            Ok(Reading::Over)
        }
    }
}

impl Reading {
    /// At the first byte.
    pub fn new(alloc: Global) -> Reading
        ensures { IsReading result [] [] }
    {
        Reading::Head(AnswerReader::new(alloc))
    }

    /// Reads one more piece, and tells what it brings.
    pub fn read(
        self,
        alloc: Global,
        piece: &[u8],
        events: &mut Vec<ClientEvent>,
    ) -> Result<Reading, NoMemory>
        ensures reads { IfOk result (Reads self piece.now events.old.items events.new.items) }
        ensures spent { self ≡ Reading.Spent → IsErr result }
    {
        match self {
            Reading::Head(reader) => read_head(alloc, reader, piece, events),
            Reading::Data(reader) => read_data(alloc, reader, piece, events),
            Reading::Over => {
                nothing_follows();
                Ok(Reading::Over)
            }
            Reading::Spent => Err(NoMemory),
        }
    }
}
