//! A whole frame: the error that it is, or what it says.
ghost use Rattle.std.specs.Prelude.{◌≡◌, IfOk};
ghost use Rattle.mq_frame.specs.declared.kind.Kind.TheVariants as kinds;
ghost use Rattle.mq_frame.specs.Table.{frame_at, judged};

use super::codes::{END_HEADERS, PROTOCOL_ERROR};
use super::fields::{goaway, ping, reset, window};
use super::frame::Frame;
use super::header::Header;
use super::kind::Kind;
use super::padded::{data, data_of, headers, headers_of};
use super::place::Place;
use super::settings::settings;
use mq_wire::{Bytes, NoMemory};
use std::alloc::Global;

/// The frame with this header and a copy of these contents at a place.
#[tactic(auto, unfolding(crate::specs::Table::frame_at))]
pub fn frame_at(
    alloc: Global,
    place: Place,
    header: Header,
    contents: &[u8],
) -> Result<Frame, NoMemory>
    ensures { IfOk result (λ f. f ≡ frame_at place header contents.now) }
{
    if place.refuses(header) {
        return Ok(Frame::Fault {
            code: PROTOCOL_ERROR,
        });
    }
    let frame = judged(alloc, header, contents)?;
    Ok(frame)
}

/// The same where the place allows it.
#[tactic(auto, unfolding(crate::specs::Table::judged))]
fn judged(alloc: Global, header: Header, contents: &[u8]) -> Result<Frame, NoMemory>
    ensures { IfOk result (λ f. f ≡ judged header.kind header contents.now) }
{
    match header.kind {
        Kind::Data => data(alloc, header, contents),
        Kind::Headers => headers(alloc, header, contents),
        Kind::Settings => settings(alloc, header, contents),
        Kind::Continuation => Ok(continuation(header, Vec::from_slice(alloc, contents)?)),
        Kind::Priority => Ok(Frame::Priority {
            stream: header.stream,
        }),
        Kind::Unknown(kind) => Ok(Frame::Unknown {
            kind,
            stream: header.stream,
        }),
        Kind::Push => Ok(Frame::Fault {
            code: PROTOCOL_ERROR,
        }),
        Kind::Reset => Ok(reset(header, contents)),
        Kind::Ping => Ok(ping(header, contents)),
        Kind::GoAway => Ok(goaway(header, contents)),
        Kind::Window => Ok(window(header, contents)),
    }
}

#[tactic(auto, unfolding(crate::specs::Table::judged))]
fn continuation(header: Header, block: Vec<u8>) -> Frame
    ensures { result ≡ judged kinds.Continuation header block.items }
{
    Frame::Continuation {
        stream: header.stream,
        block: Bytes::from_vec(block),
        whole: header.has(END_HEADERS),
    }
}

/// The frame with this header at a place, whose contents move to it where it has them.
#[tactic(auto, unfolding(crate::specs::Table::frame_at))]
pub fn frame_of(
    alloc: Global,
    place: Place,
    header: Header,
    contents: Vec<u8>,
) -> Result<Frame, NoMemory>
    ensures { IfOk result (λ f. f ≡ frame_at place header contents.items) }
{
    if place.refuses(header) {
        return Ok(Frame::Fault {
            code: PROTOCOL_ERROR,
        });
    }
    let frame = judged_of(alloc, header, contents)?;
    Ok(frame)
}

/// The same where the place allows it.
fn judged_of(alloc: Global, header: Header, contents: Vec<u8>) -> Result<Frame, NoMemory>
    ensures { IfOk result (λ f. f ≡ judged header.kind header contents.items) }
{
    match header.kind {
        Kind::Data => Ok(data_of(header, contents)),
        Kind::Headers => Ok(headers_of(header, contents)),
        Kind::Continuation => Ok(continuation(header, contents)),
        _ => judged(alloc, header, contents.as_slice()),
    }
}
