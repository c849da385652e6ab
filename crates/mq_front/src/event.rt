//! What an event of a connection of HTTP/2 asks for.
ghost use Rattle.std.specs.Prelude.{◌≡◌, ◌++◌, List, Option, OnOk, MatchOption};
ghost use Rattle.std.specs.Option.{is_some};
ghost use Rattle.mq_h2.specs.declared.event.StreamEvent.TheVariants as told;
ghost use Rattle.mq_machine.specs.declared.setup.Setup.{Setup as Rules};
ghost use Rattle.mq_machine.specs.Reading.{error_acts, reset_acts};
ghost use Rattle.mq_machine.specs.State.{Tunnel};
ghost use Rattle.mq_front.specs.declared.data.DataStream.{DataStream as Data};
ghost use Rattle.mq_front.specs.Events.{Contains, EventTo, Leads};
ghost use Rattle.mq_front.specs.Streams.{HasNone, IsPlaceOf};

use crate::data::DataStream;
use crate::dues::Dues;
use crate::goal::goal_act;
use crate::items::close_if;
use crate::judge::Verdict;
use crate::request::judge_request;
use mq_h2::StreamEvent;
use mq_hpack::Field;
use mq_machine::{Act, Due, Setup, StreamAct};
use mq_talk::{Goal, Why};
use mq_wire::NoMemory;
use std::alloc::Global;

/// The live tunnels of a connection.
pub trait Tunnels {
    ghost use Rattle.std.specs.Prelude.{◌≡◌, ◌==◌, List, find};
    ghost use Rattle.std.specs.Option.{is_some};
    ghost use Rattle.mq_machine.specs.State.{Tunnel};

    ghost list: { Self → List Tunnel };

    /// Whether one of them is on this stream.
    fn is_on(&self, stream: u32) -> bool
        ensures { result ≡ is_some (find (λ (t : Tunnel). t.stream == stream) (list self.now)) };
}

/// The place of the data stream of this number.
fn place_of(streams: &[DataStream], id: u32) -> Option<usize>
    ensures { MatchOption result (HasNone streams.now id) (λ place. (d : Data) × IsPlaceOf streams.now id place d) }
{
    for place in 0..streams.len() {
        if streams[place].id == id {
            return Some(place);
        }
    }
    None
}

/// Contents of the data stream of this number, if there is one.
fn take(
    alloc: Global,
    mtu: u32,
    id: u32,
    bytes: &[u8],
    ends: bool,
    streams: &mut Vec<DataStream>,
    due: &mut Dues,
) -> Result<(), NoMemory>
    ensures { OnOk result (Contains mtu id bytes.now ends due.old due.new streams.old.items streams.new.items) }
{
    match place_of(streams.as_slice(), id) {
        Some(place) => streams[place].take(alloc, mtu, bytes, ends, due),
        None => Ok(()),
    }
}

/// The contents of a DATA frame, of so many bytes in all.
fn content(
    alloc: Global,
    mtu: u32,
    id: u32,
    bytes: &[u8],
    length: u32,
    ends: bool,
    streams: &mut Vec<DataStream>,
    due: &mut Dues,
) -> Result<(), NoMemory>
    ensures { OnOk result ((setup : Rules) (ts : List Tunnel) → setup.mtu ≡ mtu → EventTo setup ts (told.Content id bytes.now length ends) due.old due.new streams.old.items streams.new.items) }
{
    take(alloc, mtu, id, bytes, ends, streams, due)?;
    due.push(Due::Spend {
        stream: id,
        size: length,
    })
}

/// A request that leads there: its port is to be bound, or its tunnel is to open. Where it ends the client's side, its
/// tunnel is to close then.
fn lead(
    id: u32,
    goal: Goal,
    ends: bool,
    streams: &mut Vec<DataStream>,
    due: &mut Dues,
) -> Result<(), NoMemory>
    ensures { OnOk result (Leads id goal ends due.old due.new streams.old.items streams.new.items) }
{
    due.push(Due::Do(goal_act(id, goal)))?;
    close_if(ends, id, Why::End, due)?;
    streams.push(DataStream::new(id, goal))?;
    Ok(())
}

/// A request, with which the client's side ends or doesn't.
fn request(
    alloc: Global,
    setup: &Setup,
    id: u32,
    fields: &[Field],
    ends: bool,
    streams: &mut Vec<DataStream>,
    due: &mut Dues,
) -> Result<(), NoMemory>
    ensures { OnOk result ((ts : List Tunnel) → EventTo setup.now ts (told.Request id fields.now ends) due.old due.new streams.old.items streams.new.items) }
{
    match judge_request(alloc, setup, fields)? {
        Verdict::Leads(goal) => lead(id, goal, ends, streams, due),
        Verdict::Refused { status, rule } => due.push(Due::Do(Act::Refuse {
            stream: id,
            status,
            rule,
        })),
    }
}

/// An error of a stream: it closes the stream's tunnel, or is told where there is none.
fn malformed(id: u32, code: u32, has_tunnel: bool, due: &mut Dues) -> Result<(), NoMemory>
    ensures { OnOk result ((t : Option Tunnel) → has_tunnel ≡ is_some t → due.new ≡ due.old ++ error_acts id code t) }
{
    let act = if has_tunnel {
        Act::OfStream {
            stream: id,
            act: StreamAct::Close {
                why: Why::Malformed,
            },
        }
    } else {
        Act::Reset { stream: id, code }
    };
    due.push(Due::Do(act))
}

/// The client reset a stream: its tunnel is to close.
fn reset(id: u32, has_tunnel: bool, due: &mut Dues) -> Result<(), NoMemory>
    ensures { OnOk result ((t : Option Tunnel) → has_tunnel ≡ is_some t → due.new ≡ due.old ++ reset_acts id t) }
{
    if !has_tunnel {
        return Ok(());
    }
    due.push(Due::Do(Act::OfStream {
        stream: id,
        act: StreamAct::Close { why: Why::Reset },
    }))
}

/// Puts what an event asks for at the back of the list.
pub fn ask<T: Tunnels>(
    alloc: Global,
    setup: &Setup,
    tunnels: &T,
    event: StreamEvent,
    streams: &mut Vec<DataStream>,
    due: &mut Dues,
) -> Result<(), NoMemory>
    ensures { OnOk result (EventTo setup.now (T.list tunnels.now) event due.old due.new streams.old.items streams.new.items) }
{
    match event {
        StreamEvent::Request {
            stream,
            fields,
            end,
        } => request(alloc, setup, stream, fields.as_slice(), end, streams, due),
        StreamEvent::Malformed { stream, code } => {
            malformed(stream, code, tunnels.is_on(stream), due)
        }
        StreamEvent::Content {
            stream,
            bytes,
            length,
            end,
        } => content(
            alloc,
            setup.mtu,
            stream,
            bytes.as_slice(),
            length,
            end,
            streams,
            due,
        ),
        StreamEvent::Reset { stream, .. } => reset(stream, tunnels.is_on(stream), due),
        StreamEvent::ConnectionError { code } => due.push(Due::Fault { code }),
    }
}
