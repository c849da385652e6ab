//! The front end of a connection of HTTP/2: its core, and the data streams of its requests.
ghost use Rattle.std.specs.Prelude.{◌≡◌, ◌==◌, ℕ, not, List, [], filter, OnOk, IfOk};
ghost use Rattle.mq_h2.specs.Acts.{ends_act};
ghost use Rattle.mq_h2.specs.Stand.{IsH2};
ghost use Rattle.mq_h2.specs.State.{State, new_state};
ghost use Rattle.mq_machine.specs.Http2.{grants, refuses, closes};
ghost use Rattle.mq_machine.specs.State.{Stream};
ghost use Rattle.mq_front.specs.Events.{IsHttp2, ReadsFrames, EventsTo};
ghost use Rattle.mq_front.specs.Fronts.{OverFrames};
ghost use Rattle.mq_front.specs.Parts.{PutsFrames, HasPutFrames};

use crate::data::DataStream;
use crate::dues::Dues;
use crate::event::{Tunnels, ask};
use crate::fields::{grant_fields, refusal_fields};
use mq_h2::{CANCEL, CONNECT_ERROR, ENHANCE_YOUR_CALM, H2, PROTOCOL_ERROR, StreamEvent};
use mq_hpack::{is_no_longer, is_one_text};
use mq_machine::Setup;
use mq_talk::Why;
use mq_wire::NoMemory;
use std::alloc::Global;

/// The core of a connection of HTTP/2, behind the client's preface, and its data streams, in the order of their requests.
#[derive(Drop)]
pub struct Http2 {
    /// What of the connection concerns no request: frames, windows, and the bytes that are owed.
    pub h2: H2,
    streams: Vec<DataStream>,
}

/// Puts what events ask for at the back of the list, one after the other.
fn ask_all<T: Tunnels>(
    alloc: Global,
    setup: &Setup,
    tunnels: &T,
    events: Vec<StreamEvent>,
    streams: &mut Vec<DataStream>,
    due: &mut Dues,
) -> Result<(), NoMemory>
    ensures { OnOk result (EventsTo setup.now (T.list tunnels.now) events.items due.old due.new streams.old.items streams.new.items) }
{
    for event in events {
        ask(alloc, setup, tunnels, event, streams, due)?;
    }
    Ok(())
}

impl Http2 {
    /// A connection of which nothing behind the preface was read. It owes the server's SETTINGS (RFC 9113, section 3.4).
    pub fn new(alloc: Global) -> Result<Http2, NoMemory>
        ensures { IfOk result (λ f. IsHttp2 f new_state []) }
    {
        Ok(Http2 {
            h2: H2::new(alloc)?,
            streams: Vec::new(alloc),
        })
    }

    /// Takes the bytes of one read, and puts what they ask for at the back of the list: requests, judged by the setup
    /// of the proxy, and the capsules of their data streams. After an `Err` it is of no use.
    #[inline(never)]
    pub fn read<T: Tunnels>(
        &mut self,
        alloc: Global,
        setup: &Setup,
        tunnels: &T,
        piece: &[u8],
        due: &mut Dues,
    ) -> Result<(), NoMemory>
        ensures { OnOk result (ReadsFrames setup.now (T.list tunnels.now) piece.now due.old due.new self.old self.new) }
    {
        let events = self.h2.feed(alloc, piece)?;
        ask_all(
            alloc,
            setup,
            tunnels,
            events.into_vec(),
            &mut self.streams,
            due,
        )
    }

    /// Nothing more is asked for by a data stream: its request was refused, or its tunnel closed. Takes no memory.
    pub fn forget(&mut self, stream: u32)
        ensures { (h : State) (streams : List Stream) → IsHttp2 self.old h streams → IsHttp2 self.new h (filter (λ (s : Stream). not (s.id == stream)) streams) }
    {
        self.streams.retain(|d| d.id != stream);
    }

    /// The end of an act: where nothing is owed, the next WINDOW_UPDATE is put that is due. Takes no memory.
    #[inline(never)]
    pub fn end_act(&mut self)
        ensures core { (s : State) → IsH2 self.old.h2 s → IsH2 self.new.h2 (ends_act s) }
        ensures streams { self.new.streams ≡ self.old.streams }
    {
        self.h2.end_act();
    }

    /// Puts the answer to a request that is granted (RFC 9298, section 3.5).
    pub fn grant(&mut self, alloc: Global, stream: u32) -> Result<(), NoMemory>
        ensures { (h : State) (streams : List Stream) (owed : List ℕ) → OverFrames self.old h streams owed → PutsFrames self.new result h (grants stream h) streams owed }
    {
        is_no_longer();
        is_one_text();
        let fields = grant_fields(alloc)?;
        self.h2.respond(stream, fields.as_slice(), false)
    }

    /// Puts the answer to a request that is refused, which ends its stream.
    pub fn refuse(&mut self, alloc: Global, stream: u32, status: u16) -> Result<(), NoMemory>
        ensures { (h : State) (streams : List Stream) (owed : List ℕ) → OverFrames self.old h streams owed → PutsFrames self.new result h (refuses stream status h) streams owed }
    {
        is_no_longer();
        is_one_text();
        let fields = refusal_fields(alloc, status)?;
        self.h2.respond(stream, fields.as_slice(), true)
    }

    /// Puts what the stream of a closed tunnel gets, of whose first capsule a part was framed or wasn't: its end, or its reset
    /// with the error code of the reason (RFC 9113, section 7).
    pub fn close(&mut self, stream: u32, begun: bool, why: Why)
        ensures { (h : State) (streams : List Stream) (owed : List ℕ) → OverFrames self.old h streams owed → HasPutFrames self.new (closes stream begun why h) streams owed }
    {
        match why {
            Why::End if !begun => self.h2.end_stream(stream),
            Why::End => self.h2.reset(stream, CANCEL),
            Why::Malformed | Why::Truncated => self.h2.reset(stream, PROTOCOL_ERROR),
            Why::Port => self.h2.reset(stream, CONNECT_ERROR),
            Why::Full => self.h2.reset(stream, ENHANCE_YOUR_CALM),
            Why::Reset | Why::Conn => {}
        }
    }
}
