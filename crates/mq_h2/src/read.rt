//! One read: what its frames do, without what is withdrawn in it.
ghost use Rattle.std.specs.Prelude.{◌≡◌, ◌==◌, ◌≤◌, ◌+◌, ℕ, List, [], IfOk, OnOk, vec_len, vec_capacity};
ghost use Rattle.std.specs.List.{list_any};
ghost use Rattle.mq_h2.specs.State.{State, with_history};
ghost use Rattle.mq_h2.specs.Reading.{asks, resets, lasts, lasting, drained_by, drained};
ghost use Rattle.mq_h2.specs.Stand.{Goes, Serves};
ghost use Rattle.mq_h2.specs.Doing.{is_id, Meets, AreWithdrawn, IsHeld, AreHeld, Keeps, FramesRead};

use crate::event::StreamEvent;
use crate::ids::Ids;
use crate::parts::Core;
use crate::stop::Stop;
use mq_frame::{Frame, goaway_text};
use mq_streams::consumed_within_what_came;
use mq_wire::NoMemory;
use std::alloc::Global;

/// The room that is kept for the ends of a hundred live streams: 22 bytes for empty DATA with END_STREAM and for
/// RST_STREAM.
pub const FOR_ENDS: usize = 2_200;

/// The room that is always there: that for the ends and for a WINDOW_UPDATE.
pub const LEAST_ROOM: usize = 2_213;

/// What a read gave.
#[derive(Drop)]
pub struct Read {
    pub events: Vec<StreamEvent>,
    /// The last of them is an error of the connection.
    pub ended: bool,
}

/// The stream of a request.
fn asked_stream(event: &StreamEvent) -> Option<u32>
    ensures { (id : ℕ) → asks id event.now ≡ is_id id result }
{
    match event {
        StreamEvent::Request { stream, .. } => Some(*stream),
        _ => None,
    }
}

/// The streams of requests that came in this read.
fn asked(alloc: Global, events: &[StreamEvent]) -> Result<Ids, NoMemory>
    ensures { IfOk result (λ ids. (id : ℕ) → list_any (λ g. g == id) ids.ids.items ≡ list_any (asks id) events.now) }
{
    let mut ids = Vec::new(alloc);
    for event in events {
        if let Some(stream) = asked_stream(event) {
            ids.push(stream)?;
        }
    }
    Ok(Ids::of(ids))
}

/// The stream that the event says was reset.
fn reset_stream(event: &StreamEvent) -> Option<u32>
    ensures { (id : ℕ) → resets id event.now ≡ is_id id result }
{
    match event {
        StreamEvent::Malformed { stream, .. } | StreamEvent::Reset { stream, .. } => Some(*stream),
        _ => None,
    }
}

/// The streams whose requests came in this read and were reset in it.
fn withdrawn(alloc: Global, events: &[StreamEvent]) -> Result<Ids, NoMemory>
    ensures { IfOk result (λ gone. AreWithdrawn gone.ids.items events.now) }
{
    let asked = asked(alloc, events)?;
    let mut gone = Vec::new(alloc);
    for event in events {
        if let Some(stream) = reset_stream(event) {
            if asked.has(stream) {
                gone.push(stream)?;
            }
        }
    }
    Ok(Ids::of(gone))
}

/// Whether the event is told, where these streams' requests are withdrawn.
fn lasts(gone: &Ids, event: &StreamEvent) -> bool
    ensures { (events : List StreamEvent) → AreWithdrawn gone.now.ids.items events → result ≡ lasts events event.now }
{
    match event {
        StreamEvent::Request { stream, .. }
        | StreamEvent::Content { stream, .. }
        | StreamEvent::Reset { stream, .. } => !gone.has(*stream),
        StreamEvent::Malformed { .. } | StreamEvent::ConnectionError { .. } => true,
    }
}

/// The events that are told, where these streams' requests are withdrawn.
fn lasting(
    alloc: Global,
    gone: &Ids,
    events: Vec<StreamEvent>,
) -> Result<Vec<StreamEvent>, NoMemory>
    ensures { AreWithdrawn gone.now.ids.items events.items → IfOk result (λ told. told.items ≡ lasting events.items) }
{
    if gone.is_empty() {
        return Ok(events);
    }
    let mut told = Vec::new(alloc);
    for event in events {
        if lasts(gone, &event) {
            told.push(event)?;
        }
    }
    Ok(told)
}

impl Core {
    /// Consumes the DATA of these streams.
    fn drain(&mut self, gone: &Ids, events: &[StreamEvent])
        ensures serves { AreWithdrawn gone.now.ids.items events.now → (s : State) → Serves self.old s → AreHeld events.now s.history
            → Serves self.new (with_history (drained events.now events.now s.history) s) }
        ensures keeps { Keeps self.old self.new }
    {
        for event in events {
            self.drain_event(gone, event);
        }
    }

    fn drain_event(&mut self, gone: &Ids, event: &StreamEvent)
        ensures serves { (events : List StreamEvent) → AreWithdrawn gone.now.ids.items events → (s : State) → Serves self.old s → IsHeld event.now s.history
            → Serves self.new (with_history (drained_by events event.now s.history) s) }
        ensures keeps { Keeps self.old self.new }
    {
        if let StreamEvent::Content { stream, length, .. } = event {
            if gone.has(*stream) {
                self.streams.consumed(*stream, *length);
            }
        }
    }

    /// Does what the frames of a read do. Answers whether the last was an error of the connection.
    fn meet(&mut self, frames: Vec<Frame>, events: &mut Vec<StreamEvent>) -> Result<bool, NoMemory>
        ensures { (s : State) → Goes self.old s → events.old.items ≡ [] → Meets frames.items s result events.new.items self.new }
    {
        match self.on_frames(frames, events) {
            Ok(()) => Ok(false),
            Err(Stop::Connection(code)) => {
                let last = self.streams.highest();
                self.put(&goaway_text(last, code))?;
                events.push(StreamEvent::ConnectionError { code })?;
                Ok(true)
            }
            Err(Stop::NoMemory) => Err(NoMemory),
        }
    }

    /// A read that gave these frames.
    pub fn read(&mut self, alloc: Global, frames: Vec<Frame>) -> Result<Read, NoMemory>
        ensures read { (s : State) → Goes self.old s → FramesRead frames.items s result self.new }
        ensures room { OnOk result (vec_len self.new.owed.bytes + 2213 ≤ vec_capacity self.new.owed.bytes) }
    {
        consumed_within_what_came();
        let mut events = Vec::new(alloc);
        let ended = self.meet(frames, &mut events)?;
        let gone = withdrawn(alloc, events.as_slice())?;
        self.drain(&gone, events.as_slice());
        let events = lasting(alloc, &gone, events)?;
        self.owed.reserve(LEAST_ROOM)?;
        Ok(Read { events, ended })
    }
}
