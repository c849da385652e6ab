//! DATA of the proxy (RFC 9113, sections 6.1 and 6.9).
ghost use Rattle.std.specs.Prelude.{ℕ, List, ◌∷◌, ◌+◌, ◌≤◌, false, IfOk, OnOk};
ghost use Rattle.mq_capsule.specs.Readers.{Stands};
ghost use Rattle.mq_streams.specs.History.{Consumed, total, consumed_on, arrived_on};
ghost use Rattle.mq_streams.specs.Answers.{count_of};
ghost use Rattle.mq_client.specs.Session.{Session, with_history};
ghost use Rattle.mq_client.specs.Frames.{updates_once, updates, OnTaken, OnData};
ghost use Rattle.mq_client.specs.Talking.{Goes, Gave, ReadsBytes};

use crate::codes::{FLOW_CONTROL_ERROR, PROTOCOL_ERROR};
use crate::event::ClientEvent;
use crate::parts::Parts;
use crate::payload::tell_items;
use crate::stage::Stage;
use crate::telling::{bad, close};
use mq_capsule::{Reader, is_readable};
use mq_frame::window_text;
use mq_streams::{Counted, consumed_within_what_came};
use mq_wire::{Bytes, NoMemory};
use std::alloc::Global;

/// Bytes of the data stream, and whether it ends behind them.
fn read_bytes(
    alloc: Global,
    reader: &mut Reader,
    bytes: &[u8],
    end: bool,
    events: &mut Vec<ClientEvent>,
) -> Result<bool, NoMemory>
    ensures { (earlier : List ℕ) → Stands reader.old false earlier
        → IfOk result (λ over. ReadsBytes earlier bytes.now end events.old.items events.new.items over reader.new) }
{
    is_readable();
    let items = reader.feed(alloc, bytes)?;
    if tell_items(items.into_vec(), events)? {
        return Ok(true);
    }
    close(end, events)
}

impl Parts {
    /// The next WINDOW_UPDATE is put, where one is due.
    fn give_back(&mut self) -> Result<(), NoMemory>
        ensures { (s : Session) → Goes self.old s → OnOk result (Goes self.new (updates_once s)) }
    {
        if let Some((stream, amount)) = self.streams.give_back() {
            self.owed.put(&window_text(stream, amount))?;
        }
        Ok(())
    }

    /// Bytes of the data stream. Before the answer there is none.
    fn on_bytes(
        &mut self,
        alloc: Global,
        bytes: &[u8],
        end: bool,
        events: &mut Vec<ClientEvent>,
    ) -> Result<bool, NoMemory>
        ensures { (s : Session) → Goes self.old s
            → IfOk result (λ over. Gave (OnTaken bytes.now end s) events.old.items events.new.items over self.new) }
    {
        match &mut self.stage {
            Stage::Greeting(_) => bad(PROTOCOL_ERROR, events),
            Stage::Asked => bad(PROTOCOL_ERROR, events),
            Stage::Open(reader) => read_bytes(alloc, reader, bytes, end, events),
        }
    }

    /// DATA that counts is consumed at once.
    fn take_data(&mut self, stream: u32, length: u32) -> Result<(), NoMemory>
        ensures { (s : Session) → Goes self.old s → total (consumed_on stream) s.history + length ≤ total (arrived_on stream) s.history
            → OnOk result (Goes self.new (updates (with_history (Consumed stream length ∷ s.history) s))) }
    {
        self.streams.consumed(stream, length);
        self.give_back()?;
        self.give_back()
    }

    /// DATA, by its count in the windows.
    pub fn on_data(
        &mut self,
        alloc: Global,
        stream: u32,
        bytes: Bytes,
        length: u32,
        end: bool,
        events: &mut Vec<ClientEvent>,
    ) -> Result<bool, NoMemory>
        ensures { (s : Session) → Goes self.old s
            → IfOk result (λ over. Gave (OnData (count_of stream length s.history) stream bytes length end s) events.old.items events.new.items over self.new) }
    {
        consumed_within_what_came();
        match self.streams.on_data(stream, length) {
            Counted::Yes => {
                self.take_data(stream, length)?;
                self.on_bytes(alloc, bytes.as_slice(), end, events)
            }
            Counted::Ignored => bad(PROTOCOL_ERROR, events),
            Counted::Idle => bad(PROTOCOL_ERROR, events),
            Counted::OverConnection => bad(FLOW_CONTROL_ERROR, events),
            Counted::OverStream => bad(FLOW_CONTROL_ERROR, events),
        }
    }
}
