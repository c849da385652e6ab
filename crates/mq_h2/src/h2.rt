//! The core of one connection.
ghost use Rattle.std.specs.Prelude.{◌≡◌, ◌↔◌, ◌≤◌, ◌+◌, ◌++◌, IfOk, MatchResult, IsErr, IsTrue, false, length, take, if◌then◌else◌};
ghost use Rattle.mq_streams.specs.History.{total, arrived_on, consumed_on, is_live};
ghost use Rattle.mq_streams.specs.Answers.{room_of};
ghost use Rattle.mq_h2.specs.State.{State, new_state, owed};
ghost use Rattle.mq_h2.specs.Acts.{responds, data_room, sends, ends_stream, resets_stream, where_live, FitsFrame, consumes, ends_act, writes};
ghost use Rattle.mq_h2.specs.Laws.{IsReadBack};
ghost use Rattle.mq_h2.specs.Stand.{IsH2, IsSpent, IsBegun, Feeds};
ghost use Rattle.mq_h2.specs.Doing.{phase_behind};

use crate::event::StreamEvent;
use crate::laws::what_is_owed_is_read_back;
use crate::owed::Owed;
use crate::parts::Core;
use crate::read::{LEAST_ROOM, Read};
use crate::text::settings_text;
use mq_frame::{FrameReader, is_readable};
use mq_hpack::{Decoder, Encoder, Field};
use mq_streams::{Streams, few_are_live};
use mq_wire::{NoMemory, Seq};
use std::alloc::Global;

/// Whether more is read.
#[derive(Clone, Copy, Debug, PartialEq, Eq)]
enum Phase {
    Reading,
    /// Not behind an error of the connection.
    Ended,
    /// Memory ran out.
    Spent,
}

/// The phase behind a read, that met an error of the connection or not.
fn phase_behind(ended: bool) -> Phase
    ensures { result ≡ phase_behind ended }
{
    if ended { Phase::Ended } else { Phase::Reading }
}

/// The core of a server's connection of HTTP/2, behind the client's preface.
#[derive(Drop)]
pub struct H2 {
    frames: FrameReader,
    core: Core,
    phase: Phase,
}

impl H2 {
    /// A connection of which nothing was read. It owes the server's SETTINGS.
    #[tactic(auto, using(crate::proofs::Reaching::as_new))]
    pub fn new(alloc: Global) -> Result<H2, NoMemory>
        ensures { IfOk result (λ h2. IsH2 h2 new_state) }
    {
        let mut owed = Owed::with_room(alloc, LEAST_ROOM + 27)?;
        owed.put(&settings_text())?;
        let core = Core {
            decoder: Decoder::new(alloc),
            encoder: Encoder::new(alloc),
            streams: Streams::new(alloc)?,
            block: None,
            owed,
        };
        Ok(H2 {
            frames: FrameReader::new(),
            core,
            phase: Phase::Reading,
        })
    }

    /// Takes the bytes of one read behind the preface, and gives what happens by them. After an `Err` it is of no use:
    /// every later call answers the same.
    pub fn feed(&mut self, alloc: Global, piece: &[u8]) -> Result<Seq<StreamEvent>, NoMemory>
        ensures feeds { (s : State) → IsH2 self.old s → Feeds s piece.now result self.new }
        ensures stays_spent { IsSpent self.old → IsErr result }
    {
        match self.phase {
            Phase::Reading => self.read(alloc, piece),
            Phase::Ended => Ok(Seq::from_vec(Vec::new(alloc))),
            Phase::Spent => Err(NoMemory),
        }
    }

    fn read(&mut self, alloc: Global, piece: &[u8]) -> Result<Seq<StreamEvent>, NoMemory>
        ensures { (s : State) → IsH2 self.old s → s.ended ≡ false → Feeds s piece.now result self.new }
    {
        is_readable();
        few_are_live();
        self.phase = Phase::Spent;
        let frames = self.frames.feed(alloc, piece)?;
        let Read { events, ended } = self.core.read(alloc, frames.into_vec())?;
        self.phase = phase_behind(ended);
        Ok(Seq::from_vec(events))
    }

    /// Whether the stream is live: the client began it, and nobody closed it.
    pub fn is_live(&self, stream: u32) -> bool
        ensures { (s : State) → IsH2 self.now s → result ≡ is_live stream s.history }
    {
        self.core.streams.is_live(stream)
    }

    /// Puts a response on a stream, whose block fits a frame, where the stream is live. With `end` it is closed: where the
    /// client hasn't ended its side, it is asked to send no more.
    pub fn respond(&mut self, stream: u32, fields: &[Field], end: bool) -> Result<(), NoMemory>
        ensures { (s : State) → IsH2 self.old s → FitsFrame fields.now s
            → MatchResult result (λ _. IsH2 self.new (where_live stream (responds stream fields.now end) s)) (λ _. IsH2 self.new s) }
    {
        self.core.respond(stream, fields, end)
    }

    /// How many bytes may be sent on a stream, which are none where it isn't live.
    pub fn room(&self, stream: u32) -> u32
        ensures { (s : State) → IsH2 self.now s → result ≡ (if is_live stream s.history then room_of stream s.history else 0) }
    {
        self.core.room(stream)
    }

    /// How many of so many bytes one DATA frame on a stream may have now.
    pub fn data_room(&self, stream: u32, size: usize) -> u32
        ensures { (s : State) → IsH2 self.now s → result ≡ data_room stream size s }
    {
        self.core.data_room(stream, size)
    }

    /// Puts as many of the bytes of `front` and then `rest` as one DATA frame on a stream may have now, and answers how many.
    #[tactic(auto, using(crate::proofs::Reaching::sent))]
    pub fn send_parts(&mut self, stream: u32, front: &[u8], rest: &[u8]) -> Result<u32, NoMemory>
        ensures { (s : State) → IsH2 self.old s
            → MatchResult result
            (λ count. (count ≡ data_room stream (length (front.now ++ rest.now)) s) × IsH2 self.new (where_live stream (sends stream (take count (front.now ++ rest.now))) s))
            (λ _. IsH2 self.new s) }
    {
        self.core.send_parts(stream, front, rest)
    }

    /// The same, of bytes that stand in one slice.
    pub fn send_data(&mut self, stream: u32, bytes: &[u8]) -> Result<u32, NoMemory>
        ensures { (s : State) → IsH2 self.old s
            → MatchResult result
            (λ count. (count ≡ data_room stream (length bytes.now) s) × IsH2 self.new (where_live stream (sends stream (take count bytes.now)) s))
            (λ _. IsH2 self.new s) }
    {
        self.send_parts(stream, bytes, &[])
    }

    /// Ends the server's side of a stream, where it is live, and closes it.
    #[tactic(auto, using(crate::proofs::Reaching::ended))]
    pub fn end_stream(&mut self, stream: u32)
        ensures { (s : State) → IsH2 self.old s → IsH2 self.new (where_live stream (ends_stream stream) s) }
    {
        self.core.end_stream(stream);
    }

    /// Resets a stream, where it is live.
    #[tactic(auto, using(crate::proofs::Reaching::was_reset))]
    pub fn reset(&mut self, stream: u32, code: u32)
        ensures { (s : State) → IsH2 self.old s → IsH2 self.new (where_live stream (resets_stream stream code) s) }
    {
        self.core.reset(stream, code);
    }

    /// So many bytes of the DATA that was told on a stream are consumed.
    #[tactic(auto, using(crate::proofs::Reaching::consumed))]
    pub fn consumed(&mut self, stream: u32, length: u32)
        ensures { (s : State) → IsH2 self.old s → total (consumed_on stream) s.history + length ≤ total (arrived_on stream) s.history
            → IsH2 self.new (consumes stream length s) }
    {
        self.core.consumed(stream, length);
    }

    /// The end of an act: where nothing is owed, the next WINDOW_UPDATE is put that is due.
    #[tactic(auto, using(crate::proofs::Reaching::acted))]
    pub fn end_act(&mut self)
        ensures { (s : State) → IsH2 self.old s → IsH2 self.new (ends_act s) }
    {
        self.core.end_act();
    }

    /// The bytes that are still to be written: the end of all that was put for writing, which is read back as frames.
    pub fn owed(&self) -> &[u8]
        ensures bytes { (s : State) → IsH2 self.now s → result.now ≡ owed s }
        ensures frames { (s : State) → IsH2 self.now s → IsReadBack s }
    {
        what_is_owed_is_read_back();
        self.core.owed.as_slice()
    }

    /// So many of them were written.
    #[tactic(auto, using(crate::proofs::Reaching::wrote))]
    pub fn wrote(&mut self, count: u32)
        ensures { (s : State) → IsH2 self.old s → count ≤ length (owed s) → IsH2 self.new (writes count s) }
    {
        self.core.wrote(count);
    }

    /// Whether a frame or a header block was begun and isn't whole.
    pub fn begun(&self) -> bool
        ensures { (s : State) → IsH2 self.now s → IsTrue result ↔ IsBegun s }
    {
        match self.phase {
            Phase::Reading => self.frames.begun() || self.core.block.is_some(),
            Phase::Ended | Phase::Spent => false,
        }
    }
}
