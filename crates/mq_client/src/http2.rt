//! A client over HTTP/2: what it reads, and what it owes.
ghost use Rattle.std.specs.Prelude.{◌≡◌, ◌+◌, ◌≤◌, length, drop, IfOk, OnOk, OnErr, IsErr};
ghost use Rattle.mq_client.specs.Requests.{target_limit};
ghost use Rattle.mq_client.specs.Sending.{sends_until};
ghost use Rattle.mq_client.specs.Talk.{Talk, talk_begun, is_over, ReadsFrames, talk_sent, talk_wrote};
ghost use Rattle.mq_client.specs.Talking.{IsHttp2, phase_behind};

use crate::asking::{request_frame, write_preface};
use crate::event::ClientEvent;
use crate::parts::{Parts, STREAM};
use crate::queue::Queue;
use crate::stage::Stage;
use mq_frame::{FrameReader, is_readable, stays_read};
use mq_hpack::Decoder;
use mq_streams::Streams;
use mq_wire::{NoMemory, Seq};
use std::alloc::Global;

/// Whether more is read.
#[derive(Clone, Copy, Debug, PartialEq, Eq)]
pub enum Phase {
    Reading,
    /// Not behind the last event.
    Over,
    /// Memory ran out.
    Spent,
}

/// The phase behind a read, in which the last event was told or not.
fn phase_behind(over: bool) -> Phase
    ensures { result ≡ phase_behind over }
{
    if over { Phase::Over } else { Phase::Reading }
}

#[derive(Drop)]
pub struct Http2 {
    pub frames: FrameReader,
    pub parts: Parts,
    pub phase: Phase,
}

impl Http2 {
    /// Owes the preface. The request with this path and query, to this host, is put once the proxy's SETTINGS came.
    pub fn new(alloc: Global, path: &[u8], host: &[u8]) -> Result<Http2, NoMemory>
        requires { length path.now + length host.now ≤ target_limit }
        ensures { IfOk result (λ two. IsHttp2 two (talk_begun path.now host.now)) }
    {
        let mut owed = Vec::new(alloc);
        write_preface(&mut owed)?;
        let request = request_frame(alloc, path, host)?;
        let mut streams = Streams::new(alloc)?;
        streams.begin(STREAM);
        Ok(Http2 {
            frames: FrameReader::new(),
            parts: Parts {
                decoder: Decoder::new(alloc),
                streams,
                block: None,
                stage: Stage::Greeting(request),
                waits: Queue::of(Vec::new(alloc)),
                owed: Queue::of(owed),
            },
            phase: Phase::Reading,
        })
    }

    fn read(&mut self, alloc: Global, piece: &[u8]) -> Result<Seq<ClientEvent>, NoMemory>
        ensures reads { (s : Talk) → IsHttp2 self.old s → self.old.phase ≡ Phase.Reading
            → IfOk result (λ events. (t : Talk) × ReadsFrames s piece.now events t × IsHttp2 self.new t) }
        ensures err { OnErr result (self.new.phase ≡ Phase.Spent) }
    {
        is_readable();
        self.phase = Phase::Spent;
        let frames = self.frames.feed(alloc, piece)?;
        let mut events = Vec::new(alloc);
        let over = self.parts.on_frames(alloc, frames.into_vec(), &mut events)?;
        self.phase = phase_behind(over);
        Ok(Seq::from_vec(events))
    }

    /// Reads one more piece, and gives what it brings. After an `Err` nothing is read any more.
    pub fn feed(&mut self, alloc: Global, piece: &[u8]) -> Result<Seq<ClientEvent>, NoMemory>
        ensures reads { (s : Talk) → IsHttp2 self.old s
            → IfOk result (λ events. (t : Talk) × ReadsFrames s piece.now events t × IsHttp2 self.new t) }
        ensures err { OnErr result (self.new.phase ≡ Phase.Spent) }
        ensures spent { self.old.phase ≡ Phase.Spent → IsErr result }
    {
        is_readable();
        stays_read();
        match self.phase {
            Phase::Reading => self.read(alloc, piece),
            Phase::Over => Ok(Seq::from_vec(Vec::new(alloc))),
            Phase::Spent => Err(NoMemory),
        }
    }

    /// Frames what waits and the windows allow, where more is read. An `Err` changes nothing.
    fn send_on(&mut self) -> Result<(), NoMemory>
        ensures ok { (s : Talk) → IsHttp2 self.old s → OnOk result (IsHttp2 self.new (record s { session = sends_until (is_over s) s.session })) }
        ensures err { OnErr result (self.new ≡ self.old) }
    {
        match self.phase {
            Phase::Reading => self.parts.send_waiting(),
            Phase::Over | Phase::Spent => Ok(()),
        }
    }

    /// Puts a payload, as a DATAGRAM capsule of context 0, of which is framed what the windows allow. An `Err` changes
    /// nothing.
    pub fn send(&mut self, payload: &[u8]) -> Result<(), NoMemory>
        ensures ok { (s : Talk) → IsHttp2 self.old s → OnOk result (IsHttp2 self.new (talk_sent s payload.now)) }
        ensures err { (s : Talk) → IsHttp2 self.old s → OnErr result (IsHttp2 self.new s) }
    {
        let before = self.parts.waits.as_slice().len();
        self.parts.waits.put_datagram(payload)?;
        match self.send_on() {
            Ok(()) => Ok(()),
            Err(NoMemory) => {
                self.parts.waits.keep(before);
                Err(NoMemory)
            }
        }
    }

    /// So many of the owed bytes were written.
    pub fn wrote(&mut self, count: u32)
        ensures { (s : Talk) → IsHttp2 self.old s → count ≤ length (drop s.session.written s.session.put) → IsHttp2 self.new (talk_wrote s count) }
    {
        let owed = self.parts.owed.as_slice().len();
        self.parts.owed.take(owed.min(count as usize));
    }
}
