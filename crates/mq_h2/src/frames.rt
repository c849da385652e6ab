//! What each frame of the client does (RFC 9113, sections 4 to 6).
ghost use Rattle.std.specs.Prelude.{◌≡◌, IsTrue, ◌==◌, ◌||◌, Some, None, true, false};
ghost use Rattle.mq_frame.specs.declared.frame.Setting.{Setting};
ghost use Rattle.mq_streams.specs.History.{is_live};
ghost use Rattle.mq_streams.specs.Answers.{count_of, grant_of, begun};
ghost use Rattle.mq_h2.specs.State.{State, with_history};
ghost use Rattle.mq_h2.specs.Frames.{fails, fails_at, turns_away, on_data, on_request, on_fields, on_live_request, on_second_block, finish, on_reset, on_window, shift_of, shifts, on_settings, on_ping, OnWhole, OnBlock, OnHeaders, OnContinuation, Does, DoAll};
ghost use Rattle.mq_h2.specs.Stand.{Decodes, Goes};
ghost use Rattle.mq_h2.specs.Doing.{stop_of, Comes, ComesBy};

use crate::block::OpenBlock;
use crate::codes::{
    COMPRESSION_ERROR, ENHANCE_YOUR_CALM, FLOW_CONTROL_ERROR, PROTOCOL_ERROR, REFUSED_STREAM,
};
use crate::event::StreamEvent;
use crate::fields::is_malformed;
use crate::parts::Core;
use crate::stop::Stop;
use mq_frame::{Frame, Setting, acknowledgement_text, pong_text, reset_text};
use mq_hpack::{Field, HpackFault};
use mq_streams::{Began, Counted, Granted, Over};
use mq_wire::{Bytes, Seq};

/// The most bytes that a header block may have.
const MAX_BLOCK: usize = 16_384;

/// SETTINGS_INITIAL_WINDOW_SIZE.
const INITIAL_WINDOW: u16 = 4;

/// A fault in a header block is an error of the connection.
fn stop_of(fault: HpackFault) -> Stop
    ensures { result ≡ stop_of fault }
{
    match fault {
        HpackFault::NoMemory => Stop::NoMemory,
        HpackFault::TooLarge => Stop::Connection(ENHANCE_YOUR_CALM),
        _ => Stop::Connection(COMPRESSION_ERROR),
    }
}

impl Core {
    /// An error of a live stream, which is closed.
    fn fail(&mut self, stream: u32, code: u32, events: &mut Vec<StreamEvent>) -> Result<(), Stop>
        ensures { (s : State) → Goes self.old s → IsTrue (is_live stream s.history)
            → Comes (fails stream code s) events.old.items result events.new.items self.new }
    {
        self.put(&reset_text(stream, code))?;
        self.streams.drop_stream(stream);
        events.push(StreamEvent::Malformed { stream, code })?;
        Ok(())
    }

    /// An error of a stream that isn't live.
    fn turn_away(
        &mut self,
        stream: u32,
        code: u32,
        events: &mut Vec<StreamEvent>,
    ) -> Result<(), Stop>
        ensures { (s : State) → Goes self.old s
            → Comes (turns_away stream code s) events.old.items result events.new.items self.new }
    {
        self.put(&reset_text(stream, code))?;
        events.push(StreamEvent::Malformed { stream, code })?;
        Ok(())
    }

    /// END_STREAM of a live stream, where it is set.
    fn finish(&mut self, end: bool, stream: u32)
        ensures { (s : State) → Goes self.old s → IsTrue (is_live stream s.history)
            → Goes self.new (with_history (finish end stream s.history) s) }
    {
        if end {
            self.streams.ended(stream);
        }
    }

    /// DATA.
    fn on_data(
        &mut self,
        stream: u32,
        bytes: Bytes,
        length: u32,
        end: bool,
        events: &mut Vec<StreamEvent>,
    ) -> Result<(), Stop>
        ensures { (s : State) → Goes self.old s
            → Comes (on_data (count_of stream length s.history) stream bytes length end s) events.old.items result events.new.items self.new }
    {
        match self.streams.on_data(stream, length) {
            Counted::Yes => {
                self.finish(end, stream);
                events.push(StreamEvent::Content {
                    stream,
                    bytes,
                    length,
                    end,
                })?;
                Ok(())
            }
            Counted::Ignored => Ok(()),
            Counted::Idle => Err(Stop::Connection(PROTOCOL_ERROR)),
            Counted::OverConnection => Err(Stop::Connection(FLOW_CONTROL_ERROR)),
            Counted::OverStream => self.fail(stream, FLOW_CONTROL_ERROR, events),
        }
    }

    /// HEADERS.
    fn on_headers(
        &mut self,
        stream: u32,
        bytes: Bytes,
        end: bool,
        whole: bool,
        events: &mut Vec<StreamEvent>,
    ) -> Result<(), Stop>
        ensures { (s : State) → Goes self.old s
            → ComesBy (OnHeaders (begun stream s.history) stream bytes end whole s) events.old.items result events.new.items self.new }
    {
        match self.streams.begin(stream) {
            Began::BadId => Err(Stop::Connection(PROTOCOL_ERROR)),
            began => {
                let block = OpenBlock {
                    stream,
                    began,
                    end,
                    bytes,
                };
                self.on_part(whole, block, events)
            }
        }
    }

    /// CONTINUATION.
    fn on_continuation(
        &mut self,
        bytes: Bytes,
        whole: bool,
        events: &mut Vec<StreamEvent>,
    ) -> Result<(), Stop>
        ensures { (s : State) → Goes self.old s
            → ComesBy (OnContinuation s.block bytes whole s) events.old.items result events.new.items self.new }
    {
        let Some(open) = self.block.take() else {
            return Err(Stop::Connection(PROTOCOL_ERROR));
        };
        let OpenBlock {
            stream,
            began,
            end,
            bytes: front,
        } = open;
        let mut front = front.into_vec();
        front.extend_from_slice(bytes.as_slice())?;
        let block = OpenBlock {
            stream,
            began,
            end,
            bytes: Bytes::from_vec(front),
        };
        self.on_part(whole, block, events)
    }

    /// A header block so far.
    fn on_part(
        &mut self,
        whole: bool,
        block: OpenBlock,
        events: &mut Vec<StreamEvent>,
    ) -> Result<(), Stop>
        ensures { (s : State) → Decodes self.old s
            → ComesBy (OnBlock whole block s) events.old.items result events.new.items self.new }
    {
        if block.bytes.as_slice().len() > MAX_BLOCK {
            return Err(Stop::Connection(ENHANCE_YOUR_CALM));
        }
        if whole {
            return self.on_whole(block, events);
        }
        self.block = Some(block);
        Ok(())
    }

    /// A whole header block.
    fn on_whole(&mut self, block: OpenBlock, events: &mut Vec<StreamEvent>) -> Result<(), Stop>
        ensures { (s : State) → Decodes self.old s
            → ComesBy (OnWhole block s) events.old.items result events.new.items self.new }
    {
        self.block = None;
        match self.decoder.block(block.bytes.as_slice()) {
            Ok(fields) => self.on_fields(block.stream, block.began, block.end, fields, events),
            Err(fault) => Err(stop_of(fault)),
        }
    }

    /// The fields of a header block.
    fn on_fields(
        &mut self,
        stream: u32,
        began: Began,
        end: bool,
        fields: Seq<Field>,
        events: &mut Vec<StreamEvent>,
    ) -> Result<(), Stop>
        ensures { (s : State) (block : OpenBlock) → Goes self.old s → block.stream ≡ stream → block.end ≡ end
            → Comes (on_fields began fields block s) events.old.items result events.new.items self.new }
    {
        match began {
            Began::Live => self.on_request(stream, end, fields, events),
            Began::Refused => self.turn_away(stream, REFUSED_STREAM, events),
            Began::Old => self.on_second_block(stream, events),
            Began::BadId => Ok(()),
        }
    }

    /// The request of a stream that was begun, where nobody closed it since.
    fn on_request(
        &mut self,
        stream: u32,
        end: bool,
        fields: Seq<Field>,
        events: &mut Vec<StreamEvent>,
    ) -> Result<(), Stop>
        ensures { (s : State) (block : OpenBlock) → Goes self.old s → block.stream ≡ stream → block.end ≡ end
            → Comes (on_live_request fields block s) events.old.items result events.new.items self.new }
    {
        if !self.streams.is_live(stream) {
            return Ok(());
        }
        if is_malformed(fields.as_slice()) {
            return self.fail(stream, PROTOCOL_ERROR, events);
        }
        self.finish(end, stream);
        events.push(StreamEvent::Request {
            stream,
            fields,
            end,
        })?;
        Ok(())
    }

    /// A second header block, which is an error where the client may still send on its stream.
    fn on_second_block(&mut self, stream: u32, events: &mut Vec<StreamEvent>) -> Result<(), Stop>
        ensures { (s : State) → Goes self.old s
            → Comes (on_second_block stream s) events.old.items result events.new.items self.new }
    {
        if !self.streams.is_live(stream) {
            return Ok(());
        }
        if self.streams.has_ended(stream) {
            return Ok(());
        }
        self.fail(stream, PROTOCOL_ERROR, events)
    }

    /// RST_STREAM.
    fn on_reset(
        &mut self,
        stream: u32,
        code: u32,
        events: &mut Vec<StreamEvent>,
    ) -> Result<(), Stop>
        ensures { (s : State) → Goes self.old s
            → Comes (on_reset stream code s) events.old.items result events.new.items self.new }
    {
        if self.streams.is_idle(stream) {
            return Err(Stop::Connection(PROTOCOL_ERROR));
        }
        if !self.streams.is_live(stream) {
            return Ok(());
        }
        self.streams.drop_stream(stream);
        events.push(StreamEvent::Reset { stream, code })?;
        Ok(())
    }

    /// WINDOW_UPDATE.
    fn on_window(
        &mut self,
        stream: u32,
        grow: u32,
        events: &mut Vec<StreamEvent>,
    ) -> Result<(), Stop>
        ensures { (s : State) → Goes self.old s
            → Comes (on_window (grant_of stream grow s.history) stream grow s) events.old.items result events.new.items self.new }
    {
        match self.streams.grant(stream, grow) {
            Granted::Taken | Granted::Ignored => Ok(()),
            Granted::Idle => Err(Stop::Connection(PROTOCOL_ERROR)),
            Granted::Zero => self.fail_at(stream, PROTOCOL_ERROR, events),
            Granted::Over => self.fail_at(stream, FLOW_CONTROL_ERROR, events),
        }
    }

    /// An error of a live stream, or of the connection where the stream is 0.
    fn fail_at(&mut self, stream: u32, code: u32, events: &mut Vec<StreamEvent>) -> Result<(), Stop>
        ensures { (s : State) → Goes self.old s → IsTrue (stream == 0 || is_live stream s.history)
            → Comes (fails_at stream code s) events.old.items result events.new.items self.new }
    {
        if stream == 0 {
            return Err(Stop::Connection(code));
        }
        self.fail(stream, code, events)
    }

    /// Shifts the send windows by each initial size in its order. Answers whether each stays within the largest.
    fn shift(&mut self, pairs: &[Setting]) -> bool
        ensures { (s : State) → Goes self.old s → let x = shifts pairs.now s.history in
            (result ≡ x.1) × Goes self.new (with_history x.0 s) }
    {
        for pair in pairs {
            if !self.shift_by(*pair) {
                return false;
            }
        }
        true
    }

    fn shift_by(&mut self, pair: Setting) -> bool
        ensures { (s : State) → Goes self.old s → let x = shift_of pair s.history in
            (result ≡ x.1) × Goes self.new (with_history x.0 s) }
    {
        if pair.id != INITIAL_WINDOW {
            return true;
        }
        match self.streams.shift_initial(pair.value) {
            Ok(()) => true,
            Err(Over) => false,
        }
    }

    /// SETTINGS.
    fn on_settings(
        &mut self,
        ack: bool,
        pairs: &[Setting],
        events: &mut Vec<StreamEvent>,
    ) -> Result<(), Stop>
        ensures { (s : State) → Goes self.old s
            → Comes (on_settings ack pairs.now s) events.old.items result events.new.items self.new }
    {
        if ack {
            return Ok(());
        }
        if !self.shift(pairs) {
            return Err(Stop::Connection(FLOW_CONTROL_ERROR));
        }
        self.put(&acknowledgement_text())?;
        Ok(())
    }

    /// PING.
    fn on_ping(&mut self, ack: bool, bytes: u64, events: &mut Vec<StreamEvent>) -> Result<(), Stop>
        ensures { (s : State) → Goes self.old s
            → Comes (on_ping ack bytes s) events.old.items result events.new.items self.new }
    {
        if !ack {
            self.put(&pong_text(bytes))?;
        }
        Ok(())
    }

    /// Does what a frame does, and puts its events at the end.
    fn on_frame(&mut self, frame: Frame, events: &mut Vec<StreamEvent>) -> Result<(), Stop>
        ensures { (s : State) → Goes self.old s
            → ComesBy (Does frame s) events.old.items result events.new.items self.new }
    {
        match frame {
            Frame::Content {
                stream,
                bytes,
                length,
                end,
            } => self.on_data(stream, bytes, length, end, events),
            Frame::Headers {
                stream,
                block,
                end,
                whole,
            } => self.on_headers(stream, block, end, whole, events),
            Frame::Continuation { block, whole, .. } => self.on_continuation(block, whole, events),
            Frame::Reset { stream, code } => self.on_reset(stream, code, events),
            Frame::Settings { ack, pairs } => self.on_settings(ack, pairs.as_slice(), events),
            Frame::Ping { ack, bytes } => self.on_ping(ack, bytes, events),
            Frame::Window { stream, grow } => self.on_window(stream, grow, events),
            Frame::Fault { code } => Err(Stop::Connection(code)),
            Frame::Priority { .. } | Frame::GoAway { .. } | Frame::Unknown { .. } => Ok(()),
        }
    }

    /// Does what frames do, in their order, up to an error of the connection.
    pub fn on_frames(
        &mut self,
        frames: Vec<Frame>,
        events: &mut Vec<StreamEvent>,
    ) -> Result<(), Stop>
        ensures { (s : State) → Goes self.old s
            → ComesBy (DoAll frames.items s) events.old.items result events.new.items self.new }
    {
        for frame in frames {
            if let Err(stop) = self.on_frame(frame, events) {
                return Err(stop);
            }
        }
        Ok(())
    }
}
