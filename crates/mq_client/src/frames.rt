//! What each frame of the proxy does (RFC 9113, sections 4 to 6). Each function answers whether the last event was told.
ghost use Rattle.std.specs.Prelude.{◌≡◌, false, IfOk};
ghost use Rattle.mq_streams.specs.Answers.{grant_of};
ghost use Rattle.mq_client.specs.Session.{Session};
ghost use Rattle.mq_client.specs.Frames.{on_reset, on_window, on_ping, Does, DoAll};
ghost use Rattle.mq_client.specs.Talking.{Goes, Comes, Gave};

use crate::block::OpenBlock;
use crate::codes::{FLOW_CONTROL_ERROR, PROTOCOL_ERROR};
use crate::event::ClientEvent;
use crate::parts::{Parts, STREAM};
use crate::telling::{bad, close};
use mq_frame::{Frame, pong_text};
use mq_streams::Granted;
use mq_wire::NoMemory;
use std::alloc::Global;

impl Parts {
    /// RST_STREAM.
    fn on_reset(&mut self, stream: u32, events: &mut Vec<ClientEvent>) -> Result<bool, NoMemory>
        ensures { (s : Session) → Goes self.old s
            → IfOk result (λ over. Comes (on_reset stream s) events.old.items events.new.items over self.new) }
    {
        if stream != STREAM {
            return bad(PROTOCOL_ERROR, events);
        }
        close(true, events)
    }

    /// WINDOW_UPDATE.
    fn on_window(
        &mut self,
        stream: u32,
        grow: u32,
        events: &mut Vec<ClientEvent>,
    ) -> Result<bool, NoMemory>
        ensures { (s : Session) → Goes self.old s
            → IfOk result (λ over. Comes (on_window (grant_of stream grow s.history) stream grow s) events.old.items events.new.items over self.new) }
    {
        match self.streams.grant(stream, grow) {
            Granted::Taken => {
                self.send_waiting()?;
                Ok(false)
            }
            Granted::Ignored => Ok(false),
            Granted::Idle => bad(PROTOCOL_ERROR, events),
            Granted::Zero => bad(PROTOCOL_ERROR, events),
            Granted::Over => bad(FLOW_CONTROL_ERROR, events),
        }
    }

    /// PING is answered.
    fn on_ping(
        &mut self,
        ack: bool,
        bytes: u64,
        events: &mut Vec<ClientEvent>,
    ) -> Result<bool, NoMemory>
        ensures { (s : Session) → Goes self.old s
            → IfOk result (λ over. Comes (on_ping ack bytes s) events.old.items events.new.items over self.new) }
    {
        if !ack {
            self.owed.put(&pong_text(bytes))?;
        }
        Ok(false)
    }

    /// Does what a frame does, and puts its events at the end.
    fn on_frame(
        &mut self,
        alloc: Global,
        frame: Frame,
        events: &mut Vec<ClientEvent>,
    ) -> Result<bool, NoMemory>
        ensures { (s : Session) → Goes self.old s
            → IfOk result (λ over. Gave (Does frame s) events.old.items events.new.items over self.new) }
    {
        match frame {
            Frame::Content {
                stream,
                bytes,
                length,
                end,
            } => self.on_data(alloc, stream, bytes, length, end, events),
            Frame::Headers {
                stream,
                block,
                end,
                whole,
            } => self.on_headers(stream, OpenBlock { end, bytes: block }, whole, events),
            Frame::Continuation { block, whole, .. } => self.on_continuation(block, whole, events),
            Frame::Reset { stream, .. } => self.on_reset(stream, events),
            Frame::Settings { ack, pairs } => self.on_settings(ack, pairs.as_slice(), events),
            Frame::Ping { ack, bytes } => self.on_ping(ack, bytes, events),
            Frame::Window { stream, grow } => self.on_window(stream, grow, events),
            Frame::Fault { code } => bad(code, events),
            Frame::Priority { .. } | Frame::GoAway { .. } | Frame::Unknown { .. } => Ok(false),
        }
    }

    /// Does what frames do, in their order, up to the last event.
    pub fn on_frames(
        &mut self,
        alloc: Global,
        frames: Vec<Frame>,
        events: &mut Vec<ClientEvent>,
    ) -> Result<bool, NoMemory>
        ensures { (s : Session) → Goes self.old s
            → IfOk result (λ over. Gave (DoAll false frames.items s) events.old.items events.new.items over self.new) }
    {
        for frame in frames {
            if self.on_frame(alloc, frame, events)? {
                return Ok(true);
            }
        }
        Ok(false)
    }
}
