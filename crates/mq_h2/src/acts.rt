//! What the server does beside reading.
ghost use Rattle.std.specs.Prelude.{◌≡◌, ◌≤◌, ◌+◌, ◌++◌, length, take, true, false, vec_len, vec_capacity, IsTrue, if◌then◌else◌};
ghost use Rattle.mq_frame.specs.declared.frame.Frame.TheVariants.{Content, Headers};
ghost use Rattle.mq_frame.specs.Numbers.{max_frame_size};
ghost use Rattle.mq_frame.specs.Writing.{spelling_of};
ghost use Rattle.mq_streams.specs.Answers.{room_of};
ghost use Rattle.mq_streams.specs.History.{total, arrived_on, consumed_on, is_live, has_finished};
ghost use Rattle.mq_h2.specs.Acts.{ending_text, ends, data_room, ends_stream, resets_stream, where_live, FitsFrame, consumes, ends_act, writes};
ghost use Rattle.mq_h2.specs.State.{State, owed};
ghost use Rattle.mq_h2.specs.Stand.{Serves};
ghost use Rattle.mq_h2.specs.Doing.{Keeps, PutsWithin, CanClose, IsReady, Responded, SentData};

use crate::codes::NO_ERROR;
use crate::parts::Core;
use crate::read::FOR_ENDS;
use mq_frame::{end_text, reset_text, window_text};
use mq_hpack::Field;
use mq_streams::few_are_live;
use mq_wire::NoMemory;

/// The largest contents of a frame and of a header block.
const MAX_FRAME: usize = 16_384;

/// The bytes of a frame's header.
const HEADER: usize = 9;

/// The first so many bytes of two slices that lie one behind the other.
fn first_of<'a>(front: &'a [u8], rest: &'a [u8], count: usize) -> (&'a [u8], &'a [u8])
    ensures { result.0.now ++ result.1.now ≡ take count (front.now ++ rest.now) }
{
    let of_front = count.min(front.len());
    let of_rest = (count - of_front).min(rest.len());
    let (front, _) = front.split_at(of_front);
    let (rest, _) = rest.split_at(of_rest);
    (front, rest)
}

impl Core {
    /// Puts a response on a stream, where it is live. With `end` it is closed.
    pub fn respond(&mut self, stream: u32, fields: &[Field], end: bool) -> Result<(), NoMemory>
        ensures acts { (s : State) → IsReady self.old s → FitsFrame fields.now s → Responded stream fields.now end s result self.new }
        ensures keeps { Keeps self.old self.new }
    {
        few_are_live();
        if !self.streams.is_live(stream) {
            return Ok(());
        }
        self.owed.reserve(HEADER + MAX_FRAME + FOR_ENDS)?;
        let block = self.encoder.block(fields)?;
        self.put_headers(stream, block.as_slice(), end);
        if !end {
            return Ok(());
        }
        self.close(stream);
        Ok(())
    }

    /// Puts HEADERS with a whole block, for which there is room, and which fits a frame.
    fn put_headers(&mut self, stream: u32, block: &[u8], end: bool)
        ensures puts { length block.now ≤ max_frame_size → vec_len self.old.owed.bytes + (9 + length block.now) ≤ vec_capacity self.old.owed.bytes
            → PutsWithin (spelling_of (Headers stream block.now end true)) self.old self.new }
        ensures keeps { Keeps self.old self.new }
    {
        if block.len() > MAX_FRAME {
            return;
        }
        let _ = self.owed.put_headers(stream, block, end);
    }

    /// Puts DATA with these bytes, for which there is room.
    fn put_data(&mut self, stream: u32, front: &[u8], rest: &[u8])
        requires { length front.now + length rest.now ≤ max_frame_size }
        ensures puts { vec_len self.old.owed.bytes + (9 + length (front.now ++ rest.now)) ≤ vec_capacity self.old.owed.bytes
            → PutsWithin (spelling_of (Content stream (front.now ++ rest.now) (length (front.now ++ rest.now)) false)) self.old self.new }
        ensures keeps { Keeps self.old self.new }
    {
        let _ = self.owed.put_data(stream, front, rest);
    }

    /// Closes a live stream whose server side has ended: where the client hasn't ended its own, it is asked to send no
    /// more.
    fn close(&mut self, stream: u32)
        ensures acts { (s : State) → CanClose stream self.old s → IsTrue (is_live stream s.history) → IsReady self.new (ends stream s) }
        ensures keeps { Keeps self.old self.new }
    {
        self.ask_no_more(stream);
        self.streams.drop_stream(stream);
    }

    /// Where the client hasn't ended its side of a live stream, it is asked to send no more.
    fn ask_no_more(&mut self, stream: u32)
        ensures puts { (s : State) → CanClose stream self.old s → IsTrue (is_live stream s.history)
            → PutsWithin (ending_text (has_finished stream s.history) stream) self.old self.new }
        ensures keeps { Keeps self.old self.new }
    {
        if self.streams.has_ended(stream) {
            return;
        }
        self.put_reserved(&reset_text(stream, NO_ERROR));
    }

    /// How many bytes may be sent on a stream, which are none where it isn't live.
    pub fn room(&self, stream: u32) -> u32
        ensures { (s : State) → Serves self.now s → result ≡ (if is_live stream s.history then room_of stream s.history else 0) }
    {
        if !self.streams.is_live(stream) {
            return 0;
        }
        self.streams.room(stream)
    }

    /// How many of so many bytes one DATA frame on a stream may have now.
    pub fn data_room(&self, stream: u32, size: usize) -> u32
        ensures room { (s : State) → Serves self.now s → result ≡ data_room stream size s }
        ensures fits { result ≤ max_frame_size }
    {
        let most = size.min(MAX_FRAME);
        self.room(stream).min(most as u32)
    }

    /// Puts as many of the bytes of `front` and then `rest` as one DATA frame on a stream may have now, and answers how many.
    pub fn send_parts(&mut self, stream: u32, front: &[u8], rest: &[u8]) -> Result<u32, NoMemory>
        ensures acts { (s : State) → IsReady self.old s → SentData stream (front.now ++ rest.now) s result self.new }
        ensures keeps { Keeps self.old self.new }
    {
        few_are_live();
        let count = self.data_room(stream, front.len() + rest.len());
        if count == 0 {
            return Ok(0);
        }
        self.owed.reserve(HEADER + count as usize + FOR_ENDS)?;
        let (front, rest) = first_of(front, rest, count as usize);
        let taken = self.streams.take_room(stream, count);
        self.put_data(stream, front, rest);
        Ok(taken)
    }

    /// Ends the server's side of a stream, where it is live, and closes it.
    pub fn end_stream(&mut self, stream: u32)
        ensures acts { (s : State) → IsReady self.old s → IsReady self.new (where_live stream (ends_stream stream) s) }
        ensures keeps { Keeps self.old self.new }
    {
        if !self.streams.is_live(stream) {
            return;
        }
        self.put_reserved(&end_text(stream));
        self.close(stream);
    }

    /// Resets a stream, where it is live.
    pub fn reset(&mut self, stream: u32, code: u32)
        ensures acts { (s : State) → IsReady self.old s → IsReady self.new (where_live stream (resets_stream stream code) s) }
        ensures keeps { Keeps self.old self.new }
    {
        if !self.streams.is_live(stream) {
            return;
        }
        self.put_reserved(&reset_text(stream, code));
        self.streams.drop_stream(stream);
    }

    /// So many bytes of the DATA that was told on a stream are consumed.
    pub fn consumed(&mut self, stream: u32, length: u32)
        ensures acts { (s : State) → IsReady self.old s → total (consumed_on stream) s.history + length ≤ total (arrived_on stream) s.history
            → IsReady self.new (consumes stream length s) }
        ensures keeps { Keeps self.old self.new }
    {
        self.streams.consumed(stream, length);
    }

    /// The end of an act: where nothing is owed, the next WINDOW_UPDATE is put that is due.
    pub fn end_act(&mut self)
        ensures acts { (s : State) → IsReady self.old s → IsReady self.new (ends_act s) }
        ensures keeps { Keeps self.old self.new }
    {
        few_are_live();
        if !self.owed.is_empty() {
            return;
        }
        if let Some((stream, amount)) = self.streams.give_back() {
            self.put_reserved(&window_text(stream, amount));
        }
    }

    /// So many of the owed bytes were written.
    pub fn wrote(&mut self, count: u32)
        ensures acts { (s : State) → IsReady self.old s → count ≤ length (owed s) → IsReady self.new (writes count s) }
        ensures keeps { Keeps self.old self.new }
    {
        self.owed.wrote(count as usize);
    }
}
