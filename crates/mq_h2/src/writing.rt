//! Bytes are put for writing, and written.
ghost use Rattle.std.specs.Prelude.{◌≡◌, ◌+◌, ◌≤◌, ◌==◌, ◌++◌, [], true, false, length, drop, vec_len, vec_capacity, OnOk, OnErr, IfOk, IsOk, IsTrue};
ghost use Rattle.mq_frame.specs.declared.frame.Frame.TheVariants.{Content, Headers};
ghost use Rattle.mq_frame.specs.Numbers.{max_frame_size};
ghost use Rattle.mq_frame.specs.Writing.{spelling_of};
ghost use Rattle.mq_h2.specs.Left.{left, Appends};

use crate::owed::Owed;
use mq_frame::{write_data, write_headers};
use mq_wire::NoMemory;
use std::alloc::Global;

impl Owed {
    /// Nothing is owed, and there is room for so many bytes.
    pub fn with_room(alloc: Global, room: usize) -> Result<Owed, NoMemory>
        ensures { IfOk result (λ owed. (left owed ≡ []) × (vec_len owed.bytes ≡ 0) × (room ≤ vec_capacity owed.bytes)) }
    {
        let bytes = Vec::with_capacity(alloc, room)?;
        Ok(Owed { bytes, written: 0 })
    }

    /// Makes room for so many bytes more.
    pub fn reserve(&mut self, more: usize) -> Result<(), NoMemory>
        ensures items { left self.new ≡ left self.old }
        ensures len { vec_len self.new.bytes ≡ vec_len self.old.bytes }
        ensures ok { OnOk result (vec_len self.new.bytes + more ≤ vec_capacity self.new.bytes) }
        ensures capacity { vec_capacity self.old.bytes ≤ vec_capacity self.new.bytes }
    {
        self.bytes.reserve(more)?;
        Ok(())
    }

    /// Puts bytes behind the others.
    pub fn put(&mut self, bytes: &[u8]) -> Result<(), NoMemory>
        ensures ok { OnOk result (Appends bytes.now self.old self.new) }
        ensures err { OnErr result (left self.new ≡ left self.old) }
        ensures succeeds { vec_len self.old.bytes + length bytes.now ≤ vec_capacity self.old.bytes → IsOk result }
        ensures capacity { vec_capacity self.old.bytes ≤ vec_capacity self.new.bytes }
    {
        self.bytes.extend_from_slice(bytes)?;
        Ok(())
    }

    /// Puts DATA with the bytes of `front` and then `rest`.
    pub fn put_data(&mut self, stream: u32, front: &[u8], rest: &[u8]) -> Result<(), NoMemory>
        requires { length front.now + length rest.now ≤ max_frame_size }
        ensures ok { OnOk result (Appends (spelling_of (Content stream (front.now ++ rest.now) (length (front.now ++ rest.now)) false)) self.old self.new) }
        ensures succeeds { vec_len self.old.bytes + (9 + length (front.now ++ rest.now)) ≤ vec_capacity self.old.bytes → IsOk result }
        ensures capacity { vec_capacity self.old.bytes ≤ vec_capacity self.new.bytes }
    {
        write_data(&mut self.bytes, stream, front, rest, false)
    }

    /// Puts HEADERS with a whole block.
    pub fn put_headers(&mut self, stream: u32, block: &[u8], end: bool) -> Result<(), NoMemory>
        requires { length block.now ≤ max_frame_size }
        ensures ok { OnOk result (Appends (spelling_of (Headers stream block.now end true)) self.old self.new) }
        ensures succeeds { vec_len self.old.bytes + (9 + length block.now) ≤ vec_capacity self.old.bytes → IsOk result }
        ensures capacity { vec_capacity self.old.bytes ≤ vec_capacity self.new.bytes }
    {
        write_headers(&mut self.bytes, stream, block, end)
    }

    /// What is still to be written.
    pub fn as_slice(&self) -> &[u8]
        ensures { result.now ≡ left self.now }
    {
        let (_, rest) = self.bytes.split_at(self.written);
        rest
    }

    /// Nothing is still to be written.
    pub fn is_empty(&self) -> bool
        ensures left { result ≡ (length (left self.now) == 0) }
        ensures all { IsTrue result → vec_len self.now.bytes ≡ 0 }
    {
        self.as_slice().is_empty()
    }

    /// So many of the bytes were written, or all of them.
    pub fn wrote(&mut self, count: usize)
        ensures left { left self.new ≡ drop count (left self.old) }
        ensures len { vec_len self.new.bytes ≤ vec_len self.old.bytes }
        ensures capacity { vec_capacity self.new.bytes ≡ vec_capacity self.old.bytes }
    {
        let rest = self.bytes.len() - self.written;
        let count = count.min(rest);
        self.written += count;
        if self.written >= rest - count {
            self.bytes.drain(..self.written);
            self.written = 0;
        }
    }
}
