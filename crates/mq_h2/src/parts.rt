//! What a connection keeps beside its reader of frames.
ghost use Rattle.std.specs.Prelude.{◌≤◌, ◌+◌, OnOk, length, vec_len, vec_capacity};
ghost use Rattle.mq_h2.specs.Doing.{Puts, PutsWithin, Keeps};

use crate::block::OpenBlock;
use crate::owed::Owed;
use mq_hpack::{Decoder, Encoder};
use mq_streams::Streams;
use mq_wire::NoMemory;

/// The tables of both sides' header blocks, the streams and windows, the header block that isn't whole, and the bytes
/// that are still to be written.
#[derive(Drop)]
pub struct Core {
    pub decoder: Decoder,
    pub encoder: Encoder,
    pub streams: Streams,
    pub block: Option<OpenBlock>,
    pub owed: Owed,
}

impl Core {
    /// Puts bytes for writing.
    pub fn put(&mut self, bytes: &[u8]) -> Result<(), NoMemory>
        ensures { OnOk result (Puts bytes.now self.old self.new) }
    {
        self.owed.put(bytes)?;
        Ok(())
    }

    /// Puts bytes for which there is room.
    pub fn put_reserved(&mut self, bytes: &[u8])
        ensures puts { vec_len self.old.owed.bytes + length bytes.now ≤ vec_capacity self.old.owed.bytes → PutsWithin bytes.now self.old self.new }
        ensures keeps { Keeps self.old self.new }
    {
        let _ = self.owed.put(bytes);
    }
}
