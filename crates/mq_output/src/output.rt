//! Where a program prints: what is printed gathers, and is written to a sink where it has grown or the sink is to have it.
ghost use Rattle.std.specs.Prelude.{◌≡◌, ℕ, ◌≤◌, ◌<◌, List, [], ◌++◌, length, take, OnOk};
ghost use Rattle.mq_output.specs.Printing.{Adds, Prints, FrontCounts, StopCounts, Flushes, Spills};

use crate::stop::Stop;
use mq_outside::{Put, Sink};

/// How many bytes gather before they are written, while steps are taken.
const MOST_OWED: usize = 65_536;

/// The bytes that gather, and the sink that they are owed to.
#[derive(Drop)]
pub struct Output<'a, K> {
    pub owed: &'a mut Vec<u8>,
    pub sink: &'a mut K,
}

impl<K: Sink> Output<'_, K> {
    /// Writes all that is owed. What the sink didn't take at a fault stays owed.
    pub fn flush(&mut self) -> Result<(), Stop>
        ensures prints { Prints K.taken self.old self.new [] }
        ensures all { Flushes self.new.owed.now.items result }
        ensures counts { StopCounts (K.faults self.old.sink.now) (K.faults self.new.sink.now) result }
    {
        let owed = &mut *self.owed;
        let written = write_front(self.sink, owed.as_slice());
        if written == owed.len() {
            owed.clear();
            return Ok(());
        }
        owed.rotate_left(written);
        owed.truncate(owed.len() - written);
        Err(Stop::WriteFault)
    }

    /// Writes what is owed, where it is much.
    pub fn spill(&mut self) -> Result<(), Stop>
        ensures few { OnOk result (length self.new.owed.now.items < 65536) }
        ensures prints { Prints K.taken self.old self.new [] }
        ensures fault { Spills result }
        ensures counts { StopCounts (K.faults self.old.sink.now) (K.faults self.new.sink.now) result }
    {
        if self.owed.len() < MOST_OWED {
            return Ok(());
        }
        self.flush()
    }
}

/// Writes bytes from the front until the sink has taken all, or fails. Answers how many it took.
fn write_front<K: Sink>(sink: &mut K, bytes: &[u8]) -> usize
    ensures within { result ≤ length bytes.now }
    ensures adds { Adds (K.taken sink.old) (K.taken sink.new) (take result bytes.now) }
    ensures counts { FrontCounts (K.faults sink.old) (K.faults sink.new) result (length bytes.now) }
{
    let mut rest = bytes;
    while !rest.is_empty() {
        match sink.write(rest) {
            Put::Took(count) => {
                let (_, after) = rest.split_at(count as usize);
                rest = after;
            }
            Put::Failed => return bytes.len() - rest.len(),
        }
    }
    bytes.len()
}
