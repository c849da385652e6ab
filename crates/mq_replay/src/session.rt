//! The bytes of a script are cut into lines, and each line is played as soon as it is whole.
ghost use Rattle.std.specs.Prelude.{◌≡◌, ◌≢◌, ℕ, ◌+◌, ◌<◌, ◌≤◌, List, [], ◌∷◌, ◌++◌, length, Ok, Err};
ghost use Rattle.mq_play.specs.Play as spec;
ghost use Rattle.mq_play.specs.Play.{line_limit};
ghost use Rattle.mq_replay.specs.Stages.{IsStage};
ghost use Rattle.mq_text.specs.Cut.{Lacks};
ghost use Rattle.mq_output.specs.Printing.{Prints, StopCounts, IsSilent};
ghost use Rattle.mq_replay.specs.Listening.{MayBeAny};
ghost use Rattle.mq_replay.specs.Playing.{LineTo};
ghost use Rattle.mq_replay.specs.Reading.{IsRead, RoomTo, ReadsTo, EndsTo};

use crate::line::cut_line;
use crate::play::play_line;
use crate::stage::Stage;
use mq_output::{Output, Stop};
use mq_outside::Sink;
use std::alloc::Global;

/// The most bytes of a line, without its newline.
pub const LINE_LIMIT: usize = 200_000;

/// The most bytes of a script.
const SCRIPT_LIMIT: usize = 67_108_864;

/// How far a script was read and played.
#[derive(Drop)]
pub struct Session {
    pub stage: Stage,
    /// The line that was begun, where earlier reads ended in it.
    pub begun: Vec<u8>,
    /// How many lines came before it.
    pub number: u64,
    /// How many bytes were read.
    pub count: usize,
}

impl Session {
    /// Nothing was read.
    pub fn new(alloc: Global) -> Session
        ensures { IsRead result [] [] [] }
    {
        Session {
            stage: Stage::new(alloc),
            begun: Vec::new(alloc),
            number: 0,
            count: 0,
        }
    }

    /// How many bytes will have been read with so many more of the begun line, and its newline where that was read too.
    fn room(&self, more: usize, newline: usize) -> Result<usize, Stop>
        ensures { RoomTo (length self.now.begun.items + more) (self.now.count + more) newline result }
    {
        let line = self.begun.len().saturating_add(more);
        let count = self.count.saturating_add(more).saturating_add(newline);
        if line > LINE_LIMIT || count > SCRIPT_LIMIT {
            return Err(Stop::BadLine);
        }
        Ok(count)
    }

    /// The begun line ends in these bytes and a newline.
    fn end_line<K: Sink>(
        &mut self,
        alloc: Global,
        end: &[u8],
        output: &mut Output<'_, K>,
    ) -> Result<(), Stop>
        ensures reads { (shown : List ℕ) × Prints K.taken output.old output.new shown
            × ((script : List ℕ) (lines : List (List ℕ)) (text : List ℕ) → Lacks 10 end.now → IsRead self.old script lines text
            → ReadsTo (script ++ (end.now ++ 10 ∷ [])) (text ++ shown) result self.new) }
        ensures counts { StopCounts (K.faults output.old.sink.now) (K.faults output.new.sink.now) result }
    {
        let count = self.room(end.len(), 1)?;
        if self.number == u64::MAX {
            return Err(Stop::NoMemory);
        }
        let number = self.number + 1;
        play_whole(alloc, &mut self.stage, &mut self.begun, end, output)?;
        self.begun.clear();
        self.number = number;
        self.count = count;
        Ok(())
    }

    /// The begun line goes on with these bytes.
    fn keep(&mut self, bytes: &[u8]) -> Result<(), Stop>
        ensures keeps { (script : List ℕ) (lines : List (List ℕ)) (text : List ℕ) → Lacks 10 bytes.now → IsRead self.old script lines text
            → ReadsTo (script ++ bytes.now) text result self.new }
        ensures silent { IsSilent result }
    {
        let count = self.room(bytes.len(), 0)?;
        if self.begun.extend_from_slice(bytes).is_err() {
            return Err(Stop::NoMemory);
        }
        self.count = count;
        Ok(())
    }

    /// More bytes of the script. What is kept of them is the line that they begin.
    pub fn feed<K: Sink>(
        &mut self,
        alloc: Global,
        bytes: &[u8],
        output: &mut Output<'_, K>,
    ) -> Result<(), Stop>
        ensures reads { (shown : List ℕ) × Prints K.taken output.old output.new shown
            × ((script : List ℕ) (lines : List (List ℕ)) (text : List ℕ) → IsRead self.old script lines text
            → ReadsTo (script ++ bytes.now) (text ++ shown) result self.new) }
        ensures counts { StopCounts (K.faults output.old.sink.now) (K.faults output.new.sink.now) result }
    {
        let mut rest = bytes;
        while let Some((end, behind)) = cut_line(rest) {
            self.end_line(alloc, end, output)?;
            rest = behind;
        }
        self.keep(rest)
    }

    /// The script is at its end, and the begun line is its last one.
    pub fn finish<K: Sink>(&mut self, alloc: Global, output: &mut Output<'_, K>) -> Result<(), Stop>
        ensures ends { (shown : List ℕ) × Prints K.taken output.old output.new shown
            × ((script : List ℕ) (lines : List (List ℕ)) (text : List ℕ) → IsRead self.old script lines text
            → EndsTo script (text ++ shown) result self.new) }
        ensures counts { StopCounts (K.faults output.old.sink.now) (K.faults output.new.sink.now) result }
    {
        self.room(0, 0)?;
        play_line(alloc, &mut self.stage, self.begun.as_slice(), output)
    }
}

/// Plays the line of begun bytes and an end. A line of one read is played where it lies.
fn play_whole<K: Sink>(
    alloc: Global,
    stage: &mut Stage,
    begun: &mut Vec<u8>,
    end: &[u8],
    output: &mut Output<'_, K>,
) -> Result<(), Stop>
    requires { length begun.old.items + length end.now ≤ line_limit }
    ensures line { (shown : List ℕ) × Prints K.taken output.old output.new shown
        × ((s : spec.Stage) → IsStage stage.old s → LineTo MayBeAny s (begun.old.items ++ end.now) shown result stage.new) }
    ensures counts { StopCounts (K.faults output.old.sink.now) (K.faults output.new.sink.now) result }
{
    if begun.is_empty() {
        return play_line(alloc, stage, end, output);
    }
    if begun.extend_from_slice(end).is_err() {
        return Err(Stop::NoMemory);
    }
    play_line(alloc, stage, begun.as_slice(), output)
}
