//! A generated script is played, and what happens is counted.
ghost use Rattle.std.specs.Prelude.{◌≡◌, ◌<◌, ◌≤◌, ◌++◌, ℕ, List, [], length, Ok, true, OnOk};
ghost use Rattle.mq_play.specs.Play as spec;
ghost use Rattle.mq_play.specs.Play.{opened};
ghost use Rattle.mq_script.specs.Generated.{generated};
ghost use Rattle.mq_replay.specs.Replay.{SinkCounts};
ghost use Rattle.mq_top.specs.Soaking.{IsSoaking, Soaks, SoaksAll, SoaksOn, SumsTo, summary_text};
ghost use Rattle.mq_replay.specs.Stages.{IsStage};

use crate::tally::Tally;
use mq_drawn::no_line_is_bad;
use mq_output::{Output, Stop};
use mq_outside::Sink;
use mq_replay::{LINE_LIMIT, Stage, Status, play_line};
use mq_script::{Generator, print_count, print_more};
use mq_wire::NoMemory;
use std::alloc::Global;

/// How far a generated script was played.
#[derive(Drop)]
pub struct GeneratedPlay {
    pub generator: Generator,
    pub stage: Stage,
    pub tally: Tally,
    /// How many lines were played.
    pub number: u64,
}

impl GeneratedPlay {
    /// No line was played of the script of a seed with so many packets.
    fn new(alloc: Global, seed: u64, count: u32) -> GeneratedPlay
        ensures { IsSoaking result (generated seed count) }
    {
        GeneratedPlay {
            generator: Generator::new(alloc, seed, count),
            stage: Stage::new(alloc),
            tally: Tally::new(),
            number: 0,
        }
    }

    /// Plays the first line that is left. False where none is left.
    fn play_next(&mut self, alloc: Global, line: &mut Vec<u8>) -> Result<bool, Stop>
        ensures goes { (lines : List (List ℕ)) → IsSoaking self.old lines → SoaksOn lines result self.new }
        ensures shorter { result ≡ Ok true → length self.new.generator < length self.old.generator }
    {
        if self.number == u64::MAX {
            return Err(Stop::NoMemory);
        }
        line.clear();
        if !self.generator.next_line(line)? {
            return Ok(false);
        }
        if line.len() > LINE_LIMIT {
            return Err(Stop::BadLine);
        }
        play_line(alloc, &mut self.stage, line.as_slice(), &mut self.tally)?;
        self.number += 1;
        Ok(true)
    }

    /// Plays the lines that are left.
    fn play_all(&mut self, alloc: Global) -> Result<(), Stop>
        ensures { (lines : List (List ℕ)) → IsSoaking self.old lines → SoaksAll lines result self.new }
    {
        let mut line = Vec::new(alloc);
        while self.play_next(alloc, &mut line)? {}
        Ok(())
    }

    /// Prints the counts, how many entries the history has, and whether an actor has a step left.
    fn sum_up(&mut self, alloc: Global, owed: &mut Vec<u8>) -> Result<(), NoMemory>
        ensures { (here : spec.Stage) → IsStage self.old.stage here → OnOk result (owed.new.items ≡ owed.old.items ++ summary_text self.old.tally (opened here)) }
    {
        self.tally.print(owed)?;
        self.stage.open(alloc)?;
        let Stage::Running(world) = &self.stage else {
            unreachable!()
        };
        print_count(owed, b"history", u64::from(world.entries()))?;
        if world.quiet() {
            return Ok(());
        }
        print_more(owed)
    }
}

/// Plays the script of a seed with so many packets, and puts its summary.
fn sum(alloc: Global, seed: u64, count: u32, owed: &mut Vec<u8>) -> Status
    requires { owed.old.items ≡ [] }
    ensures { SumsTo (generated seed count) owed.new.items result }
{
    no_line_is_bad();
    let mut soak = GeneratedPlay::new(alloc, seed, count);
    match soak.play_all(alloc) {
        Ok(()) => match soak.sum_up(alloc, owed) {
            Ok(()) => Status::Done,
            Err(_) => Status::NoMemory,
        },
        Err(Stop::BadLine) => unreachable!(),
        Err(_) => Status::NoMemory,
    }
}

/// Plays the generated script of a seed with so many packets, as `replay` does, and prints how many notes of six kinds came:
/// `passed`, `pushed`, `sent`, `queued`, `delivered` and `dropped`, a line each; then `history` and the count of the book's
/// entries, and `more` where an actor has a step left. No line of that script is bad, so `BadScript` never comes.
///
/// No note is kept. Where a step is refused memory, or a connection ends for want of it, the play stops with `NoMemory`, and
/// nothing is printed.
pub fn soak<K: Sink>(alloc: Global, seed: u64, count: u32, sink: &mut K) -> Status
    // What the sink took, by the status, is the summary of a play of the script.
    ensures soaks { Soaks seed count (K.taken sink.old) (K.taken sink.new) result }
    // The sink's faults rose exactly at status WriteFault.
    ensures writing { SinkCounts (K.faults sink.old) (K.faults sink.new) result }
{
    let mut owed = Vec::new(alloc);
    let status = sum(alloc, seed, count, &mut owed);
    if status == Status::NoMemory {
        return status;
    }
    let mut output = Output {
        owed: &mut owed,
        sink,
    };
    match output.flush() {
        Ok(()) => status,
        Err(_) => Status::WriteFault,
    }
}
