//! A generated script is printed, each line as it is drawn.
ghost use Rattle.std.specs.Prelude.{◌≡◌, ℕ, List, []};
ghost use Rattle.mq_top.specs.Generates.{Generates, LineShown, LinesWritten};
ghost use Rattle.mq_output.specs.Printing.{Prints, StopCounts, Takes};
ghost use Rattle.mq_replay.specs.Replay.{SinkCounts};

use mq_output::{Output, Stop};
use mq_outside::Sink;
use mq_replay::Status;
use mq_script::Generator;
use std::alloc::Global;

/// Prints the first line that is left, with a newline. False where none is left.
fn print_line<K: Sink>(generator: &mut Generator, output: &mut Output<'_, K>) -> Result<bool, Stop>
    ensures prints { (shown : List ℕ) × Prints K.taken output.old output.new shown
        × LineShown generator.old shown result generator.new }
    ensures counts { StopCounts (K.faults output.old.sink.now) (K.faults output.new.sink.now) result }
{
    if !generator.next_line(output.owed)? {
        return Ok(false);
    }
    if output.owed.push(b'\n').is_err() {
        return Err(Stop::NoMemory);
    }
    output.spill()?;
    Ok(true)
}

/// Prints the lines that are left, where nothing is owed, and writes all of it.
fn print_lines<K: Sink>(generator: &mut Generator, output: &mut Output<'_, K>) -> Result<(), Stop>
    requires { output.old.owed.now.items ≡ [] }
    ensures prints { (out : List ℕ) × Takes K.taken output.old output.new out
        × LinesWritten generator.old out result }
    ensures counts { StopCounts (K.faults output.old.sink.now) (K.faults output.new.sink.now) result }
{
    while print_line(generator, output)? {}
    output.flush()
}

/// Prints the generated script of a seed with so many packets, each line with a newline. Any seed and any count will do.
///
/// A line is drawn when it is printed, and what was printed is written where it comes to 64 KiB, and at the end.
pub fn print_script<K: Sink>(alloc: Global, seed: u64, count: u32, sink: &mut K) -> Status
    // What the sink took, by the status, is the script, or a front of it.
    ensures generates { Generates seed count (K.taken sink.old) (K.taken sink.new) result }
    // The sink's faults rose exactly at status WriteFault.
    ensures writing { SinkCounts (K.faults sink.old) (K.faults sink.new) result }
{
    let mut generator = Generator::new(alloc, seed, count);
    let mut owed = Vec::new(alloc);
    let mut output = Output {
        owed: &mut owed,
        sink,
    };
    match print_lines(&mut generator, &mut output) {
        Ok(()) => Status::Done,
        Err(Stop::WriteFault) => Status::WriteFault,
        Err(_) => Status::NoMemory,
    }
}
