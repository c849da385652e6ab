//! What a play says is printed.

use crate::listener::Listener;
use mq_output::{Output, Stop};
use mq_outside::Sink;
use mq_script::{print_idle, print_more, print_note};
use mq_talk::Note;
use mq_wire::NoMemory;

/// A step that was refused memory prints nothing.
impl<K: Sink> Listener for Output<'_, K> {
    ghost use Rattle.mq_replay.specs.Listening.{MayBeAny};
    ghost use Rattle.mq_output.specs.Printing.{Prints};
    ghost use Rattle.mq_output.specs.Joined.{prints_none, prints_more};

    ghost hears = { Prints K.taken };

    ghost may_hear = { MayBeAny };

    ghost faults = { λ o. K.faults o.sink.now };

    // Never inlined, so that a step that brings no note has no room to clear for the parts of a line.
    #[inline(never)]
    fn note(&mut self, note: &Note) -> Result<(), Stop> {
        print_note(self.owed, note)?;
        self.spill()
    }

    fn refused(&mut self) -> Result<(), NoMemory> {
        Ok(())
    }

    fn idle(&mut self, actor: u32) -> Result<(), NoMemory> {
        print_idle(self.owed, actor)
    }

    fn more(&mut self) -> Result<(), NoMemory> {
        print_more(self.owed)
    }

    ghost hears_none = { λ x. prints_none K.taken x };

    ghost hears_more = { λ x y z text more first next. prints_more K.taken x y z text more first next };

    ghost hears_notes = { tt };
}
