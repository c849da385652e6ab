//! Who hears what a play says: a print of it, or a count.
ghost use Rattle.std.specs.Prelude.{◌≡◌, ℕ, List, [], ◌++◌, OnErr, OnOk};
ghost use Rattle.mq_play.specs.Play.{Fate, Noted, actor_of};
ghost use Rattle.mq_play.specs.Text.{printed, Idle, More, Says};
ghost use Rattle.mq_replay.specs.Listening.{HearsTo, GoesOnBehind};
ghost use Rattle.mq_output.specs.Printing.{StopCounts};

use mq_output::Stop;
use mq_talk::Note;
use mq_wire::NoMemory;

/// Who hears what a play says.
pub trait Listener {
    /// One heard this text, and became the other.
    ghost hears: { Self → Self → List ℕ → Type 0 };
    /// How a step may have gone behind which it lets the play go on.
    ghost may_hear: { Fate → Type 0 };
    /// How often what it stands on has failed.
    ghost faults: { Self → ℕ };

    /// A step gave this note.
    fn note(&mut self, note: &Note) -> Result<(), Stop>
        ensures says { HearsTo hears self.old self.new (printed (Says note.now)) result }
        ensures counts { StopCounts (faults self.old) (faults self.new) result };

    /// A step was refused memory. `NoMemory` stops the play.
    fn refused(&mut self) -> Result<(), NoMemory>
        ensures says { hears self.old self.new [] }
        ensures goes_on { GoesOnBehind may_hear result }
        ensures counts { faults self.new ≡ faults self.old };

    /// The actor that a line names so has no step left.
    fn idle(&mut self, actor: u32) -> Result<(), NoMemory>
        ensures ok { OnOk result (hears self.old self.new (printed (Idle (actor_of actor)))) }
        ensures err { OnErr result (hears self.old self.new []) }
        ensures counts { faults self.new ≡ faults self.old };

    /// Some actor has a step left behind all steps of a line.
    fn more(&mut self) -> Result<(), NoMemory>
        ensures ok { OnOk result (hears self.old self.new (printed More)) }
        ensures err { OnErr result (hears self.old self.new []) }
        ensures counts { faults self.new ≡ faults self.old };

    /// It may hear nothing.
    ghost hears_none: { (x : Self) → hears x x [] };
    /// It hears one text behind the other.
    ghost hears_more: { (x y z : Self) (text more : List ℕ) → hears x y text → hears y z more → hears x z (text ++ more) };
    /// It goes on behind each step that gave a note.
    ghost hears_notes: { may_hear Noted };
}
