//! Whether a worker has nothing to do.
ghost use Rattle.std.specs.Prelude.{◌≡◌, ◌↔◌, ℕ, true, List, [], None};
ghost use Rattle.mq_talk.specs.declared.place.Parcel.{Parcel};
ghost use Rattle.mq_talk.specs.Mails.{Boxes};
ghost use Rattle.mq_talk.specs.Offices.{Seen};
ghost use Rattle.mq_machine.specs.State as machine;
ghost use Rattle.mq_machine.specs.Turn.{turn_of};
ghost use Rattle.mq_plain.specs.Served.{Serves};

use crate::step::Plain;

/// Whether a worker has no turn, where its inbox is empty or isn't. Takes no memory.
pub fn is_quiet(worker: &Plain, inbox_is_empty: bool) -> bool
    ensures { (links : List machine.Told) (seen : Seen) (boxes : Boxes) (number : ℕ) (w : machine.Worker) → Serves links seen boxes number worker.now w
        → (box : List Parcel) → (box ≡ [] ↔ inbox_is_empty ≡ true) → (result ≡ true) ↔ (turn_of w box ≡ None) }
{
    worker.is_quiet(inbox_is_empty)
}
