//! A new link is offered to a worker.
ghost use Rattle.std.specs.Prelude.{◌≡◌, ◌≢◌, ℕ, false, List, [], ◌∷◌, ◌++◌, length, All, OnOk, OnErr};
ghost use Rattle.mq_talk.specs.Mails.{Boxes};
ghost use Rattle.mq_talk.specs.Offices.{Seen};
ghost use Rattle.mq_machine.specs.State as machine;
ghost use Rattle.mq_machine.specs.State.{new_link, with_offer};
ghost use Rattle.mq_actor.specs.Ended.{numbers_in};
ghost use Rattle.mq_plain.specs.Served.{Serves};

use crate::link::PlainLink;
use crate::step::Plain;
use mq_wire::NoMemory;
use std::alloc::Global;

/// A link on which nothing arrived is offered to a worker, as the next of all links.
pub fn offer(alloc: Global, worker: &mut Plain, number: u32) -> Result<(), NoMemory>
    requires { All (λ other. other ≢ number) (numbers_in worker.old.ring) }
    ensures serves { OnOk result ((links : List machine.Told) (seen : Seen) (boxes : Boxes) (actor : ℕ) (w : machine.Worker) → number ≡ length links → Serves links seen boxes actor worker.old w
        → Serves (links ++ record { worker = actor; is_ended = false } ∷ []) seen boxes actor worker.new (with_offer number new_link w)) }
    ensures err { OnErr result ((links : List machine.Told) (seen : Seen) (boxes : Boxes) (actor : ℕ) (w : machine.Worker) → Serves links seen boxes actor worker.old w
        → Serves links seen boxes actor worker.new w) }
{
    let link = PlainLink::new(alloc)?;
    match worker.offer(number, link) {
        Ok(()) => Ok(()),
        Err(_) => Err(NoMemory),
    }
}
