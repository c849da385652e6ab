//! What comes to the link of a worker, if it is there still.
ghost use Rattle.std.specs.Prelude.{◌<◌, ℕ, List, length, OnOk, OnErr};
ghost use Rattle.mq_talk.specs.Mails.{Boxes};
ghost use Rattle.mq_talk.specs.Offices.{Seen};
ghost use Rattle.mq_machine.specs.State as machine;
ghost use Rattle.mq_play.specs.Events.{at_worker};
ghost use Rattle.mq_plain.specs.Coming.{changed, with_piece};
ghost use Rattle.mq_plain.specs.Served.{Serves};

use crate::link::LinkEvent;
use crate::step::Plain;
use mq_wire::{Bytes, NoMemory};

/// Something comes to the link of this number. Takes no memory.
pub fn change(worker: &mut Plain, conn: u32, event: LinkEvent)
    ensures { (links : List machine.Told) (seen : Seen) (boxes : Boxes) (number : ℕ) (w : machine.Worker) → Serves links seen boxes number worker.old w
        → Serves links seen boxes number worker.new (at_worker conn (changed event) w) }
{
    match worker.link(conn) {
        None => {}
        Some(link) => link.change(event),
    }
}

/// A piece arrives on the link of this number.
pub fn piece(worker: &mut Plain, conn: u32, bytes: Bytes) -> Result<(), NoMemory>
    requires { 0 < length bytes }
    ensures serves { OnOk result ((links : List machine.Told) (seen : Seen) (boxes : Boxes) (number : ℕ) (w : machine.Worker) → Serves links seen boxes number worker.old w
        → Serves links seen boxes number worker.new (at_worker conn (with_piece bytes) w)) }
    ensures err { OnErr result ((links : List machine.Told) (seen : Seen) (boxes : Boxes) (number : ℕ) (w : machine.Worker) → Serves links seen boxes number worker.old w
        → Serves links seen boxes number worker.new w) }
{
    match worker.link(conn) {
        None => Ok(()),
        Some(link) => link.piece(bytes),
    }
}
