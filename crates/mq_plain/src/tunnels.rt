//! What comes to the port of a tunnel of a worker, if it is live.
ghost use Rattle.std.specs.Prelude.{◌≤◌, ℕ, List, length, OnOk, OnErr};
ghost use Rattle.mq_talk.specs.Mails.{Boxes};
ghost use Rattle.mq_talk.specs.Offices.{Seen};
ghost use Rattle.mq_machine.specs.State as machine;
ghost use Rattle.mq_play.specs.Events.{with_held_ports};
ghost use Rattle.mq_plain.specs.Coming.{send_failing, with_datagram};
ghost use Rattle.mq_plain.specs.Served.{Serves};

use crate::step::Plain;
use mq_wire::{Bytes, NoMemory};

/// A datagram, of at most 65,535 bytes, arrives at the port of this tunnel.
pub fn arrive(worker: &mut Plain, tunnel: u32, datagram: Bytes) -> Result<(), NoMemory>
    requires { length datagram ≤ 65535 }
    ensures serves { OnOk result ((links : List machine.Told) (seen : Seen) (boxes : Boxes) (number : ℕ) (w : machine.Worker) → Serves links seen boxes number worker.old w
        → Serves links seen boxes number worker.new (with_held_ports tunnel (with_datagram datagram) w)) }
    ensures err { OnErr result ((links : List machine.Told) (seen : Seen) (boxes : Boxes) (number : ℕ) (w : machine.Worker) → Serves links seen boxes number worker.old w
        → Serves links seen boxes number worker.new w) }
{
    match worker.port(tunnel) {
        None => Ok(()),
        Some(port) => port.arrive(datagram),
    }
}

/// The next send of the port of this tunnel fails. Takes no memory.
pub fn fail_send(worker: &mut Plain, tunnel: u32)
    ensures { (links : List machine.Told) (seen : Seen) (boxes : Boxes) (number : ℕ) (w : machine.Worker) → Serves links seen boxes number worker.old w
        → Serves links seen boxes number worker.new (with_held_ports tunnel send_failing w) }
{
    match worker.port(tunnel) {
        None => {}
        Some(port) => port.fail_next(),
    }
}
