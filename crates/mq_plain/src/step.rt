//! A step of a worker of a world.
ghost use Rattle.std.specs.Prelude.{◌≡◌, ◌+◌, ℕ, List, length};
ghost use Rattle.mq_outside.specs.Ports.{empty_port};
ghost use Rattle.mq_talk.specs.Mails.{Boxes};
ghost use Rattle.mq_talk.specs.Offices.{IsSound, Seen};
ghost use Rattle.mq_machine.specs.State as machine;
ghost use Rattle.mq_machine.specs.Acting.{holding};
ghost use Rattle.mq_held.specs.Notes.{HasNote, note_with};
ghost use Rattle.mq_mem.specs.Offices.{seen_of};
ghost use Rattle.mq_play.specs.Events.{with_held_ports};
ghost use Rattle.mq_plain.specs.Served.{Serves};
ghost use Rattle.mq_plain.specs.Taking.{Took};

use crate::link::PlainLink;
use crate::ports::PlainPorts;
use mq_actor::Actor;
use mq_mem::{PlainMail, PlainOffice};
use mq_talk::Note;
use mq_wire::NoMemory;
use std::alloc::Global;

/// A worker whose links and ports tell what they hold.
pub type Plain = Actor<PlainLink, PlainPorts>;

/// The port of a tunnel holds nothing from now on, if it is there.
fn empty(alloc: Global, worker: &mut Plain, tunnel: u32)
    ensures serves { (links : List machine.Told) (seen : Seen) (boxes : Boxes) (number : ℕ) (w : machine.Worker) → Serves links seen boxes number worker.old w
        → Serves links seen boxes number worker.new (with_held_ports tunnel (holding empty_port) w) }
    ensures ports { worker.new.table.ports ≡ worker.old.table.ports }
{
    match worker.port(tunnel) {
        None => {}
        Some(port) => port.clear(alloc),
    }
}

/// Where the book has an entry more than before a step, the port of the tunnel that opened in it holds nothing from now on.
/// Where it has none more, no tunnel opened, and no port is looked for.
fn empty_opened(alloc: Global, worker: &mut Plain, office: &PlainOffice, next: u32)
    ensures serves { (links : List machine.Told) (boxes : Boxes) (number : ℕ) (w : machine.Worker) → Serves links (seen_of office.now) boxes number worker.old w
        → Serves links (seen_of office.now) boxes number worker.new (with_held_ports next (holding empty_port) w) }
    ensures ports { worker.new.table.ports ≡ worker.old.table.ports }
{
    if office.book().count() == next {
        return;
    }
    empty(alloc, worker, next);
}

/// The worker takes a step, whose note is put into `told`. Answers whether it had one. Where a bind is to fail, the first that
/// it tries takes that back. Nothing came to the port of a tunnel before it opened.
pub fn take(
    alloc: Global,
    worker: &mut Plain,
    office: &mut PlainOffice,
    mail: &mut PlainMail,
    bind_fails: &mut bool,
    told: &mut Option<Note>,
) -> Result<bool, NoMemory>
    requires serves { (links : List machine.Told) × (w : machine.Worker) × Serves links (seen_of office.old) mail.old.boxes worker.old.ring.id worker.old w }
    requires sound { IsSound (seen_of office.old) }
    requires office { office.old.actor ≡ worker.old.ring.id }
    requires mail { mail.old.actor ≡ worker.old.ring.id }
    requires inboxes { length mail.old.boxes ≡ office.old.book.config.workers + 1 }
    ensures takes { (links : List machine.Told) (number : ℕ) (w : machine.Worker) → Serves links (seen_of office.old) mail.old.boxes number worker.old w
        → Took links number (record { office = office.old; mail = mail.old; bind_fails = bind_fails.old }) (record { office = office.new; mail = mail.new; bind_fails = bind_fails.new }) worker.new w (note_with result told.new) }
    ensures told { HasNote result told.new }
{
    let next = office.book().count();
    if *bind_fails {
        worker.table.ports.fail_next();
    }
    let stepped = worker.step_into(office, mail, told);
    *bind_fails = worker.table.ports.unfail();
    empty_opened(alloc, worker, office, next);
    stepped
}
