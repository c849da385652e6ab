//! All actors, what was said of links, and what the actors share.
ghost use Rattle.std.specs.Prelude.{◌≡◌, ◌+◌, ◌<◌, ◌≤◌, ◌||◌, true, false, not, length, map, nat_le, nat_lt, slice_get, Some, Err, IfOk, OnOk, OnErr};
ghost use Rattle.std.specs.List.{list_any};
ghost use Rattle.std.specs.Option.{option_map};
ghost use Rattle.mq_talk.specs.Mails.{Boxes};
ghost use Rattle.mq_talk.specs.Offices.{Seen};
ghost use Rattle.mq_machine.specs.State as machine;
ghost use Rattle.mq_machine.specs.declared.event.Event.TheVariants.{Conn, Datagram, End, FailBind, FailPort, Piece, Step};
ghost use Rattle.mq_machine.specs.Turn.{WorkerOf, has_turn};
ghost use Rattle.mq_held.specs.Notes.{HasNote, note_with};
ghost use Rattle.mq_play.specs.Events.{happen, is_ended, is_missing, most_links, state_of};
ghost use Rattle.mq_play.specs.Lines.{most_payload};
ghost use Rattle.mq_play.specs.Play.{actors_of};
ghost use Rattle.mq_play.specs.Settings.{IsPlan};
ghost use Rattle.mq_plain.specs.Coming.{changed};
ghost use Rattle.mq_world.specs.declared.stepped.WorldFault.TheVariants as fault;
ghost use Rattle.mq_world.specs.Worlds.{AreUntouched, Happens, IsUnused, IsWorld, LinkHappens, StepGives, ActorDoes, ActorGives, answer_of, answered, told_of};

use crate::rests::mark;
use crate::stepped::{Acted, WorldFault};
use crate::told::Told;
use crate::tunnel::opener_of;
use mq_machine::Setup;
use mq_mem::{PlainMail, PlainOffice};
use mq_net::SimNet;
use mq_plain::{
    LinkEvent, Plain, PlainPorts, arrive, change, fail_send, is_quiet, offer, piece, take,
};
use mq_play::Plan;
use mq_pump::Pump;
use mq_talk::Note;
use mq_wire::{Bytes, NoMemory};
use std::alloc::Global;

/// The most links of a world.
const MOST_LINKS: usize = 65_536;

/// The workers of a world in memory, the pump, and what they share.
#[derive(Drop)]
pub struct Workers {
    pub alloc: Global,
    /// What was said of each link, by its number.
    pub links: Vec<Told>,
    /// By their numbers.
    pub workers: Vec<Plain>,
    /// Its number is the count of workers.
    pub pump: Pump<SimNet>,
    pub office: PlainOffice,
    /// One inbox for each worker, and the pump's.
    pub mail: PlainMail,
    /// Whether the next bind is to fail, whichever worker tries it.
    pub bind_fails: bool,
    /// By their numbers, which workers had no step but for what waits in their inbox when they were last looked at, and
    /// nothing else came to since.
    pub rests: Vec<bool>,
}

/// One more worker, to which nothing happened yet: its number is the next.
fn add_worker(
    alloc: Global,
    setup: &Setup,
    number: u32,
    workers: &mut Vec<Plain>,
) -> Result<(), NoMemory>
    ensures { OnOk result ((seen : Seen) (boxes : Boxes) → IsUnused seen boxes setup.now → number < seen.config.workers → AreUntouched seen boxes setup.now workers.old.items number
        → AreUntouched seen boxes setup.now workers.new.items (number + 1)) }
{
    let ports = PlainPorts::new(alloc)?;
    let own = setup.copy(alloc)?;
    let worker = Plain::new(alloc, number, own, ports)?;
    workers.push(worker)?;
    Ok(())
}

/// So many workers, numbered from 0, to which nothing happened yet.
fn workers_of(alloc: Global, count: u32, setup: &Setup) -> Result<Vec<Plain>, NoMemory>
    ensures { IfOk result (λ workers. (seen : Seen) (boxes : Boxes) → IsUnused seen boxes setup.now → count ≡ seen.config.workers → AreUntouched seen boxes setup.now workers.items count) }
{
    let mut workers = Vec::with_capacity(alloc, count as usize)?;
    for number in 0..count {
        add_worker(alloc, setup, number, &mut workers)?;
    }
    Ok(workers)
}

impl Workers {
    /// The actors of a plan, to which nothing happened yet: the workers have no links, nothing came from the network, and the
    /// book and the inboxes are empty.
    pub(crate) fn new(alloc: Global, plan: Plan) -> Result<Workers, NoMemory>
        requires { IsPlan plan }
        ensures { IfOk result (λ world. IsWorld world (state_of plan)) }
    {
        let Plan {
            workers: count,
            setup,
            book,
            hosts,
        } = plan;
        let rests = vec![in alloc; false; count as usize]?;
        let mail = PlainMail::new(alloc, count + 1)?;
        let office = PlainOffice::of(alloc, book)?;
        let net = SimNet::new(alloc, hosts.as_slice())?;
        let pump = Pump::new(alloc, net, count, setup.mtu)?;
        let workers = workers_of(alloc, count, &setup)?;
        Ok(Workers {
            alloc,
            links: Vec::new(alloc),
            workers,
            pump,
            office,
            mail,
            bind_fails: false,
            rests,
        })
    }

    // ---- what happens to links

    /// Whether there is no such worker, or no place for one more link.
    fn has_no_place(&self, actor: u32) -> bool
        ensures { result ≡ (nat_le (length self.now.workers.items) actor || nat_le most_links (length self.now.links.items)) }
    {
        actor as usize >= self.workers.len() || self.links.len() >= MOST_LINKS
    }

    /// A new link is offered to a worker.
    #[inline(never)]
    pub(crate) fn offer(&mut self, actor: u32) -> Result<(), WorldFault>
        requires { (s : machine.State) × IsWorld self.old s }
        ensures { (s : machine.State) → IsWorld self.old s → Happens (IsWorld self.new) s (Conn actor) result }
    {
        if self.has_no_place(actor) {
            return Err(WorldFault::Missing);
        }
        let number = self.links.len();
        let told = Told {
            worker: actor,
            is_ended: false,
        };
        let Ok(()) = self.links.push(told) else {
            return Err(WorldFault::NoMemory);
        };
        mark(&mut self.rests, actor as usize, false);
        let worker = &mut self.workers[actor as usize];
        match offer(self.alloc, worker, number as u32) {
            Ok(()) => Ok(()),
            Err(NoMemory) => {
                self.links.truncate(number);
                Err(WorldFault::NoMemory)
            }
        }
    }

    /// The worker to which the link of this number was offered.
    fn worker_of(&self, conn: u32) -> Result<usize, WorldFault>
        ensures ok { OnOk result (nat_lt conn (length self.now.links.items) ≡ true) }
        ensures told { IfOk result (λ k. option_map (λ (t : Told). t.worker) (slice_get self.now.links.items conn) ≡ Some k) }
        ensures err { OnErr result ((nat_lt conn (length self.now.links.items) ≡ false) × (result ≡ Err fault.Missing)) }
    {
        match self.links.get(conn as usize) {
            None => Err(WorldFault::Missing),
            Some(told) => Ok(told.worker as usize),
        }
    }

    /// Something comes to a link, and nothing is said of that beside. Of one that is gone nothing changes.
    pub(crate) fn change(&mut self, conn: u32, event: LinkEvent) -> Result<(), WorldFault>
        requires { (s : machine.State) × IsWorld self.old s }
        ensures { (s : machine.State) → IsWorld self.old s → LinkHappens (IsWorld self.new) s conn (changed event) result }
    {
        let place = self.worker_of(conn)?;
        mark(&mut self.rests, place, false);
        let worker = &mut self.workers[place];
        change(worker, conn, event);
        Ok(())
    }

    /// The end of a link arrives, and is said.
    #[inline(never)]
    pub(crate) fn finish(&mut self, conn: u32) -> Result<(), WorldFault>
        requires { (s : machine.State) × IsWorld self.old s }
        ensures { (s : machine.State) → IsWorld self.old s → Happens (IsWorld self.new) s (End conn) result }
    {
        let place = self.worker_of(conn)?;
        self.links[conn as usize].is_ended = true;
        mark(&mut self.rests, place, false);
        let worker = &mut self.workers[place];
        change(worker, conn, LinkEvent::End);
        Ok(())
    }

    /// The worker to which a link was offered whose end wasn't said.
    fn worker_before_end(&self, conn: u32) -> Result<usize, WorldFault>
        ensures told { IfOk result (λ k. option_map (λ (t : Told). t.worker) (slice_get self.now.links.items conn) ≡ Some k) }
        ensures ok { OnOk result (is_ended (map told_of self.now.links.items) conn ≡ false) }
        ensures err { OnErr result ((is_ended (map told_of self.now.links.items) conn ≡ true) × (result ≡ Err fault.Missing)) }
    {
        match self.worker_of(conn) {
            Err(why) => Err(why),
            Ok(place) => {
                if self.links[conn as usize].is_ended {
                    Err(WorldFault::Missing)
                } else {
                    Ok(place)
                }
            }
        }
    }

    /// A piece arrives on a link.
    pub(crate) fn piece(&mut self, conn: u32, bytes: Bytes) -> Result<(), WorldFault>
        requires stands { (s : machine.State) × IsWorld self.old s }
        requires some { 0 < length bytes }
        ensures { (s : machine.State) → IsWorld self.old s → Happens (IsWorld self.new) s (Piece conn bytes) result }
    {
        let place = self.worker_before_end(conn)?;
        mark(&mut self.rests, place, false);
        let worker = &mut self.workers[place];
        match piece(worker, conn, bytes) {
            Ok(()) => Ok(()),
            Err(NoMemory) => Err(WorldFault::NoMemory),
        }
    }

    // ---- what happens to ports

    /// A datagram arrives at the port of a tunnel. Of one that is closed nothing changes.
    pub(crate) fn arrive(&mut self, tunnel: u32, datagram: Bytes) -> Result<(), WorldFault>
        requires stands { (s : machine.State) × IsWorld self.old s }
        requires few { length datagram ≤ most_payload }
        ensures { (s : machine.State) → IsWorld self.old s → Happens (IsWorld self.new) s (Datagram tunnel datagram) result }
    {
        let place = opener_of(self.office.book().history(), tunnel)?;
        mark(&mut self.rests, place, false);
        let worker = &mut self.workers[place];
        match arrive(worker, tunnel, datagram) {
            Ok(()) => Ok(()),
            Err(NoMemory) => Err(WorldFault::NoMemory),
        }
    }

    /// The next send on the port of a tunnel fails. Of one that is closed nothing changes.
    pub(crate) fn fail_send(&mut self, tunnel: u32) -> Result<(), WorldFault>
        requires { (s : machine.State) × IsWorld self.old s }
        ensures { (s : machine.State) → IsWorld self.old s → Happens (IsWorld self.new) s (FailPort tunnel) result }
    {
        let place = opener_of(self.office.book().history(), tunnel)?;
        mark(&mut self.rests, place, false);
        let worker = &mut self.workers[place];
        fail_send(worker, tunnel);
        Ok(())
    }

    /// The next bind fails, whichever worker tries it.
    pub(crate) fn fail_bind(&mut self)
        ensures { (s : machine.State) → IsWorld self.old s → IsWorld self.new (happen s FailBind) }
    {
        self.bind_fails = true;
    }

    // ---- steps

    /// How many entries the book's history has.
    pub(crate) fn entries(&self) -> u32
        ensures { (s : machine.State) → IsWorld self.now s → result ≡ length s.shared.book }
    {
        self.office.book().count()
    }

    /// How many there are.
    pub(crate) fn count(&self) -> u32
        requires { (s : machine.State) × IsWorld self.now s }
        ensures { (s : machine.State) → IsWorld self.now s → result ≡ length s.workers }
    {
        self.workers.len() as u32
    }

    /// An actor takes a step, whose note is put into `told`. The pump's number is the count of workers.
    pub(crate) fn act(&mut self, actor: u32, told: &mut Option<Note>) -> Result<Acted, WorldFault>
        requires { (s : machine.State) × IsWorld self.old s }
        ensures { (s : machine.State) → IsWorld self.old s → StepGives (IsWorld self.new) s (Step actor) (answered result told.new) }
    {
        let count = self.count();
        if actor > count {
            return Err(WorldFault::Missing);
        }
        if actor == count {
            return Ok(self.pump(told));
        }
        Ok(self.step(actor, told))
    }

    /// The worker of this number takes a step. One that rests isn't asked, and one that has no step is asked whether it rests.
    fn step(&mut self, number: u32, told: &mut Option<Note>) -> Acted
        requires stands { (s : machine.State) × IsWorld self.old s }
        requires number { number < length self.old.workers.items }
        ensures { (s : machine.State) → IsWorld self.old s → (t : machine.State) × IsWorld self.new t × ActorDoes s (WorkerOf number) (answer_of result told.new) t }
    {
        if self.is_at_rest(number) {
            return Acted::Idle;
        }
        match self.turn(number, told) {
            Ok(true) => Acted::Did,
            Ok(false) => {
                self.look(number);
                Acted::Idle
            }
            Err(NoMemory) => Acted::Refused,
        }
    }

    /// The worker of this number is asked for a step, whose note is put into `told`. Answers whether it had one.
    fn turn(&mut self, number: u32, told: &mut Option<Note>) -> Result<bool, NoMemory>
        requires stands { (s : machine.State) × IsWorld self.old s }
        requires number { number < length self.old.workers.items }
        ensures gives { (s : machine.State) → IsWorld self.old s → (t : machine.State) × IsWorld self.new t × ActorGives s (WorkerOf number) (note_with result told.new) t }
        ensures told { HasNote result told.new }
    {
        self.is_sound();
        self.office.turn_to(number);
        self.mail.turn_to(number);
        mark(&mut self.rests, number as usize, false);
        let worker = &mut self.workers[number as usize];
        take(
            self.alloc,
            worker,
            &mut self.office,
            &mut self.mail,
            &mut self.bind_fails,
            told,
        )
    }

    /// Whether no actor has a step. Takes no memory.
    pub(crate) fn are_quiet(&self) -> bool
        requires { (s : machine.State) × IsWorld self.now s }
        ensures { (s : machine.State) → IsWorld self.now s → result ≡ not (list_any (has_turn s) (actors_of s)) }
    {
        for number in 0..self.workers.len() {
            let is_empty = !self.mail.waiting(number as u32);
            if !is_quiet(&self.workers[number], is_empty) {
                return false;
            }
        }
        self.pump_is_quiet()
    }
}
