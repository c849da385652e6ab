//! A world in memory.
ghost use Rattle.std.specs.Prelude.{◌≡◌, IfOk, length, not};
ghost use Rattle.std.specs.List.{list_any};
ghost use Rattle.mq_machine.specs.declared.event.Event.TheVariants.{Step};
ghost use Rattle.mq_machine.specs.State.{State};
ghost use Rattle.mq_machine.specs.Turn.{has_turn};
ghost use Rattle.mq_play.specs.Events.{state_of};
ghost use Rattle.mq_play.specs.Play.{actors_of};
ghost use Rattle.mq_play.specs.Settings.{IsPlan};
ghost use Rattle.mq_world.specs.Worlds.{IsServed, IsWorld, StepGives, answer_of, answered, done_by};

use crate::stepped::{Acted, Stepped, WorldFault};
use crate::workers::Workers;
use mq_machine::Event;
use mq_plain::LinkEvent;
use mq_play::Plan;
use mq_talk::Note;
use mq_wire::NoMemory;
use std::alloc::Global;
use std::marker::Model;

/// All actors of a proxy in memory: its workers, and the pump, which has a simulated network.
#[derive(Drop)]
pub struct World {
    inside: Workers,
}

impl Model for World {
    ghost use Rattle.mq_machine.specs.State.{State};
    ghost use Rattle.mq_world.specs.declared.workers.Workers.{Workers as WorkersOf};
    ghost use Rattle.mq_world.specs.Worlds.{IsWorld};
    ghost use Rattle.mq_world.specs.contracts.workers.Workers as workers;

    ghost Value = { WorkersOf };

    ghost coded = { workers.the_row.coded };

    ghost view = { λ w. w.inside };

    ghost invariant = { λ w. (s : State) × IsWorld w.inside s };
}

impl World {
    /// The world of a plan, in which nothing happened yet: its workers have no links, nothing came from the network, and the
    /// book and the inboxes are empty.
    pub fn new(alloc: Global, plan: Plan) -> Result<World, NoMemory>
        requires { IsPlan plan }
        ensures { IfOk result (λ world. IsWorld world (state_of plan)) }
    {
        let inside = Workers::new(alloc, plan)?;
        Ok(World { inside })
    }

    /// How many workers there are.
    pub fn workers(&self) -> u32
        ensures { (s : State) → IsWorld self.now s → result ≡ length s.workers }
    {
        self.inside.count()
    }

    /// How many entries the book's history has.
    pub fn entries(&self) -> u32
        ensures { (s : State) → IsWorld self.now s → result ≡ length s.shared.book }
    {
        self.inside.entries()
    }

    /// Something happens: something comes from outside, or an actor takes a step. The actor of the network has the count of
    /// workers as its number. A piece has a byte, a datagram has at most 65,527, and a packet at most 65,535.
    /// `Missing` comes where the event names what never was; it and `NoMemory` change nothing.
    pub fn step(&mut self, event: Event) -> Result<Stepped, WorldFault>
        requires { IsServed event }
        ensures { (s : State) → IsWorld self.old s → StepGives (IsWorld self.new) s event result }
    {
        let happened = match event {
            Event::Step { actor } => return self.step_of(actor),
            Event::Piece { conn, bytes } => self.inside.piece(conn, bytes),
            Event::Datagram { tunnel, bytes } => self.inside.arrive(tunnel, bytes),
            Event::Packet { count, bytes } => self.inside.packet(count, &bytes),
            Event::Conn { actor } => self.inside.offer(actor),
            Event::End { conn } => self.inside.finish(conn),
            Event::Room { conn, room } => self.inside.change(conn, LinkEvent::Room(room)),
            Event::FailRead { conn } => self.inside.change(conn, LinkEvent::FailRead),
            Event::FailWrite { conn } => self.inside.change(conn, LinkEvent::FailWrite),
            Event::FailPort { tunnel } => self.inside.fail_send(tunnel),
            Event::FailBind => {
                self.inside.fail_bind();
                Ok(())
            }
            Event::FailNet => {
                self.inside.fail_net();
                Ok(())
            }
        };
        done(happened)
    }

    /// An actor takes a step, as with `Event::Step`. Its note is put into `told`, where it took one.
    pub fn act(&mut self, actor: u32, told: &mut Option<Note>) -> Result<Acted, WorldFault>
        ensures { (s : State) → IsWorld self.old s → StepGives (IsWorld self.new) s (Step actor) (answered result told.new) }
    {
        self.inside.act(actor, told)
    }

    fn step_of(&mut self, actor: u32) -> Result<Stepped, WorldFault>
        ensures { (s : State) → IsWorld self.old s → StepGives (IsWorld self.new) s (Step actor) result }
    {
        let mut told = None;
        match self.act(actor, &mut told) {
            Ok(acted) => Ok(answer_of(acted, told)),
            Err(why) => Err(why),
        }
    }

    /// Whether no actor has a step. Takes no memory.
    pub fn quiet(&self) -> bool
        ensures { (s : State) → IsWorld self.now s → result ≡ not (list_any (has_turn s) (actors_of s)) }
    {
        self.inside.are_quiet()
    }
}

/// What a step came to, with its note.
fn answer_of(acted: Acted, told: Option<Note>) -> Stepped
    ensures { result ≡ answer_of acted told }
{
    match acted {
        Acted::Did => match told {
            Some(note) => Stepped::Did(note),
            None => Stepped::Done,
        },
        Acted::Idle => Stepped::Idle,
        Acted::Refused => Stepped::Refused,
    }
}

/// What happened beside a step.
fn done(happened: Result<(), WorldFault>) -> Result<Stepped, WorldFault>
    ensures { result ≡ done_by happened }
{
    happened?;
    Ok(Stepped::Done)
}
