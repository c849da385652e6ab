//! The pump of a world, on its simulated network.
ghost use Rattle.std.specs.Prelude.{◌≡◌, ◌≤◌, not, length};
ghost use Rattle.mq_machine.specs.State as machine;
ghost use Rattle.mq_machine.specs.declared.event.Event.TheVariants.{FailNet, Packet};
ghost use Rattle.mq_machine.specs.Turn.{ThePump, has_turn};
ghost use Rattle.mq_play.specs.Events.{happen};
ghost use Rattle.mq_play.specs.Lines.{most_packet};
ghost use Rattle.mq_talk.specs.Offices.{IsSound};
ghost use Rattle.mq_mem.specs.Offices.{seen_of};
ghost use Rattle.mq_world.specs.Worlds.{ActorDoes, ActorGives, Happens, IsWorld, answer_of};

use crate::stepped::{Acted, WorldFault};
use crate::workers::Workers;
use mq_talk::Note;
use mq_wire::{Bytes, NoMemory};

impl Workers {
    /// The next send on the network fails.
    pub(crate) fn fail_net(&mut self)
        ensures { (s : machine.State) → IsWorld self.old s → IsWorld self.new (happen s FailNet) }
    {
        self.pump.net().fail_next();
    }

    /// So many copies of a packet arrive from the network, or none.
    pub(crate) fn packet(&mut self, count: u32, bytes: &Bytes) -> Result<(), WorldFault>
        requires { length bytes.now ≤ most_packet }
        ensures { (s : machine.State) → IsWorld self.old s → Happens (IsWorld self.new) s (Packet count bytes.now) result }
    {
        match self.pump.net().arrive(bytes.as_slice(), count) {
            Ok(()) => Ok(()),
            Err(NoMemory) => Err(WorldFault::NoMemory),
        }
    }

    /// What the book has is legal, by a configuration that an operator may give.
    pub(crate) fn is_sound(&self)
        requires { (s : machine.State) × IsWorld self.now s }
        ensures { IsSound (seen_of self.now.office) }
    {
        let _legal = self.office.book().history();
    }

    /// The pump takes a step, whose note is put into `told`. Most of the time it has none, which is asked first.
    #[inline(never)]
    pub(crate) fn pump(&mut self, told: &mut Option<Note>) -> Acted
        requires { (s : machine.State) × IsWorld self.old s }
        ensures { (s : machine.State) → IsWorld self.old s → (t : machine.State) × IsWorld self.new t × ActorDoes s ThePump (answer_of result told.new) t }
    {
        if self.pump_is_quiet() {
            return Acted::Idle;
        }
        match self.step_pump() {
            Ok(Some(note)) => {
                *told = Some(note);
                Acted::Did
            }
            Ok(None) => Acted::Idle,
            Err(NoMemory) => Acted::Refused,
        }
    }

    fn step_pump(&mut self) -> Result<Option<Note>, NoMemory>
        requires { (s : machine.State) × IsWorld self.old s }
        ensures { (s : machine.State) → IsWorld self.old s → (t : machine.State) × IsWorld self.new t × ActorGives s ThePump result t }
    {
        self.is_sound();
        let number = self.count();
        self.office.turn_to(number);
        self.mail.turn_to(number);
        self.pump.step(&mut self.office, &mut self.mail)
    }

    /// Whether the pump has no step. Takes no memory.
    pub(crate) fn pump_is_quiet(&self) -> bool
        requires { (s : machine.State) × IsWorld self.now s }
        ensures { (s : machine.State) → IsWorld self.now s → result ≡ not (has_turn s ThePump) }
    {
        !self.pump.holds()
            && !self.mail.waiting(self.workers.len() as u32)
            && !self.pump.net_at().waiting()
    }
}
