//! An actor's key to a desk.
ghost use Rattle.std.specs.Prelude.{◌≡◌, ℕ, IsOk, Ok};
ghost use Rattle.mq_talk.specs.declared.book.Call.TheVariants.{Close};
ghost use Rattle.mq_talk.specs.Answers.{IsLegal, MayCall};
ghost use Rattle.mq_talk.specs.Offices.{CallGives, JudgeGives};
ghost use Rattle.mq_turn.specs.Passes.{IsOf, after_split, split_off, took_in};
ghost use Rattle.mq_desk.specs.Asks.{MayAskOf};
ghost use Rattle.mq_desk.specs.Keys.{AddsOwn, own_entries, seen_by};

use crate::ask::{Answer, Ask};
use crate::desk::Desk;
use crate::kept::KeptBook;
use mq_addr::Flow;
use mq_talk::{Call, Judged, Origin, Reply};
use mq_turn::Pass;
use mq_wire::NoMemory;
use std::marker::Model;
use std::sync::Wait;

/// The one key of an actor. It borrows nothing.
#[derive(Drop)]
pub struct DeskKey {
    pub(crate) actor: u32,
    pub(crate) pass: Pass<KeptBook>,
}

impl Model for DeskKey {
    ghost use Rattle.std.specs.Prelude.{◌≡◌};
    ghost use Rattle.mq_desk.specs.Keys.{KeyOf};

    ghost Value = { KeyOf };

    ghost view = { λ k. k.pass };

    ghost invariant = { λ k. k.actor ≡ k.pass.number };
}

impl DeskKey {
    /// Asks the book, when the key's turn comes.
    pub(crate) fn call<R: Wait>(
        &mut self,
        rt: &R,
        desk: &Desk,
        call: Call,
    ) -> Result<Reply, NoMemory>
        requires desk { IsOf desk.now self.old }
        requires may { MayCall desk.now.settings self.old.seen self.old.number call }
        ensures gives { CallGives self.old.number (seen_by desk.now.settings self.old) call result (seen_by desk.now.settings self.new) }
        ensures close { (tunnel : ℕ) → call ≡ Close tunnel → IsOk result }
        ensures own { AddsOwn self.old call result self.new }
        ensures legal { IsLegal desk.now.settings self.new.seen }
        ensures same { self.new ≡ record self.old { seen = self.new.seen } }
    {
        let actor = self.actor;
        match self
            .pass
            .with_turn(rt, &desk.turn, Ask::Call { actor, call })
        {
            Answer::Called(result) => result,
            Answer::Judged(_) => unreachable!(),
        }
    }

    /// What becomes of a packet, by the whole history when the key's turn comes.
    pub(crate) fn judge<R: Wait>(
        &mut self,
        rt: &R,
        desk: &Desk,
        origin: Origin,
        flow: &Flow,
    ) -> Judged
        requires desk { IsOf desk.now self.old }
        requires may { MayAskOf self.old.seen self.old.number origin }
        ensures gives { JudgeGives (seen_by desk.now.settings self.old) origin flow.now result (seen_by desk.now.settings self.new) }
        ensures own { own_entries self.new ≡ own_entries self.old }
        ensures legal { IsLegal desk.now.settings self.new.seen }
        ensures same { self.new ≡ record self.old { seen = self.new.seen } }
    {
        let actor = self.actor;
        let ask = Ask::Judge {
            actor,
            origin,
            flow: *flow,
        };
        match self.pass.with_turn(rt, &desk.turn, ask) {
            Answer::Judged(judged) => judged,
            Answer::Called(_) => unreachable!(),
        }
    }

    /// Makes the key of the next actor.
    pub(crate) fn split(&mut self, desk: &Desk, actor: u32) -> Result<DeskKey, NoMemory>
        requires desk { IsOf desk.now self.old }
        requires first { self.old.number ≡ 0 }
        requires next { actor ≡ self.old.made }
        ensures made { self.new ≡ after_split self.old }
        ensures key { result ≡ Ok (split_off self.old) }
    {
        let pass = self.pass.split(&desk.turn)?;
        Ok(DeskKey { actor, pass })
    }

    /// Takes in the key of another actor.
    pub(crate) fn join(&mut self, desk: &Desk, other: DeskKey)
        requires desk { IsOf desk.now self.old }
        requires other { IsOf desk.now other }
        ensures { self.new ≡ took_in self.old other }
    {
        let DeskKey { pass, .. } = other;
        self.pass.join(&desk.turn, pass);
    }
}
