//! An actor's way to the book of a desk that threads share.
ghost use Rattle.std.specs.Prelude.{◌≡◌, ℕ, IsOk, Ok};
ghost use Rattle.mq_talk.specs.declared.book.Call.TheVariants.{Close};
ghost use Rattle.mq_talk.specs.Answers.{IsLegal, MayCall};
ghost use Rattle.mq_talk.specs.Offices.{CallGives, IsSound, JudgeGives, MayJudge};
ghost use Rattle.mq_turn.specs.Passes.{IsOf, after_split, split_off, took_in};
ghost use Rattle.mq_desk.specs.Keys.{AddsOwn, own_entries, seen_by};

use crate::desk::Desk;
use crate::key::DeskKey;
use mq_addr::Flow;
use mq_talk::{Call, Judged, Office, Origin, Reply};
use mq_wire::NoMemory;
use std::sync::Wait;

/// A desk as one actor uses it. Its calls wait for their turn.
#[derive(Drop)]
pub struct DeskPass<'a, R: Wait> {
    rt: &'a R,
    desk: &'a Desk,
    key: DeskKey,
    ghost same: { IsOf desk.now key },
}

impl Desk {
    /// The desk as the actor of this key uses it. Takes no memory.
    pub fn sit<'a, R: Wait>(&'a self, rt: &'a R, key: DeskKey) -> DeskPass<'a, R>
        requires { IsOf self.now key }
        ensures { result.key ≡ key }
    {
        DeskPass {
            rt,
            desk: self,
            key,
        }
    }
}

impl<R: Wait> DeskPass<'_, R> {
    /// The key, with all that was seen. Takes no memory.
    pub fn rise(self) -> DeskKey
        ensures { result ≡ self.entry.key }
    {
        self.key
    }

    /// Makes the key of the next actor, which has seen what this one has. Only actor 0 makes keys. Takes no memory.
    pub fn split(&mut self, actor: u32) -> Result<DeskKey, NoMemory>
        requires first { self.old.key.number ≡ 0 }
        requires next { actor ≡ self.old.key.made }
        ensures desk { self.new.desk ≡ self.old.desk }
        ensures made { self.new.key ≡ after_split self.old.key }
        ensures key { result ≡ Ok (split_off self.old.key) }
    {
        self.key.split(self.desk, actor)
    }

    /// Takes in the key of another actor, with what that has seen. Takes no memory.
    pub fn join(&mut self, other: DeskKey)
        requires { IsOf self.old.desk.now other }
        ensures desk { self.new.desk ≡ self.old.desk }
        ensures key { self.new.key ≡ took_in self.old.key other }
    {
        self.key.join(self.desk, other);
    }
}

impl<R: Wait> Office for DeskPass<'_, R> {
    ghost use Rattle.mq_desk.specs.Keys.{seen_by};

    ghost seen = { λ p. seen_by p.desk.now.settings p.key };

    fn call(&mut self, call: Call) -> Result<Reply, NoMemory>
        requires { MayCall self.old.desk.now.settings self.old.key.seen self.old.key.number call }
        ensures gives { CallGives self.old.key.number (seen_by self.old.desk.now.settings self.old.key) call result (seen_by self.new.desk.now.settings self.new.key) }
        ensures close { (tunnel : ℕ) → call ≡ Close tunnel → IsOk result }
        ensures sound { IsSound (seen_by self.old.desk.now.settings self.old.key) → IsSound (seen_by self.new.desk.now.settings self.new.key) }
        ensures actor { self.new.key.number ≡ self.old.key.number }
        ensures own { AddsOwn self.old.key call result self.new.key }
        ensures legal { IsLegal self.new.desk.now.settings self.new.key.seen }
        ensures desk { self.new.desk ≡ self.old.desk }
        ensures same { self.new.key ≡ record self.old.key { seen = self.new.key.seen } }
    {
        self.key.call(self.rt, self.desk, call)
    }

    fn judge(&mut self, origin: Origin, flow: &Flow) -> Judged
        requires { MayJudge (seen_by self.old.desk.now.settings self.old.key) self.old.key.number origin }
        ensures gives { JudgeGives (seen_by self.old.desk.now.settings self.old.key) origin flow.now result (seen_by self.new.desk.now.settings self.new.key) }
        ensures sound { IsSound (seen_by self.old.desk.now.settings self.old.key) → IsSound (seen_by self.new.desk.now.settings self.new.key) }
        ensures actor { self.new.key.number ≡ self.old.key.number }
        ensures own { own_entries self.new.key ≡ own_entries self.old.key }
        ensures legal { IsLegal self.new.desk.now.settings self.new.key.seen }
        ensures desk { self.new.desk ≡ self.old.desk }
        ensures same { self.new.key ≡ record self.old.key { seen = self.new.key.seen } }
    {
        self.key.judge(self.rt, self.desk, origin, flow)
    }
}
