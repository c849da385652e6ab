//! An office where one call is refused memory.
ghost use Rattle.std.specs.Prelude.{◌≡◌, ℕ, true, false, is_ok, IsOk, OnErr};
ghost use Rattle.mq_talk.specs.declared.book.Call.TheVariants.{Close};
ghost use Rattle.mq_talk.specs.Answers.{MayCall};
ghost use Rattle.mq_talk.specs.Offices.{CallGives, IsSound, JudgeGives, MayJudge};
ghost use Rattle.mq_mem.specs.Offices.{Refusing, is_close, is_refused, made_by, seen_of};

use crate::office::PlainOffice;
use mq_addr::Flow;
use mq_book::Book;
use mq_outside::risen;
use mq_talk::{Call, Judged, Office, Origin, Reply};
use mq_wire::NoMemory;
use std::marker::Model;

/// An office that hands each call on, but one, which is refused memory and changes nothing. Calls are counted from 0, those
/// that aren't a close.
#[derive(Drop)]
pub struct RefusingOffice {
    office: PlainOffice,
    refused: u64,
    made: u64,
}

impl Model for RefusingOffice {
    ghost Value = { Refusing };

    ghost view = { λ o. record { office = o.office; refused = o.refused; made = o.made } };
}

/// Whether a call closes a tunnel.
fn is_close(call: &Call) -> bool
    ensures { result ≡ is_close call.now }
{
    match call {
        Call::Close { .. } => true,
        _ => false,
    }
}

impl RefusingOffice {
    /// The call of this number will be refused.
    pub fn new(office: PlainOffice, refused: u64) -> RefusingOffice
        ensures { result ≡ record { office = office; refused = refused; made = 0 } }
    {
        RefusingOffice {
            office,
            refused,
            made: 0,
        }
    }

    /// Serves this actor from now on. Takes no memory.
    pub fn turn_to(&mut self, actor: u32)
        ensures { self.new ≡ record self.old { office = record self.old.office { actor = actor } } }
    {
        self.office.turn_to(actor);
    }

    /// Its book.
    pub fn book(&self) -> &Book
        ensures { result.now ≡ self.now.office.book }
    {
        self.office.book()
    }

    /// How many calls were made that aren't a close.
    pub fn made(&self) -> u64
        ensures { result ≡ self.now.made }
    {
        self.made
    }

    /// Counts a call, and tells whether it is the one that is refused.
    fn refuses(&mut self, call: &Call) -> bool
        ensures is { result ≡ is_refused self.old call.now }
        ensures counts { self.new ≡ record self.old { made = made_by self.old call.now } }
    {
        if is_close(call) {
            return false;
        }
        let refuses = self.made == self.refused;
        self.made = risen(self.made);
        refuses
    }
}

impl Office for RefusingOffice {
    ghost seen = { λ o. seen_of o.office };

    /// A call that is refused memory changes nothing, and a close is never refused it.
    fn call(&mut self, call: Call) -> Result<Reply, NoMemory>
        requires { MayCall self.old.office.book.config self.old.office.book.history self.old.office.actor call }
        ensures gives { CallGives self.old.office.actor (seen_of self.old.office) call result (seen_of self.new.office) }
        ensures sound { IsSound (seen_of self.old.office) → IsSound (seen_of self.new.office) }
        ensures actor { self.new.office.actor ≡ self.old.office.actor }
        ensures config { self.new.office.book.config ≡ self.old.office.book.config }
        ensures close { (tunnel : ℕ) → call ≡ Close tunnel → IsOk result }
        ensures refuses { is_refused self.old call ≡ true → is_ok result ≡ false }
        ensures counts { self.new ≡ record self.old { office = self.new.office; made = made_by self.old call } }
        ensures err { OnErr result (self.new.office ≡ self.old.office) }
    {
        if self.refuses(&call) {
            return Err(NoMemory);
        }
        self.office.call(call)
    }

    fn judge(&mut self, origin: Origin, flow: &Flow) -> Judged
        requires { MayJudge (seen_of self.old.office) self.old.office.actor origin }
        ensures gives { JudgeGives (seen_of self.old.office) origin flow.now result (seen_of self.new.office) }
        ensures sound { IsSound (seen_of self.old.office) → IsSound (seen_of self.new.office) }
        ensures actor { self.new.office.actor ≡ self.old.office.actor }
        ensures stays { self.new ≡ self.old }
    {
        self.office.judge(origin, flow)
    }
}
