//! The book, as a value that keeps its history.
ghost use Rattle.std.specs.Prelude.{◌≡◌, ℕ, length, IfOk, OnErr, IsOk};
ghost use Rattle.mq_talk.specs.declared.book.Call.TheVariants.{Close};
ghost use Rattle.mq_talk.specs.Answers.{IsAnswer, IsLegal, MayCall, recorded};
ghost use Rattle.mq_talk.specs.Judging.{IsJudged};
ghost use Rattle.mq_desk.specs.Asks.{IsCalled};

use crate::ask::{Answer, Ask};
use mq_addr::Flow;
use mq_book::{Book, Config};
use mq_talk::{Call, Entry, Judged, Origin, Reply};
use mq_turn::Kept;
use mq_wire::NoMemory;
use std::alloc::Global;

/// A book, and where it takes its memory.
#[derive(Drop)]
pub struct KeptBook {
    pub alloc: Global,
    pub book: Book,
}

impl KeptBook {
    /// What a call is answered. A close is never refused memory.
    fn call(&mut self, actor: u32, call: Call) -> Result<Reply, NoMemory>
        requires { MayCall self.old.book.config self.old.book.history actor call }
        ensures called { IsCalled self.old.book.config self.old.book.history actor call result self.new.book.history }
        ensures config { self.new.book.config ≡ self.old.book.config }
        ensures legal { IsLegal self.new.book.config self.new.book.history }
    {
        match call {
            Call::Close { tunnel } => {
                self.book.close(actor, tunnel);
                Ok(Reply::Closed)
            }
            other => self.book.call(self.alloc, actor, other),
        }
    }

    /// What becomes of a packet, by the whole history.
    fn judge(&self, origin: Origin, flow: &Flow) -> Judged
        ensures verdict { IsJudged self.now.book.config self.now.book.history origin flow.now result.verdict }
        ensures at { result.at ≡ length self.now.book.history }
    {
        Judged {
            verdict: self.book.judge(origin, flow),
            at: self.book.count(),
        }
    }
}

impl Kept for KeptBook {
    ghost use Rattle.mq_talk.specs.Answers.{IsLegal};
    ghost use Rattle.mq_desk.specs.Asks.{asker, actor_of, MayAsk, Serves};
    ghost use Rattle.mq_desk.specs.Staying.{stays, none_legal};

    type Ask = Ask;

    type Answer = Answer;

    type Entry = Entry;

    type Settings = Config;

    ghost settings = { λ b. b.book.config };

    ghost history = { λ b. b.book.history };

    ghost asker = { asker };

    ghost maker = { actor_of };

    ghost is_sound = { IsLegal };

    ghost may_ask = { MayAsk };

    ghost serves = { Serves };

    fn serve(&mut self, ask: Ask) -> Answer {
        match ask {
            Ask::Call { actor, call } => Answer::Called(self.call(actor, call)),
            Ask::Judge { origin, flow, .. } => Answer::Judged(self.judge(origin, &flow)),
        }
    }

    fn entries(&self) -> u32 {
        self.book.count()
    }

    ghost begins_sound = { none_legal };

    ghost stays_asked = { stays };
}
