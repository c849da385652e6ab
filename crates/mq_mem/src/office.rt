//! A book of one's own, as the office of the actors of one thread.
ghost use Rattle.std.specs.Prelude.{◌≡◌, ℕ, [], IfOk, IsOk, OnErr};
ghost use Rattle.mq_book.specs.Journal.{Journal};
ghost use Rattle.mq_talk.specs.declared.book.Call.TheVariants.{Close};
ghost use Rattle.mq_talk.specs.Answers.{MayCall};
ghost use Rattle.mq_talk.specs.Config.{IsConfig};
ghost use Rattle.mq_talk.specs.Offices.{CallGives, IsSound, JudgeGives, MayJudge};
ghost use Rattle.mq_mem.specs.Offices.{Office as OfficeOf, seen_of};

use mq_addr::Flow;
use mq_book::{Book, Config};
use mq_talk::{Call, Judged, Office, Origin, Reply};
use mq_wire::NoMemory;
use std::alloc::Global;
use std::marker::Model;

/// A book, and the one actor that is served. It has seen the whole history, always.
#[derive(Drop)]
pub struct PlainOffice {
    alloc: Global,
    book: Book,
    actor: u32,
}

impl Model for PlainOffice {
    ghost Value = { OfficeOf };

    ghost view = { λ o. record { book = o.book; actor = o.actor } };
}

impl PlainOffice {
    /// An office round a book, where actor 0 is served.
    pub fn new(alloc: Global, book: Book) -> Result<PlainOffice, NoMemory>
        ensures { IfOk result (λ o. o ≡ record { book = book; actor = 0 }) }
    {
        Ok(PlainOffice {
            alloc,
            book,
            actor: 0,
        })
    }

    /// The same round a new book, without an entry.
    pub fn of(alloc: Global, config: Config) -> Result<PlainOffice, NoMemory>
        requires { IsConfig config }
        ensures { IfOk result (λ o. o ≡ record { book = record { config = config; history = [] }; actor = 0 }) }
    {
        let book = Book::new(alloc, config)?;
        PlainOffice::new(alloc, book)
    }

    /// Serves this actor from now on. Takes no memory.
    pub fn turn_to(&mut self, actor: u32)
        ensures { self.new ≡ record self.old { actor = actor } }
    {
        self.actor = actor;
    }

    /// Its book.
    pub fn book(&self) -> &Book
        ensures { result.now ≡ self.now.book }
    {
        &self.book
    }
}

impl Office for PlainOffice {
    ghost seen = { λ o. seen_of o };

    /// A call that is refused memory changes nothing, and a close is never refused it.
    fn call(&mut self, call: Call) -> Result<Reply, NoMemory>
        requires { MayCall self.old.book.config self.old.book.history self.old.actor call }
        ensures gives { CallGives self.old.actor (seen_of self.old) call result (seen_of self.new) }
        ensures sound { IsSound (seen_of self.old) → IsSound (seen_of self.new) }
        ensures actor { self.new.actor ≡ self.old.actor }
        ensures config { self.new.book.config ≡ self.old.book.config }
        ensures close { (tunnel : ℕ) → call ≡ Close tunnel → IsOk result }
        ensures err { OnErr result (self.new ≡ self.old) }
    {
        match call {
            Call::Close { tunnel } => {
                self.book.close(self.actor, tunnel);
                Ok(Reply::Closed)
            }
            other => self.book.call(self.alloc, self.actor, other),
        }
    }

    /// A judgement changes nothing.
    fn judge(&mut self, origin: Origin, flow: &Flow) -> Judged
        requires { MayJudge (seen_of self.old) self.old.actor origin }
        ensures gives { JudgeGives (seen_of self.old) origin flow.now result (seen_of self.new) }
        ensures sound { IsSound (seen_of self.old) → IsSound (seen_of self.new) }
        ensures actor { self.new.actor ≡ self.old.actor }
        ensures stays { self.new ≡ self.old }
    {
        Judged {
            verdict: self.book.judge(origin, flow),
            at: self.book.count(),
        }
    }
}
