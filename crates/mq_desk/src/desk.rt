//! A book that threads share.
ghost use Rattle.std.specs.Prelude.{◌≡◌, [], IfOk};
ghost use Rattle.mq_book.specs.Journal.{Journal};
ghost use Rattle.mq_talk.specs.Answers.{IsLegal};
ghost use Rattle.mq_turn.specs.Passes.{first_pass, IsClosed, IsOf, IsOnly};
ghost use Rattle.mq_desk.specs.Asks.{actor_of};

use crate::kept::KeptBook;
use crate::key::DeskKey;
use mq_book::Book;
use mq_turn::Turn;
use mq_wire::NoMemory;
use std::alloc::Global;
use std::marker::Model;

/// A book, which the actors of several threads ask one after another.
#[derive(Drop)]
pub struct Desk {
    pub(crate) turn: Turn<KeptBook>,
}

impl Model for Desk {
    ghost use Rattle.mq_desk.specs.Keys.{DeskOf};

    ghost Value = { DeskOf };

    ghost view = { λ d. d.turn };
}

impl Desk {
    /// A desk round a book without an entry, and the key of actor 0.
    pub fn new(alloc: Global, book: Book) -> Result<(Desk, DeskKey), NoMemory>
        requires { book.history ≡ [] }
        ensures config { IfOk result (λ made. made.0.settings ≡ book.config) }
        ensures key { IfOk result (λ made. made.1 ≡ first_pass made.0) }
    {
        let (turn, pass) = Turn::new(alloc, KeptBook { alloc, book })?;
        Ok((Desk { turn }, DeskKey { actor: 0, pass }))
    }

    /// The book, with the history of all calls. It needs the one key that is left, and takes no memory.
    pub fn close(self, key: DeskKey) -> Book
        requires desk { IsOf self key }
        requires only { IsOnly key }
        ensures { IsClosed (λ (b : Journal). b.config) (λ (b : Journal). b.history) actor_of IsLegal self key result }
    {
        let Desk { turn } = self;
        let DeskKey { pass, .. } = key;
        let KeptBook { book, .. } = turn.close(pass);
        book
    }
}
