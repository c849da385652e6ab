//! The book.
ghost use Rattle.std.specs.Prelude.{◌≡◌, ◌↔◌, ◌++◌, ◌∷◌, [], length, IsTrue, IfOk, OnErr};
ghost use Rattle.mq_talk.specs.Answers.{IsAnswer, IsLegal, IsMine, MayCall, recorded};
ghost use Rattle.mq_talk.specs.Book.{is_live};
ghost use Rattle.mq_talk.specs.Config.{IsConfig};
ghost use Rattle.mq_talk.specs.Judging.{IsJudged};
ghost use Rattle.mq_talk.specs.declared.book.Call.TheVariants as call;
ghost use Rattle.mq_talk.specs.declared.book.Reply.TheVariants as reply;

use crate::ledger::Ledger;
use crate::setup::Setup;
use mq_addr::Flow;
use mq_talk::{Call, Config, Entry, Origin, Reply, Verdict};
use mq_wire::NoMemory;
use std::alloc::Global;
use std::marker::Model;

/// A configuration and a history of calls with their answers. The history is legal, always.
#[derive(Drop)]
pub struct Book {
    ledger: Ledger,
}

impl Model for Book {
    ghost use Rattle.mq_book.specs.Journal.{Journal, journal_code};

    ghost Value = { Journal };

    ghost coded = { journal_code };

    ghost use Rattle.mq_book.specs.Stand.{Stands};

    ghost view = { λ b. record { config = b.ledger.setup; history = b.ledger.history.items } };

    ghost invariant = { λ b. Stands b.ledger };
}

impl Book {
    /// A book without an entry.
    pub fn new(alloc: Global, config: Config) -> Result<Book, NoMemory>
        requires { IsConfig config }
        ensures { IfOk result (λ book. book ≡ record { config = config; history = [] }) }
    {
        Ok(Book {
            ledger: Ledger {
                setup: Setup::new(config),
                history: Vec::new(alloc),
                live: Vec::new(alloc),
            },
        })
    }

    /// Answers a call, and writes both behind the others. HistoryFull writes nothing, and NoMemory changes nothing.
    pub fn call(&mut self, alloc: Global, actor: u32, call: Call) -> Result<Reply, NoMemory>
        requires { MayCall self.old.config self.old.history actor call }
        ensures answer { IfOk result (λ reply. IsAnswer self.old.config self.old.history call reply) }
        ensures history { IfOk result (λ reply. self.new.history ≡ recorded self.old.history actor call reply) }
        ensures config { self.new.config ≡ self.old.config }
        ensures legal { IsLegal self.new.config self.new.history }
        ensures err { OnErr result (self.new ≡ self.old) }
    {
        match call {
            Call::Open {
                conn,
                stream,
                actor: _,
                goal,
            } => self.ledger.open(alloc, actor, conn, stream, goal),
            Call::Assign { tunnel, asked } => self.ledger.assign(alloc, actor, tunnel, asked),
            Call::Advertise { tunnel, ranges } => {
                self.ledger.advertise(alloc, actor, tunnel, ranges)
            }
            Call::Close { tunnel } => {
                self.ledger.close(actor, tunnel);
                Ok(Reply::Closed)
            }
        }
    }

    /// Closes a tunnel. This takes no memory, and always has its place.
    pub fn close(&mut self, actor: u32, tunnel: u32)
        requires { MayCall self.old.config self.old.history actor (call.Close tunnel) }
        ensures history { self.new.history ≡ recorded self.old.history actor (call.Close tunnel) reply.Closed }
        ensures config { self.new.config ≡ self.old.config }
        ensures legal { IsLegal self.new.config self.new.history }
    {
        self.ledger.close(actor, tunnel);
    }

    /// What becomes of a packet, by the whole history.
    pub fn judge(&self, origin: Origin, flow: &Flow) -> Verdict
        ensures { IsJudged self.now.config self.now.history origin flow.now result }
    {
        self.ledger.judge(origin, flow)
    }

    /// The entries, in order.
    pub fn history(&self) -> &[Entry]
        ensures value { result.now ≡ self.now.history }
        ensures legal { IsLegal self.now.config self.now.history }
    {
        self.ledger.history.as_slice()
    }

    /// How many entries there are.
    pub fn count(&self) -> u32
        ensures { result ≡ length self.now.history }
    {
        self.ledger.count()
    }

    /// Whether a tunnel is live.
    pub fn live(&self, tunnel: u32) -> bool
        ensures { result ≡ is_live self.now.history tunnel }
    {
        self.ledger.find(tunnel).is_some()
    }
}
