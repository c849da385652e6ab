//! The book is asked for addresses or ways, and the tunnel is told what it answers.
ghost use Rattle.std.specs.Prelude.{◌≡◌, IfOk};
ghost use Rattle.mq_iptun.specs.Answers.{CanTell};
ghost use Rattle.mq_talk.specs.Answers.{MayCall};
ghost use Rattle.mq_talk.specs.Offices.{IsSound};
ghost use Rattle.mq_machine.specs.State as machine;
ghost use Rattle.mq_machine.specs.Want.{want_of, Ask};
ghost use Rattle.mq_conn.specs.Conns.{IsConn};
ghost use Rattle.mq_held.specs.Answers.{IsFor, SettleGives, TellGives};

use crate::held::Held;
use mq_book::{begins_legal, stays_full};
use mq_iptun::answers_can_be_told;
use mq_talk::{Call, End, Note, Office, Reply};
use mq_wire::NoMemory;

/// Asks the book for addresses or ways of this tunnel. Where the history has no place for that, the tunnel closes.
fn ask_or_close<O: Office>(tunnel: u32, call: Call, office: &mut O) -> Result<Reply, NoMemory>
    requires sound { IsSound (O.seen office.old) }
    requires may { MayCall (O.seen office.old).config (O.seen office.old).entries (O.seen office.old).actor call }
    requires tunnel { IsFor tunnel call }
    ensures gives { SettleGives (O.seen office.old).actor (O.seen office.old) call result (O.seen office.new) }
    ensures told { IfOk result CanTell }
    ensures actor { (O.seen office.new).actor ≡ (O.seen office.old).actor }
    ensures sound { IsSound (O.seen office.new) }
{
    begins_legal();
    answers_can_be_told();
    stays_full();
    match office.call(call)? {
        Reply::HistoryFull { .. } => office.call(Call::Close { tunnel }),
        reply => Ok(reply),
    }
}

impl<L> Held<L> {
    /// Asks the book for the addresses or ways of this tunnel that it wants to ask for, and tells the tunnel what it answers
    /// (RFC 9484, section 4.7). Where the history has no place for that, the tunnel closes in the same step.
    pub fn tell<O: Office>(
        &mut self,
        tunnel: u32,
        call: Call,
        office: &mut O,
    ) -> Result<Note, NoMemory>
        requires sound { IsSound (O.seen office.old) }
        requires may { MayCall (O.seen office.old).config (O.seen office.old).entries (O.seen office.old).actor call }
        requires tunnel { IsFor tunnel call }
        ensures gives { (s : machine.Conn) → IsConn self.old.conn s → want_of s ≡ Ask call
            → TellGives (O.seen office.old).actor (O.seen office.old) call (O.seen office.new) (IsConn self.new.conn) s result }
        ensures rest { self.new ≡ record self.old { conn = self.new.conn } }
        ensures actor { (O.seen office.new).actor ≡ (O.seen office.old).actor }
        ensures sound { IsSound (O.seen office.new) }
    {
        match ask_or_close(tunnel, call, office) {
            Err(refused) => {
                self.conn.fail(End::NoMemory);
                Err(refused)
            }
            Ok(reply) => self.conn.answer(reply),
        }
    }
}
