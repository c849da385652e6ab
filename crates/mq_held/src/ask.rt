//! The book is asked, and a connection hears what it replies.
ghost use Rattle.std.specs.Prelude.{◌≡◌};
ghost use Rattle.mq_iptun.specs.Answers.{CanTell};
ghost use Rattle.mq_talk.specs.Answers.{MayCall};
ghost use Rattle.mq_talk.specs.Offices.{IsSound};
ghost use Rattle.mq_machine.specs.State as machine;
ghost use Rattle.mq_machine.specs.Want.{want_of, Ask};
ghost use Rattle.mq_conn.specs.Conns.{IsConn};
ghost use Rattle.mq_held.specs.Answers.{AskGives, HearGives, IsPlain, OpensFresh, opened_by};

use crate::held::Held;
use mq_book::begins_legal;
use mq_iptun::answers_can_be_told;
use mq_talk::{Call, End, Note, Office, Reply};
use mq_wire::NoMemory;

/// The note of what the book replied, and the tunnel that opened by it.
#[derive(Drop)]
pub struct Heard {
    pub note: Note,
    pub opened: Option<u32>,
}

/// The tunnel that a reply opened.
fn opened_by(reply: &Reply) -> Option<u32>
    ensures { result ≡ opened_by reply.now }
{
    match reply {
        Reply::Opened { tunnel, .. } => Some(*tunnel),
        _ => None,
    }
}

impl<L> Held<L> {
    /// Hears a reply of the book.
    fn hear(&mut self, reply: Reply) -> Result<Heard, NoMemory>
        requires { CanTell reply }
        ensures gives { HearGives self.old.conn self.new.conn reply result }
        ensures rest { self.new ≡ record self.old { conn = self.new.conn } }
    {
        let opened = opened_by(&reply);
        match self.conn.answer(reply) {
            Ok(note) => Ok(Heard { note, opened }),
            Err(refused) => Err(refused),
        }
    }

    /// Asks the book what it wants to ask: that its tunnel opens, or closes.
    #[inline(never)]
    pub fn ask<O: Office>(&mut self, call: Call, office: &mut O) -> Result<Heard, NoMemory>
        requires sound { IsSound (O.seen office.old) }
        requires may { MayCall (O.seen office.old).config (O.seen office.old).entries (O.seen office.old).actor call }
        ensures gives { (s : machine.Conn) → IsConn self.old.conn s → IsPlain call → want_of s ≡ Ask call
            → OpensFresh (O.seen office.old).actor (O.seen office.old) call (O.seen office.new) s.tunnels
            → AskGives (O.seen office.old).actor (O.seen office.old) call (O.seen office.new) (IsConn self.new.conn) s result }
        ensures rest { self.new ≡ record self.old { conn = self.new.conn } }
        ensures actor { (O.seen office.new).actor ≡ (O.seen office.old).actor }
        ensures sound { IsSound (O.seen office.new) }
    {
        begins_legal();
        answers_can_be_told();
        match office.call(call) {
            Err(refused) => {
                self.conn.fail(End::NoMemory);
                Err(refused)
            }
            Ok(reply) => self.hear(reply),
        }
    }
}
