//! The end of an act.
ghost use Rattle.std.specs.Prelude.{◌≡◌, List, [], ◌∷◌, None, Some, MatchOption};
ghost use Rattle.mq_machine.specs.declared.act.Due.{Due};
ghost use Rattle.mq_machine.specs.Laws.{BeginsWithAct};
ghost use Rattle.mq_machine.specs.Lawful.{IsLoose};
ghost use Rattle.mq_machine.specs.Settle.{settle, passing};
ghost use Rattle.mq_machine.specs.State as machine;
ghost use Rattle.mq_conn.specs.Conns.{Stands, behind};
ghost use Rattle.mq_conn.specs.Marks.{Spends, mark_due};

use crate::conn::Conn;
use mq_machine::Due;
use mq_talk::End;

/// What is due and no act.
#[derive(Clone, Copy)]
enum Mark {
    /// All of a DATA frame is done, which had so many bytes.
    Spend { stream: u32, size: u32 },
    /// An error of the connection, with its code.
    Fault { code: u32 },
}

fn mark_of(due: &Due) -> Option<Mark>
    ensures { MatchOption result (BeginsWithAct (due.now ∷ [])) (λ mark. due.now ≡ mark_due mark) }
{
    match due {
        Due::Do(_) => None,
        Due::Spend { stream, size } => Some(Mark::Spend {
            stream: *stream,
            size: *size,
        }),
        Due::Fault { code } => Some(Mark::Fault { code: *code }),
    }
}

impl Conn {
    /// The mark that is in front, if one is.
    fn mark(&self) -> Option<Mark>
        ensures { MatchOption result (BeginsWithAct (behind self.now.first self.now.due)) (λ mark. (rest : List Due) × (self.now.first ≡ None) × (self.now.due ≡ mark_due mark ∷ rest)) }
    {
        if self.first.is_some() {
            return None;
        }
        mark_of(self.due.first()?)
    }

    /// Marks in front are passed. Behind a fault the connection is ending.
    fn pass(&mut self)
        ensures { (s : machine.Conn) → Stands self.old s → IsLoose s → Stands self.new (passing s.due s) }
    {
        while let Some(mark) = self.mark() {
            match mark {
                Mark::Spend { stream, size } => self.spend(stream, size),
                Mark::Fault { code } => self.fault(code),
            }
        }
    }

    /// All of a DATA frame is done.
    #[inline(never)]
    fn spend(&mut self, stream: u32, size: u32)
        ensures spends { Spends self.old self.new stream size }
        ensures rest { (d : Due) (rest : List Due) → self.old.due ≡ d ∷ rest → self.new.due ≡ rest }
    {
        let _ = self.due.pop();
        if let Some(front) = &mut self.front {
            front.spend(stream, size);
        }
    }

    /// It is ending, for an error of the connection.
    #[inline(never)]
    fn fault(&mut self, code: u32)
        ensures { self.new ≡ record self.old { due = []; ending = Some (End.Protocol code) } }
    {
        self.due.clear();
        self.ending = Some(End::Protocol { code });
    }

    /// The end of an act: marks in front are passed, and in HTTP/2, where nothing is owed, the next WINDOW_UPDATE is put.
    pub(crate) fn settle(&mut self)
        ensures { (s : machine.Conn) → Stands self.old s → IsLoose s → Stands self.new (settle s) }
    {
        self.pass();
        if let Some(front) = &mut self.front {
            front.update();
        }
    }
}
