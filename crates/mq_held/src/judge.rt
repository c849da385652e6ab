//! A packet of a tunnel for IP packets is judged by the book.
ghost use Rattle.std.specs.Prelude.{◌≡◌, ℕ};
ghost use Rattle.mq_talk.specs.Offices.{IsSound, MayJudge};
ghost use Rattle.mq_machine.specs.State as machine;
ghost use Rattle.mq_machine.specs.Want.{want_of, Judge};
ghost use Rattle.mq_conn.specs.Conns.{IsConn};
ghost use Rattle.mq_held.specs.Packets.{Judges};

use crate::held::Held;
use mq_addr::Flow;
use mq_talk::{Note, Office, Origin};

impl<L> Held<L> {
    /// Asks the book whether the packet that it wants judged may go on, and where (RFC 9484, section 4.7).
    #[inline(never)]
    pub fn judge<O: Office>(&mut self, tunnel: u32, flow: &Flow, office: &mut O) -> Note
        requires may { MayJudge (O.seen office.old) (O.seen office.old).actor (Origin.Tunnel tunnel) }
        ensures gives { (s : machine.Conn) → IsConn self.old.conn s → (n : ℕ) → want_of s ≡ Judge tunnel n flow.now
            → Judges (O.seen office.old) (O.seen office.new) (IsConn self.new.conn) s tunnel flow.now result }
        ensures rest { self.new ≡ record self.old { conn = self.new.conn } }
        ensures actor { (O.seen office.new).actor ≡ (O.seen office.old).actor }
        ensures sound { IsSound (O.seen office.old) → IsSound (O.seen office.new) }
    {
        let judged = office.judge(Origin::Tunnel(tunnel), flow);
        self.conn.judged(judged)
    }
}
