//! A parcel goes to the inbox of its place.
ghost use Rattle.std.specs.Prelude.{◌≡◌, ◌+◌};
ghost use Rattle.mq_talk.specs.declared.place.Parcel.{Parcel};
ghost use Rattle.mq_talk.specs.Mails.{HasInbox};
ghost use Rattle.mq_machine.specs.State as machine;
ghost use Rattle.mq_machine.specs.Want.{want_of, Push};
ghost use Rattle.mq_conn.specs.Conns.{IsConn};
ghost use Rattle.mq_held.specs.Packets.{Pushes};

use crate::held::Held;
use mq_talk::{Mail, Note};

impl<L> Held<L> {
    /// Pushes the parcel that it wants to push, or drops it where the inbox of its place is full. So many workers have an inbox
    /// before the pump's.
    #[inline(never)]
    pub fn push<M: Mail>(&mut self, workers: u32, mail: &mut M) -> Note
        requires wants { (s : machine.Conn) × (parcel : Parcel) × IsConn self.old.conn s × (want_of s ≡ Push parcel) × HasInbox workers parcel.to }
        requires inboxes { M.count mail.old ≡ workers + 1 }
        ensures gives { (s : machine.Conn) → IsConn self.old.conn s → (parcel : Parcel) → want_of s ≡ Push parcel
            → Pushes (M.count mail.old) (M.boxes mail.old) (M.boxes mail.new) workers (IsConn self.new.conn) s parcel result }
        ensures rest { self.new ≡ record self.old { conn = self.new.conn } }
        ensures mail { M.actor mail.new ≡ M.actor mail.old }
        ensures inboxes { M.count mail.new ≡ M.count mail.old }
        ensures missed { M.missed mail.new ≡ M.missed mail.old }
    {
        let parcel = self.conn.parcel();
        let to = parcel.to.inbox(workers);
        let pushed = mail.push(to, parcel);
        self.conn.pushed(pushed)
    }
}
