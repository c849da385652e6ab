//! The network is sent what came through the inbox.
ghost use Rattle.std.specs.Prelude.{◌≡◌, ⊤, None, MatchOption};
ghost use Rattle.mq_talk.specs.Mails.{missed_by};
ghost use Rattle.mq_pump.specs.Holds.{CanSend};
ghost use Rattle.mq_pump.specs.Sends.{net_seen, Tries, SendsNext, SendGives, missed_behind};

use crate::pump::Pump;
use crate::push::source_of;
use mq_outside::{Net, PortPut};
use mq_talk::{Cause, Mail, Note, Parcel};

impl<N: Net> Pump<N> {
    /// Sends what waits for the network, or else the next parcel of the inbox, where one of these can be done.
    pub(crate) fn send<M: Mail>(&mut self, mail: &mut M) -> Option<Note>
        requires waits { MatchOption self.old.to_send ⊤ CanSend }
        ensures gives { SendGives self.old.to_send (M.count mail.old) (M.boxes mail.old) (M.actor mail.old) (M.boxes mail.new) (net_seen (N.holds self.old.net) (N.counts self.old.net)) (net_seen (N.holds self.new.net) (N.counts self.new.net)) result self.new.to_send }
        ensures left { MatchOption self.new.to_send ⊤ CanSend }
        ensures rest { self.new ≡ record self.old { net = self.new.net; to_send = self.new.to_send } }
        ensures actor { M.actor mail.new ≡ M.actor mail.old }
        ensures count { M.count mail.new ≡ M.count mail.old }
        ensures missed { M.missed mail.new ≡ missed_behind self.old.to_send result (M.boxes mail.old).told (M.missed mail.old) }
    {
        match self.to_send.take() {
            Some(parcel) => self.try_send(parcel),
            None => self.send_next(mail),
        }
    }

    /// Sends the next parcel of the inbox. One that the network doesn't take now waits.
    fn send_next<M: Mail>(&mut self, mail: &mut M) -> Option<Note>
        requires none { self.old.to_send ≡ None }
        ensures gives { SendsNext (M.count mail.old) (M.boxes mail.old) (M.actor mail.old) (M.boxes mail.new) (net_seen (N.holds self.old.net) (N.counts self.old.net)) (net_seen (N.holds self.new.net) (N.counts self.new.net)) result self.new.to_send }
        ensures left { MatchOption self.new.to_send ⊤ CanSend }
        ensures rest { self.new ≡ record self.old { net = self.new.net; to_send = self.new.to_send } }
        ensures actor { M.actor mail.new ≡ M.actor mail.old }
        ensures count { M.count mail.new ≡ M.count mail.old }
        ensures missed { M.missed mail.new ≡ missed_by result (M.boxes mail.old).told (M.missed mail.old) }
    {
        let parcel = mail.pop()?;
        let waits = Note::Waits {
            from: source_of(parcel.from),
            n: parcel.n,
        };
        Some(self.try_send(parcel).unwrap_or(waits))
    }

    /// Sends a parcel. Where the network takes nothing now, there is no note, and the parcel waits.
    fn try_send(&mut self, parcel: Parcel) -> Option<Note>
        requires none { self.old.to_send ≡ None }
        requires size { CanSend parcel }
        ensures gives { Tries (net_seen (N.holds self.old.net) (N.counts self.old.net)) (net_seen (N.holds self.new.net) (N.counts self.new.net)) parcel result self.new.to_send }
        ensures left { MatchOption self.new.to_send ⊤ CanSend }
        ensures rest { self.new ≡ record self.old { net = self.new.net; to_send = self.new.to_send } }
    {
        let from = source_of(parcel.from);
        let n = parcel.n;
        match self.net.send(parcel.packet.as_slice()) {
            PortPut::Sent => Some(Note::Sent {
                from,
                n,
                packet: parcel.packet,
            }),
            PortPut::NotNow => {
                self.to_send = Some(parcel);
                None
            }
            PortPut::Failed => Some(Note::Dropped {
                from,
                n,
                cause: Cause::Port,
            }),
        }
    }
}
