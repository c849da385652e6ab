//! A packet is received from the network, and judged.
ghost use Rattle.std.specs.Prelude.{◌≡◌, ◌≤◌, ⊤, length, None, MatchOption};
ghost use Rattle.mq_talk.specs.declared.note.From.TheVariants.{Net};
ghost use Rattle.mq_talk.specs.declared.note.Note.TheVariants.{Dropped};
ghost use Rattle.mq_talk.specs.Offices.{IsSound};
ghost use Rattle.mq_talk.specs.Packets.{flow_of};
ghost use Rattle.mq_pump.specs.Holds.{CanGo};
ghost use Rattle.mq_pump.specs.Receives.{Comes, one_more, ReceiveGives};
ghost use Rattle.mq_pump.specs.Sends.{net_seen};

use crate::pump::Pump;
use crate::ready::NetReady;
use mq_book::judged_has_inbox;
use mq_iphdr::check;
use mq_outside::{PortGot, risen};
use mq_talk::{Cause, From, Note, Office, Origin, Parcel, Verdict};
use mq_wire::{Bytes, NoMemory};

/// Packet `n` of the network is dropped.
fn dropped(n: u64, cause: Cause) -> Note
    ensures { result ≡ Dropped Net n cause }
{
    Note::Dropped {
        from: From::Net,
        n,
        cause,
    }
}

impl<N: NetReady> Pump<N> {
    /// Receives a packet, where there is one. Memory is taken only where the network may give one.
    pub(crate) fn receive<O: Office>(&mut self, office: &mut O) -> Result<Option<Note>, NoMemory>
        requires none { self.old.to_push ≡ None }
        requires room { length self.old.datagrams.room.items ≡ 65535 }
        requires office { (O.seen office.old).config.workers ≡ self.old.workers }
        requires sound { IsSound (O.seen office.old) }
        ensures gives { ReceiveGives (net_seen (N.holds self.old.net) (N.counts self.old.net)) (net_seen (N.holds self.new.net) (N.counts self.new.net)) (O.seen office.old) (O.seen office.new) self.old.mtu self.old.received self.new.received self.new.to_push result }
        ensures left { MatchOption self.new.to_push ⊤ (CanGo self.old.workers) }
        ensures room { length self.new.datagrams.room.items ≡ 65535 }
        ensures rest { self.new ≡ record self.old { net = self.new.net; received = self.new.received; to_push = self.new.to_push; datagrams = self.new.datagrams } }
        ensures sound { IsSound (O.seen office.new) }
        ensures actor { (O.seen office.new).actor ≡ (O.seen office.old).actor }
    {
        if !self.net.would_give() {
            let _ = self.net.recv(self.datagrams.room.as_mut_slice());
            return Ok(None);
        }
        let spare = self.datagrams.take_spare(self.alloc)?;
        match self.net.recv(self.datagrams.room.as_mut_slice()) {
            PortGot::NotNow | PortGot::Failed => {
                self.datagrams.spare = Some(spare);
                Ok(None)
            }
            PortGot::Datagram(count) => {
                let packet = self.datagrams.keep(self.alloc, spare, count as usize);
                Ok(Some(self.came(packet, office)))
            }
        }
    }

    /// A packet came: it is judged, unless its header is bad or it is too long.
    fn came<O: Office>(&mut self, packet: Bytes, office: &mut O) -> Note
        requires none { self.old.to_push ≡ None }
        requires size { length packet ≤ 65535 }
        requires office { (O.seen office.old).config.workers ≡ self.old.workers }
        requires sound { IsSound (O.seen office.old) }
        ensures gives { Comes (O.seen office.old) (O.seen office.new) self.old.mtu self.old.received packet (flow_of packet) result self.new.to_push }
        ensures left { MatchOption self.new.to_push ⊤ (CanGo self.old.workers) }
        ensures rest { self.new ≡ record self.old { received = one_more self.old.received; to_push = self.new.to_push } }
        ensures sound { IsSound (O.seen office.new) }
        ensures actor { (O.seen office.new).actor ≡ (O.seen office.old).actor }
    {
        let n = self.received;
        self.received = risen(n);
        let Ok(view) = check(packet.as_slice()) else {
            return dropped(n, Cause::BadHeader);
        };
        if packet.as_slice().len() > self.mtu as usize {
            return dropped(n, Cause::TooLong);
        }
        judged_has_inbox();
        let judged = office.judge(Origin::Net, &view.flow);
        match judged.verdict {
            Verdict::Source => dropped(n, Cause::Source),
            Verdict::NoRoute => dropped(n, Cause::NoRoute),
            Verdict::Pass(to) => {
                self.to_push = Some(Parcel {
                    from: Origin::Net,
                    n,
                    to,
                    packet,
                });
                Note::Passed {
                    from: From::Net,
                    n,
                    at: judged.at,
                    to,
                }
            }
        }
    }
}
