//! A parcel goes to the inbox of its place.
ghost use Rattle.std.specs.Prelude.{◌≡◌, ◌+◌};
ghost use Rattle.mq_machine.specs.Turn.{source_of as source_is};
ghost use Rattle.mq_talk.specs.Mails.{inbox_in};
ghost use Rattle.mq_pump.specs.Holds.{CanGo};
ghost use Rattle.mq_pump.specs.Pushes.{Pushes};

use mq_talk::{Cause, From, Mail, Note, Origin, Parcel, Pushed};

/// Where a note says that a packet comes from.
pub fn source_of(origin: Origin) -> From
    ensures { result ≡ source_is origin }
{
    match origin {
        Origin::Tunnel(tunnel) => From::Tunnel(tunnel),
        Origin::Net => From::Net,
    }
}

/// Pushes a parcel to the inbox of its place, or drops it where that is full.
pub fn push<M: Mail>(workers: u32, parcel: Parcel, mail: &mut M) -> Note
    requires parcel { CanGo workers parcel }
    requires inboxes { M.count mail.old ≡ workers + 1 }
    ensures gives { Pushes (M.count mail.old) (M.boxes mail.old) (inbox_in workers parcel.to) parcel result (M.boxes mail.new) }
    ensures actor { M.actor mail.new ≡ M.actor mail.old }
    ensures count { M.count mail.new ≡ M.count mail.old }
    ensures missed { M.missed mail.new ≡ M.missed mail.old }
{
    let from = source_of(parcel.from);
    let n = parcel.n;
    let to = parcel.to;
    match mail.push(to.inbox(workers), parcel) {
        Pushed::Taken => Note::PushedNote { from, n, to },
        Pushed::Full(_) => Note::Dropped {
            from,
            n,
            cause: Cause::InboxFull,
        },
    }
}
