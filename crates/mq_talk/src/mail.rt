//! An actor's way to the inboxes.
ghost use Rattle.std.specs.Prelude.{◌≡◌, ℕ, ◌<◌};
ghost use Rattle.mq_talk.specs.Mails.{Inboxes, IsParcel, PushGives, PopGives, missed_by};

use crate::place::{Parcel, Pushed};

/// An actor's way to the inboxes: one for each worker by its number, and the last is the pump's. Each has room for 256
/// parcels. Nothing here takes memory.
pub trait Mail {
    /// Whose it is.
    ghost actor: { Self → ℕ };
    /// How many inboxes there are.
    ghost count: { Self → ℕ };
    /// The inboxes, and all that its actor moved, where it tells them.
    ghost boxes: { Self → Inboxes };
    /// How many pops gave nothing, where it doesn't tell its inboxes.
    ghost missed: { Self → ℕ };

    /// Puts a parcel at the back of an inbox, or hands it back where that inbox is full.
    fn push(&mut self, to: u32, parcel: Parcel) -> Pushed
        requires inbox { to < count self.old }
        requires packet { IsParcel parcel }
        ensures gives { PushGives (count self.old) (boxes self.old) to parcel result (boxes self.new) }
        ensures missed { missed self.new ≡ missed self.old }
        ensures actor { actor self.new ≡ actor self.old }
        ensures count { count self.new ≡ count self.old };

    /// Takes the parcel at the front of the actor's own inbox, if it has one.
    fn pop(&mut self) -> Option<Parcel>
        ensures gives { PopGives (count self.old) (boxes self.old) (actor self.old) result (boxes self.new) }
        ensures missed { missed self.new ≡ missed_by result (boxes self.old).told (missed self.old) }
        ensures actor { actor self.new ≡ actor self.old }
        ensures count { count self.new ≡ count self.old };
}
