//! The inbox of one actor, in a room that was taken before.
ghost use Rattle.std.specs.Prelude.{◌≡◌, ◌≤◌, [], List, IfOk};
ghost use Rattle.std.specs.List.{All};
ghost use Rattle.std.specs.VecDeque.{deque_capacity};
ghost use Rattle.mq_talk.specs.declared.place.Parcel.{Parcel as ParcelOf};
ghost use Rattle.mq_talk.specs.Mails.{IsParcel};
ghost use Rattle.mq_mem.specs.Mails.{Pushes, Pops, is_waiting};

use mq_talk::{Parcel, Pushed};
use mq_wire::NoMemory;
use std::alloc::Global;
use std::collections::VecDeque;
use std::marker::Model;

/// The most parcels that wait in an inbox.
const MOST: usize = 256;

/// Parcels, oldest first.
#[derive(Drop)]
pub struct Inbox {
    parcels: VecDeque<Parcel>,
}

impl Model for Inbox {
    ghost Value = { List ParcelOf };

    ghost view = { λ b. b.parcels.items };

    ghost invariant = { λ b. (256 ≤ deque_capacity b.parcels) × All IsParcel b.parcels.items };
}

impl Inbox {
    /// An empty inbox, with all the room that it will ever need.
    pub fn new(alloc: Global) -> Result<Inbox, NoMemory>
        ensures { IfOk result (λ b. b ≡ []) }
    {
        let parcels = VecDeque::with_capacity(alloc, MOST)?;
        Ok(Inbox { parcels })
    }

    /// Puts a parcel at the back, or hands it back where 256 wait.
    pub fn push(&mut self, parcel: Parcel) -> Pushed
        requires { IsParcel parcel }
        ensures { Pushes self.old parcel result self.new }
    {
        if self.parcels.len() >= MOST {
            return Pushed::Full(parcel);
        }
        if self.parcels.push_back(parcel).is_err() {
            unreachable!()
        }
        Pushed::Taken
    }

    /// Takes the parcel at the front.
    pub fn pop(&mut self) -> Option<Parcel>
        ensures { Pops self.old result self.new }
    {
        self.parcels.pop_front()
    }

    /// Whether a parcel waits.
    pub fn is_waiting(&self) -> bool
        ensures { result ≡ is_waiting self.now }
    {
        !self.parcels.is_empty()
    }
}
