//! Bytes that are kept in a room that was taken before.
ghost use Rattle.std.specs.Prelude.{◌≡◌, ◌≤◌, ◌-◌, ◌++◌, [], length, IfOk};
ghost use Rattle.std.specs.Vec.{vec_capacity, vec_len};
ghost use Rattle.mq_mem.specs.Links.{Kept};

use mq_wire::NoMemory;
use std::alloc::Global;
use std::marker::Model;

/// Bytes, and how many there is room for.
#[derive(Drop)]
pub struct Room {
    taken: Vec<u8>,
    room: u32,
}

impl Model for Room {
    ghost Value = { Kept };

    ghost view = { λ r. record { taken = r.taken.items; room = r.room } };

    ghost invariant = { λ r. (vec_len r.taken ≤ r.room) × (r.room ≤ vec_capacity r.taken) };
}

impl Room {
    /// Room for so many bytes.
    pub fn new(alloc: Global, room: u32) -> Result<Room, NoMemory>
        ensures { IfOk result (λ r. r ≡ record { taken = []; room = room }) }
    {
        let taken = Vec::with_capacity(alloc, room as usize)?;
        Ok(Room { taken, room })
    }

    /// The bytes.
    pub fn taken(&self) -> &[u8]
        ensures { result.now ≡ self.now.taken }
    {
        self.taken.as_slice()
    }

    /// How many bytes more there is room for.
    pub fn free(&self) -> u32
        ensures { result ≡ self.now.room - length self.now.taken }
    {
        self.room - self.taken.len() as u32
    }

    /// Keeps some bytes more.
    pub fn keep(&mut self, bytes: &[u8])
        requires { length bytes.now ≤ self.old.room - length self.old.taken }
        ensures { self.new ≡ record self.old { taken = self.old.taken ++ bytes.now } }
    {
        if self.taken.extend_from_slice(bytes).is_err() {
            unreachable!()
        }
    }
}
