//! Room for the datagram or packet that is received next.
ghost use Rattle.std.specs.Prelude.{◌≡◌, ◌≢◌, ◌≤◌, length, take, Some, None, IfOk, OnErr, IfSome};

use mq_wire::{Bytes, NoMemory};
use std::alloc::Global;

/// The most bytes of a datagram or a packet.
pub const MOST_DATAGRAM: usize = 65_535;

/// Room into which datagrams or packets are received, and room for one that can't be copied from there, so that none is lost
/// for want of memory.
#[derive(Drop)]
pub struct Datagrams {
    /// 65,535 bytes.
    pub room: Vec<u8>,
    /// As many. There is none until something may come, nor once it has come in the room's place.
    pub spare: Option<Vec<u8>>,
}

/// As many bytes as a datagram has at most.
fn room(alloc: Global) -> Result<Vec<u8>, NoMemory>
    ensures { IfOk result (λ room. length room.items ≡ 65535) }
{
    let room = Vec::from_elem(alloc, 0, MOST_DATAGRAM)?;
    Ok(room)
}

impl Datagrams {
    /// Takes the room that is received into.
    pub fn new(alloc: Global) -> Result<Datagrams, NoMemory>
        ensures { IfOk result (λ datagrams. (length datagrams.room.items ≡ 65535) × (datagrams.spare ≡ None)) }
    {
        let room = room(alloc)?;
        Ok(Datagrams { room, spare: None })
    }

    /// Takes the spare out, or takes memory for it.
    pub fn take_spare(&mut self, alloc: Global) -> Result<Vec<u8>, NoMemory>
        ensures spare { IfOk result (λ spare. length spare.items ≡ 65535) }
        ensures none { OnErr result (IfSome self.old.spare (λ spare. length spare.items ≢ 65535)) }
        ensures room { self.new.room ≡ self.old.room }
    {
        match self.spare.take() {
            Some(spare) if spare.len() == MOST_DATAGRAM => Ok(spare),
            _ => room(alloc),
        }
    }

    /// The first bytes of the room: a copy of them, or else the room itself, in whose place the spare comes.
    pub fn keep(&mut self, alloc: Global, spare: Vec<u8>, count: usize) -> Bytes
        requires count { count ≤ length self.old.room.items }
        requires spare { length spare.items ≡ length self.old.room.items }
        ensures first { result ≡ take count self.old.room.items }
        ensures room { length self.new.room.items ≡ length self.old.room.items }
    {
        let (first, _) = self.room.as_slice().split_at(count);
        match Vec::from_slice(alloc, first) {
            Ok(copy) => {
                self.spare = Some(spare);
                Bytes::from_vec(copy)
            }
            Err(_) => {
                let mut packet = std::mem::replace(&mut self.room, spare);
                packet.truncate(count);
                Bytes::from_vec(packet)
            }
        }
    }
}
