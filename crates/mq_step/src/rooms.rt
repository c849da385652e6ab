//! Room for what is read and received, which all connections of a worker use in turn.
ghost use Rattle.std.specs.Prelude.{IfOk};
ghost use Rattle.mq_step.specs.Rooms.{HasRooms};

use mq_ports::Datagrams;
use mq_wire::NoMemory;
use std::alloc::Global;

/// The most bytes of one read.
const MOST_READ: usize = 16_384;

/// Room for the bytes of one read, and for one datagram.
#[derive(Drop)]
pub struct Rooms {
    pub bytes: Vec<u8>,
    pub datagrams: Datagrams,
}

impl Rooms {
    /// Takes the room for both.
    pub fn new(alloc: Global) -> Result<Rooms, NoMemory>
        ensures { IfOk result (λ rooms. HasRooms rooms) }
    {
        Ok(Rooms {
            bytes: Vec::from_elem(alloc, 0, MOST_READ)?,
            datagrams: Datagrams::new(alloc)?,
        })
    }
}
