//! What a reader tells of a data stream.
ghost use Rattle.std.specs.Prelude.{◌≡◌};

use mq_wire::Bytes;
use thiserror::Error;

/// Why a data stream is malformed.
#[derive(Clone, Copy, Debug, PartialEq, Eq, Error)]
pub enum CapsuleFault {
    /// A control capsule's length is above 65,536.
    #[error("the value of a control capsule is longer than 65536 bytes")]
    TooLong,
    /// The value of a DATAGRAM capsule doesn't begin with a whole integer.
    #[error("the value of a DATAGRAM capsule has no whole Context ID")]
    NoContext,
}

/// What a capsule says.
#[derive(Drop)]
pub enum Item {
    /// A DATAGRAM capsule: its Context ID and its payload of at most 65,535 bytes.
    Datagram { context: u64, payload: Bytes },
    /// A DATAGRAM capsule with a longer payload, which wasn't kept. The length is that of the payload.
    TooLongDatagram { context: u64, length: u64 },
    /// A capsule of type 1 to 3 with its value of at most 65,536 bytes.
    Control { kind: u64, value: Bytes },
    /// The stream is malformed here, and nothing behind is read.
    Bad { fault: CapsuleFault },
}

/// A data stream ended inside a capsule.
#[derive(Clone, Copy, Debug, PartialEq, Eq, Error)]
#[error("the data stream ended inside a capsule")]
pub struct Truncated;
