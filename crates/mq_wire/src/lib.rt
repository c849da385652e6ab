//! Variable-length integers (RFC 9000, section 16), and the owned lists that contracts see as lists.
#![tactic(auto)]

mod bytes;
mod laws;
mod seq;
mod varint;

pub use bytes::Bytes;
pub use laws::{read_again, stands_alone, writes_shortest};
pub use seq::Seq;
use std::alloc::{AllocError, AllocFailed};
use thiserror::Error;
pub use varint::{Varint, WireFault, read_varint, write_varint};

/// Memory ran out.
#[derive(Clone, Copy, Debug, PartialEq, Eq, Error)]
#[error("memory ran out")]
pub struct NoMemory;

impl From<AllocError> for NoMemory {
    fn from(_: AllocError) -> NoMemory {
        NoMemory
    }
}

impl<T: Drop> From<AllocFailed<T>> for NoMemory {
    fn from(_: AllocFailed<T>) -> NoMemory {
        NoMemory
    }
}
