//! Why a value isn't one.
ghost use Rattle.std.specs.Prelude.{◌≡◌};
ghost use Rattle.mq_ipcaps.specs.declared.fault.CapsFault.TheVariants.{NoMemory};

use std::alloc::{AllocError, AllocFailed};
use thiserror::Error;

/// Why a value isn't one, by the first place where it fails.
#[derive(Clone, Copy, Debug, PartialEq, Eq, Error)]
pub enum CapsFault {
    /// The bytes end inside an entry or a range.
    #[error("the value ends inside an entry or a range")]
    Truncated,
    /// Neither 4 nor 6.
    #[error("an IP version is neither 4 nor 6")]
    Version,
    /// A prefix length above the address's bits, or a bit set past it.
    #[error("a prefix length is above the bits of its address, or a bit past it is set")]
    Bits,
    /// A request without an entry.
    #[error("a request has no entry")]
    Empty,
    /// A request's entry with Request ID 0.
    #[error("an entry of a request has Request ID 0")]
    ZeroId,
    /// A range whose first address is above its last, or that isn't behind the one before.
    #[error("a range is reversed, or is not behind the one before")]
    Order,
    /// More entries or ranges than are taken.
    #[error("there are more entries or ranges than are taken")]
    TooMany,
    #[error("memory ran out")]
    NoMemory,
}

impl From<AllocError> for CapsFault {
    ghost from_gives = { λ _ e. e ≡ NoMemory };

    fn from(_: AllocError) -> CapsFault {
        CapsFault::NoMemory
    }
}

impl<T: Drop> From<AllocFailed<T>> for CapsFault {
    ghost from_gives = { λ _ e. e ≡ NoMemory };

    fn from(_: AllocFailed<T>) -> CapsFault {
        CapsFault::NoMemory
    }
}
