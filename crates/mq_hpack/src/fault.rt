//! Why a block was not read.

use mq_wire::NoMemory;
use std::alloc::{AllocError, AllocFailed};
use thiserror::Error;

/// Why a block was not read.
#[derive(Clone, Copy, Debug, PartialEq, Eq, Error)]
pub enum HpackFault {
    /// An index of 0 in an indexed field, or one past the table.
    #[error("an index has no field in the table")]
    Index,
    /// An integer above 2^32 - 1, with more than five further bytes, or that isn't whole.
    #[error("an integer is too large, has too many bytes, or is not whole")]
    Integer,
    /// A string that is longer than the rest of the block, or a fault of its Huffman code.
    #[error("a string is not whole, or has a fault of its Huffman code")]
    Text,
    /// A size update after a field, or above 4,096.
    #[error("a size update stands after a field, or is above 4096")]
    Update,
    /// The fields count more than 16,384.
    #[error("the fields count more than 16384")]
    TooLarge,
    /// Memory ran out.
    #[error("memory ran out")]
    NoMemory,
}

impl From<AllocError> for HpackFault {
    ghost use Rattle.std.specs.Prelude.{◌≡◌};
    ghost use Rattle.mq_hpack.specs.declared.fault.HpackFault.TheVariants.{NoMemory};

    ghost from_gives = { λ _ e. e ≡ NoMemory };

    fn from(_: AllocError) -> HpackFault {
        HpackFault::NoMemory
    }
}

impl<T: Drop> From<AllocFailed<T>> for HpackFault {
    ghost use Rattle.std.specs.Prelude.{◌≡◌};
    ghost use Rattle.mq_hpack.specs.declared.fault.HpackFault.TheVariants.{NoMemory};

    ghost from_gives = { λ _ e. e ≡ NoMemory };

    fn from(_: AllocFailed<T>) -> HpackFault {
        HpackFault::NoMemory
    }
}

impl From<NoMemory> for HpackFault {
    ghost use Rattle.std.specs.Prelude.{◌≡◌};
    ghost use Rattle.mq_hpack.specs.declared.fault.HpackFault.TheVariants.{NoMemory};

    ghost from_gives = { λ _ e. e ≡ NoMemory };

    fn from(_: NoMemory) -> HpackFault {
        HpackFault::NoMemory
    }
}
