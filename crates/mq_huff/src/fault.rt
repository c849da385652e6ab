//! Why a text was not decoded.

use std::alloc::{AllocError, AllocFailed};
use thiserror::Error;

/// Why a text was not decoded.
#[derive(Clone, Copy, Debug, PartialEq, Eq, Error)]
pub enum HuffFault {
    /// What follows the last symbol has eight or more bits, or a zero bit.
    #[error("the padding is longer than seven bits, or has a zero bit")]
    Padding,
    /// The code of EOS stands in the text.
    #[error("the code of EOS stands in the text")]
    Eos,
    /// Memory ran out.
    #[error("memory ran out")]
    NoMemory,
}

impl From<AllocError> for HuffFault {
    ghost use Rattle.std.specs.Prelude.{◌≡◌};
    ghost use Rattle.mq_huff.specs.declared.fault.HuffFault.TheVariants.{NoMemory};

    ghost from_gives = { λ _ e. e ≡ NoMemory };

    fn from(_: AllocError) -> HuffFault {
        HuffFault::NoMemory
    }
}

impl<T: Drop> From<AllocFailed<T>> for HuffFault {
    ghost use Rattle.std.specs.Prelude.{◌≡◌};
    ghost use Rattle.mq_huff.specs.declared.fault.HuffFault.TheVariants.{NoMemory};

    ghost from_gives = { λ _ e. e ≡ NoMemory };

    fn from(_: AllocFailed<T>) -> HuffFault {
        HuffFault::NoMemory
    }
}
