//! Why a line isn't read.

use hex::FromHexError;
use mq_wire::NoMemory;
use std::alloc::AllocError;
use thiserror::Error;

/// Why a line isn't read.
#[derive(Clone, Copy, Debug, PartialEq, Eq, Error)]
pub enum LineFault {
    /// The line is outside the grammar.
    #[error("the line is outside the grammar")]
    Syntax,
    /// Memory ran out.
    #[error("memory ran out")]
    NoMemory,
}

impl From<NoMemory> for LineFault {
    ghost use Rattle.std.specs.Prelude.{◌≡◌};
    ghost use Rattle.mq_script.specs.declared.fault.LineFault.TheVariants as fault;

    ghost from_gives = { λ _ e. e ≡ fault.NoMemory };

    fn from(_: NoMemory) -> LineFault {
        LineFault::NoMemory
    }
}

impl From<AllocError> for LineFault {
    ghost use Rattle.std.specs.Prelude.{◌≡◌};
    ghost use Rattle.mq_script.specs.declared.fault.LineFault.TheVariants.{NoMemory};

    ghost from_gives = { λ _ e. e ≡ NoMemory };

    fn from(_: AllocError) -> LineFault {
        LineFault::NoMemory
    }
}

impl From<FromHexError> for LineFault {
    ghost use Rattle.std.specs.Prelude.{◌≡◌, ◌↔◌};
    ghost use Rattle.hex.specs.declared.error.FromHexError.TheVariants.{OutOfMemory};
    ghost use Rattle.mq_script.specs.declared.fault.LineFault.TheVariants as to;

    ghost from_gives = { λ fault e. (e ≡ to.NoMemory) ↔ (fault ≡ OutOfMemory) };

    fn from(fault: FromHexError) -> LineFault {
        match fault {
            FromHexError::OutOfMemory => LineFault::NoMemory,
            _ => LineFault::Syntax,
        }
    }
}
