//! What a reader keeps of a capsule that isn't whole.
ghost use Rattle.std.specs.Prelude.{◌≡◌};
ghost use Rattle.mq_capsule.specs.Steps.{is_begun, is_between};

use super::front::{Kept, Skipped};
use arrayvec::ArrayVec;

/// What was read of the capsule that comes next.
#[derive(Drop)]
pub enum State {
    /// Less than its front, which is at most three integers of eight bytes.
    Front {
        bytes: ArrayVec<u8, 24>,
    },
    /// Its front, and some of the bytes behind it. So many are missing.
    Keep {
        what: Kept,
        bytes: Vec<u8>,
        missing: u64,
    },
    /// The front of a capsule that is read past. So many bytes are missing.
    Skip {
        what: Skipped,
        missing: u64,
    },
    /// The stream is malformed. Nothing is read any more.
    Ended,
    /// Memory ran out. Nothing is read any more.
    Spent,
}

impl State {
    /// Whether the next byte begins a capsule. Where nothing is read any more none does.
    pub fn is_between(&self) -> bool
        ensures { result ≡ is_between self.now }
    {
        match self {
            State::Front { bytes } => bytes.is_empty(),
            _ => false,
        }
    }

    /// Whether bytes of an unfinished capsule were read.
    pub fn is_begun(&self) -> bool
        ensures { result ≡ is_begun self.now }
    {
        match self {
            State::Front { bytes } => !bytes.is_empty(),
            State::Keep { .. } | State::Skip { .. } => true,
            State::Ended | State::Spent => false,
        }
    }
}
