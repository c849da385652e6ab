//! Fields, and the bytes of their names and values.
ghost use Rattle.std.specs.Prelude.{◌≡◌, IfOk};

use smallvec::SmallVec;
use std::alloc::{AllocError, Global};
use std::marker::Model;

/// A name or a value. Up to 32 bytes stand in it, and more in memory of their own.
#[derive(Drop)]
pub struct Text {
    bytes: SmallVec<u8, 32>,
}

impl Model for Text {
    ghost use Rattle.std.specs.Prelude.{ℕ, List};

    ghost Value = { List ℕ };

    ghost view = { λ t. t.bytes.items };
}

impl Text {
    /// A copy of these bytes.
    pub fn copy_of(alloc: Global, bytes: &[u8]) -> Result<Text, AllocError>
        ensures { IfOk result (λ t. t ≡ bytes.now) }
    {
        let bytes = SmallVec::from_slice(alloc, bytes)?;
        Ok(Text { bytes })
    }

    pub fn from_vec(list: Vec<u8>) -> Text
        ensures { result ≡ list.items }
    {
        Text {
            bytes: SmallVec::from_vec(list),
        }
    }

    pub fn as_slice(&self) -> &[u8]
        ensures { result.now ≡ self.now }
    {
        self.bytes.as_slice()
    }
}

/// A header field.
#[derive(Drop)]
pub struct Field {
    pub name: Text,
    pub value: Text,
}
