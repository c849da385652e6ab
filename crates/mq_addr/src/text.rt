//! A short text that takes no memory.
ghost use Rattle.std.specs.Prelude.{◌≡◌, ◌+◌, ◌<◌, ◌≤◌, ◌++◌, List, [], ◌∷◌, ℕ, length, take};
ghost use Rattle.std.specs.Str.{IsAscii};

use std::marker::Model;

/// The room of a text: the longest prefix has 39 bytes of address, a slash and three digits.
const ROOM: usize = 43;

/// At most 43 ASCII bytes.
#[derive(Drop)]
pub struct Text {
    bytes: [u8; ROOM],
    used: usize,
}

impl Model for Text {
    ghost Value = { List ℕ };

    ghost view = { λ t. take t.used t.bytes };

    ghost invariant = { λ t. (t.used ≤ 43) × IsAscii (take t.used t.bytes) };
}

impl Text {
    /// The bytes, which are ASCII.
    pub fn as_slice(&self) -> &[u8]
        ensures value { result.now ≡ self.now }
        ensures short { length result.now ≤ 43 }
        ensures ascii { IsAscii result.now }
    {
        let (text, _) = self.bytes.split_at(self.used);
        text
    }

    /// A text without bytes.
    pub(crate) fn new() -> Text
        ensures { result ≡ [] }
    {
        Text {
            bytes: [0; ROOM],
            used: 0,
        }
    }

    /// Puts an ASCII byte at the end.
    pub(crate) fn push(&mut self, byte: u8)
        requires room { length self.old < 43 }
        requires ascii { byte < 128 }
        ensures { self.new ≡ self.old ++ byte ∷ [] }
    {
        self.bytes[self.used] = byte;
        self.used += 1;
    }

    /// Puts ASCII bytes at the end.
    pub(crate) fn append(&mut self, bytes: &[u8])
        requires room { length self.old + length bytes.now ≤ 43 }
        requires ascii { IsAscii bytes.now }
        ensures { self.new ≡ self.old ++ bytes.now }
    {
        for byte in bytes {
            self.push(*byte);
        }
    }
}
