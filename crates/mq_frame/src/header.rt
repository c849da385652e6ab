//! The nine bytes at the front of a frame (RFC 9113, section 4.1).
ghost use Rattle.std.specs.Prelude.{◌≡◌, ◌<◌, ◌≤◌, length, MatchOption};
ghost use Rattle.mq_frame.specs.Header.{header_of, header_text, is_set};
ghost use Rattle.mq_frame.specs.Numbers.{max_frame_size};
ghost use Rattle.mq_frame.specs.Writing.{flag};

use super::kind::Kind;

/// A frame's header. The reserved bit before the stream is read past.
#[derive(Clone, Copy)]
pub struct Header {
    /// The number of the contents' bytes, below 2^24.
    pub length: u32,
    pub kind: Kind,
    pub flags: u8,
    /// Below 2^31.
    pub stream: u32,
}

impl Header {
    /// The header at the front, where nine bytes are there.
    #[tactic(auto, unfolding(crate::specs::Header::header_of))]
    pub fn of(bytes: &[u8]) -> Option<Header>
        ensures { MatchOption result (length bytes.now < 9) (λ h. (9 ≤ length bytes.now) × (h ≡ header_of bytes.now)) }
    {
        match bytes {
            [a, b, c, kind, flags, d, e, f, g, ..] => Some(Header {
                length: u32::from_be_bytes([0, *a, *b, *c]),
                kind: Kind::of(*kind),
                flags: *flags,
                stream: u32::from_be_bytes([*d, *e, *f, *g]) % 0x8000_0000,
            }),
            _ => None,
        }
    }

    /// Whether a flag is set.
    pub fn has(self, flag: u8) -> bool
        ensures { result ≡ is_set self.flags flag }
    {
        self.flags & flag != 0
    }
}

/// The bytes of a header.
pub fn header_bytes(length: usize, kind: Kind, flags: u8, stream: u32) -> [u8; 9]
    requires { length ≤ max_frame_size }
    ensures { result ≡ header_text length kind flags stream }
{
    let [_, a, b, c] = (length as u32).to_be_bytes();
    let [d, e, f, g] = stream.to_be_bytes();
    [a, b, c, kind.byte(), flags, d, e, f, g]
}

/// The flag, where it is set.
pub fn flag(set: bool, bit: u8) -> u8
    ensures { result ≡ flag set bit }
{
    if set { bit } else { 0 }
}
