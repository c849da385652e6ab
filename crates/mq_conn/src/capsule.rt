//! Capsules of payloads, without a copy of the payload (RFC 9297, sections 3.2 and 3.5).
ghost use Rattle.std.specs.Prelude.{◌≡◌, ℕ, ◌+◌, ◌≤◌, List, ◌++◌, drop, length};
ghost use Rattle.mq_capsule.specs.Writing.{capsule_text, datagram};

use std::marker::Model;

/// The bytes of a capsule before its payload: the type, the length, and the Context ID.
#[derive(Drop)]
pub struct Header {
    bytes: [u8; 6],
    size: u8,
}

impl Model for Header {
    ghost use Rattle.std.specs.Prelude.{ℕ, List, take, ◌≤◌};

    ghost Value = { List ℕ };

    ghost view = { λ s. take s.size s.bytes };

    ghost invariant = { λ s. s.size ≤ 6 };
}

impl Header {
    pub fn as_slice(&self) -> &[u8]
        ensures is { result.now ≡ self.now }
        ensures short { length self.now ≤ 6 }
    {
        let (front, _) = self.bytes.split_at((self.size as usize).min(6));
        front
    }
}

/// The header of the capsule of a payload that has so many bytes.
#[tactic(auto, unfolding(mq_wire::specs::Integer::spelling_of))]
pub fn header_of(payload: usize) -> Header
    requires { payload ≤ 1048576 }
    ensures is { (packet : List ℕ) → payload ≡ length packet → capsule_text (datagram packet) ≡ result ++ packet }
    ensures short { length result ≤ 6 }
{
    let size = payload + 1;
    if size < 0x40 {
        return Header {
            bytes: [0, size as u8, 0, 0, 0, 0],
            size: 3,
        };
    }
    if size < 0x4000 {
        let [a, b] = (size as u16 + 0x4000).to_be_bytes();
        return Header {
            bytes: [0, a, b, 0, 0, 0],
            size: 4,
        };
    }
    let [a, b, c, d] = (size as u32 + 0x8000_0000).to_be_bytes();
    Header {
        bytes: [0, a, b, c, d, 0],
        size: 6,
    }
}

/// How many bytes the capsule of a payload of this length has.
pub fn capsule_size(payload: usize) -> usize
    requires { payload ≤ 1048576 }
    ensures is { (packet : List ℕ) → payload ≡ length packet → result ≡ length (capsule_text (datagram packet)) }
    ensures short { result ≤ payload + 6 }
{
    header_of(payload).as_slice().len() + payload
}

/// What is left of two slices behind so many of their bytes.
pub fn behind<'a>(front: &'a [u8], rest: &'a [u8], count: usize) -> (&'a [u8], &'a [u8])
    ensures { result.0.now ++ result.1.now ≡ drop count (front.now ++ rest.now) }
{
    if count <= front.len() {
        let (_, left) = front.split_at(count);
        return (left, rest);
    }
    let (_, left) = rest.split_at((count - front.len()).min(rest.len()));
    (&[], left)
}
