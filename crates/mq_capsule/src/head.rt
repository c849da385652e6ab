//! The type and the length in front of a capsule (RFC 9297, section 3.2).
ghost use Rattle.std.specs.Prelude.{◌≡◌, ◌≤◌, length, IfSome};
ghost use Rattle.mq_capsule.specs.Capsule.{head_of};

use mq_wire::{Varint, read_varint};

/// What stands in front of a capsule's value.
#[derive(Clone, Copy)]
pub struct Head {
    /// The capsule's type.
    pub kind: u64,
    /// The number of the value's bytes.
    pub length: u64,
    /// The number of the bytes of both integers.
    pub used: usize,
}

impl Head {
    /// The type and the length at the front, where both are whole.
    #[tactic(auto, unfolding(crate::specs::Capsule::head_of))]
    pub fn of(bytes: &[u8]) -> Option<Head>
        ensures is { result ≡ head_of bytes.now }
        ensures within { IfSome result (λ h. h.used ≤ length bytes.now) }
    {
        let Varint::Got { value: kind, used } = read_varint(bytes) else {
            return None;
        };
        let first = usize::from(used);
        let (_, behind) = bytes.split_at(first);
        let Varint::Got {
            value: length,
            used: second,
        } = read_varint(behind)
        else {
            return None;
        };
        Some(Head {
            kind,
            length,
            used: first + usize::from(second),
        })
    }
}
