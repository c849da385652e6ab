//! Variable-length integers (RFC 9000, section 16).
ghost use Rattle.std.specs.Prelude.{◌≡◌, ◌+◌, ◌*◌, ◌^◌, ◌<◌, ◌≤◌, ◌↔◌, ◌++◌, List, length, OnOk, OnErr, vec_capacity};
ghost use Rattle.mq_wire.specs.Integer.{int_of, spelling_of};
ghost use Rattle.mq_wire.specs.Read.{IsRead, IsWithin};

use std::alloc::AllocError;
use thiserror::Error;

/// What stands at the front of some bytes.
#[derive(Clone, Copy, Debug, PartialEq, Eq)]
pub enum Varint {
    Got { value: u64, used: u8 },
    Short,
}

/// Why an integer was not written.
#[derive(Clone, Copy, Debug, PartialEq, Eq, Error)]
pub enum WireFault {
    /// The number is 2^62 or more.
    #[error("the number is 2^62 or more")]
    TooLarge,
    #[error("memory ran out")]
    NoMemory,
}

impl From<AllocError> for WireFault {
    ghost use Rattle.std.specs.Prelude.{◌≡◌};
    ghost use Rattle.mq_wire.specs.declared.varint.WireFault.TheVariants.{NoMemory};

    ghost from_gives = { λ _ e. e ≡ NoMemory };

    fn from(_: AllocError) -> WireFault {
        WireFault::NoMemory
    }
}

/// Reads the integer at the front.
#[tactic(auto, unfolding(crate::specs::Integer::int_of))]
pub fn read_varint(bytes: &[u8]) -> Varint
    ensures read { IsRead (int_of bytes.now) result }
    ensures within { IsWithin (length bytes.now) result }
{
    match bytes {
        [] => Varint::Short,
        [first, ..] if *first < 64 => Varint::Got {
            value: u64::from(*first),
            used: 1,
        },
        [first, second, ..] if *first < 128 => Varint::Got {
            value: u64::from(u16::from_be_bytes([*first, *second])) % 0x4000,
            used: 2,
        },
        [first, second, third, fourth, ..] if *first >= 128 && *first < 192 => Varint::Got {
            value: u64::from(u32::from_be_bytes([*first, *second, *third, *fourth])) % 0x4000_0000,
            used: 4,
        },
        [first, b, c, d, e, f, g, h, ..] if *first >= 192 => Varint::Got {
            value: u64::from_be_bytes([*first, *b, *c, *d, *e, *f, *g, *h]) % 0x4000_0000_0000_0000,
            used: 8,
        },
        _ => Varint::Short,
    }
}

/// Writes the shortest spelling of a number at the end. An `Err` changes nothing. Where the vector has room, memory isn't
/// wanted.
#[tactic(auto, unfolding(crate::specs::Integer::spelling_of))]
pub fn write_varint(out: &mut Vec<u8>, value: u64) -> Result<(), WireFault>
    ensures ok { OnOk result ((value < 2 ^ 62) × (out.new.items ≡ out.old.items ++ spelling_of value)) }
    ensures err { OnErr result (out.new.items ≡ out.old.items) }
    ensures full { result ≡ Err WireFault.NoMemory → vec_capacity out.old < length out.old.items + length (spelling_of value) }
    ensures too_large { (result ≡ Err WireFault.TooLarge) ↔ (2 ^ 62 ≤ value) }
{
    if value < 0x40 {
        out.extend_from_slice(&[value as u8])?;
    } else if value < 0x4000 {
        out.extend_from_slice(&(value as u16 + 0x4000).to_be_bytes())?;
    } else if value < 0x4000_0000 {
        out.extend_from_slice(&(value as u32 + 0x8000_0000).to_be_bytes())?;
    } else if value < 0x4000_0000_0000_0000 {
        out.extend_from_slice(&(value + 0xc000_0000_0000_0000).to_be_bytes())?;
    } else {
        return Err(WireFault::TooLarge);
    }
    Ok(())
}
