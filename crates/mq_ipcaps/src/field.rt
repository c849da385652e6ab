//! The fields of entries and ranges: each reader gives the field at the front and the bytes behind it.
ghost use Rattle.std.specs.Prelude.{◌≡◌, ◌≤◌, ◌++◌, length, OnOk, OnErr};
ghost use Rattle.mq_ipcaps.specs.Reading.{Tells, addr4_at, addr6_at, addr_at, byte_at, integer_at, version_at};
ghost use Rattle.mq_addr.specs.Cover.{version_of};
ghost use Rattle.mq_ipcaps.specs.Writing.{addr_text};

use super::fault::CapsFault;
use mq_addr::Addr;
use mq_wire::{NoMemory, Varint, read_varint};

/// A variable-length integer.
pub fn integer_at(bytes: &[u8]) -> Result<(u64, &[u8]), CapsFault>
    ensures { Tells (λ x. (x.0, x.1.now)) result (integer_at bytes.now) }
{
    match read_varint(bytes) {
        Varint::Got { value, used } => {
            let (_, rest) = bytes.split_at(usize::from(used));
            Ok((value, rest))
        }
        Varint::Short => Err(CapsFault::Truncated),
    }
}

pub fn byte_at(bytes: &[u8]) -> Result<(u8, &[u8]), CapsFault>
    ensures { Tells (λ x. (x.0, x.1.now)) result (byte_at bytes.now) }
{
    match bytes {
        [] => Err(CapsFault::Truncated),
        [first, rest @ ..] => Ok((*first, rest)),
    }
}

/// An IP version: 4 or 6.
pub fn version_at(bytes: &[u8]) -> Result<(u8, &[u8]), CapsFault>
    ensures { Tells (λ x. (x.0, x.1.now)) result (version_at bytes.now) }
{
    let (version, rest) = byte_at(bytes)?;
    if version != 4 && version != 6 {
        return Err(CapsFault::Version);
    }
    Ok((version, rest))
}

/// An address of this version, 4 or 6.
#[tactic(auto, unfolding(crate::specs::Reading::addr_at))]
pub fn addr_at(version: u8, bytes: &[u8]) -> Result<(Addr, &[u8]), CapsFault>
    ensures { Tells (λ x. (x.0, x.1.now)) result (addr_at version bytes.now) }
{
    if version == 4 {
        addr4_at(bytes)
    } else {
        addr6_at(bytes)
    }
}

fn addr4_at(bytes: &[u8]) -> Result<(Addr, &[u8]), CapsFault>
    ensures { Tells (λ x. (x.0, x.1.now)) result (addr4_at bytes.now) }
{
    match bytes.split_first_chunk::<4>() {
        Some((front, rest)) => Ok((Addr::V4(u32::from_be_bytes(*front)), rest)),
        None => Err(CapsFault::Truncated),
    }
}

fn addr6_at(bytes: &[u8]) -> Result<(Addr, &[u8]), CapsFault>
    ensures { Tells (λ x. (x.0, x.1.now)) result (addr6_at bytes.now) }
{
    match bytes.split_first_chunk::<16>() {
        Some((front, rest)) => Ok((Addr::V6(u128::from_be_bytes(*front)), rest)),
        None => Err(CapsFault::Truncated),
    }
}

/// 4 or 6.
pub fn version(addr: &Addr) -> u8
    ensures { result ≡ version_of addr.now }
{
    match addr {
        Addr::V4(_) => 4,
        Addr::V6(_) => 6,
    }
}

/// How many bytes an address has.
pub fn addr_size(addr: &Addr) -> u8
    ensures size { result ≡ length (addr_text addr.now) }
    ensures small { result ≤ 16 }
{
    match addr {
        Addr::V4(_) => 4,
        Addr::V6(_) => 16,
    }
}

/// Writes an address at the end. An `Err` changes nothing.
pub fn write_addr(out: &mut Vec<u8>, addr: &Addr) -> Result<(), NoMemory>
    ensures ok { OnOk result (out.new.items ≡ out.old.items ++ addr_text addr.now) }
    ensures err { OnErr result (out.new.items ≡ out.old.items) }
{
    match addr {
        Addr::V4(bits) => out.extend_from_slice(&bits.to_be_bytes())?,
        Addr::V6(bits) => out.extend_from_slice(&bits.to_be_bytes())?,
    }
    Ok(())
}
