//! A block of addresses: those whose first bits are given (RFC 4632, section 3.1).
ghost use Rattle.std.specs.Prelude.{◌≡◌, ◌↔◌, ◌/◌, ◌^◌, ◌≤◌, IsTrue};
ghost use Rattle.mq_addr.specs.Block.{IsIn, Overlap, alone, free_bits, width};
ghost use Rattle.mq_addr.specs.Cover.{IsWithin, IsWithinByBits};

use crate::Addr;

/// The addresses that agree with `addr` in the first `length` bits. The length is at most 32 or 128, by the version
/// of the address, and the bits past it are zero.
#[derive(Clone, Copy, Debug, PartialEq, Eq)]
pub struct Prefix {
    pub addr: Addr,
    pub length: u8,
}

/// Whether an address lies in a block.
pub fn contains(block: &Prefix, addr: &Addr) -> bool
    ensures { IsTrue result ↔ IsIn block.now addr.now }
{
    let free = free_bits(block);
    match (block.addr, *addr) {
        (Addr::V4(a), Addr::V4(b)) => agree(u128::from(b), u128::from(a), free),
        (Addr::V6(a), Addr::V6(b)) => agree(b, a, free),
        _ => false,
    }
}

/// Whether every address of a block lies in another.
pub fn covers(whole: &Prefix, part: &Prefix) -> bool
    ensures { IsTrue result ↔ IsWithin part.now whole.now }
{
    free_bits(part) <= free_bits(whole) && contains(whole, &part.addr)
}

/// A block lies in another exactly where no more bits follow its length, and its own address is in the other.
pub fn within_by_bits()
    ensures { IsWithinByBits }
{}

/// The block of one address.
pub fn alone(addr: Addr) -> Prefix
    ensures { result ≡ alone addr }
{
    Prefix {
        addr,
        length: full_length(&addr),
    }
}

/// Whether two blocks have an address in common. Then one of them lies in the other.
pub fn overlaps(a: &Prefix, b: &Prefix) -> bool
    ensures { IsTrue result ↔ Overlap a.now b.now }
{
    if a.length <= b.length {
        contains(a, &b.addr)
    } else {
        contains(b, &a.addr)
    }
}

/// How many bits an address of this version has.
pub fn full_length(addr: &Addr) -> u8
    ensures value { result ≡ width addr.now }
    ensures small { result ≤ 128 }
{
    match addr {
        Addr::V4(_) => 32,
        Addr::V6(_) => 128,
    }
}

/// How many bits of the address follow the prefix.
pub fn free_bits(block: &Prefix) -> u8
    ensures value { result ≡ free_bits block.now }
    ensures small { result ≤ 128 }
{
    full_length(&block.addr).saturating_sub(block.length)
}

/// Whether two numbers agree but for so many bits at their ends.
fn agree(a: u128, b: u128, free: u8) -> bool
    requires { free ≤ 128 }
    ensures { IsTrue result ↔ (a / 2 ^ free ≡ b / 2 ^ free) }
{
    free == 128 || a >> free == b >> free
}
