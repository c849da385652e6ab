//! Addresses as numbers, and the aligned blocks that have them.
ghost use Rattle.std.specs.Prelude.{◌≡◌, ◌+◌, ◌*◌, ◌/◌, ◌%◌, ◌^◌, ◌<◌, ◌≤◌};
ghost use Rattle.mq_addr.specs.Aligned.{after};
ghost use Rattle.mq_addr.specs.Block.{width, bits_of, SameVersion};

use crate::Addr;

/// The number that the bytes of an address spell.
pub fn number(addr: &Addr) -> u128
    ensures value { result ≡ bits_of addr.now }
    ensures fits { result < 2 ^ width addr.now }
{
    match addr {
        Addr::V4(bits) => u128::from(*bits),
        Addr::V6(bits) => *bits,
    }
}

/// The address of this number, of the same version as another.
pub fn with_number(addr: &Addr, number: u128) -> Addr
    requires { number < 2 ^ width addr.now }
    ensures version { SameVersion addr.now result }
    ensures value { bits_of result ≡ number }
{
    match addr {
        Addr::V4(_) => Addr::V4(number as u32),
        Addr::V6(_) => Addr::V6(number),
    }
}

/// The first number of the aligned block of so many bits that has this number.
pub fn first_of(number: u128, bits: u8) -> u128
    requires { bits ≤ 128 }
    ensures { result ≡ number / 2 ^ bits * 2 ^ bits }
{
    if bits == 128 {
        0
    } else {
        number - number % (1 << bits)
    }
}

/// The last number of the aligned block of so many bits that has this number.
pub fn last_of(number: u128, bits: u8) -> u128
    requires { bits ≤ 128 }
    ensures { result + 1 ≡ after number bits }
{
    if bits == 128 {
        u128::MAX
    } else {
        first_of(number, bits) + (power(bits) - 1)
    }
}

/// A power of two.
fn power(bits: u8) -> u128
    requires { bits < 128 }
    ensures value { result ≡ 2 ^ bits }
    ensures some { 1 ≤ result }
{
    1 << bits
}
