//! An address and the texts that write it.
ghost use Rattle.std.specs.Prelude.{◌≡◌};
ghost use Rattle.mq_addr.specs.Cover.{version_of};
ghost use Rattle.mq_addr.specs.Addr.{HasAddrBytes, HasOneAddr, ReadsAddr};

use std::net::IpAddr;
use thiserror::Error;

/// An address as the number that its bytes spell, the high byte first.
#[derive(Clone, Copy, Debug, PartialEq, Eq)]
pub enum Addr {
    V4(u32),
    V6(u128),
}

/// Why a text is no address or no prefix: it breaks the grammar, or a bit past the prefix length is set.
#[derive(Clone, Copy, Debug, PartialEq, Eq, Error)]
pub enum AddrFault {
    #[error("the text is no address and no prefix")]
    Syntax,
    #[error("a bit past the prefix length is set")]
    Bits,
}

/// The address that a text writes: four decimals and dots, or the forms of RFC 4291, section 2.2, in either case
/// of letters. `Syntax` is the only fault.
pub fn parse_addr(text: &[u8]) -> Result<Addr, AddrFault>
    ensures { ReadsAddr text.now result }
{
    match IpAddr::parse_ascii(text) {
        Ok(IpAddr::V4(ip)) => Ok(Addr::V4(ip.to_bits())),
        Ok(IpAddr::V6(ip)) => Ok(Addr::V6(ip.to_bits())),
        Err(_) => Err(AddrFault::Syntax),
    }
}

/// The number of an address's version.
pub fn version_of(addr: &Addr) -> u8
    ensures { result ≡ version_of addr.now }
{
    match addr {
        Addr::V4(_) => 4,
        Addr::V6(_) => 6,
    }
}

/// A text writes at most one address.
pub fn one_addr()
    ensures { HasOneAddr }
{}

/// An address text has hex digits, dots and colons, and no other byte.
pub fn addr_bytes()
    ensures { HasAddrBytes }
{}
