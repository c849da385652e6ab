//! The values of a template's variables, after percent-decoding.
ghost use Rattle.std.specs.Prelude.{◌≡◌, ◌≤◌, ◌↔◌, ℕ, List, IsTrue, MatchOption, Option, IfOk, OnErr, map, codes, ◌≢◌};
ghost use Rattle.std.specs.Char.{to_ascii_lowercase};
ghost use Rattle.mq_addr.specs.declared.addr.Addr.{Addr};
ghost use Rattle.mq_addr.specs.declared.prefix.Prefix.{Prefix};
ghost use Rattle.mq_addr.specs.Addr.{IsAddrText};
ghost use Rattle.mq_addr.specs.Prefixes.{IsPrefixForm};
ghost use Rattle.mq_target.specs.declared.target.Area.{Area};
ghost use Rattle.mq_target.specs.declared.target.Host.{Host};
ghost use Rattle.mq_target.specs.Values.{IsArea, IsHost, IsNameText, IsNumber, IsPort, IsProtocol};

use crate::name::Name;
use crate::target::{Area, Host};
use mq_addr::{AddrFault, one_prefix, parse_addr, parse_prefix};
use mq_text::parse_digits;
use mq_wire::NoMemory;
use std::alloc::Global;

/// A number of at most so many digits, which may begin with zeros, up to a limit.
fn number_of(digits: usize, limit: u64, text: &[u8]) -> Option<u64>
    ensures { MatchOption result ((n : ℕ) → ¬ (IsNumber digits limit text.now n)) (λ n. IsNumber digits limit text.now n) }
{
    if text.len() > digits {
        return None;
    }
    match parse_digits(text) {
        Some(number) if number <= limit => Some(number),
        _ => None,
    }
}

/// A port: 1 to 65,535 in at most five digits.
pub fn port_of(text: &[u8]) -> Option<u16>
    ensures { MatchOption result ((port : ℕ) → ¬ (IsPort text.now port)) (λ port. IsPort text.now port) }
{
    match number_of(5, 65535, text) {
        Some(0) => None,
        Some(port) => Some(port as u16),
        None => None,
    }
}

/// The number of a protocol: 0 to 255 in at most three digits.
fn protocol_number(text: &[u8]) -> Option<u8>
    ensures { MatchOption result ((n : ℕ) → ¬ (IsNumber 3 255 text.now n)) (λ n. IsNumber 3 255 text.now n) }
{
    match number_of(3, 255, text) {
        Some(number) => Some(number as u8),
        None => None,
    }
}

/// Whether a text is `*`.
fn is_all(text: &[u8]) -> bool
    ensures { IsTrue result ↔ (text.now ≡ codes "*") }
{
    matches!(text, [b'*'])
}

/// `*` for all protocols, or the number of one.
pub fn protocol_of(text: &[u8]) -> Option<Option<u8>>
    ensures { MatchOption result ((protocol : Option ℕ) → ¬ (IsProtocol text.now protocol)) (λ protocol. IsProtocol text.now protocol) }
{
    if is_all(text) {
        return Some(None);
    }
    match protocol_number(text) {
        Some(number) => Some(Some(number)),
        None => None,
    }
}

/// The name that a text is, where it is no address. Memory is asked for only where it is one.
fn name_of(alloc: Global, text: &[u8]) -> Result<Option<Name>, NoMemory>
    requires { (a : Addr) → ¬ (IsAddrText text.now a) }
    ensures err { OnErr result (IsNameText text.now (map to_ascii_lowercase text.now)) }
    ensures ok { IfOk result (λ found. MatchOption found ((name : List ℕ) → ¬ (IsNameText text.now name)) (λ name. IsNameText text.now name)) }
{
    Name::of(alloc, text)
}

/// The host that a text is. Memory is asked for only where it is a name.
pub fn host_of(alloc: Global, text: &[u8]) -> Result<Option<Host>, NoMemory>
    ensures err { OnErr result ((name : List ℕ) × IsNameText text.now name) }
    ensures ok { IfOk result (λ found. MatchOption found ((host : Host) → ¬ (IsHost text.now host)) (λ host. IsHost text.now host)) }
{
    if let Ok(addr) = parse_addr(text) {
        return Ok(Some(Host::Address(addr)));
    }
    match name_of(alloc, text)? {
        Some(name) => Ok(Some(Host::Name(name))),
        None => Ok(None),
    }
}

/// The area that a text is.
pub fn area_of(alloc: Global, text: &[u8]) -> Result<Option<Area>, NoMemory>
    ensures { IfOk result (λ found. MatchOption found ((area : Area) → ¬ (IsArea text.now area)) (λ area. IsArea text.now area)) }
{
    one_prefix();
    if is_all(text) {
        return Ok(Some(Area::All));
    }
    match parse_prefix(text) {
        Ok(block) => Ok(Some(Area::Block(block))),
        Err(AddrFault::Bits) => Ok(None),
        Err(AddrFault::Syntax) => named_area(alloc, text),
    }
}

/// The area that a name is, where the text is no prefix and not `*`.
fn named_area(alloc: Global, text: &[u8]) -> Result<Option<Area>, NoMemory>
    requires no_prefix { (block : Prefix) → ¬ (IsPrefixForm text.now block) }
    requires not_all { text.now ≢ codes "*" }
    ensures { IfOk result (λ found. MatchOption found ((area : Area) → ¬ (IsArea text.now area)) (λ area. IsArea text.now area)) }
{
    match name_of(alloc, text)? {
        Some(name) => Ok(Some(Area::Name(name))),
        None => Ok(None),
    }
}
