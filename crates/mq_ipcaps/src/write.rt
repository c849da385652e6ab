//! Writing the values as whole capsules (RFC 9297, section 3.2).
ghost use Rattle.std.specs.Prelude.{◌≡◌, ◌↔◌, ◌^◌, ◌≤◌, ◌++◌, Err, OnOk, OnErr};
ghost use Rattle.std.specs.List.{Any};
ghost use Rattle.mq_ipcaps.specs.Lists.{AreRoutes, IsAssignment, IsRequest};
ghost use Rattle.mq_ipcaps.specs.Writing.{assign_text, capsule_text, request_text, routes_text};

use super::capsule::{any_large, write_capsule};
use mq_addr::{Asked, Given, Range};
use mq_wire::{NoMemory, WireFault};

/// The type of the capsule ADDRESS_ASSIGN.
const ASSIGN: u8 = 1;

/// The type of the capsule ADDRESS_REQUEST.
const REQUEST: u8 = 2;

/// The type of the capsule ROUTE_ADVERTISEMENT.
const ROUTES: u8 = 3;

/// Writes an ADDRESS_ASSIGN at the end. `TooLarge` is a Request ID above 2^62 - 1. An `Err` changes nothing.
pub fn write_assign(out: &mut Vec<u8>, list: &[Given]) -> Result<(), WireFault>
    requires { IsAssignment list.now }
    ensures ok { OnOk result (out.new.items ≡ out.old.items ++ capsule_text 1 (assign_text list.now)) }
    ensures err { OnErr result (out.new.items ≡ out.old.items) }
    ensures too_large { (result ≡ Err WireFault.TooLarge) ↔ Any (λ entry. 2 ^ 62 ≤ entry.id) list.now }
{
    if any_large(list) {
        return Err(WireFault::TooLarge);
    }
    if write_capsule(out, ASSIGN, list).is_err() {
        return Err(WireFault::NoMemory);
    }
    Ok(())
}

/// Writes an ADDRESS_REQUEST at the end. `TooLarge` is a Request ID above 2^62 - 1. An `Err` changes nothing.
pub fn write_request(out: &mut Vec<u8>, list: &[Asked]) -> Result<(), WireFault>
    requires { IsRequest list.now }
    ensures ok { OnOk result (out.new.items ≡ out.old.items ++ capsule_text 2 (request_text list.now)) }
    ensures err { OnErr result (out.new.items ≡ out.old.items) }
    ensures too_large { (result ≡ Err WireFault.TooLarge) ↔ Any (λ entry. 2 ^ 62 ≤ entry.id) list.now }
{
    if any_large(list) {
        return Err(WireFault::TooLarge);
    }
    if write_capsule(out, REQUEST, list).is_err() {
        return Err(WireFault::NoMemory);
    }
    Ok(())
}

/// Writes a ROUTE_ADVERTISEMENT at the end. An `Err` changes nothing.
pub fn write_routes(out: &mut Vec<u8>, ranges: &[Range]) -> Result<(), NoMemory>
    requires { AreRoutes ranges.now }
    ensures ok { OnOk result (out.new.items ≡ out.old.items ++ capsule_text 3 (routes_text ranges.now)) }
    ensures err { OnErr result (out.new.items ≡ out.old.items) }
{
    write_capsule(out, ROUTES, ranges)
}
