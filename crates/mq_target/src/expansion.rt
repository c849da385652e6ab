//! The values of a target, as a path holds them.
ghost use Rattle.std.specs.Prelude.{◌≡◌, ◌++◌, OnOk, decimal};
ghost use Rattle.mq_target.specs.Expansion.{area_text, detail_text, escaped, first_text, host_text, second_text, target_text};

use crate::escape::escape_onto;
use crate::shape::Order;
use crate::{Area, Host, Target};
use mq_addr::{addr_text, prefix_text};
use mq_wire::NoMemory;
use std::alloc::Global;

/// Puts the escaped value of the variable that stands first at the end.
pub fn put_first(
    alloc: Global,
    out: &mut Vec<u8>,
    order: Order,
    target: &Target,
) -> Result<(), NoMemory>
    ensures { OnOk result (out.new.items ≡ out.old.items ++ escaped (first_text order target.now)) }
{
    match order {
        Order::TargetFirst => put_target(out, target),
        Order::TargetLast => put_detail(alloc, out, target),
    }
}

/// Puts the escaped value of the variable that stands second at the end.
pub fn put_second(
    alloc: Global,
    out: &mut Vec<u8>,
    order: Order,
    target: &Target,
) -> Result<(), NoMemory>
    ensures { OnOk result (out.new.items ≡ out.old.items ++ escaped (second_text order target.now)) }
{
    match order {
        Order::TargetFirst => put_detail(alloc, out, target),
        Order::TargetLast => put_target(out, target),
    }
}

/// Puts the escaped value of the variable that says where to at the end.
fn put_target(out: &mut Vec<u8>, target: &Target) -> Result<(), NoMemory>
    ensures { OnOk result (out.new.items ≡ out.old.items ++ escaped (target_text target.now)) }
{
    match target {
        Target::Udp { host, .. } => put_host(out, host),
        Target::Ip { area, .. } => put_area(out, area),
    }
}

/// Puts the escaped port or protocol at the end.
fn put_detail(alloc: Global, out: &mut Vec<u8>, target: &Target) -> Result<(), NoMemory>
    ensures { OnOk result (out.new.items ≡ out.old.items ++ escaped (detail_text target.now)) }
{
    match target {
        Target::Udp { port, .. } => put_number(alloc, out, *port),
        Target::Ip { protocol, .. } => match protocol {
            None => escape_onto(out, b"*".as_slice()),
            Some(number) => put_number(alloc, out, u16::from(*number)),
        },
    }
}

fn put_host(out: &mut Vec<u8>, host: &Host) -> Result<(), NoMemory>
    ensures { OnOk result (out.new.items ≡ out.old.items ++ escaped (host_text host.now)) }
{
    match host {
        Host::Address(addr) => escape_onto(out, addr_text(addr).as_slice()),
        Host::Name(name) => escape_onto(out, name.as_slice()),
    }
}

fn put_area(out: &mut Vec<u8>, area: &Area) -> Result<(), NoMemory>
    ensures { OnOk result (out.new.items ≡ out.old.items ++ escaped (area_text area.now)) }
{
    match area {
        Area::All => escape_onto(out, b"*".as_slice()),
        Area::Block(block) => escape_onto(out, prefix_text(block).as_slice()),
        Area::Name(name) => escape_onto(out, name.as_slice()),
    }
}

fn put_number(alloc: Global, out: &mut Vec<u8>, number: u16) -> Result<(), NoMemory>
    ensures { OnOk result (out.new.items ≡ out.old.items ++ escaped (decimal number)) }
{
    let text = format!(in alloc; "{number}")?;
    escape_onto(out, text.as_bytes())
}
