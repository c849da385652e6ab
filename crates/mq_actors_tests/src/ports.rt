//! Ports in memory, in a table.

use crate::common::nothing;
use mq_addr::Addr;
use mq_mem::MemPorts;
use mq_outside::{PortGot, PortPut};
use mq_ports::PortTable;
use mq_wire::NoMemory;
use std::alloc::Global;
use std::process::Abort;
use std::test::Fail;

/// 192.0.2.1 and ::1.
const FOUR: Addr = Addr::V4(0xc000_0201);

const SIX: Addr = Addr::V6(1);

/// One more port stands in a table. None where it isn't bound.
fn bind(table: &mut PortTable<MemPorts>, addr: &Addr) -> Result<Option<usize>, NoMemory> {
    table.reserve()?;
    Ok(table.bind(addr, 53).ok())
}

fn receives(
    alloc: Global,
    table: &mut PortTable<MemPorts>,
    key: usize,
) -> Result<Option<PortGot>, NoMemory> {
    let mut into = vec![in alloc; 0u8; 65_535]?;
    Ok(table.recv(key, into.as_mut_slice()))
}

/// Two ports are reached by their keys, until one is handed back.
fn stand_apart(
    rt: &impl Abort,
    alloc: Global,
    table: &mut PortTable<MemPorts>,
    first: usize,
    second: usize,
) -> Result<(), Fail> {
    assert!(rt; table.limit(first) == Some(65_507));
    assert!(rt; table.limit(second) == Some(65_527));
    assert!(rt; table.send(first, b"ab") == Some(PortPut::Sent));
    assert!(rt; receives(alloc, table, second)? == Some(PortGot::NotNow));
    table.retire(first);
    assert!(rt; table.port(first).is_none());
    assert!(rt; table.send(first, b"ab").is_none());
    assert!(rt; table.port(second).is_some());
    Ok(())
}

#[test]
fn ports_stand_under_their_keys(rt: HostRuntime) -> Result<(), Fail> {
    let ports = MemPorts::new(rt.alloc(), None, nothing(rt.alloc()))?;
    let mut table = PortTable::new(rt.alloc(), ports);
    match (bind(&mut table, &FOUR)?, bind(&mut table, &SIX)?) {
        (Some(first), Some(second)) => { stand_apart(&rt, rt.alloc(), &mut table, first, second) }
        _ => Err(Fail::from("two binds")),
    }
}

#[test]
fn a_bind_that_fails_puts_nothing_in(rt: HostRuntime) -> Result<(), Fail> {
    let mut ports = MemPorts::new(rt.alloc(), None, nothing(rt.alloc()))?;
    ports.fail_next();
    let mut table = PortTable::new(rt.alloc(), ports);
    assert!(rt; bind(&mut table, &FOUR)?.is_none());
    assert!(rt; table.port(0).is_none());
    Ok(())
}
