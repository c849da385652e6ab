//! A network with a host, by its calls.
use crate::SimNet;
use crate::store::Store;
use mq_addr::Addr;
use mq_outside::{Net, PortGot, PortPut};
use std::alloc::Global;
use std::test::Fail;

/// A UDP datagram from 198.51.100.8 to the host 203.0.113.5, and what the host answers.
const DATAGRAM: &[u8] =
    b"\x45\x00\x00\x1e\x00\x00\x00\x00\x40\x11\x14\x8e\xc6\x33\x64\x08\xcb\x00\x71\x05\x12\x34\x00\x07\x00\x0a\x00\x00\x68\x69";

const BACK: &[u8] =
    b"\x45\x00\x00\x1e\x00\x00\x00\x00\x40\x11\x14\x8e\xcb\x00\x71\x05\xc6\x33\x64\x08\x00\x07\x12\x34\x00\x0a\x00\x00\x68\x69";

fn network(alloc: Global) -> Result<SimNet, Fail> {
    let hosts = [Addr::V6(1), Addr::V4(0xcb00_7105)];
    Ok(SimNet::new(alloc, &hosts)?)
}

/// Whether this packet is received.
fn receives(alloc: Global, net: &mut SimNet, want: &[u8]) -> Result<bool, Fail> {
    let mut into = Vec::from_elem(alloc, 0, 65_535)?;
    match net.recv(into.as_mut_slice()) {
        PortGot::Datagram(size) => Ok(into.as_slice().split_at(size as usize).0 == want),
        _ => Ok(false),
    }
}

/// Whether these bytes wait first in a store, which are taken.
fn pops(alloc: Global, store: &mut Store, want: &[u8]) -> Result<bool, Fail> {
    let mut into = Vec::from_elem(alloc, 0, 65_535)?;
    match store.pop(into.as_mut_slice()) {
        Some(size) => Ok(into.as_slice().split_at(size as usize).0 == want),
        None => Ok(false),
    }
}

#[test]
fn a_host_answers(rt: HostRuntime) -> Result<(), Fail> {
    let mut net = network(rt.alloc())?;
    assert!(rt; !net.waiting());
    assert_eq!(rt; net.send(DATAGRAM), PortPut::Sent);
    assert!(rt; net.waiting());
    assert!(rt; receives(rt.alloc(), &mut net, BACK)?);
    assert_eq!(rt; net.send(BACK), PortPut::Sent);
    assert!(rt; !net.waiting());
    Ok(())
}

#[test]
fn copies_and_answers_share_one_list(rt: HostRuntime) -> Result<(), Fail> {
    let mut net = network(rt.alloc())?;
    net.arrive(b"ab", 2)?;
    net.arrive(b"none", 0)?;
    net.fail_next();
    assert_eq!(rt; net.send(DATAGRAM), PortPut::Failed);
    assert_eq!(rt; net.send(DATAGRAM), PortPut::Sent);
    net.arrive(b"c", 1)?;
    assert!(rt; receives(rt.alloc(), &mut net, b"ab")?);
    assert!(rt; receives(rt.alloc(), &mut net, b"ab")?);
    assert!(rt; receives(rt.alloc(), &mut net, BACK)?);
    assert!(rt; receives(rt.alloc(), &mut net, b"c")?);
    assert!(rt; !net.waiting());
    Ok(())
}

#[test]
fn answers_without_room_are_swallowed(rt: HostRuntime) -> Result<(), Fail> {
    let mut store = Store::new(rt.alloc(), 2, 10)?;
    store.push_answer(b"abcdef");
    store.push_answer(b"ghijk");
    store.push_answer(b"ghij");
    store.push_answer(b"");
    assert!(rt; pops(rt.alloc(), &mut store, b"abcdef")?);
    store.push_answer(b"klmnop");
    assert!(rt; pops(rt.alloc(), &mut store, b"ghij")?);
    assert!(rt; pops(rt.alloc(), &mut store, b"klmnop")?);
    assert!(rt; store.is_empty());
    Ok(())
}
