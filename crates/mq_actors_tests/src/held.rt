//! A connection on a link and a port in memory.

use crate::common::{bytes, nothing, setup};
use mq_addr::Addr;
use mq_conn::Conn;
use mq_held::{Held, PortSeat, Went};
use mq_machine::Setup;
use mq_mem::{MemLink, MemPorts};
use mq_ports::{Datagrams, PortTable};
use mq_talk::{From, Note, Reply};
use mq_wire::NoMemory;
use std::alloc::Global;
use std::process::Abort;
use std::test::Fail;

const HEAD: &[u8] =
    b"GET /.well-known/masque/udp/192.0.2.6/443/ HTTP/1.1\r\nHost: p\r\nConnection: Upgrade\r\nUpgrade: connect-udp\r\n\r\n";

/// Payload `ab` of context 0.
const CAPSULE: &[u8] = b"\0\x03\0ab";

/// Payload `back` of context 0.
const BACK: &[u8] = b"\0\x05\0back";

/// 192.0.2.6.
const FOUR: Addr = Addr::V4(0xc000_0206);

/// A connection on a link in memory, and its ports, of which one is bound.
#[derive(Drop)]
struct Carried {
    setup: Setup,
    held: Held<MemLink>,
    ports: PortTable<MemPorts>,
    key: usize,
    /// The note of what was done last.
    told: Option<Note>,
}

/// A link on which the request arrived, and the capsule behind it.
fn link(alloc: Global) -> Result<MemLink, NoMemory> {
    let mut link = MemLink::new(alloc, nothing(alloc), false, None, nothing(alloc))?;
    link.piece(bytes(alloc, HEAD)?)?;
    link.piece(bytes(alloc, CAPSULE)?)?;
    Ok(link)
}

/// Ports of which one is bound, and its key.
fn ports(alloc: Global) -> Result<(PortTable<MemPorts>, usize), Fail> {
    let ports = MemPorts::new(alloc, None, nothing(alloc))?;
    let mut table = PortTable::new(alloc, ports);
    table.reserve()?;
    match table.bind(&FOUR, 443) {
        Ok(key) => Ok((table, key)),
        Err(_) => Err(Fail::from("a bind")),
    }
}

fn make_carried(alloc: Global) -> Result<Carried, Fail> {
    let setup = setup(alloc)?;
    let (ports, key) = ports(alloc)?;
    let conn = Conn::new(alloc, 7, 0)?;
    let link = link(alloc)?;
    Ok(Carried {
        setup,
        held: Held::new(alloc, 7, conn, link),
        ports,
        key,
        told: None,
    })
}

/// What a note says, in a word.
fn word(note: &Note) -> &'static str {
    match note {
        Note::Took { conn: 7, count: 5 } => "took a capsule",
        Note::Took { conn: 7, .. } => "took",
        Note::Ported { conn: 7, stream: 0 } => "ported",
        Note::Opened { tunnel: 0, .. } => "opened",
        Note::Wrote { conn: 7, bytes, .. } if bytes.as_slice() == BACK => "wrote a capsule",
        Note::Wrote { conn: 7, .. } => "wrote",
        Note::Sent {
            from: From::Tunnel(0),
            n: 0,
            packet,
        } if packet.as_slice() == b"ab".as_slice() => "sent",
        Note::Queued {
            from: From::Port(0),
            n: 3,
            to: 0,
        } => "queued",
        Note::Delivered { packet, .. } if packet.as_slice() == b"back".as_slice() => "delivered",
        _ => "another note",
    }
}

/// What was told, in a word.
fn told_word(told: &Option<Note>) -> &'static str {
    match told {
        Some(note) => word(note),
        None => "no note",
    }
}

/// How a try went, with what was told, in a word.
fn went(went: Went, told: &Option<Note>) -> &'static str {
    match went {
        Went::Did => told_word(told),
        Went::Waits => "waits",
        Went::Failed => "failed",
    }
}

fn reads(alloc: Global, it: &mut Carried) -> Result<&'static str, NoMemory> {
    let mut buffer = vec![in alloc; 0u8; 16_384]?;
    let read = it
        .held
        .read(&it.setup, buffer.as_mut_slice(), &mut it.told)?;
    Ok(went(read, &it.told))
}

fn writes(alloc: Global, it: &mut Carried) -> Result<&'static str, NoMemory> {
    let wrote = it.held.write(alloc, &mut it.told)?;
    Ok(went(wrote, &it.told))
}

fn binds(it: &mut Carried) -> Result<&'static str, NoMemory> {
    Ok(word(&it.held.conn.bound(true)?))
}

fn opens(alloc: Global, it: &mut Carried) -> Result<&'static str, NoMemory> {
    let opened = Reply::Opened {
        tunnel: 0,
        routes: nothing(alloc),
    };
    Ok(word(&it.held.conn.answer(opened)?))
}

fn sends(it: &mut Carried) -> &'static str {
    match it.held.send(it.key, &mut it.ports) {
        Some(note) => word(&note),
        None => "nothing",
    }
}

/// A datagram comes to the port.
fn arrives(alloc: Global, it: &mut Carried) -> Result<(), NoMemory> {
    match it.ports.table.get_mut(it.key) {
        Some(port) => port.arrive(bytes(alloc, b"back")?),
        None => Ok(()),
    }
}

fn receives(alloc: Global, it: &mut Carried) -> Result<&'static str, NoMemory> {
    let mut datagrams = Datagrams::new(alloc)?;
    let seat = PortSeat {
        tunnel: 0,
        key: it.key,
        received: 3,
    };
    let came = it
        .held
        .receive(alloc, seat, &mut datagrams, &mut it.ports, &mut it.told)?;
    Ok(went(came, &it.told))
}

fn frames(it: &mut Carried) -> Result<&'static str, NoMemory> {
    let framed = it.held.frame(&mut it.told)?;
    Ok(if framed {
        told_word(&it.told)
    } else {
        "nothing"
    })
}

/// The request is answered: its port is bound, its tunnel opens, and what is owed waits for a link that takes nothing.
fn is_answered(rt: &impl Abort, alloc: Global, it: &mut Carried) -> Result<(), Fail> {
    assert!(rt; reads(alloc, it)? == "took");
    assert!(rt; binds(it)? == "ported");
    assert!(rt; opens(alloc, it)? == "opened");
    it.held.link.grant(Some(0));
    assert!(rt; writes(alloc, it)? == "waits");
    it.held.link.grant(None);
    assert!(rt; writes(alloc, it)? == "wrote");
    Ok(())
}

/// The payload of the capsule goes to the port.
fn carries_on(rt: &impl Abort, alloc: Global, it: &mut Carried) -> Result<(), Fail> {
    assert!(rt; reads(alloc, it)? == "took a capsule");
    assert!(rt; sends(it) == "sent");
    Ok(())
}

/// A datagram of the port goes back as a capsule.
fn carries_back(rt: &impl Abort, alloc: Global, it: &mut Carried) -> Result<(), Fail> {
    arrives(alloc, it)?;
    assert!(rt; receives(alloc, it)? == "queued");
    assert!(rt; frames(it)? == "delivered");
    assert!(rt; writes(alloc, it)? == "wrote a capsule");
    assert!(rt; receives(alloc, it)? == "waits");
    Ok(())
}

#[test]
fn a_tunnel_carries_both_ways(rt: HostRuntime) -> Result<(), Fail> {
    let mut it = make_carried(rt.alloc())?;
    is_answered(&rt, rt.alloc(), &mut it)?;
    carries_on(&rt, rt.alloc(), &mut it)?;
    carries_back(&rt, rt.alloc(), &mut it)?;
    assert!(rt; it.held.place_of(0).is_none());
    Ok(())
}
