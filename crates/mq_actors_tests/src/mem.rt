//! Each object in memory, by the calls of its trait: what arrives is given, what is sent is taken, and what is to fail fails.

ghost use Rattle.std.specs.Prelude.{◌≡◌, ◌<◌, [], length, IsTrue, IfOk};
ghost use Rattle.mq_talk.specs.Answers.{IsMine};

use crate::common::{bytes, nothing};
use mq_addr::{Addr, Flow};
use mq_book::{Book, Config};
use mq_mem::{MemLink, MemNet, MemPort, MemPorts, MemSink, MemSource, PlainOffice, RefusingOffice};
use mq_outside::{
    Got, Link, LinkGot, LinkPut, Net, Port, PortGot, PortPut, Ports, Put, Sink, Source,
};
use mq_talk::{Call, Goal, Judged, Office, Origin, Reply, Verdict};
use mq_wire::{NoMemory, Seq};
use std::alloc::Global;
use std::process::Abort;
use std::test::Fail;

fn numbers(alloc: Global, list: &[u64]) -> Result<Seq<u64>, NoMemory> {
    Ok(Seq::from_vec(Vec::from_slice(alloc, list)?))
}

/// Reads of a link into three bytes.
fn reads<L: Link>(link: &mut L) -> (LinkGot, [u8; 3]) {
    let mut into = [0; 3];
    let got = link.read(&mut into);
    (got, into)
}

fn source_of(alloc: Global) -> Result<MemSource, NoMemory> {
    let contents = bytes(alloc, b"abcde")?;
    Ok(MemSource::new(contents, numbers(alloc, &[1])?)?.in_pieces(2))
}

fn gives(rt: &impl Abort, source: &mut MemSource) -> Result<(), Fail> {
    let mut into = [0; 3];
    let wanted = [
        Got::Bytes(2),
        Got::Failed,
        Got::Bytes(2),
        Got::Bytes(1),
        Got::End,
        Got::End,
    ];
    for &want in &wanted {
        assert_eq!(rt; source.read(&mut into), want);
    }
    assert_eq!(rt; into, *b"ed\0");
    Ok(())
}

#[test]
fn a_source_gives_its_bytes(rt: HostRuntime) -> Result<(), Fail> {
    let mut source = source_of(rt.alloc())?;
    gives(&rt, &mut source)
}

fn takes(rt: &impl Abort, sink: &mut MemSink) -> Result<(), Fail> {
    for &want in &[Put::Failed, Put::Took(3), Put::Took(2), Put::Failed] {
        assert_eq!(rt; sink.write(b"xyz"), want);
    }
    assert_eq!(rt; sink.taken(), b"xyzxy".as_slice());
    Ok(())
}

#[test]
fn a_sink_takes_what_fits(rt: HostRuntime) -> Result<(), Fail> {
    let mut sink = MemSink::new(rt.alloc(), 5, numbers(rt.alloc(), &[0])?)?;
    takes(&rt, &mut sink)
}

/// A link that keeps at most so many bytes of what it takes, if that is said, and whose calls of these numbers fail.
fn link_of(alloc: Global, room: Option<u32>, fails: &[u64]) -> Result<MemLink, NoMemory> {
    let fails = numbers(alloc, fails)?;
    MemLink::new(alloc, nothing(alloc), false, room, fails)
}

/// Two pieces arrive, and the next read is to fail.
fn arrive(alloc: Global, link: &mut MemLink) -> Result<(), NoMemory> {
    link.piece(bytes(alloc, b"abcd")?)?;
    link.piece(bytes(alloc, b"e")?)?;
    link.fail_read();
    Ok(())
}

fn gives_pieces(rt: &impl Abort, alloc: Global, link: &mut MemLink) -> Result<(), Fail> {
    assert!(rt; reads(link).0 == LinkGot::NotNow);
    assert!(rt; !link.would_read());
    assert!(rt; link.tells());
    arrive(alloc, link)?;
    assert!(rt; link.would_read());
    assert!(rt; reads(link).0 == LinkGot::Failed);
    assert!(rt; reads(link) == (LinkGot::Bytes(3), *b"abc"));
    assert!(rt; reads(link) == (LinkGot::Bytes(1), *b"d\0\0"));
    assert!(rt; reads(link) == (LinkGot::Bytes(1), *b"e\0\0"));
    link.finish();
    assert!(rt; reads(link).0 == LinkGot::End);
    assert!(rt; reads(link).0 == LinkGot::End);
    Ok(())
}

#[test]
fn a_link_gives_pieces_and_then_its_end(rt: HostRuntime) -> Result<(), Fail> {
    let mut link = link_of(rt.alloc(), None, &[])?;
    gives_pieces(&rt, rt.alloc(), &mut link)
}

fn takes_by_room(rt: &impl Abort, link: &mut MemLink) -> Result<(), Fail> {
    link.grant(Some(2));
    assert!(rt; link.write(b"xyz") == LinkPut::Took(2));
    assert!(rt; !link.would_write());
    assert!(rt; !link.tells());
    assert!(rt; link.write(b"xyz") == LinkPut::NotNow);
    link.grant(None);
    link.fail_write();
    assert!(rt; link.write(b"xyz") == LinkPut::Failed);
    assert!(rt; link.write(b"xyz") == LinkPut::Took(3));
    // Call number 4, and then the room is used up.
    assert!(rt; link.write(b"z") == LinkPut::Failed);
    assert!(rt; link.write(b"uv") == LinkPut::Took(1));
    assert!(rt; link.write(b"uv") == LinkPut::Failed);
    Ok(())
}

#[test]
fn a_link_takes_what_it_has_room_for(rt: HostRuntime) -> Result<(), Fail> {
    let mut link = link_of(rt.alloc(), Some(6), &[4])?;
    takes_by_room(&rt, &mut link)?;
    let rest = link.close();
    assert!(rt; rest.taken() == Some(b"xyxyzu".as_slice()));
    Ok(())
}

/// 192.0.2.1 and ::1.
const FOUR: Addr = Addr::V4(0xc000_0201);

const SIX: Addr = Addr::V6(1);

/// Port 53 of the first.
const DNS: Goal = Goal::Udp {
    addr: FOUR,
    port: 53,
};

/// What a port gives next.
fn receives(alloc: Global, port: &mut MemPort) -> Result<PortGot, NoMemory> {
    let mut into = vec![in alloc; 0u8; 65_535]?;
    Ok(port.recv(into.as_mut_slice()))
}

/// Two datagrams arrive, of which the second has no byte.
fn come(alloc: Global, port: &mut MemPort) -> Result<(), NoMemory> {
    port.arrive(bytes(alloc, b"one")?)?;
    port.arrive(bytes(alloc, b"")?)
}

fn gives_datagrams(rt: &impl Abort, alloc: Global, port: &mut MemPort) -> Result<(), Fail> {
    assert!(rt; !port.would_recv());
    assert!(rt; !port.tells());
    assert!(rt; receives(alloc, port)? == PortGot::NotNow);
    come(alloc, port)?;
    assert!(rt; receives(alloc, port)? == PortGot::Datagram(3));
    assert!(rt; receives(alloc, port)? == PortGot::Datagram(0));
    Ok(())
}

fn takes_datagrams(rt: &impl Abort, port: &mut MemPort) -> Result<(), Fail> {
    // Call number 3.
    assert!(rt; port.send(b"abc") == PortPut::Failed);
    assert!(rt; port.send(b"abc") == PortPut::Sent);
    assert!(rt; port.send(b"de") == PortPut::Failed);
    port.fail_next();
    assert!(rt; port.send(b"d") == PortPut::Failed);
    assert!(rt; port.send(b"d") == PortPut::Sent);
    Ok(())
}

#[test]
fn a_port_gives_whole_datagrams(rt: HostRuntime) -> Result<(), Fail> {
    let mut port = MemPort::new(nothing(rt.alloc()), Some(4), numbers(rt.alloc(), &[3])?)?;
    gives_datagrams(&rt, rt.alloc(), &mut port)?;
    takes_datagrams(&rt, &mut port)
}

/// One port, whose second bind fails.
fn one_port(alloc: Global) -> Result<MemPorts, NoMemory> {
    let list = vec![in alloc; MemPort::new(nothing(alloc), None, nothing(alloc))?]?;
    MemPorts::new(alloc, Some(Seq::from_vec(list)), numbers(alloc, &[1])?)
}

/// The most bytes that go to the port that is bound next, which is handed back. None where the bind fails.
fn limit_of(ports: &mut MemPorts, addr: &Addr) -> Option<u32> {
    let port = ports.bind(addr, 53).ok()?;
    let limit = port.limit();
    ports.retire(port);
    Some(limit)
}

fn binds_in_order(rt: &impl Abort, ports: &mut MemPorts) -> Result<(), Fail> {
    ports.fail_next();
    assert!(rt; ports.unfail());
    assert!(rt; limit_of(ports, &FOUR) == Some(65_507));
    assert!(rt; limit_of(ports, &FOUR).is_none());
    assert!(rt; limit_of(ports, &FOUR).is_none());
    Ok(())
}

#[test]
fn ports_are_bound_in_order(rt: HostRuntime) -> Result<(), Fail> {
    let mut ports = one_port(rt.alloc())?;
    binds_in_order(&rt, &mut ports)
}

#[test]
fn where_none_are_listed_a_bind_gives_an_empty_port(rt: HostRuntime) -> Result<(), Fail> {
    let mut ports = MemPorts::new(rt.alloc(), None, nothing(rt.alloc()))?;
    assert!(rt; limit_of(&mut ports, &SIX) == Some(65_527));
    Ok(())
}

fn gives_packets(
    rt: &impl Abort,
    alloc: Global,
    net: &mut MemNet,
    into: &mut [u8],
) -> Result<(), Fail>
    requires { length into.old ≡ 65535 }
{
    net.arrive(bytes(alloc, b"packet")?)?;
    assert!(rt; net.recv(into) == PortGot::Datagram(6));
    assert!(rt; net.recv(into) == PortGot::NotNow);
    assert!(rt; net.send(b"packet") == PortPut::Sent);
    Ok(())
}

#[test]
fn a_network_gives_whole_packets(rt: HostRuntime) -> Result<(), Fail> {
    let mut into = vec![in rt.alloc(); 0u8; 65_535]?;
    let mut net = MemNet::new(nothing(rt.alloc()), None, nothing(rt.alloc()))?;
    gives_packets(&rt, rt.alloc(), &mut net, into.as_mut_slice())
}

/// A configuration without blocks and routes, for two workers.
fn config_of(alloc: Global, history: u32) -> Config
    ensures blocks { (result.pool ≡ []) × (result.reach ≡ []) × (result.routes ≡ []) }
    ensures workers { result.workers ≡ 2 }
{
    Config {
        pool: nothing(alloc),
        reach: nothing(alloc),
        routes: nothing(alloc),
        history,
        workers: 2,
    }
}

/// An office of two workers, whose history has so many places.
fn office_of(alloc: Global, history: u32) -> Result<PlainOffice, NoMemory>
    ensures { IfOk result (λ o. (o.book.config.workers ≡ 2) × (o.actor ≡ 0)) }
{
    PlainOffice::of(alloc, config_of(alloc, history))
}

/// The served actor opens a tunnel.
fn opens(office: &mut PlainOffice, actor: u32) -> Result<Reply, NoMemory>
    requires workers { office.old.book.config.workers ≡ 2 }
    requires served { (office.old.actor ≡ actor) × (actor < 2) }
    ensures workers { office.new.book.config.workers ≡ 2 }
    ensures served { office.new.actor ≡ actor }
{
    office.call(Call::Open {
        conn: 3,
        stream: 0,
        actor,
        goal: DNS,
    })
}

/// The served actor closes a tunnel, if it may.
fn closes(office: &mut PlainOffice, actor: u32, tunnel: u32) -> Result<bool, NoMemory>
    requires workers { office.old.book.config.workers ≡ 2 }
    requires served { (office.old.actor ≡ actor) × (actor < 2) }
{
    if !is_mine(office.book(), actor, tunnel) {
        return Ok(false);
    }
    let reply = office.call(Call::Close { tunnel })?;
    Ok(matches!(reply, Reply::Closed))
}

/// Whether an actor may call for a tunnel.
fn is_mine(book: &Book, actor: u32, tunnel: u32) -> bool
    ensures { IsTrue result → IsMine book.now.history actor tunnel }
{
    let history = book.history();
    book.live(tunnel)
        && (tunnel as usize) < history.len()
        && history[tunnel as usize].actor == actor
}

fn is_opened(reply: &Reply, number: u32) -> bool {
    matches!(reply, Reply::Opened { tunnel, .. } if *tunnel == number)
}

/// Whether an actor's open is refused, since there are two entries and two tunnels are live.
fn is_full(office: &mut PlainOffice, actor: u32) -> Result<bool, NoMemory>
    requires workers { office.old.book.config.workers ≡ 2 }
    requires served { (office.old.actor ≡ actor) × (actor < 2) }
    ensures workers { office.new.book.config.workers ≡ 2 }
    ensures served { office.new.actor ≡ actor }
{
    let reply = opens(office, actor)?;
    Ok(matches!(
        reply,
        Reply::HistoryFull {
            entries: 2,
            live: 2
        }
    ))
}

/// What is judged of a packet from the network to an address that no tunnel has.
fn judges(office: &mut PlainOffice) -> Judged
    ensures workers { office.new.book.config.workers ≡ office.old.book.config.workers }
    ensures served { office.new.actor ≡ office.old.actor }
{
    let flow = Flow {
        source: FOUR,
        target: SIX,
        protocol: 17,
    };
    office.judge(Origin::Net, &flow)
}

fn asks(rt: &impl Abort, office: &mut PlainOffice) -> Result<(), Fail>
    requires workers { office.old.book.config.workers ≡ 2 }
    requires served { office.old.actor ≡ 0 }
{
    assert!(rt; is_opened(&opens(office, 0)?, 0));
    office.turn_to(1);
    assert!(rt; is_opened(&opens(office, 1)?, 1));
    // Two entries, a close of each, and no place for a third tunnel.
    assert!(rt; is_full(office, 1)?);
    assert!(rt; office.book().count() == 2);
    let judged = judges(office);
    assert!(rt; judged.verdict == Verdict::NoRoute);
    assert!(rt; judged.at == 2);
    assert!(rt; !closes(office, 1, 0)?);
    assert!(rt; office.book().count() == 2);
    Ok(())
}

#[test]
fn an_office_asks_its_book(rt: HostRuntime) -> Result<(), Fail> {
    let mut office = office_of(rt.alloc(), 4)?;
    asks(&rt, &mut office)
}

fn closes_its_own(rt: &impl Abort, office: &mut PlainOffice) -> Result<(), Fail>
    requires { office.old.book.config.workers ≡ 2 }
{
    office.turn_to(1);
    assert!(rt; is_opened(&opens(office, 1)?, 0));
    assert!(rt; closes(office, 1, 0)?);
    assert!(rt; office.book().count() == 2);
    assert!(rt; !office.book().live(0));
    Ok(())
}

#[test]
fn an_actor_closes_its_own_tunnel(rt: HostRuntime) -> Result<(), Fail> {
    let mut office = office_of(rt.alloc(), 4)?;
    closes_its_own(&rt, &mut office)
}

/// Actor 0 opens a tunnel.
fn tries(office: &mut RefusingOffice) -> Result<Reply, NoMemory>
    requires workers { office.old.office.book.config.workers ≡ 2 }
    requires served { office.old.office.actor ≡ 0 }
    ensures workers { office.new.office.book.config.workers ≡ 2 }
    ensures served { office.new.office.actor ≡ 0 }
{
    office.call(Call::Open {
        conn: 3,
        stream: 0,
        actor: 0,
        goal: DNS,
    })
}

/// Actor 0 closes a tunnel, if it may.
fn shuts(office: &mut RefusingOffice, tunnel: u32) -> Result<bool, NoMemory>
    requires workers { office.old.office.book.config.workers ≡ 2 }
    requires served { office.old.office.actor ≡ 0 }
    ensures workers { office.new.office.book.config.workers ≡ 2 }
    ensures served { office.new.office.actor ≡ 0 }
{
    if !is_mine(office.book(), 0, tunnel) {
        return Ok(false);
    }
    let reply = office.call(Call::Close { tunnel })?;
    Ok(matches!(reply, Reply::Closed))
}

fn refuses_one(rt: &impl Abort, office: &mut RefusingOffice) -> Result<(), Fail>
    requires workers { office.old.office.book.config.workers ≡ 2 }
    requires served { office.old.office.actor ≡ 0 }
{
    assert!(rt; is_opened(&tries(office)?, 0));
    // A close isn't counted.
    assert!(rt; shuts(office, 0)?);
    assert!(rt; tries(office).is_err());
    assert!(rt; office.book().count() == 2);
    assert!(rt; is_opened(&tries(office)?, 2));
    assert!(rt; office.made() == 3);
    Ok(())
}

#[test]
fn one_call_is_refused_memory(rt: HostRuntime) -> Result<(), Fail> {
    let mut office = RefusingOffice::new(office_of(rt.alloc(), 20)?, 1);
    refuses_one(&rt, &mut office)
}
