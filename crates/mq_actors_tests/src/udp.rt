//! A client and a proxy in memory: what is printed, what the proxy takes, and how it ends.

ghost use Rattle.std.specs.Prelude.{◌+◌, ◌≤◌, length, IfOk};
ghost use Rattle.mq_client.specs.Requests.{AreVisible, target_limit};
ghost use Rattle.mq_mem.specs.Links.{AllFull};
ghost use Rattle.mq_mem.specs.Outsides.{AreNew};

use crate::common::{bytes, nothing};
use mq_addr::Addr;
use mq_mem::{MemAcceptor, MemLink, MemOutside, MemSink, MemSource};
use mq_target::{Host, Name, Target};
use mq_udp::{Asked, Outcome, udp};
use mq_wire::{Bytes, NoMemory, Seq};
use std::alloc::{AllocError, Global};
use std::process::Abort;
use std::sync::Wait;
use std::test::Fail;

/// The request that asks for the tunnel over HTTP/1.1, and that with a capsule with the payload `hi` behind it.
const REQUEST: &[u8] =
    b"GET /.well-known/masque/udp/192.0.2.6/443/ HTTP/1.1\r\nHost: 127.0.0.1:8080\r\nConnection: Upgrade\r\nUpgrade: connect-udp\r\nCapsule-Protocol: ?1\r\n\r\n";

const REQUEST_HI: &[u8] =
    b"GET /.well-known/masque/udp/192.0.2.6/443/ HTTP/1.1\r\nHost: 127.0.0.1:8080\r\nConnection: Upgrade\r\nUpgrade: connect-udp\r\nCapsule-Protocol: ?1\r\n\r\n\x00\x03\x00hi";

/// The answer that opens it, and that with a capsule with the payload `ok` behind it.
const OPENED: &[u8] =
    b"HTTP/1.1 101 Switching Protocols\r\nConnection: Upgrade\r\nUpgrade: connect-udp\r\nCapsule-Protocol: ?1\r\n\r\n";

const OPENED_OK: &[u8] =
    b"HTTP/1.1 101 Switching Protocols\r\nConnection: Upgrade\r\nUpgrade: connect-udp\r\nCapsule-Protocol: ?1\r\n\r\n\x00\x03\x00ok";

/// The same over HTTP/2: SETTINGS that offer extended CONNECT, an acknowledgement, status 200, and DATA with the capsule.
const OPENED_OK_2: &[u8] =
    b"\x00\x00\x06\x04\x00\x00\x00\x00\x00\x00\x08\x00\x00\x00\x01\x00\x00\x00\x04\x01\x00\x00\x00\x00\x00\x00\x01\x01\x04\x00\x00\x00\x01\x88\x00\x00\x05\x00\x00\x00\x00\x00\x01\x00\x03\x00ok";

/// DATA with the capsule with the payload `hi`.
const DATA_HI: &[u8] = b"\x00\x00\x05\x00\x00\x00\x00\x00\x01\x00\x03\x00hi";

/// What is asked, what the input and the proxy are, and which calls fail.
#[derive(Clone, Copy)]
struct Case<'a> {
    h2: bool,
    /// How many payloads are waited for.
    count: u32,
    input: &'a [u8],
    /// What the proxy sends before its link ends; none where there is no proxy.
    answer: Option<&'a [u8]>,
    /// Whether the first read of the source, the first write of the sink and the first call of the link fail.
    source_fails: bool,
    sink_fails: bool,
    link_fails: bool,
}

const NOTHING: Case<'static> = Case {
    h2: false,
    count: 0,
    input: b"",
    answer: None,
    source_fails: false,
    sink_fails: false,
    link_fails: false,
};

/// What a case came to.
#[derive(Drop)]
struct Seen {
    outcome: Outcome,
    printed: Vec<u8>,
    /// How many links were handed back, and what the last one took.
    backs: usize,
    took: Vec<u8>,
}

/// The number of the first call, where it fails.
fn fails(alloc: Global, first: bool) -> Result<Seq<u64>, NoMemory> {
    let mut list = Vec::new(alloc);
    if first {
        list.push(0)?;
    }
    Ok(Seq::from_vec(list))
}

/// The pieces that arrive: one, or none where it is empty.
fn pieces(alloc: Global, text: &[u8]) -> Result<Seq<Bytes>, NoMemory>
    ensures { IfOk result (λ pieces. AllFull pieces) }
{
    let mut list = Vec::new(alloc);
    if !text.is_empty() {
        let piece = bytes(alloc, text)?;
        list.push(piece)?;
    }
    Ok(Seq::from_vec(list))
}

/// The links that are dialled.
fn links(alloc: Global, case: &Case) -> Result<Seq<MemLink>, NoMemory>
    ensures { IfOk result (λ links. AreNew links) }
{
    let mut list = Vec::new(alloc);
    if let Some(answer) = case.answer {
        let pieces = pieces(alloc, answer)?;
        let fails = fails(alloc, case.link_fails)?;
        let link = MemLink::new(alloc, pieces, true, Some(4096), fails)?;
        list.push(link)?;
    }
    Ok(Seq::from_vec(list))
}

fn outside(alloc: Global, case: &Case) -> Result<MemOutside, NoMemory> {
    let links = links(alloc, case)?;
    let acceptor = MemAcceptor::new(nothing(alloc), nothing(alloc))?;
    MemOutside::new(
        alloc,
        acceptor,
        links,
        nothing(alloc),
        nothing(alloc),
        nothing(alloc),
    )
}

/// A tunnel to 192.0.2.6, port 443, is asked for at a proxy on 127.0.0.1, port 8080.
fn asked(alloc: Global, case: &Case) -> Result<Asked, NoMemory>
    ensures size { IfOk result (λ asked. length asked.path + length asked.host ≤ target_limit) }
    ensures visible { IfOk result (λ asked. AreVisible asked.path × AreVisible asked.host) }
{
    let target = Target::Udp {
        host: Host::Address(Addr::V4(0xc000_0206)),
        port: 443,
    };
    let proxy = Addr::V4(0x7f00_0001);
    Asked::to(alloc, proxy, 8080, case.h2, &target, case.count)
}

fn source(alloc: Global, case: &Case) -> Result<MemSource, NoMemory> {
    let input = bytes(alloc, case.input)?;
    let fails = fails(alloc, case.source_fails)?;
    Ok(MemSource::new(input, fails)?.in_pieces(3))
}

fn sink(alloc: Global, case: &Case) -> Result<MemSink, NoMemory> {
    MemSink::new(alloc, 4096, fails(alloc, case.sink_fails)?)
}

/// The client's input and output, and what it dials.
#[derive(Drop)]
struct Ways {
    source: MemSource,
    sink: MemSink,
    outside: MemOutside,
}

fn make_ways(alloc: Global, case: &Case) -> Result<Ways, NoMemory> {
    let source = source(alloc, case)?;
    let sink = sink(alloc, case)?;
    Ok(Ways {
        source,
        sink,
        outside: outside(alloc, case)?,
    })
}

fn talk(rt: &impl Wait, alloc: Global, case: &Case, ways: &mut Ways) -> Result<Outcome, NoMemory> {
    let asked = asked(alloc, case)?;
    let (source, sink, outside) = (&mut ways.source, &mut ways.sink, &mut ways.outside);
    Ok(udp(rt, alloc, asked, source, sink, outside))
}

/// What the last link that was handed back took.
fn taken(outside: &MemOutside) -> &[u8] {
    match outside.backs().last() {
        Some(back) => back.link.taken().unwrap_or(b""),
        None => b"",
    }
}

fn make_seen(alloc: Global, ways: &Ways, outcome: Outcome) -> Result<Seen, AllocError> {
    let printed = Vec::from_slice(alloc, ways.sink.taken())?;
    Ok(Seen {
        outcome,
        printed,
        backs: ways.outside.backs().len(),
        took: Vec::from_slice(alloc, taken(&ways.outside))?,
    })
}

fn run_case(rt: &impl Wait, alloc: Global, case: &Case) -> Result<Seen, Fail> {
    let mut ways = make_ways(alloc, case)?;
    let outcome = talk(rt, alloc, case, &mut ways)?;
    Ok(make_seen(alloc, &ways, outcome)?)
}

/// How a case ends, what is printed, and what the proxy took, where it is said.
fn ends(
    rt: &impl Abort,
    seen: &Seen,
    outcome: Outcome,
    printed: &[u8],
    took: Option<&[u8]>,
) -> Result<(), Fail> {
    assert!(rt; seen.outcome == outcome);
    assert!(rt; seen.printed.as_slice() == printed);
    if let Some(took) = took {
        assert!(rt; seen.took.as_slice() == took);
        assert!(rt; seen.backs == 1);
    }
    Ok(())
}

#[test]
fn a_payload_goes_each_way(rt: HostRuntime) -> Result<(), Fail> {
    let case = Case {
        count: 1,
        input: b"6869\n",
        answer: Some(OPENED_OK),
        ..NOTHING
    };
    let seen = run_case(&rt, rt.alloc(), &case)?;
    ends(&rt, &seen, Outcome::Done, b"6f6b\n", Some(REQUEST_HI))
}

/// It begins with the preface of HTTP/2 and ends with the capsule.
fn is_of_http2(rt: &impl Abort, took: &[u8]) -> Result<(), Fail> {
    assert!(rt; took.starts_with(b"PRI * HTTP/2.0\r\n\r\nSM\r\n\r\n"));
    assert!(rt; took.ends_with(DATA_HI));
    Ok(())
}

#[test]
fn a_payload_goes_each_way_over_http2(rt: HostRuntime) -> Result<(), Fail> {
    let case = Case {
        h2: true,
        count: 1,
        input: b"6869",
        answer: Some(OPENED_OK_2),
        ..NOTHING
    };
    let seen = run_case(&rt, rt.alloc(), &case)?;
    ends(&rt, &seen, Outcome::Done, b"6f6b\n", None)?;
    is_of_http2(&rt, seen.took.as_slice())
}

#[test]
fn a_talk_ends(rt: HostRuntime) -> Result<(), Fail> {
    let cases: [(&[u8], Outcome); 5] = [
        (OPENED, Outcome::Early),
        (b"", Outcome::Early),
        (
            b"HTTP/1.1 403 Forbidden\r\nContent-Length: 0\r\n\r\n",
            Outcome::Refused,
        ),
        (b"x\r\n\r\n", Outcome::BadPeer),
        (OPENED_OK, Outcome::Done),
    ];
    for &(answer, outcome) in &cases {
        let case = Case {
            count: 1,
            answer: Some(answer),
            ..NOTHING
        };
        let seen = run_case(&rt, rt.alloc(), &case)?;
        let printed = if answer == OPENED_OK {
            b"6f6b\n".as_slice()
        } else {
            b""
        };
        ends(&rt, &seen, outcome, printed, Some(REQUEST))?;
    }
    Ok(())
}

#[test]
fn a_bad_line_is_told_and_nothing_dialled(rt: HostRuntime) -> Result<(), Fail> {
    let inputs: [&[u8]; 4] = [b"6869\n6\n", b"6869\n\n", b"6869\n6F", b"6869\nx\n"];
    for &input in &inputs {
        let case = Case {
            input,
            answer: Some(OPENED_OK),
            ..NOTHING
        };
        let seen = run_case(&rt, rt.alloc(), &case)?;
        ends(&rt, &seen, Outcome::BadInput, b"bad line 2\n", None)?;
        assert!(rt; seen.backs == 0);
    }
    Ok(())
}

/// What is asked of a proxy: the path and the host of the request, in one line.
fn request(alloc: Global, addr: Addr, host: Host, port: u16) -> Result<String, Fail> {
    let asked = Asked::to(alloc, addr, 8080, false, &Target::Udp { host, port }, 1)?;
    let path = String::from_utf8_lossy(alloc, asked.path.as_slice())?;
    let host = String::from_utf8_lossy(alloc, asked.host.as_slice())?;
    Ok(format!(in alloc; "{path} {host}")?)
}

/// The name that a text is.
fn name(alloc: Global, text: &[u8]) -> Result<Name, Fail> {
    match Name::of(alloc, text)? {
        Some(name) => Ok(name),
        None => Err(Fail::from("no name")),
    }
}

/// The request for a target, of the proxy on this address.
fn stands(
    rt: &impl Abort,
    alloc: Global,
    addr: Addr,
    host: Host,
    port: u16,
    want: &str,
) -> Result<(), Fail> {
    let request = request(alloc, addr, host, port)?;
    assert!(rt; request.as_str() == want);
    Ok(())
}

#[test]
fn a_target_stands_in_the_path(rt: HostRuntime) -> Result<(), Fail> {
    let four = Host::Address(Addr::V4(0xc000_0206));
    let path = "/.well-known/masque/udp/192.0.2.6/443/ 127.0.0.1:8080";
    stands(&rt, rt.alloc(), Addr::V4(0x7f00_0001), four, 443, path)?;
    let six = Host::Address(Addr::V6(0x2001_0db8_0000_0000_0000_0000_0000_0001));
    let path = "/.well-known/masque/udp/2001%3Adb8%3A%3A1/65535/ [::1]:8080";
    stands(&rt, rt.alloc(), Addr::V6(1), six, 65_535, path)?;
    let name = Host::Name(name(rt.alloc(), b"target.example-1.org")?);
    let path = "/.well-known/masque/udp/target.example-1.org/1/ 0.0.0.1:8080";
    stands(&rt, rt.alloc(), Addr::V4(1), name, 1, path)
}

/// A line with a payload of so many bytes, and one behind it.
fn line_of(alloc: Global, count: u32) -> Result<Vec<u8>, NoMemory> {
    let mut input = Vec::new(alloc);
    for _ in 0..count {
        input.extend_from_slice(b"61")?;
    }
    input.extend_from_slice(b"\n61\n")?;
    Ok(input)
}

#[test]
fn a_payload_has_at_most_65527_bytes(rt: HostRuntime) -> Result<(), Fail> {
    let cases: [(u32, Outcome, &[u8]); 2] = [
        (65_527, Outcome::OutsideFault, b""),
        (65_528, Outcome::BadInput, b"bad line 1\n"),
    ];
    for &(count, outcome, printed) in &cases {
        let input = line_of(rt.alloc(), count)?;
        let case = Case {
            input: input.as_slice(),
            ..NOTHING
        };
        let seen = run_case(&rt, rt.alloc(), &case)?;
        ends(&rt, &seen, outcome, printed, None)?;
    }
    Ok(())
}

/// So many lines.
fn lines(alloc: Global, count: u32) -> Result<Vec<u8>, NoMemory> {
    let mut input = Vec::new(alloc);
    for _ in 0..count {
        input.extend_from_slice(b"61\n")?;
    }
    Ok(input)
}

#[test]
fn lines_have_a_limit(rt: HostRuntime) -> Result<(), Fail> {
    let cases: [(u32, Outcome, &[u8]); 2] = [
        (1024, Outcome::OutsideFault, b""),
        (1025, Outcome::BadInput, b"bad line 1025\n"),
    ];
    for &(count, outcome, printed) in &cases {
        let input = lines(rt.alloc(), count)?;
        let case = Case {
            input: input.as_slice(),
            ..NOTHING
        };
        let seen = run_case(&rt, rt.alloc(), &case)?;
        ends(&rt, &seen, outcome, printed, None)?;
    }
    Ok(())
}

#[test]
fn faults_are_told(rt: HostRuntime) -> Result<(), Fail> {
    let whole = Case {
        count: 1,
        input: b"6869\n",
        answer: Some(OPENED_OK),
        ..NOTHING
    };
    let cases = [
        (
            Case {
                answer: None,
                ..whole
            },
            Outcome::OutsideFault,
        ),
        (
            Case {
                link_fails: true,
                ..whole
            },
            Outcome::OutsideFault,
        ),
        (
            Case {
                source_fails: true,
                ..whole
            },
            Outcome::ReadFault,
        ),
        (
            Case {
                sink_fails: true,
                ..whole
            },
            Outcome::WriteFault,
        ),
        (
            Case {
                sink_fails: true,
                input: b"x",
                ..whole
            },
            Outcome::WriteFault,
        ),
    ];
    for &(case, outcome) in &cases {
        let seen = run_case(&rt, rt.alloc(), &case)?;
        ends(&rt, &seen, outcome, b"", None)?;
    }
    Ok(())
}

#[test]
fn outcomes_have_statuses(rt: HostRuntime) -> Result<(), Fail> {
    let cases = [
        (Outcome::Done, 0),
        (Outcome::ReadFault, 3),
        (Outcome::WriteFault, 4),
        (Outcome::BadInput, 5),
        (Outcome::OutsideFault, 6),
        (Outcome::NoMemory, 7),
        (Outcome::Early, 8),
        (Outcome::Refused, 9),
        (Outcome::BadPeer, 10),
    ];
    for &(outcome, code) in &cases {
        assert_eq!(rt; outcome.code(), code);
    }
    Ok(())
}
