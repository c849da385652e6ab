//! The word `udp`: a client and a proxy in memory.

ghost use Rattle.std.specs.Prelude.{IfOk};
ghost use Rattle.mq_mem.specs.Links.{AllFull};
ghost use Rattle.mq_mem.specs.Outsides.{AreNew};

use super::{does, none, words_of};
use mq_mem::{MemAcceptor, MemLink, MemOutside, MemSink, MemSource};
use mq_wire::{Bytes, NoMemory, Seq};
use std::alloc::Global;
use std::sync::Wait;
use std::test::Fail;

/// What the client asks in HTTP/1.1, and a capsule with the payload `hi` behind it.
const REQUEST_HI: &[u8] =
    b"GET /.well-known/masque/udp/192.0.2.6/443/ HTTP/1.1\r\nHost: 127.0.0.1:8080\r\nConnection: Upgrade\r\nUpgrade: connect-udp\r\nCapsule-Protocol: ?1\r\n\r\n\x00\x03\x00hi";

const OPENED: &[u8] =
    b"HTTP/1.1 101 Switching Protocols\r\nConnection: Upgrade\r\nUpgrade: connect-udp\r\nCapsule-Protocol: ?1\r\n\r\n";

const OPENED_OK: &[u8] =
    b"HTTP/1.1 101 Switching Protocols\r\nConnection: Upgrade\r\nUpgrade: connect-udp\r\nCapsule-Protocol: ?1\r\n\r\n\x00\x03\x00ok";

const FORBIDDEN: &[u8] =
    b"HTTP/1.1 403 Forbidden\r\nConnection: close\r\nContent-Length: 0\r\n\r\n";

const WORDS: &[&str] = &["udp", "127.0.0.1", "8080", "192.0.2.6", "443", "h1", "1"];

const OF_ANOTHER_VERSION: &[&str] = &["udp", "127.0.0.1", "8080", "192.0.2.6", "443", "h3", "1"];

/// What was seen of a run: its status, what it printed, and what the proxy was told.
#[derive(Drop)]
struct Seen {
    status: u8,
    printed: Vec<u8>,
    told: Vec<u8>,
}

/// What a proxy sends, as one piece.
fn pieces(alloc: Global, answer: &[u8]) -> Result<Seq<Bytes>, NoMemory>
    ensures { IfOk result (λ pieces. AllFull pieces) }
{
    let mut list = Vec::new(alloc);
    if !answer.is_empty() {
        list.push(Bytes::from_vec(Vec::from_slice(alloc, answer)?))?;
    }
    Ok(Seq::from_vec(list))
}

/// A link to a proxy that sends this and then ends.
fn links(alloc: Global, answer: &[u8]) -> Result<Seq<MemLink>, NoMemory>
    ensures { IfOk result (λ links. AreNew links) }
{
    let mut list = Vec::new(alloc);
    let pieces = pieces(alloc, answer)?;
    list.push(MemLink::new(alloc, pieces, true, Some(4096), none(alloc))?)?;
    Ok(Seq::from_vec(list))
}

/// An outside with such a proxy.
fn with_proxy(alloc: Global, answer: &[u8]) -> Result<MemOutside, NoMemory> {
    let links = links(alloc, answer)?;
    let acceptor = MemAcceptor::new(none(alloc), none(alloc))?;
    MemOutside::new(
        alloc,
        acceptor,
        links,
        none(alloc),
        none(alloc),
        none(alloc),
    )
}

/// What the links took that were handed back.
fn told(alloc: Global, outside: &MemOutside) -> Result<Vec<u8>, NoMemory> {
    let mut told = Vec::new(alloc);
    for back in outside.backs() {
        told.extend_from_slice(back.link.taken().unwrap_or(b""))?;
    }
    Ok(told)
}

/// Does what words say, with this input, in this outside.
fn done(
    rt: &impl Wait,
    alloc: Global,
    words: &[&str],
    input: &[u8],
    outside: &mut MemOutside,
) -> Result<Seen, NoMemory> {
    let list = words_of(alloc, words)?;
    let input = Bytes::from_vec(Vec::from_slice(alloc, input)?);
    let mut source = MemSource::new(input, none(alloc))?;
    let mut sink = MemSink::new(alloc, 4096, none(alloc))?;
    let status = does(rt, alloc, list.as_slice(), &mut source, &mut sink, outside);
    let told = told(alloc, outside)?;
    Ok(Seen {
        status,
        printed: Vec::from_slice(alloc, sink.taken())?,
        told,
    })
}

/// Does the same where a proxy sends this and then ends.
fn done_with(
    rt: &impl Wait,
    alloc: Global,
    words: &[&str],
    input: &[u8],
    answer: &[u8],
) -> Result<Seen, NoMemory> {
    let mut outside = with_proxy(alloc, answer)?;
    done(rt, alloc, words, input, &mut outside)
}

#[test]
fn a_payload_goes_each_way(rt: HostRuntime) -> Result<(), Fail> {
    let seen = done_with(&rt, rt.alloc(), WORDS, b"6869\n", OPENED_OK)?;
    assert_eq!(rt; seen.status, 0);
    assert_eq!(rt; seen.printed.as_slice(), b"6f6b\n".as_slice());
    assert_eq!(rt; seen.told.as_slice(), REQUEST_HI);
    Ok(())
}

#[test]
fn a_client_has_its_statuses(rt: HostRuntime) -> Result<(), Fail> {
    let cases: [(&[&str], &[u8], &[u8], u8, &[u8]); 6] = [
        (WORDS, b"", OPENED, 8, b""),
        (WORDS, b"", FORBIDDEN, 9, b""),
        (WORDS, b"", b"x\r\n\r\n", 10, b""),
        (WORDS, b"6869\nx\n", OPENED, 5, b"bad line 2\n"),
        (OF_ANOTHER_VERSION, b"", OPENED, 2, b""),
        (&["serve", "0", "1"], b"", OPENED, 2, b""),
    ];
    for &(words, input, answer, want, printed) in &cases {
        let seen = done_with(&rt, rt.alloc(), words, input, answer)?;
        assert_eq!(rt; seen.status, want);
        assert_eq!(rt; seen.printed.as_slice(), printed);
    }
    Ok(())
}

#[test]
fn nobody_is_dialled(rt: HostRuntime) -> Result<(), Fail> {
    let mut outside = MemOutside::nowhere(rt.alloc());
    let seen = done(&rt, rt.alloc(), WORDS, b"", &mut outside)?;
    assert_eq!(rt; seen.status, 6);
    assert!(rt; seen.printed.is_empty());
    Ok(())
}
