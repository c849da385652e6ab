//! What answers bring to a client, and what it owes.
mod calls;
mod http2_tests;
mod sessions;

use crate::client::calls::{client, fed, fed_all, is};
use mq_client::Client;
use std::alloc::Global;
use std::process::Abort;
use std::test::Fail;

/// The answer that opens a tunnel.
const OPENED: &[u8] =
    b"HTTP/1.1 101 Switching Protocols\r\nConnection: Upgrade\r\nUpgrade: connect-udp\r\nCapsule-Protocol: ?1\r\n\r\n";

/// What these pieces bring to a new client, one behind the other.
fn told(alloc: Global, pieces: &[&[u8]]) -> Result<String, Fail> {
    let mut client = client(alloc, false)?;
    fed_all(alloc, &mut client, pieces)
}

const REQUEST: &[u8] =
    b"GET /.well-known/masque/udp/192.0.2.6/443/ HTTP/1.1\r\nHost: 127.0.0.1:8080\r\nConnection: Upgrade\r\nUpgrade: connect-udp\r\nCapsule-Protocol: ?1\r\n\r\n";

/// These pieces bring this to a new client.
fn brings(rt: &impl Abort, alloc: Global, pieces: &[&[u8]], want: &str) -> Result<(), Fail> {
    let text = told(alloc, pieces)?;
    is(rt, text.as_str(), want, "");
    Ok(())
}

/// These bytes, cut here, and then an `o` bring this.
fn cut_brings(
    rt: &impl Abort,
    alloc: Global,
    bytes: &[u8],
    at: usize,
    want: &str,
) -> Result<(), Fail> {
    let (front, rest) = bytes.split_at(at.min(bytes.len()));
    let text = told(alloc, &[front, rest, b"o"])?;
    assert!(rt; text.as_str() == want, "cut at {at}");
    Ok(())
}

/// What is owed is this, and so much of it is written.
fn write_some(rt: &impl Abort, client: &mut Client, owed: &[u8], count: u32) {
    assert_eq!(rt; client.owed(), owed);
    client.wrote(count);
}

fn ask_and_send(rt: &impl Abort, alloc: Global, client: &mut Client) -> Result<(), Fail> {
    let (_, rest) = REQUEST.split_at(100);
    write_some(rt, client, REQUEST, 100);
    write_some(rt, client, rest, 0);
    let events = fed(alloc, client, OPENED)?;
    is(rt, events.as_str(), "opened", "");
    client.send(b"hi")?;
    client.wrote(40);
    write_some(rt, client, b"\r\n\x00\x03\x00hi", 2);
    write_some(rt, client, b"\x00\x03\x00hi", 0);
    Ok(())
}

#[test]
fn owes_the_request_and_then_a_capsule(rt: HostRuntime) -> Result<(), Fail> {
    let mut client = client(rt.alloc(), false)?;
    ask_and_send(&rt, rt.alloc(), &mut client)
}

/// What these pieces bring begins with this.
fn begins(rt: &impl Abort, alloc: Global, pieces: &[&[u8]], want: &str) -> Result<(), Fail> {
    let text = told(alloc, pieces)?;
    assert!(rt; text.starts_with(want));
    Ok(())
}

#[test]
fn answers_bring_their_events(rt: HostRuntime) -> Result<(), Fail> {
    let cases: [(&[u8], &str); 9] = [
        (
            b"HTTP/1.1 403 Forbidden\r\nConnection: close\r\nContent-Length: 0\r\n\r\n",
            "refused 403",
        ),
        (b"HTTP/1.1 200 OK\r\n\r\n\x00\x03\x00ok", "refused 200"),
        (b"\r\nHTTP/1.0 502\n\n", "refused 502"),
        (b"x\r\n\r\n", "bad peer 1"),
        (b"HTTP/2.0 101 Switching Protocols\r\n\r\n", "bad peer 1"),
        (b"HTTP/1.1 101 Switching Protocols\r\n", ""),
        (
            b"HTTP/1.1 101\r\n\r\n\x00\x03\x00ok\x04\x01a\x00\x02\x02a\x00\x01\x00",
            "opened; payload 6f6b; payload ",
        ),
        (
            b"HTTP/1.1 101\r\n\r\n\x00\x03\x00ok\x00\x00\x00\x03\x00ok",
            "opened; payload 6f6b; bad peer 1",
        ),
        (b"HTTP/1.1 101\r\n\r\n\x00\x01\x40", "opened; bad peer 1"),
    ];
    for &(bytes, want) in &cases {
        brings(&rt, rt.alloc(), &[bytes], want)?;
        begins(&rt, rt.alloc(), &[bytes, b"\x00\x03\x00ok"], want)?;
    }
    Ok(())
}

#[test]
fn each_cutting_brings_the_same(rt: HostRuntime) -> Result<(), Fail> {
    let alloc = rt.alloc();
    let mut bytes = Vec::from_slice(alloc, OPENED)?;
    bytes.extend_from_slice(b"\x00\x03\x00ok\x00\x03\x00k")?;
    let all = bytes.as_slice();
    for at in 0..all.len() {
        cut_brings(&rt, alloc, all, at, "opened; payload 6f6b; payload 6b6f")?;
    }
    Ok(())
}

/// A head that opens the tunnel, with so many fields.
fn head_of_fields(alloc: Global, count: usize) -> Result<Vec<u8>, Fail> {
    let mut head = Vec::from_slice(alloc, b"HTTP/1.1 101 Switching Protocols\r\n")?;
    for _ in 0..count {
        head.extend_from_slice(b"a: b\r\n")?;
    }
    head.extend_from_slice(b"\r\n")?;
    Ok(head)
}

/// A head that opens the tunnel, of so many bytes and more.
fn head_of_bytes(alloc: Global, count: usize) -> Result<Vec<u8>, Fail> {
    let mut head = Vec::from_slice(alloc, b"HTTP/1.1 101 Switching Protocols\r\na: ")?;
    for _ in 0..count {
        head.push(b'b')?;
    }
    head.extend_from_slice(b"\r\n\r\n")?;
    Ok(head)
}

/// A head of 64 fields is read, and one of 65 is bad.
fn have_few_fields(rt: &impl Abort, alloc: Global) -> Result<(), Fail> {
    let few = head_of_fields(alloc, 64)?;
    brings(rt, alloc, &[few.as_slice()], "opened")?;
    let many = head_of_fields(alloc, 65)?;
    brings(rt, alloc, &[many.as_slice()], "bad peer 1")
}

/// A head of 8192 bytes is read.
fn may_be_long(rt: &impl Abort, alloc: Global) -> Result<(), Fail> {
    let long = head_of_bytes(alloc, 8192 - 41)?;
    assert!(rt; long.len() == 8192);
    brings(rt, alloc, &[long.as_slice()], "opened")
}

/// A longer one is bad as soon as byte 8192 is there.
fn are_no_longer(rt: &impl Abort, alloc: Global) -> Result<(), Fail> {
    let longer = head_of_bytes(alloc, 8192 - 40)?;
    brings(rt, alloc, &[longer.as_slice()], "bad peer 1")?;
    let (begun, _) = longer.as_slice().split_at(longer.len().min(8191));
    brings(rt, alloc, &[begun], "")?;
    brings(rt, alloc, &[begun, b"b"], "bad peer 1")
}

#[test]
fn heads_have_limits(rt: HostRuntime) -> Result<(), Fail> {
    have_few_fields(&rt, rt.alloc())?;
    may_be_long(&rt, rt.alloc())?;
    are_no_longer(&rt, rt.alloc())
}

/// The bytes of an opened tunnel with one DATAGRAM capsule, whose value is this front and so many bytes.
fn tunnel_with(alloc: Global, front: &[u8], count: usize) -> Result<Vec<u8>, Fail> {
    let mut bytes = Vec::from_slice(alloc, b"HTTP/1.1 101\r\n\r\n")?;
    bytes.extend_from_slice(front)?;
    for _ in 0..count {
        bytes.push(0)?;
    }
    Ok(bytes)
}

#[test]
fn payloads_have_a_limit(rt: HostRuntime) -> Result<(), Fail> {
    let rows: [(&[u8], usize, &str); 3] = [
        (
            b"\x00\x80\x00\xff\xf8\x00",
            65_527,
            "opened; payload #65527",
        ),
        (b"\x00\x80\x00\xff\xf9\x00", 65_528, "opened; bad peer 1"),
        (b"\x00\x80\x00\xff\xf9\x01", 65_528, "opened"),
    ];
    for &(front, count, want) in &rows {
        let bytes = tunnel_with(rt.alloc(), front, count)?;
        brings(&rt, rt.alloc(), &[bytes.as_slice()], want)?;
    }
    Ok(())
}
