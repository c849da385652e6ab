//! Worked rows: what a client sends, and what is done.

use super::{Outside, REQUEST, SWITCHING, WILLING, is, told};
use mq_outside::PortPut;
use std::alloc::Global;
use std::process::Abort;
use std::test::Fail;

/// What is done from the request on, where its tunnel opens.
fn open(alloc: Global, rest: &str) -> Result<String, Fail> {
    Ok(format!(in alloc; "ported 0 0\nopened 0 0 0 udp\nwrote {SWITCHING}\n{rest}")?)
}

/// With these bytes behind a request whose tunnel opens, this is done.
fn opens(
    rt: &impl Abort,
    alloc: Global,
    outside: Outside,
    bytes: &[u8],
    ends: bool,
    want: &str,
) -> Result<(), Fail> {
    let text = told(alloc, outside, &[REQUEST, bytes], ends)?;
    let want = open(alloc, want)?;
    is(rt, text.as_str(), want.as_str());
    Ok(())
}

#[test]
fn capsules_of_a_tunnel(rt: HostRuntime) -> Result<(), Fail> {
    let rows: [(&[u8], bool, &str); 9] = [
        (&[0, 3, 0, 0x68, 0x69], false, "sent 0 0 6869\n"),
        (&[0, 1, 0], false, "sent 0 0 \n"),
        (
            &[0, 3, 2, 0x68, 0x69, 0, 3, 0, 0x68, 0x69],
            false,
            "dropped 0 0 UnknownContext\nsent 0 1 6869\n",
        ),
        (
            &[0x40, 0, 0xc0, 0, 0, 0, 0, 0, 0, 3, 0, 0x68, 0x69],
            false,
            "sent 0 0 6869\n",
        ),
        (
            &[0x29, 2, 9, 9, 0, 3, 0, 0x68, 0x69],
            false,
            "sent 0 0 6869\n",
        ),
        (
            &[0x29, 0xff, 0xff, 0xff, 0xff, 0xff, 0xff, 0xff, 0xff],
            true,
            "closed 0 Truncated left 0\nended Truncated\n",
        ),
        (
            &[0, 3, 0, 0x68, 0x69, 0, 0, 0, 3, 0, 0x68, 0x69],
            false,
            "sent 0 0 6869\nclosed 0 Malformed left 0\nended Tunnel\n",
        ),
        (
            &[0, 3, 0, 0x68, 0x69],
            true,
            "sent 0 0 6869\nclosed 0 End left 0\nended Done\n",
        ),
        (&[0], true, "closed 0 Truncated left 0\nended Truncated\n"),
    ];
    for &(bytes, ends, want) in &rows {
        opens(&rt, rt.alloc(), WILLING, bytes, ends, want)?;
    }
    Ok(())
}

/// What is written where a request is refused with this status line, in hex.
fn refusal(alloc: Global, status: &str) -> Result<String, Fail> {
    let text = format!(in alloc;
        "HTTP/1.1 {status}\r\nConnection: close\r\nContent-Length: 0\r\n\r\n"
    )?;
    Ok(hex::encode(alloc, text.as_bytes())?)
}

/// What is done where a request is refused with this status line.
fn refused(alloc: Global, status: &str, before: &str) -> Result<String, Fail> {
    let hex = refusal(alloc, status)?;
    let (code, _) = status.split_once(' ').unwrap_or((status, ""));
    Ok(format!(in alloc; "{before}refused 0 0 {code} 0\nwrote {hex}\nended Refused\n")?)
}

/// With these pieces, the request is refused with this status line.
fn refuses(
    rt: &impl Abort,
    alloc: Global,
    outside: Outside,
    pieces: &[&[u8]],
    status: &str,
    before: &str,
) -> Result<(), Fail> {
    let text = told(alloc, outside, pieces, false)?;
    let want = refused(alloc, status, before)?;
    is(rt, text.as_str(), want.as_str());
    Ok(())
}

/// A request for a tunnel of this kind by this path.
fn request(alloc: Global, kind: &str, path: &str) -> Result<String, Fail> {
    Ok(format!(in alloc;
        "GET {path} HTTP/1.1\r\nHost: example.org\r\nConnection: Upgrade\r\nUpgrade: {kind}\r\n\r\n"
    )?)
}

/// A request for a tunnel of this kind by this path is refused with this status line.
fn refuses_path(
    rt: &impl Abort,
    alloc: Global,
    kind: &str,
    path: &str,
    status: &str,
) -> Result<(), Fail> {
    let request = request(alloc, kind, path)?;
    let text = told(alloc, WILLING, &[request.as_bytes()], false)?;
    let want = refused(alloc, status, "")?;
    assert!(rt; text.as_str() == want.as_str(), "at {path}");
    Ok(())
}

#[test]
fn requests_that_are_refused(rt: HostRuntime) -> Result<(), Fail> {
    let rows = [
        (
            "connect-udp",
            "/.well-known/masque/udp/192.0.2.6/0/",
            "400 Bad Request",
        ),
        (
            "connect-udp",
            "/.well-known/masque/udp/192.0.2.6/65536/",
            "400 Bad Request",
        ),
        (
            "connect-udp",
            "/.well-known/masque/udp/192.0.2.6/",
            "404 Not Found",
        ),
        ("connect-udp", "/other", "404 Not Found"),
        (
            "connect-udp",
            "/.well-known/masque/udp/example.net/443/",
            "502 Bad Gateway",
        ),
        ("connect-ip", "/.well-known/masque/ip/*/", "404 Not Found"),
        (
            "connect-ip",
            "/.well-known/masque/ip/example.net/*/",
            "502 Bad Gateway",
        ),
        (
            "connect-ip",
            "/.well-known/masque/ip/*/256/",
            "400 Bad Request",
        ),
        ("websocket", "/chat", "501 Not Implemented"),
    ];
    for &(kind, path, status) in &rows {
        refuses_path(&rt, rt.alloc(), kind, path, status)?;
    }
    for &head in &[
        b"GET / HTTP/1.1\r\n\r\n".as_slice(),
        b"PRI * HTTP/1.1\r\n\r\n",
    ] {
        refuses(&rt, rt.alloc(), WILLING, &[head], "400 Bad Request", "")?;
    }
    Ok(())
}

#[test]
fn what_the_outside_refuses(rt: HostRuntime) -> Result<(), Fail> {
    let unbound = Outside {
        binds: false,
        ..WILLING
    };
    let pieces = [REQUEST, [0, 3, 0, 1, 2].as_slice()];
    refuses(&rt, rt.alloc(), unbound, &pieces, "502 Bad Gateway", "")?;
    let full = Outside {
        opens: false,
        ..WILLING
    };
    refuses(
        &rt,
        rt.alloc(),
        full,
        &pieces,
        "503 Service Unavailable",
        "ported 0 0\n",
    )?;
    let failing = Outside {
        put: PortPut::Failed,
        ..WILLING
    };
    opens(
        &rt,
        rt.alloc(),
        failing,
        &[0, 3, 0, 1, 2],
        false,
        "dropped 0 0 Port\n",
    )
}
