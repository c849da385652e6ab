//! The answers byte for byte.
use super::*;

#[test]
fn success_and_refusals_are_these_bytes(rt: HostRuntime) -> Result<(), Fail> {
    for &(kind, text) in &[
        (
            Kind::Udp,
            b"HTTP/1.1 101 Switching Protocols\r\nConnection: Upgrade\r\nUpgrade: connect-udp\r\nCapsule-Protocol: ?1\r\n\r\n".as_slice(),
        ),
        (
            Kind::Ip,
            b"HTTP/1.1 101 Switching Protocols\r\nConnection: Upgrade\r\nUpgrade: connect-ip\r\nCapsule-Protocol: ?1\r\n\r\n".as_slice(),
        ),
    ] {
        let mut out = Vec::new(rt.alloc());
        success(&mut out, kind)?;
        assert_eq!(rt; out.as_slice(), text);
    }
    Ok(())
}

#[test]
fn each_status_has_its_refusal(rt: HostRuntime) -> Result<(), Fail> {
    let mut out = Vec::new(rt.alloc());
    refusal(&mut out, 400)?;
    refusal(&mut out, 403)?;
    refusal(&mut out, 404)?;
    refusal(&mut out, 501)?;
    refusal(&mut out, 502)?;
    refusal(&mut out, 503)?;
    let mut all = Vec::new(rt.alloc());
    for &line in &[
        b"400 Bad Request".as_slice(),
        b"403 Forbidden",
        b"404 Not Found",
        b"501 Not Implemented",
        b"502 Bad Gateway",
        b"503 Service Unavailable",
    ] {
        all.extend_from_slice(b"HTTP/1.1 ")?;
        all.extend_from_slice(line)?;
        all.extend_from_slice(b"\r\nConnection: close\r\nContent-Length: 0\r\n\r\n")?;
    }
    assert_eq!(rt; out.as_slice(), all.as_slice());
    Ok(())
}
