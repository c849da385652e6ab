//! The limits of a head, and bytes inside the request target.
use super::*;

const START: &[u8] =
    b"GET /p HTTP/1.1\r\nHost: p\r\nConnection: Upgrade\r\nUpgrade: connect-udp\r\n";

/// A head with so many fields.
fn with_fields(alloc: Global, count: u32) -> Result<Vec<u8>, Fail> {
    let mut head = Vec::from_slice(alloc, START)?;
    for _ in 3..count {
        head.extend_from_slice(b"A: b\r\n")?;
    }
    head.extend_from_slice(b"\r\n")?;
    Ok(head)
}

/// A head of so many bytes.
fn with_bytes(alloc: Global, count: usize) -> Result<Vec<u8>, Fail> {
    let mut head = Vec::from_slice(alloc, START)?;
    head.extend_from_slice(b"A: ")?;
    for _ in 0..count.saturating_sub(head.len()).saturating_sub(4) {
        head.push(b'x')?;
    }
    head.extend_from_slice(b"\r\n\r\n")?;
    Ok(head)
}

#[test]
fn a_head_has_up_to_64_fields(rt: HostRuntime) -> Result<(), Fail> {
    for &(count, want) in &[
        (3u32, Want::Udp(b"/p")),
        (64, Want::Udp(b"/p")),
        (65, Want::Refused(400)),
        (1300, Want::Refused(400)),
    ] {
        let head = with_fields(rt.alloc(), count)?;
        for &size in &[1usize, 1000, 8192] {
            let (step, _) = answer(rt.alloc(), head.as_slice(), size)?;
            assert!(rt;
                is_wanted(&step, want),
                "{count} fields in pieces of {size}"
            );
        }
    }
    Ok(())
}

#[test]
fn a_head_has_up_to_8192_bytes(rt: HostRuntime) -> Result<(), Fail> {
    for &(count, want) in &[
        (8191usize, Want::Udp(b"/p")),
        (8192, Want::Udp(b"/p")),
        (8193, Want::Refused(400)),
        (16384, Want::Refused(400)),
    ] {
        let head = with_bytes(rt.alloc(), count)?;
        assert_eq!(rt; head.len(), count);
        for &size in &[1usize, 100, 8191, 16384] {
            let (step, _) = answer(rt.alloc(), head.as_slice(), size)?;
            assert!(rt; is_wanted(&step, want), "{count} bytes in pieces of {size}");
        }
    }
    Ok(())
}

#[test]
fn more_is_waited_for_up_to_8191_bytes(rt: HostRuntime) -> Result<(), Fail> {
    let head = with_bytes(rt.alloc(), 9000)?;
    let mut target = Vec::from_slice(rt.alloc(), b"GET /")?;
    for _ in 0..9000u32 {
        target.push(b'a')?;
    }
    for &bytes in &[head.as_slice(), target.as_slice()] {
        for &(count, want) in &[(8191usize, Want::More), (8192, Want::Refused(400))] {
            let (front, _) = bytes.split_at(count.min(bytes.len()));
            let (step, _) = answer(rt.alloc(), front, 8192)?;
            assert!(rt; is_wanted(&step, want), "{count} bytes");
        }
    }
    Ok(())
}

#[test]
fn inside_the_target_only_the_limit_counts(rt: HostRuntime) -> Result<(), Fail> {
    for &(bytes, want) in &[
        (b"\x01".as_slice(), Want::Refused(400)),
        (b"\x01 /a".as_slice(), Want::More),
        (b"\r\n\nG@T /".as_slice(), Want::More),
        (b"GET /\x01\x7f".as_slice(), Want::More),
        (b"GET /\x01 ".as_slice(), Want::Refused(400)),
        (b"GET /\x01\n".as_slice(), Want::Refused(400)),
        (b"\r\r \r".as_slice(), Want::Refused(400)),
        (b"".as_slice(), Want::More),
        (b"\r\n".as_slice(), Want::More),
        (b"GET".as_slice(), Want::More),
    ] {
        let (step, _) = answer(rt.alloc(), bytes, 8192)?;
        assert!(rt; is_wanted(&step, want), "{bytes:?}");
    }
    Ok(())
}
