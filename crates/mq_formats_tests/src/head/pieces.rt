//! Heads in many pieces: the answer is that of the bytes in one piece, and comes at the same byte.
use super::*;

/// A head with empty lines in front, lines that end in LF alone, and fields with and without a value.
const HEAD: &[u8] =
    b"\r\n\nGET /p?q#f HTTP/1.1\r\nHost:p\nA:\r\nB: \t\x80, :\r\nConnection:Upgrade\r\nUpgrade: connect-ip\n\r\n";

/// Bytes whose last one decides: no head can begin with them, and with those before it one can.
const FAULTS: [&[u8]; 16] = [
    b"(",
    b"\r\r",
    b"\r\n\r\nG\x01",
    b"GET(",
    b"GET / HTTQ",
    b"GET / HTTP/1.2",
    b"GET / HTTP/1.1 ",
    b"GET / HTTP/1.1\r\r",
    b"GET / HTTP/1.1\r\n ",
    b"GET / HTTP/1.1\r\nHost: p\r\n:",
    b"GET / HTTP/1.1\r\nHost ",
    b"GET / HTTP/1.1\r\nHost\r",
    b"GET / HTTP/1.1\r\nHost: p\x7f",
    b"GET / HTTP/1.1\r\nHost: p\r\x01",
    b"GET / HTTP/1.1\r\nHost: p\nA:\r\n\t",
    b"GET / HTTP/1.1\r\nHost: p\r\n\r\r",
];

/// Starts of heads that wait for more as long as the bytes behind them are repeated: empty lines, a method, a target,
/// field lines, a name and a value.
const LONG: [(&[u8], &[u8]); 6] = [
    (b"", b"\r\n"),
    (b"", b"A"),
    (b"GET /", b"a"),
    (b"GET / HTTP/1.1\r\n", b"A:\n"),
    (b"GET / HTTP/1.1\r\n", b"A"),
    (b"GET / HTTP/1.1\r\nA: ", b"b"),
];

fn repeated(alloc: Global, start: &[u8], repeats: &[u8], count: usize) -> Result<Vec<u8>, Fail> {
    let mut bytes = Vec::from_slice(alloc, start)?;
    for byte in repeats
        .iter()
        .cycle()
        .take(count.saturating_sub(start.len()))
    {
        bytes.push(*byte)?;
    }
    Ok(bytes)
}

#[test]
fn a_head_is_answered_in_pieces_of_every_size(rt: HostRuntime) -> Result<(), Fail> {
    for size in 1..=HEAD.len() {
        let (step, used) = answer(rt.alloc(), HEAD, size)?;
        assert!(rt; is_wanted(&step, Want::Ip(b"/p?q#f")), "pieces of {size}");
        assert!(rt; used == HEAD.len(), "pieces of {size}");
    }
    Ok(())
}

#[test]
fn a_refusal_comes_at_the_byte_that_decides(rt: HostRuntime) -> Result<(), Fail> {
    for &bytes in &FAULTS {
        for &size in &[1usize, 2, 3, 16] {
            let (front, _) = bytes.split_at(bytes.len().saturating_sub(1));
            let (before, _) = answer(rt.alloc(), front, size)?;
            let (step, _) = answer(rt.alloc(), bytes, size)?;
            assert!(rt;
                is_wanted(&before, Want::More),
                "{front:?} in pieces of {size}"
            );
            assert!(rt;
                is_wanted(&step, Want::Refused(400)),
                "{bytes:?} in pieces of {size}"
            );
        }
    }
    Ok(())
}

#[test]
fn long_starts_wait_up_to_the_limit_in_pieces(rt: HostRuntime) -> Result<(), Fail> {
    for &(start, repeats) in &LONG {
        for &(count, want) in &[(8191usize, Want::More), (8192, Want::Refused(400))] {
            let bytes = repeated(rt.alloc(), start, repeats, count)?;
            for &size in &[1usize, 5, 1000] {
                let (step, _) = answer(rt.alloc(), bytes.as_slice(), size)?;
                assert!(rt;
                    is_wanted(&step, want),
                    "{start:?} and {repeats:?} in pieces of {size}"
                );
            }
        }
    }
    Ok(())
}
