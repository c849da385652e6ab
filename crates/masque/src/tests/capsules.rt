//! The data stream of a tunnel.

use super::ends;
use std::alloc::{AllocError, Global};
use std::test::Fail;

/// A tunnel to this address, the lines of its data stream, and nine steps behind the four that open it.
fn streamed(alloc: Global, address: &[u8], lines: &[u8]) -> Result<Vec<u8>, AllocError> {
    let mut script = Vec::from_slice(
        alloc,
        b"conn 0\ntext 0 GET /.well-known/masque/udp/".as_slice(),
    )?;
    script.extend_from_slice(address)?;
    script.extend_from_slice(
        b"/443/ HTTP/1.1\\r\\nHost: p\\r\\nConnection: Upgrade\\r\\nUpgrade: connect-udp\\r\\n\\r\\n\n".as_slice(),
    )?;
    script.extend_from_slice(b"step 0 5\n".as_slice())?;
    script.extend_from_slice(lines)?;
    script.extend_from_slice(b"step 0 9\n".as_slice())?;
    Ok(script)
}

// RFC 9297, section 3.2, and RFC 9298, section 5: types that aren't known are passed over, contexts that aren't known are
// dropped and counted, and what makes the stream malformed closes the tunnel.
#[test]
fn capsules_are_served(rt: HostRuntime) -> Result<(), Fail> {
    let cases: [(&[u8], &[u8], &[u8]); 15] = [
        (b"192.0.2.6", b"bytes 0 000100\n", b"\nsent 0 0 -\nidle 0\n"),
        (
            b"192.0.2.6",
            b"bytes 0 0100\nbytes 0 0200\nbytes 0 030100\nbytes 0 00020061\n",
            b"\nsent 0 0 61\nidle 0\n",
        ),
        (
            b"192.0.2.6",
            b"bytes 0 ffffffffffffffff03616161000200\nbytes 0 62\n",
            b"\ntook 0 1\nsent 0 0 62\nidle 0\n",
        ),
        (
            b"192.0.2.6",
            b"bytes 0 00020161000200620009ffffffffffffffff63\n",
            b"\ndropped 0 0 UnknownContext\nsent 0 1 62\ndropped 0 2 UnknownContext\nidle 0\n",
        ),
        (
            b"192.0.2.6",
            b"bytes 0 0002016100020062000ac00000000000000163640002006500020166\n",
            b"\ndropped 0 0 UnknownContext\nsent 0 1 62\ndropped 0 2 UnknownContext\nsent 0 3 65\ndropped 0 4 UnknownContext\nidle 0\n",
        ),
        (
            b"192.0.2.6",
            b"bytes 0 0000\n",
            b"\nclosed 0 Malformed left 0\nended 0 Tunnel\nidle 0\n",
        ),
        (
            b"192.0.2.6",
            b"bytes 0 00020061000140000200620002\n",
            b"\nsent 0 0 61\nclosed 0 Malformed left 0\nended 0 Tunnel\nidle 0\n",
        ),
        (
            b"192.0.2.6",
            b"fill 0 008000ffe400 65507 61\n",
            b"6161\nidle 0\n",
        ),
        (
            b"192.0.2.6",
            b"fill 0 008000ffe500 65508 61\n",
            b"\ndropped 0 0 TooLong\nidle 0\n",
        ),
        (
            b"2001:db8::6",
            b"fill 0 008000ffe500 65508 61\n",
            b"6161\nidle 0\n",
        ),
        (
            b"2001:db8::6",
            b"fill 0 008000fff800 65527 61\n",
            b"6161\nidle 0\n",
        ),
        (
            b"2001:db8::6",
            b"fill 0 008000fff900 65528 61\n",
            b"\nclosed 0 Malformed left 0\nended 0 Tunnel\nidle 0\n",
        ),
        (
            b"192.0.2.6",
            b"fill 0 008000fff901 65528 61\nbytes 0 00020062\n",
            b"\ndropped 0 0 UnknownContext\ntook 0 4\nsent 0 1 62\nidle 0\n",
        ),
        (
            b"192.0.2.6",
            b"fill 0 008001000101 65536 61\nbytes 0 00020062\n",
            b"\ndropped 0 0 UnknownContext\ntook 0 4\nsent 0 1 62\nidle 0\n",
        ),
        (
            b"192.0.2.6",
            b"fill 0 008001000100 65536 61\nbytes 0 00020062\n",
            b"\nclosed 0 Malformed left 0\nended 0 Tunnel\nidle 0\n",
        ),
    ];
    for &(address, lines, want) in &cases {
        let script = streamed(rt.alloc(), address, lines)?;
        ends(&rt, rt.alloc(), script.as_slice(), want)?;
    }
    Ok(())
}
