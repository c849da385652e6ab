//! Heads of requests, whole and byte by byte.

use mq_head::{HeadReader, HeadStep};
use mq_wire::NoMemory;
use std::alloc::Global;

/// The request of RFC 9298, section 3.2: 158 bytes, with a path of 38.
const HEAD: &[u8] =
    b"GET https://example.org/.well-known/masque/udp/192.0.2.6/443/ HTTP/1.1\r\nHost: example.org\r\nConnection: Upgrade\r\nUpgrade: connect-udp\r\nCapsule-Protocol: ?1\r\n\r\n";

/// Bytes that wait for more up to the limit of 8,192: each is a start, and then the same bytes again and again, in empty
/// lines, a method, a target, field lines, a name and a value.
const LONG: [(&[u8], &[u8]); 6] = [
    (b"", b"\r\n"),
    (b"", b"A"),
    (b"GET /", b"a"),
    (b"GET / HTTP/1.1\r\n", b"A:\n"),
    (b"GET / HTTP/1.1\r\n", b"A"),
    (b"GET / HTTP/1.1\r\nA: ", b"b"),
];

/// What a head in pieces of this size adds: the bytes of its last piece and of its path.
fn in_pieces(alloc: Global, size: usize) -> Result<u64, NoMemory> {
    let mut reader = HeadReader::new();
    for piece in HEAD.chunks(size.max(1)) {
        if let HeadStep::Upgrade { path, used, .. } = reader.feed(alloc, piece)? {
            return Ok(u64::from(used).wrapping_add(path.as_slice().len() as u64));
        }
    }
    Ok(0)
}

/// The sum over so many heads in one piece each.
pub fn checksum(alloc: Global, count: u32) -> Result<u64, NoMemory> {
    let mut sum = 0u64;
    for _ in 0..count {
        sum = sum.wrapping_add(in_pieces(alloc, 8192)?);
    }
    Ok(sum)
}

/// The sum over so many heads byte by byte.
pub fn checksum_by_bytes(alloc: Global, count: u32) -> Result<u64, NoMemory> {
    let mut sum = 0u64;
    for _ in 0..count {
        sum = sum.wrapping_add(in_pieces(alloc, 1)?);
    }
    Ok(sum)
}

/// The start and what repeats, up to 8,191 bytes.
fn long(alloc: Global, start: &[u8], repeats: &[u8]) -> Result<Vec<u8>, NoMemory> {
    let mut bytes = Vec::from_slice(alloc, start)?;
    for byte in repeats
        .iter()
        .cycle()
        .take(8191usize.saturating_sub(start.len()))
    {
        bytes.push(*byte)?;
    }
    Ok(bytes)
}

/// How often a reader asks for more of these bytes, byte by byte.
fn waits(alloc: Global, bytes: &[u8]) -> Result<u64, NoMemory> {
    let mut reader = HeadReader::new();
    let mut count = 0u64;
    for piece in bytes.chunks(1) {
        if let HeadStep::More = reader.feed(alloc, piece)? {
            count = count.wrapping_add(1);
        }
    }
    Ok(count)
}

/// The sum over so many rounds of the longest starts of heads, byte by byte.
pub fn checksum_of_long(alloc: Global, count: u32) -> Result<u64, NoMemory> {
    let mut sum = 0u64;
    for (start, repeats) in LONG {
        let bytes = long(alloc, start, repeats)?;
        for _ in 0..count {
            sum = sum.wrapping_add(waits(alloc, bytes.as_slice())?);
        }
    }
    Ok(sum)
}
