//! A connection of HTTP/2: a megabyte of DATA on a stream, and requests with their answers.
use mq_h2::{H2, StreamEvent};
use mq_hpack::{Field, Text};
use mq_wire::NoMemory;
use std::alloc::Global;

/// The client's SETTINGS, and POST for `/` of `www.example.com` on stream 1.
const POST: [u8; 35] = [
    0, 0, 0, 4, 0, 0, 0, 0, 0, 0, 0, 17, 1, 4, 0, 0, 0, 1, 0x83, 0x86, 0x84, 0x41, 0x8c, 0xf1,
    0xe3, 0xc2, 0xe5, 0xf2, 0x3a, 0x6b, 0xa0, 0xab, 0x90, 0xf4, 0xff,
];

/// The block of GET for `/` of `www.example.com`, as the first of a connection and as each later one.
const FIRST: [u8; 17] = [
    0x82, 0x86, 0x84, 0x41, 0x8c, 0xf1, 0xe3, 0xc2, 0xe5, 0xf2, 0x3a, 0x6b, 0xa0, 0xab, 0x90, 0xf4,
    0xff,
];

const LATER: [u8; 4] = [0x82, 0x86, 0x84, 0xbe];

/// The contents of the frames of a round of DATA are no fewer.
const MEGABYTE: usize = 1_048_576;

/// All that is owed is written, and the updates that are due then.
fn write_all(h2: &mut H2) {
    for _ in 0..3 {
        h2.end_act();
        let count = h2.owed().len();
        if count == 0 {
            return;
        }
        h2.wrote(u32::try_from(count).unwrap_or(u32::MAX));
    }
}

/// DATA frames of so many bytes each.
fn frames(alloc: Global, length: u16) -> Result<Vec<u8>, NoMemory> {
    let mut out = Vec::new(alloc);
    let [a, b] = length.to_be_bytes();
    for _ in 0..MEGABYTE.div_ceil(usize::from(length.max(1))) {
        out.extend_from_slice(&[0, a, b, 0, 0, 0, 0, 0, 1])?;
        for n in 0..length {
            out.push((n % 255) as u8)?;
        }
    }
    Ok(out)
}

/// A piece is read, and its DATA consumed.
fn read_data(alloc: Global, h2: &mut H2, piece: &[u8]) -> Result<u64, NoMemory> {
    let mut sum = 0u64;
    for event in h2.feed(alloc, piece)?.as_slice() {
        if let StreamEvent::Content {
            stream,
            bytes,
            length,
            ..
        } = event
        {
            sum = sum.wrapping_add(bytes.as_slice().len() as u64);
            h2.consumed(*stream, *length);
        }
    }
    write_all(h2);
    Ok(sum)
}

/// How many bytes of DATA so many rounds of a megabyte had, in frames of so many bytes and pieces of so many.
pub fn checksum_of_data(
    alloc: Global,
    count: u32,
    length: u16,
    size: usize,
) -> Result<u64, NoMemory> {
    let round = frames(alloc, length)?;
    let mut h2 = H2::new(alloc)?;
    h2.feed(alloc, &POST)?;
    let mut sum = 0u64;
    for _ in 0..count {
        for piece in round.as_slice().chunks(size.max(1)) {
            sum = sum.wrapping_add(read_data(alloc, &mut h2, piece)?);
        }
    }
    Ok(sum)
}

/// Fifty requests from a stream on, in a piece.
fn requests(alloc: Global, first: u32) -> Result<Vec<u8>, NoMemory> {
    let mut out = Vec::new(alloc);
    for n in 0..50u32 {
        let stream = first.wrapping_add(2 * n);
        let block: &[u8] = if stream == 1 { &FIRST } else { &LATER };
        let [a, b, c, d] = stream.to_be_bytes();
        out.extend_from_slice(&[0, 0, block.len() as u8, 1, 5, a, b, c, d])?;
        out.extend_from_slice(block)?;
    }
    Ok(out)
}

/// The bytes of the names and values.
fn worth(fields: &[Field]) -> u64 {
    let mut sum = 0u64;
    for field in fields {
        let length = field.name.as_slice().len() as u64;
        sum = sum
            .wrapping_add(length)
            .wrapping_add(field.value.as_slice().len() as u64);
    }
    sum
}

/// A piece is read, and each of its requests answered.
fn answer(alloc: Global, h2: &mut H2, piece: &[u8], fields: &[Field]) -> Result<u64, NoMemory> {
    let mut sum = 0u64;
    for event in h2.feed(alloc, piece)?.as_slice() {
        if let StreamEvent::Request {
            stream,
            fields: asked,
            ..
        } = event
        {
            sum = sum.wrapping_add(worth(asked.as_slice()));
            h2.respond(*stream, fields, true)?;
        }
    }
    write_all(h2);
    Ok(sum)
}

/// The bytes of the fields of so many rounds of 10,000 requests, each answered by 404, on a connection each.
pub fn checksum_of_requests(alloc: Global, count: u32) -> Result<u64, NoMemory> {
    let mut fields = Vec::new(alloc);
    fields.push(Field {
        name: Text::copy_of(alloc, b":status")?,
        value: Text::copy_of(alloc, b"404")?,
    })?;
    let mut pieces = Vec::new(alloc);
    for n in 0..200u32 {
        pieces.push(requests(alloc, 100 * n + 1)?)?;
    }
    let mut sum = 0u64;
    for _ in 0..count {
        let mut h2 = H2::new(alloc)?;
        h2.feed(alloc, &[0, 0, 0, 4, 0, 0, 0, 0, 0])?;
        for piece in pieces.as_slice() {
            let asked = answer(alloc, &mut h2, piece.as_slice(), fields.as_slice())?;
            sum = sum.wrapping_add(asked);
        }
    }
    Ok(sum)
}
