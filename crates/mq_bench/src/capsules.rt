//! A data stream, read as capsules in pieces.
ghost use Rattle.std.specs.Prelude.{◌<◌};

use mq_capsule::{Item, Reader, write_datagram};
use mq_wire::NoMemory;
use std::alloc::Global;

/// The sum of what so many rounds of eighteen capsules say, read in pieces of so many bytes. A round has 20,061 bytes.
pub fn checksum(alloc: Global, count: u32, size: usize) -> Result<u64, NoMemory>
    requires { 0 < size }
{
    let round = round(alloc)?;
    let mut reader = Reader::new(false);
    let mut sum = 0u64;
    for _ in 0..count {
        for piece in round.as_slice().chunks(size) {
            for item in reader.feed(alloc, piece)?.as_slice() {
                sum = sum.wrapping_add(worth(item));
            }
        }
    }
    Ok(sum)
}

/// Sixteen datagrams of 1,200 bytes, one of 20, and a capsule of 768 bytes of a type that isn't known.
fn round(alloc: Global) -> Result<Vec<u8>, NoMemory> {
    let mut out = Vec::new(alloc);
    for _ in 0..16 {
        add(&mut out, &[61; 1_200])?;
    }
    add(&mut out, &[62; 20])?;
    out.extend_from_slice(&[0x2a, 0x43, 0x00])?;
    out.extend_from_slice(&[63; 768])?;
    Ok(out)
}

fn add(out: &mut Vec<u8>, payload: &[u8]) -> Result<(), NoMemory> {
    write_datagram(out, payload).map_err(|_| NoMemory)
}

fn worth(item: &Item) -> u64 {
    match item {
        Item::Datagram { context, payload } => {
            let first = match payload.as_slice() {
                [first, ..] => u64::from(*first),
                [] => 0,
            };
            context
                .wrapping_add(payload.as_slice().len() as u64)
                .wrapping_add(first)
        }
        _ => 1,
    }
}
