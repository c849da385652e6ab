//! A stream of frames, read in pieces.
ghost use Rattle.std.specs.Prelude.{◌<◌};

use mq_frame::{Frame, FrameReader};
use mq_wire::NoMemory;
use std::alloc::Global;

/// The sum of what so many rounds of six frames say, read in pieces of so many bytes. A round has 17,558 bytes.
pub fn checksum(alloc: Global, count: u32, size: usize) -> Result<u64, NoMemory>
    requires { 0 < size }
{
    let round = round(alloc)?;
    let mut reader = FrameReader::new();
    reader.feed(alloc, &[0, 0, 0, 4, 0, 0, 0, 0, 0])?;
    let mut sum = 0u64;
    for _ in 0..count {
        for piece in round.as_slice().chunks(size) {
            for frame in reader.feed(alloc, piece)?.as_slice() {
                sum = sum.wrapping_add(worth(frame));
            }
        }
    }
    Ok(sum)
}

/// HEADERS, two DATA, WINDOW_UPDATE, PING and a frame of an unknown type.
fn round(alloc: Global) -> Result<Vec<u8>, NoMemory> {
    let mut out = Vec::new(alloc);
    add(&mut out, [0, 0, 30, 1, 4, 0, 0, 0, 1], 30)?;
    add(&mut out, [0, 4, 0, 0, 0, 0, 0, 0, 1], 1024)?;
    add(&mut out, [0, 64, 0, 0, 8, 0, 0, 0, 1], 16_384)?;
    add(&mut out, [0, 0, 4, 8, 0, 0, 0, 0, 1], 4)?;
    add(&mut out, [0, 0, 8, 6, 0, 0, 0, 0, 0], 8)?;
    add(&mut out, [0, 0, 54, 99, 0, 0, 0, 0, 1], 54)?;
    Ok(out)
}

/// A header, and so many bytes of contents that count from 1.
fn add(out: &mut Vec<u8>, header: [u8; 9], contents: u32) -> Result<(), NoMemory> {
    out.extend_from_slice(&header)?;
    for n in 0..contents {
        out.push((n % 255 + 1) as u8)?;
    }
    Ok(())
}

fn worth(frame: &Frame) -> u64 {
    match frame {
        Frame::Content { bytes, length, .. } => bytes.as_slice().len() as u64 + u64::from(*length),
        Frame::Headers { block, .. } => block.as_slice().len() as u64,
        Frame::Window { grow, .. } => u64::from(*grow),
        Frame::Ping { bytes, .. } => *bytes,
        Frame::Unknown { kind, .. } => u64::from(*kind),
        _ => 1,
    }
}
