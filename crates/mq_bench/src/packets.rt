//! A packet of 1,500 bytes, taken and sent on hop by hop.
use mq_iphdr::{check, onward};
use mq_wire::NoMemory;
use std::alloc::Global;

/// The sum of the hop limits and lengths that so many checks read. Each check is followed by the next hop, and behind the last
/// hop the packet begins anew.
pub fn checksum(alloc: Global, count: u32) -> Result<u64, NoMemory> {
    let first = packet(alloc)?;
    let mut packet = Vec::from_slice(alloc, first.as_slice())?;
    let mut sum = 0u64;
    for _ in 0..count {
        let Ok(view) = check(packet.as_slice()) else {
            return Ok(sum);
        };
        if onward(packet.as_mut_slice(), &view).is_err() {
            packet = Vec::from_slice(alloc, first.as_slice())?;
        }
        sum = sum
            .wrapping_add(u64::from(view.hop))
            .wrapping_add(u64::from(view.length));
    }
    Ok(sum)
}

/// A UDP packet from 192.0.2.1 to 198.51.100.9 with 255 hops to go.
fn packet(alloc: Global) -> Result<Vec<u8>, NoMemory> {
    let mut out = Vec::new(alloc);
    out.extend_from_slice(
        b"\x45\x00\x05\xdc\x00\x01\x00\x00\xff\x11\xc9\xd1\xc0\x00\x02\x01\xc6\x33\x64\x09",
    )?;
    out.extend_from_slice(&[61; 1_480])?;
    Ok(out)
}
