//! Integers written and read again.

use mq_wire::{Varint, WireFault, read_varint, write_varint};
use std::alloc::Global;

/// The sum of so many integers of every width, written and read again.
pub fn checksum(alloc: Global, count: u32) -> Result<u64, WireFault> {
    let mut sum = 0u64;
    let mut bytes = Vec::new(alloc);
    for n in 0..count {
        bytes.clear();
        write_varint(&mut bytes, u64::from(n) << (n % 30))?;
        if let Varint::Got { value, used } = read_varint(bytes.as_slice()) {
            sum = sum.wrapping_add(value).wrapping_add(u64::from(used));
        }
    }
    Ok(sum)
}
