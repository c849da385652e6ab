//! The longest payloads, of UDP and of a port.

use super::{Outside, REQUEST, WILLING, told};
use std::alloc::Global;
use std::test::Fail;

/// What is done with a DATAGRAM capsule whose payload has so many bytes, in this context.
fn with_payload(alloc: Global, outside: Outside, context: u8, count: u32) -> Result<String, Fail> {
    let mut capsule = Vec::from_slice(alloc, &[0])?;
    capsule.extend_from_slice(&(0x8000_0000 | count.saturating_add(1)).to_be_bytes())?;
    capsule.push(context)?;
    for _ in 0..count {
        capsule.push(0x61)?;
    }
    told(alloc, outside, &[REQUEST, capsule.as_slice()], false)
}

#[test]
fn longest_payloads(rt: HostRuntime) -> Result<(), Fail> {
    let rows = [
        (65_507, 0, 65_507, "sent 0 0 #65507\n"),
        (65_507, 0, 65_508, "dropped 0 0 TooLong\n"),
        (65_527, 0, 65_508, "sent 0 0 #65508\n"),
        (65_527, 0, 65_527, "sent 0 0 #65527\n"),
        (65_507, 0, 65_527, "dropped 0 0 TooLong\n"),
        (
            65_527,
            0,
            65_528,
            "closed 0 Malformed left 0\nended Tunnel\n",
        ),
        (
            65_527,
            0,
            65_536,
            "closed 0 Malformed left 0\nended Tunnel\n",
        ),
        (65_527, 4, 65_528, "dropped 0 0 UnknownContext\n"),
        (65_527, 4, 70_000, "dropped 0 0 UnknownContext\n"),
        (1, 0, 1, "sent 0 0 61\n"),
        (1, 0, 2, "dropped 0 0 TooLong\n"),
    ];
    for &(limit, context, count, want) in &rows {
        let outside = Outside { limit, ..WILLING };
        let text = with_payload(rt.alloc(), outside, context, count)?;
        assert!(rt;
            text.ends_with(want),
            "{count} bytes in context {context} with limit {limit}"
        );
        assert_eq!(rt; text.lines().count(), 3 + want.lines().count());
    }
    Ok(())
}
