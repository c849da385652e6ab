//! A busy connection: a hundred live streams, with DATA both ways on each in turn.
use mq_streams::{Counted, Streams};
use mq_wire::NoMemory;
use std::alloc::Global;

/// DATA of a thousand bytes comes on the stream and is consumed, and what is due is given back.
fn receive(streams: &mut Streams, id: u32) -> u64 {
    if let Counted::Yes = streams.on_data(id, 1_000) {
        streams.consumed(id, 1_000);
    }
    let mut sum = 0u64;
    for _ in 0..2 {
        if let Some((stream, amount)) = streams.give_back() {
            sum = sum
                .wrapping_add(u64::from(stream))
                .wrapping_add(u64::from(amount));
        }
    }
    sum
}

/// Room for DATA of at most 700 bytes is taken on the stream, and the same is granted again.
fn send(streams: &mut Streams, id: u32) -> u64 {
    if !streams.is_live(id) {
        return 0;
    }
    let taken = streams.take_room(id, 700);
    streams.grant(id, taken);
    streams.grant(0, taken);
    u64::from(taken)
}

/// What was given back and taken in so many turns, added up.
pub fn checksum(alloc: Global, count: u32) -> Result<u64, NoMemory> {
    let mut streams = Streams::new(alloc)?;
    for n in 0..100u32 {
        streams.begin(2 * n + 1);
    }
    let mut sum = 0u64;
    for n in 0..count {
        let id = 2 * (n % 100) + 1;
        sum = sum
            .wrapping_add(receive(&mut streams, id))
            .wrapping_add(send(&mut streams, id));
    }
    Ok(sum)
}
