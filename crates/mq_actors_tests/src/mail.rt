//! Lanes, in one thread and between two.
ghost use Rattle.std.specs.Prelude.{◌≡◌};

mod inboxes;
mod many;

use mq_mail::{Lane, LaneIn, LaneOut, make_lane};
use std::sync::Wait;
use std::test::Fail;
use std::thread;
use std::thread::Threads;

#[test]
fn a_lane_of_one(rt: HostRuntime) -> Result<(), Fail> {
    let (lane, mut into, mut out) = make_lane(rt.alloc(), 1)?;
    let answers = [
        into.put(&rt, &lane, 5u32),
        into.put(&rt, &lane, 6),
        out.take(&rt, &lane),
        out.take(&rt, &lane),
    ];
    let rest = lane.close(&rt, into, out);
    assert!(rt; answers == [None, Some(6), Some(5), None]);
    assert!(rt; rest.as_slice().is_empty());
    Ok(())
}

#[test]
fn what_waits_is_given_at_the_close(rt: HostRuntime) -> Result<(), Fail> {
    let (lane, mut into, mut out) = make_lane(rt.alloc(), 3)?;
    let puts = [
        into.put(&rt, &lane, 1u32),
        into.put(&rt, &lane, 2),
        into.put(&rt, &lane, 3),
        into.put(&rt, &lane, 4),
    ];
    let note = into.tell(&lane);
    out.hear(&lane, note);
    let first = out.take(&rt, &lane);
    let rest = lane.close(&rt, into, out);
    assert!(rt; puts == [None, None, None, Some(4)]);
    assert!(rt; first == Some(1));
    assert!(rt; rest.as_slice() == [2u32, 3].as_slice());
    Ok(())
}

#[test]
fn ten_thousand_from_one_thread_to_another(rt: HostRuntime) -> Result<(), Fail> {
    let (lane, into, out) = make_lane(rt.alloc(), 1)?;
    assert!(rt; are_taken(&rt, lane, into, out, 10_000));
    Ok(())
}

/// Whether so many numbers that one thread puts are taken by another, in order, and none is left.
fn are_taken<R: Threads + Wait + Sync>(
    rt: &R,
    lane: Lane<u32>,
    into: LaneIn<u32>,
    out: LaneOut<u32>,
    count: u32,
) -> bool
    requires { (into.lane ≡ lane) × (out.lane ≡ lane) }
{
    let shared = &lane;
    let (into, (out, in_order)) = thread::join(
        rt,
        move || -> LaneIn<u32>
            requires { into.lane ≡ shared.now }
            ensures { result.lane ≡ shared.entry.now }
        { put_all(rt, shared, into, count) },
        move || -> (LaneOut<u32>, u32)
            requires { out.lane ≡ shared.now }
            ensures { result.0.lane ≡ shared.entry.now }
        { take_all(rt, shared, out, count) },
    );
    let rest = lane.close(rt, into, out);
    in_order == count && rest.as_slice().is_empty()
}

/// Puts the numbers below a count.
fn put_all<R: Wait>(rt: &R, lane: &Lane<u32>, mut into: LaneIn<u32>, count: u32) -> LaneIn<u32>
    requires { into.lane ≡ lane.now }
    ensures { result.lane ≡ lane.now }
{
    let mut next = 0;
    for _ in rt.forever() {
        if next >= count {
            break;
        }
        match into.put(rt, lane, next) {
            None => next += 1,
            Some(_) => thread::yield_now(),
        }
    }
    into
}

/// Takes so many items, and counts those that are the next number.
fn take_all<R: Wait>(
    rt: &R,
    lane: &Lane<u32>,
    mut out: LaneOut<u32>,
    count: u32,
) -> (LaneOut<u32>, u32)
    requires { out.lane ≡ lane.now }
    ensures { result.0.lane ≡ lane.now }
{
    let mut taken = 0;
    let mut in_order = 0;
    for _ in rt.forever() {
        if taken >= count {
            break;
        }
        match out.take(rt, lane) {
            Some(item) => {
                if item == taken {
                    in_order = taken + 1;
                }
                taken += 1;
            }
            None => thread::yield_now(),
        }
    }
    (out, in_order)
}
