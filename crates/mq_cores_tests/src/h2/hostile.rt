//! Clients that mean harm: each is refused, or costs no more than the definitions keep.
use crate::h2::calls::{begun, bytes, check, check_on, is_count, write_all};
use mq_h2::H2;
use std::alloc::Global;
use std::process::Abort;
use std::test::Fail;

// Padding longer than its frame, growths of 0, ids that go back, an index past the table, a block of few bytes whose
// fields count more than 16,384, a block that is too long, a shift that overflows between two that don't, and a GOAWAY
// in the middle.
#[test]
fn hostile_frames_are_refused(rt: HostRuntime) -> Result<(), Fail> {
    check(&rt, rt.alloc(), HOSTILE_FRAMES_ARE_REFUSED)
}

const HOSTILE_FRAMES_ARE_REFUSED: &str = "\
begin =>
feed H1 => Q 1 0 B
feed 000002000800000001 0561 => E 1
owed => 0000080700000000000000000100000001
begin =>
feed H1 => Q 1 0 B
feed 00000408000000000100000000 => M 1 1
owed => 00000403000000000100000001
feed 00000408000000000000000000 => E 1
owed => 0000080700000000000000000100000001
begin =>
feed G5 => Q 5 1 :method=GET :scheme=http :path=/
feed G3 =>
feed 000001000000000003 61 =>
owed =>
feed 000001010400000007 be => E 9
owed => 0000080700000000000000000700000009
begin =>
feed 000faa010400000001 4001617fa11e 61*4000 bebebebe => E 11
owed => 000008070000000000000000010000000b
begin =>
feed 004000010000000001 00*16384 000001090400000001 82 => E 11
owed => 000008070000000000000000010000000b
begin =>
feed 00000408000000000000000005 H1 0000040800000000017fff0000 \
000012040000000000 00040000000a 00047fffffff 00040000000a => Q 1 0 B; E 3
owed => 0000080700000000000000000100000003
begin =>
feed H1 => Q 1 0 B
feed 000008070000000000 0000000000000000 000002000000000001 6869 H3 => C 1 2 0 6869; Q 3 0 B";

/// A piece comes so many times, and tells so many events each time.
fn comes(
    rt: &impl Abort,
    alloc: Global,
    h2: &mut H2,
    piece: &[u8],
    times: u32,
    events: usize,
) -> Result<(), Fail> {
    for n in 0..times {
        let told = h2.feed(alloc, piece)?;
        is_count(rt, told.as_slice().len(), events, n);
    }
    Ok(())
}

/// A block comes in ten thousand empty frames and in 128 of 128 bytes, and is not told.
fn block_comes(rt: &impl Abort, alloc: Global, h2: &mut H2) -> Result<(), Fail> {
    let first = bytes(alloc, "000000010000000001")?;
    comes(rt, alloc, h2, first.as_slice(), 1, 0)?;
    let none = bytes(alloc, "000000090000000001")?;
    comes(rt, alloc, h2, none.as_slice(), 10_000, 0)?;
    let part = bytes(alloc, "000080090000000001 00*128")?;
    comes(rt, alloc, h2, part.as_slice(), 128, 0)
}

#[test]
fn a_block_that_never_ends_is_cut_off(rt: HostRuntime) -> Result<(), Fail> {
    let mut h2 = begun(rt.alloc())?;
    block_comes(&rt, rt.alloc(), &mut h2)?;
    check_on(&rt, rt.alloc(), &mut h2, A_BLOCK_IS_CUT_OFF)
}

const A_BLOCK_IS_CUT_OFF: &str = "\
begun => 1
owed =>
feed 000080090000000001 00*128 => E 11
begun => 0
owed => 000008070000000000 000000010000000b";

/// A request that is reset at once.
fn reset_request(n: u32) -> [u8; 25] {
    let [a, b, c, d] = (2 * (n % 1_000_000) + 1).to_be_bytes();
    [
        0, 0, 3, 1, 5, a, b, c, d, 0x82, 0x86, 0x84, 0, 0, 4, 3, 0, a, b, c, d, 0, 0, 0, 8,
    ]
}

/// Ten thousand requests come and are reset.
fn resets_come(rt: &impl Abort, alloc: Global, h2: &mut H2) -> Result<(), Fail> {
    for n in 0..10_000u32 {
        let told = h2.feed(alloc, &reset_request(n))?;
        is_count(rt, told.as_slice().len(), 0, n);
    }
    Ok(())
}

#[test]
fn ten_thousand_resets_leave_nothing(rt: HostRuntime) -> Result<(), Fail> {
    let mut h2 = begun(rt.alloc())?;
    resets_come(&rt, rt.alloc(), &mut h2)?;
    is_count(&rt, h2.owed().len(), 0, 10_000);
    Ok(())
}

/// A thousand requests, each of which is reset at once.
fn thousand_resets(alloc: Global, read: u32) -> Result<Vec<u8>, Fail> {
    let mut piece = Vec::new(alloc);
    for n in 0..1_000u32 {
        piece.extend_from_slice(&reset_request(1_000 * (read % 10) + n))?;
    }
    Ok(piece)
}

/// The same in a few large reads.
fn reads_of_resets_come(rt: &impl Abort, alloc: Global, h2: &mut H2) -> Result<(), Fail> {
    for n in 0..10u32 {
        let piece = thousand_resets(alloc, n)?;
        comes(rt, alloc, h2, piece.as_slice(), 1, 0)?;
    }
    Ok(())
}

#[test]
fn ten_thousand_resets_in_few_reads_leave_nothing(rt: HostRuntime) -> Result<(), Fail> {
    let mut h2 = begun(rt.alloc())?;
    reads_of_resets_come(&rt, rt.alloc(), &mut h2)?;
    is_count(&rt, h2.owed().len(), 0, 10);
    Ok(())
}

/// A thousand requests come, and each owes no more than a RST_STREAM.
fn requests_come(rt: &impl Abort, alloc: Global, h2: &mut H2) -> Result<(), Fail> {
    for n in 0..1_000u32 {
        let [a, b, c, d] = (2 * n + 1).to_be_bytes();
        h2.feed(alloc, &[0, 0, 3, 1, 4, a, b, c, d, 0x82, 0x86, 0x84])?;
        assert!(rt; h2.owed().len() <= 13, "stream {n}");
        write_all(h2);
    }
    Ok(())
}

// Past a hundred live streams each request is answered by RST_STREAM.
#[test]
fn streams_past_the_limit_are_turned_away(rt: HostRuntime) -> Result<(), Fail> {
    let mut h2 = begun(rt.alloc())?;
    requests_come(&rt, rt.alloc(), &mut h2)?;
    assert!(rt; h2.is_live(199));
    assert!(rt; !h2.is_live(201));
    Ok(())
}

/// PING and SETTINGS come ten thousand times, and the answers of one read are owed each time.
fn flood_comes(rt: &impl Abort, alloc: Global, h2: &mut H2) -> Result<(), Fail> {
    let piece = bytes(alloc, "0000080600000000000102030405060708 P")?;
    for n in 0..10_000u32 {
        h2.feed(alloc, piece.as_slice())?;
        is_count(rt, h2.owed().len(), 26, n);
        h2.wrote(26);
    }
    Ok(())
}

// A flood of PING and SETTINGS owes no more than the answers of one read, as long as they are written.
#[test]
fn floods_are_answered_as_they_come(rt: HostRuntime) -> Result<(), Fail> {
    let mut h2 = begun(rt.alloc())?;
    flood_comes(&rt, rt.alloc(), &mut h2)
}

/// An empty DATA frame comes in each of ten thousand acts, and tells so many events each time. Nothing is owed.
fn empty_data_comes(
    rt: &impl Abort,
    alloc: Global,
    h2: &mut H2,
    events: usize,
) -> Result<(), Fail> {
    let piece = bytes(alloc, "000000000000000001")?;
    for _ in 0..10_000u32 {
        comes(rt, alloc, h2, piece.as_slice(), 1, events)?;
        h2.end_act();
    }
    is_count(rt, h2.owed().len(), 0, 10_000);
    Ok(())
}

// Empty DATA frames take no window and are owed nothing, on a live stream and on one that was reset.
#[test]
fn empty_data_is_owed_nothing(rt: HostRuntime) -> Result<(), Fail> {
    let mut h2 = begun(rt.alloc())?;
    check_on(&rt, rt.alloc(), &mut h2, "feed H1 => Q 1 0 B")?;
    empty_data_comes(&rt, rt.alloc(), &mut h2, 1)?;
    let reset = "reset 1 8 =>\nowed => 00000403000000000100000008";
    check_on(&rt, rt.alloc(), &mut h2, reset)?;
    empty_data_comes(&rt, rt.alloc(), &mut h2, 0)
}
