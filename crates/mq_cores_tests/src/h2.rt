//! Rows of calls on a connection, with what they give.
mod calls;
mod hostile;
mod sessions;

use crate::h2::calls::{begun, bytes, check, check_on, fed, is, taken};
use crate::h2::sessions::SESSIONS;
use mq_h2::H2;
use std::alloc::Global;
use std::process::Abort;
use std::test::Fail;

#[test]
fn requests_are_told_and_answered(rt: HostRuntime) -> Result<(), Fail> {
    check(&rt, rt.alloc(), REQUESTS_ARE_TOLD_AND_ANSWERED)
}

const REQUESTS_ARE_TOLD_AND_ANSWERED: &str = "\
new =>
owed => 000012040000000000000300000064000600004000000800000001
feed P =>
owed => 000000040100000000
feed 000011010500000001 828684418cf1e3c2e5f23a6ba0ab90f4ff => \
Q 1 1 :method=GET :scheme=http :path=/ :authority=www.example.com
respond 1 501 =>
live 1 => 0
owed => 000005010500000001 2008826c01
new =>
feed P =>
owed => S
feed H1 H3 => Q 1 0 B; Q 3 0 B
respond 1 200 =>
respond 3 200 =>
owed => 000012010400000001 2088008b20eb45b4156aec3a4e43d1023f31 \
000011010400000003 88008b20eb45b4156aec3a4e43d1023f31
feed 0000020000000000010003 000003000000000003000300 000003000000000001006162 0000020000000000036364 => \
C 1 2 0 0003; C 3 3 0 000300; C 1 3 0 006162; C 3 2 0 6364
feed H5 => Q 5 0 B
respond 5 503 =>
owed => 000005010500000005 0803353033 00000403000000000500000000
begin =>
feed H1 => Q 1 0 B
respond 1 403 =>
owed => 000006010500000001 200803343033 00000403000000000100000000
feed 00000100000000000161 =>
begin =>
feed 004001000000000001 => E 6
owed => 0000080700000000000000000000000006";

#[test]
fn blocks_come_in_parts_and_padded(rt: HostRuntime) -> Result<(), Fail> {
    check(&rt, rt.alloc(), BLOCKS_COME_IN_PARTS_AND_PADDED)
}

const BLOCKS_COME_IN_PARTS_AND_PADDED: &str = "\
begin =>
begun => 0
feed 00000a010000000001 0207434f4e4e45435487 =>
begun => 1
feed 000000090000000001 =>
feed 00002c090400000001 04102f752f3139322e302e322e362f343433 010170 00093a70726f746f636f6c0b636f6e6e6563742d756470 => \
Q 1 0 B
begun => 0
feed 00003f012c00000003 03 0000000010 B 000000 => Q 3 0 B
feed 000006000900000001 03 6162 000000 => C 1 6 1 6162
feed 0000060008000000030561620000 =>
begun => 1
feed 00 => C 3 6 0
begun => 0";

#[test]
fn a_request_that_is_reset_in_its_read_is_withdrawn(rt: HostRuntime) -> Result<(), Fail> {
    check(
        &rt,
        rt.alloc(),
        A_REQUEST_THAT_IS_RESET_IN_ITS_READ_IS_WITHDRAWN,
    )
}

const A_REQUEST_THAT_IS_RESET_IN_ITS_READ_IS_WITHDRAWN: &str = "\
begin =>
feed H1 004000000000000001 00*16384 00000403000000000100000008 =>
act =>
owed => 00000408000000000000004000
feed H3 H3 => M 3 1
owed => 00000403000000000300000001
feed H5 00000100000000000561 00000408000000000500000000 => M 5 1
owed => 00000403000000000500000001
feed H7 => Q 7 0 B
feed 00000100000000000761 00000403000000000700000008 00000100000000000762 => C 7 1 0 61; R 7 8
feed H9 H11 00000403000000000900000008 => Q 11 0 B";

#[test]
fn errors_of_a_stream_reset_it(rt: HostRuntime) -> Result<(), Fail> {
    check(&rt, rt.alloc(), ERRORS_OF_A_STREAM_RESET_IT)
}

const ERRORS_OF_A_STREAM_RESET_IT: &str = "\
begin =>
feed 00000101040000000182 => M 1 1
owed => 00000403000000000100000001
feed H3 => Q 3 0 B
feed E3 => M 3 1
owed => 00000403000000000300000001
feed H5 => Q 5 0 B
feed 0000040800000000057fffffff => M 5 3
owed => 00000403000000000500000003
feed E7 => Q 7 1 B
feed H7 00000100000000000761 =>
feed H9 => Q 9 0 B
feed 00000408000000000900000000 => M 9 1
owed => 00000403000000000900000001
live 9 => 0";

#[test]
fn nothing_is_done_on_a_stream_that_is_not_live(rt: HostRuntime) -> Result<(), Fail> {
    check(
        &rt,
        rt.alloc(),
        NOTHING_IS_DONE_ON_A_STREAM_THAT_IS_NOT_LIVE,
    )
}

const NOTHING_IS_DONE_ON_A_STREAM_THAT_IS_NOT_LIVE: &str = "\
begin =>
feed H1 => Q 1 0 B
room 1 => 65535
fits 1 20000 => 16384
fits 1 20 => 20
room 3 => 0
fits 3 20 => 0
respond 3 200 =>
send 3 6162 => 0
end 3 =>
reset 3 8 =>
owed =>
reset 1 8 =>
owed => 00000403000000000100000008
room 1 => 0
send 1 6162 => 0
owed =>";

#[test]
fn errors_of_the_connection_end_it(rt: HostRuntime) -> Result<(), Fail> {
    check(&rt, rt.alloc(), ERRORS_OF_THE_CONNECTION_END_IT)
}

const ERRORS_OF_THE_CONNECTION_END_IT: &str = "\
begin =>
feed H2 => E 1
owed => 0000080700000000000000000000000001
feed H99 =>
owed =>
begun => 0
begin =>
feed H1 00000100000000000361 => Q 1 0 B; E 1
owed => 0000080700000000000000000100000001
begin =>
feed 00000403000000000500000008 => E 1
owed => 0000080700000000000000000000000001
begin =>
feed 00000408000000000500000001 => E 1
owed => 0000080700000000000000000000000001
begin =>
feed 00000101040000000180 => E 9
owed => 0000080700000000000000000100000009
begin =>
feed 0000040800000000007fffffff => E 3
owed => 0000080700000000000000000000000003
begin =>
feed H1 000006040000000000 00047fffffff 00000408000000000100000001 => M 1 3
owed => 000000040100000000 00000403000000000100000003
begin =>
feed 0000080600000000000102030405060708 H1 00000408000000000000000000 0000080600000000000102030405060708 => Q 1 0 B; E 1
owed => 0000080601000000000102030405060708 0000080700000000000000000100000001";

#[test]
fn data_is_sent_within_the_windows(rt: HostRuntime) -> Result<(), Fail> {
    check(&rt, rt.alloc(), DATA_IS_SENT_WITHIN_THE_WINDOWS)
}

const DATA_IS_SENT_WITHIN_THE_WINDOWS: &str = "\
new =>
feed 000006040000000000 000400000004 =>
owed => S
feed H1 => Q 1 0 B
respond 1 200 =>
owed => 0000120104000000012088008b20eb45b4156aec3a4e43d1023f31
room 1 => 4
send 1 0003006162 => 4
owed => 000004000000000001 00030061
send 1 62 => 0
owed =>
feed 000006040000000000 000400000002 =>
room 1 => 0
feed 00000408000000000100000003 =>
send 1 6262 => 1
owed => 000000040100000000 000001000000000001 62
feed 0000080600000000000000000000000007 =>
feed 0000080601000000000000000000000007 =>
owed => 0000080601000000000000000000000007
end 1 =>
owed => 000000000100000001 00000403000000000100000000
end 1 =>
reset 1 8 =>
owed =>
new =>
feed 000006040000000000 000400000000 H1 => Q 1 0 B
respond 1 200 =>
owed => S 000012010400000001 2088008b20eb45b4156aec3a4e43d1023f31
send 1 0003006162 => 0
feed 00000408000000000100000004 =>
send 1 0003006162 => 4
owed => 000004000000000001 00030061
feed 00000408000000000100000001 =>
send 1 62 => 1
owed => 000001000000000001 62
begin =>
feed H1 => Q 1 0 B
send 1 61*20000 => 16384
wrote 10 =>
send 1 62 => 1
owed => 61*16383 000001000000000001 62
send 1 61*49149 => 16384
send 1 61*49149 => 16384
send 1 61*49149 => 16382
send 1 61 => 0";

#[test]
fn windows_are_given_back_at_the_end_of_an_act(rt: HostRuntime) -> Result<(), Fail> {
    check(&rt, rt.alloc(), WINDOWS_ARE_GIVEN_BACK_AT_THE_END_OF_AN_ACT)
}

const WINDOWS_ARE_GIVEN_BACK_AT_THE_END_OF_AN_ACT: &str = "\
begin =>
feed H1 => Q 1 0 B
respond 1 200 =>
feed 004000000800000001 0f 00*16383 => C 1 16384 0 #16368
consumed 1 16384 =>
act =>
owed => 0000120104000000012088008b20eb45b4156aec3a4e43d1023f31
act =>
owed => 00000408000000000000004000
act =>
owed => 00000408000000000100004000
act =>
owed =>
reset 1 1 =>
owed => 00000403000000000100000001
feed 0000020000000000016161 =>";

/// Requests come on a hundred streams.
fn hundred_come(rt: &impl Abort, alloc: Global, h2: &mut H2) -> Result<(), Fail> {
    for n in 0..100u32 {
        let line = format!(in alloc; "feed H{} => Q {} 0 B", 2 * n + 1, 2 * n + 1)?;
        check_on(rt, alloc, h2, line.as_str())?;
    }
    Ok(())
}

#[test]
fn a_hundred_streams_are_live_and_no_more(rt: HostRuntime) -> Result<(), Fail> {
    let mut h2 = begun(rt.alloc())?;
    hundred_come(&rt, rt.alloc(), &mut h2)?;
    check_on(&rt, rt.alloc(), &mut h2, PAST_A_HUNDRED)
}

const PAST_A_HUNDRED: &str = "\
feed H201 => M 201 7
owed => 0000040300000000c900000007
reset 1 8 =>
owed => 00000403000000000100000008
feed E203 => Q 203 1 B";

#[test]
fn a_client_of_another_make_is_understood(rt: HostRuntime) -> Result<(), Fail> {
    check(&rt, rt.alloc(), SESSIONS)
}

/// Feeds a piece, and adds what it gives.
fn add_fed(alloc: Global, h2: &mut H2, piece: &[u8], text: &mut String) -> Result<(), Fail> {
    let later = fed(alloc, h2, piece)?;
    if !text.is_empty() && !later.is_empty() {
        text.push_str("; ")?;
    }
    text.push_str(later.as_str())?;
    Ok(())
}

/// Feeds a session in a front and then in pieces of so many bytes, and adds what it gives and all that is owed then.
fn add_cut(
    alloc: Global,
    h2: &mut H2,
    session: &[u8],
    front: usize,
    size: usize,
    text: &mut String,
) -> Result<(), Fail> {
    let (front, back) = session.split_at(front.min(session.len()));
    add_fed(alloc, h2, front, text)?;
    for piece in back.chunks(size.max(1)) {
        add_fed(alloc, h2, piece, text)?;
    }
    text.push_str(taken(alloc, h2)?.as_str())?;
    Ok(())
}

/// What a session gives that comes in a front and then in pieces of so many bytes, and all that is owed then.
fn cut(alloc: Global, session: &[u8], front: usize, size: usize) -> Result<String, Fail> {
    let mut text = String::new(alloc);
    add_cut(alloc, &mut H2::new(alloc)?, session, front, size, &mut text)?;
    Ok(text)
}

/// A session that is cut like this gives the same as in one piece.
fn cut_is(
    rt: &impl Abort,
    alloc: Global,
    session: &[u8],
    front: usize,
    size: usize,
    whole: &str,
) -> Result<(), Fail> {
    let told = cut(alloc, session, front, size)?;
    let place = format!(in alloc; "cut at {front}, and into pieces of {size}")?;
    is(rt, told.as_str(), whole, place.as_str());
    Ok(())
}

#[test]
fn each_cutting_gives_the_same(rt: HostRuntime) -> Result<(), Fail> {
    let alloc = rt.alloc();
    let session = bytes(alloc, SESSION)?;
    let session = session.as_slice();
    let whole = cut(alloc, session, 0, session.len())?;
    for at in 1..session.len() {
        cut_is(&rt, alloc, session, at, session.len(), whole.as_str())?;
        cut_is(&rt, alloc, session, 0, at, whole.as_str())?;
    }
    Ok(())
}

// A request in three frames, padded data, PING, a larger and a smaller window, a second request and its data, a
// malformed request, a frame of an unknown type, and an error of the connection.
const SESSION: &str = "\
P 00000a010000000001 0207434f4e4e45435487 000000090000000001 \
00002c090400000001 04102f752f3139322e302e322e362f343433 010170 00093a70726f746f636f6c0b636f6e6e6563742d756470 \
000006000900000001 03 6162 000000 0000080600000000000000000000000007 00000408000000000100 00ffff \
000006040000000000 00040000000a H3 000002000000000003 6364 000001010400000005 82 000003630000000001 616263 \
0000010000000000076d 0000080600000000000000000000000007";
