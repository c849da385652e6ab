//! Rows of calls on a client over HTTP/2, with what they give.
use crate::client::calls::{bytes, check, client, fed, fed_all, is, opened, write_all};
use crate::client::sessions::SESSIONS;
use mq_client::Client;
use std::alloc::Global;
use std::process::Abort;
use std::test::Fail;

#[test]
fn a_tunnel_is_asked_for_and_opened(rt: HostRuntime) -> Result<(), Fail> {
    check(&rt, rt.alloc(), A_TUNNEL_IS_ASKED_FOR_AND_OPENED)
}

/// The second proxy is that of another make: Node's server with extended CONNECT, which read the request as its fields.
const A_TUNNEL_IS_ASKED_FOR_AND_OPENED: &str = "\
new =>
owed => 505249202a20485454502f322e300d0a0d0a534d0d0a0d0a 000006040000000000000200000000
waiting => 0
feed 000012040000000000000300000064000600004000000800000001 =>
owed => 000000040100000000 000057010400000001 20 0207434f4e4e454354 0087b95d8749c87a3f8821eaa8a44ad6c95f 86 \
049c617f05a285bad47f153148d1dad2b16c95b017c4b81712ee30d34cb1 018a089d5c0b8170dc780f03 008b20eb45b4156aec3a4e43d1023f31
feed 000000040100000000 =>
feed 0000120104000000012088008b20eb45b4156aec3a4e43d1023f31 => opened
send 6869 =>
waiting => 0
owed => 000005000000000001 0003006869
feed 0000070000000000010003006f6b0002 00000200000000000100 61 => payload 6f6b; payload 61
owed =>
new =>
feed 000006040000000000000800000001 000000040100000000 =>
feed 00002e010400000001 88408b20eb45b4156aec3a4e43d1023f317683a8f2176196dd6d5f4a09f5349fba82009c5021b8dbd700153168df => opened
feed 0000050000000000010003006869 => payload 6869
feed 000000000100000001 => closed";

#[test]
fn a_proxy_of_another_make_is_understood(rt: HostRuntime) -> Result<(), Fail> {
    check(&rt, rt.alloc(), SESSIONS)
}

#[test]
fn a_proxy_offers_extended_connect_or_is_not_asked(rt: HostRuntime) -> Result<(), Fail> {
    check(
        &rt,
        rt.alloc(),
        A_PROXY_OFFERS_EXTENDED_CONNECT_OR_IS_NOT_ASKED,
    )
}

const A_PROXY_OFFERS_EXTENDED_CONNECT_OR_IS_NOT_ASKED: &str = "\
new =>
length => 39
feed 000000040000000000 => refused 0
feed A 000000000100000001 =>
length => 48
new =>
feed 000006040000000000 000800000000 => refused 0
new =>
feed 00000c040000000000 000800000001 000800000000 => refused 0
new =>
feed 00000c040000000000 000800000000 000800000001 =>
feed A => opened";

#[test]
fn a_status_opens_or_refuses(rt: HostRuntime) -> Result<(), Fail> {
    check(&rt, rt.alloc(), A_STATUS_OPENS_OR_REFUSES)
}

/// The first block is the answer, also where its status is an informational one.
const A_STATUS_OPENS_OR_REFUSES: &str = "\
asked =>
feed 000006010500000001200803343033 => refused 403
feed 00000403000000000100000000 =>
asked =>
feed 0000050104000000010803313030 => refused 100
feed A =>
asked =>
feed 0000050104000000010803313939 => refused 199
asked =>
feed 00000101040000000189 => opened
asked =>
feed 0000050104000000010803323939 => opened
asked =>
feed 0000050104000000010803333030 => refused 300
asked =>
feed 00000401040000000108023230 => bad peer 1
asked =>
feed 0000050104000000010803327830 => bad peer 1
asked =>
feed 000006010400000001080432303030 => bad peer 1
asked =>
feed 0000020104000000018888 => bad peer 1
asked =>
feed 0000040104000000010f270178 => bad peer 1
feed A =>
asked =>
feed 000001010100000001 88 =>
feed 000000090400000001 => opened; closed
asked =>
feed A 000005010500000001 0803343033 => opened; closed
feed 00000403000000000100000000 =>";

#[test]
fn malformed_bytes_are_told_by_their_code(rt: HostRuntime) -> Result<(), Fail> {
    check(&rt, rt.alloc(), MALFORMED_BYTES_ARE_TOLD_BY_THEIR_CODE)
}

const MALFORMED_BYTES_ARE_TOLD_BY_THEIR_CODE: &str = "\
new =>
feed 0000080600000000000000000000000007 => bad peer 1
feed S =>
new =>
feed 000000040100000000 => bad peer 1
new =>
feed 00000604000000000000 0480000000 => bad peer 3
tunnel =>
feed 0040010000000000 =>
feed 01 => bad peer 6
tunnel =>
feed 004001000000000001 => bad peer 6
tunnel =>
feed 000004050400000001 00000002 => bad peer 1
tunnel =>
feed 00000100000000000361 => bad peer 1
tunnel =>
feed 00000101040000000288 => bad peer 1
tunnel =>
feed 00000101040000000388 => bad peer 1
tunnel =>
feed 00000403000000000300000008 => bad peer 1
tunnel =>
feed 00000408000000000300000001 => bad peer 1
tunnel =>
feed 00000408000000000100000000 => bad peer 1
tunnel =>
feed 00000408000000000000000000 => bad peer 1
tunnel =>
feed 0000040800000000017fff0000 =>
feed 00000408000000000100000001 => bad peer 3
tunnel =>
feed 0000040800000000007fff0001 => bad peer 3
tunnel =>
feed 00000408000000000100000001 =>
feed 000006040000000000 00047fffffff => bad peer 3
owed =>
asked =>
feed 00000101040000000180 => bad peer 9
asked =>
feed 00000161000000000161 =>
feed 00000100000000000161 => bad peer 1
tunnel =>
feed 000002000100000001 0000 => bad peer 1
feed 00000403000000000100000000 =>
tunnel =>
feed 00000a000000000001 00030061620001 400001 => payload 6162; bad peer 1
asked =>
feed 000001010000000001 88 =>
feed 000008060000000000 0000000000000007 => bad peer 1
asked =>
feed 004000010000000001 3f*16384 =>
feed 000001090400000001 88 => bad peer 11";

#[test]
fn capsules_are_framed_within_the_windows(rt: HostRuntime) -> Result<(), Fail> {
    check(&rt, rt.alloc(), CAPSULES_ARE_FRAMED_WITHIN_THE_WINDOWS)
}

const CAPSULES_ARE_FRAMED_WITHIN_THE_WINDOWS: &str = "\
new =>
feed 00000c040000000000 00040000000a 000800000001 A => opened
length => 144
owed => 505249202a20485454502f322e300d0a0d0a534d0d0a0d0a 000006040000000000000200000000 \
000000040100000000 000057010400000001 20 0207434f4e4e454354 0087b95d8749c87a3f8821eaa8a44ad6c95f 86 \
049c617f05a285bad47f153148d1dad2b16c95b017c4b81712ee30d34cb1 018a089d5c0b8170dc780f03 008b20eb45b4156aec3a4e43d1023f31
send 61*20 =>
owed => 00000a000000000001 001500 61*7
waiting => 1
send 62 =>
owed =>
feed 00000408000000000100000005 =>
owed => 000005000000000001 61*5
feed 00000408000000000000000005 =>
owed =>
feed 000006040000000000 000400000005 =>
owed => 000000040100000000
feed 00000408000000000100000006 =>
owed => 000001000000000001 61
feed 000006040000000000 000400000064 =>
owed => 000000040100000000 00000b000000000001 61*7 00020062
waiting => 0
tunnel =>
send 61*65527 =>
owed => 004000000000000001 0080 00fff800 61*16378 004000000000000001 61*16384 004000000000000001 61*16384 003ffd000000000001 61*16381
waiting => 0
send 6263 =>
owed => 000002000000000001 0003
waiting => 1
feed 00000408000000000100000010 =>
owed =>
waiting => 1
feed 00000408000000000000000002 =>
owed => 000002000000000001 0062
feed 00000408000000000000000001 =>
owed => 000001000000000001 63
waiting => 0
asked =>
send 6869 =>
waiting => 1
owed =>
feed A => opened
owed => 000005000000000001 0003006869
waiting => 0
tunnel =>
feed 000000000100000001 => closed
send 6869 =>
waiting => 1
owed =>";

#[test]
fn frames_are_answered_and_windows_given_back(rt: HostRuntime) -> Result<(), Fail> {
    check(&rt, rt.alloc(), FRAMES_ARE_ANSWERED_AND_WINDOWS_GIVEN_BACK)
}

/// A capsule of an unknown type, of 40,000 bytes, comes in frames.
const FRAMES_ARE_ANSWERED_AND_WINDOWS_GIVEN_BACK: &str = "\
tunnel =>
feed 000008060000000000 0102030405060708 =>
owed => 000008060100000000 0102030405060708
feed 000008060100000000 0102030405060708 =>
feed 000008070000000000 0000000000000000 =>
feed 000005020000000003 0000000000 =>
feed 000001fa0000000005 00 =>
owed =>
feed 003ffb000000000001 29 80009c40 00*16374 =>
owed =>
feed 000005000800000001 0300 00*3 =>
owed => 000004080000000000 00004000 000004080000000001 00004000
feed 004000000000000001 00*16384 =>
owed => 000004080000000000 00004000 000004080000000001 00004000";

/// What a client tells of these pieces, and owes then.
fn told_and_owed(alloc: Global, client: &mut Client, pieces: &[&[u8]]) -> Result<String, Fail> {
    let mut text = fed_all(alloc, client, pieces)?;
    text.push_str(" ")?;
    text.push_str(hex::encode(alloc, client.owed())?.as_str())?;
    Ok(text)
}

fn told(alloc: Global, pieces: &[&[u8]]) -> Result<String, Fail> {
    let mut client = client(alloc, true)?;
    told_and_owed(alloc, &mut client, pieces)
}

/// These bytes, cut here, bring this, and what is owed then.
fn cut_brings(
    rt: &impl Abort,
    alloc: Global,
    bytes: &[u8],
    at: usize,
    want: &str,
) -> Result<(), Fail> {
    let (front, rest) = bytes.split_at(at.min(bytes.len()));
    let text = told(alloc, &[front, rest])?;
    assert!(rt; text.as_str() == want, "cut at {at}");
    Ok(())
}

#[test]
fn each_cutting_gives_the_same(rt: HostRuntime) -> Result<(), Fail> {
    let alloc = rt.alloc();
    let words =
        "S 000000040100000000 A 0000080600000000000000000000000007 000006000800000001 02 000300 0000 \
00000200000000000161 62 000000000100000001";
    let bytes = bytes(alloc, words)?;
    let all = bytes.as_slice();
    let whole = told(alloc, &[all])?;
    assert!(rt; whole.starts_with("opened; payload 6162; closed 505249"));
    for at in 0..all.len() {
        cut_brings(&rt, alloc, all, at, whole.as_str())?;
    }
    Ok(())
}

/// A payload goes each way: the proxy's in this frame.
fn exchange(rt: &impl Abort, alloc: Global, client: &mut Client, frame: &[u8]) -> Result<(), Fail> {
    let events = fed(alloc, client, frame)?;
    is(rt, events.as_str(), "payload #44", "");
    client.send(b"abcdefghijklmnopqrstuvwxyz012345")?;
    assert!(rt; !client.waiting());
    write_all(client);
    Ok(())
}

fn exchange_all(rt: &impl Abort, alloc: Global, client: &mut Client) -> Result<(), Fail> {
    let frame = bytes(alloc, "00002f000000000001 002d00 61*44")?;
    for _ in 0..1000 {
        exchange(rt, alloc, client, frame.as_slice())?;
    }
    Ok(())
}

#[test]
fn a_thousand_payloads_go_both_ways(rt: HostRuntime) -> Result<(), Fail> {
    let mut client = opened(rt.alloc())?;
    exchange_all(&rt, rt.alloc(), &mut client)
}
