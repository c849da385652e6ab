//! Data streams, with what the standards make of them.
ghost use Rattle.std.specs.Prelude.{◌<◌, ◌≤◌, IfOk, length};

use mq_capsule::{CapsuleFault, Item, Reader, Taken, Truncated, write_control, write_datagram};
use mq_wire::WireFault;
use std::alloc::Global;
use std::process::Abort;
use std::test::Fail;

/// Data streams that tell the same with and without control capsules.
fn common_rows() -> &'static str {
    "\
 is nothing
00 is nothing
0003 is nothing
00030068 is nothing
0003006869 is datagram 0 6869
000100 is datagram 0
00020161 is datagram 1 61
00033f6162 is datagram 63 6162
0003404061 is datagram 64 61
0005800000076a is datagram 7 6a
0009c00000000000000561 is datagram 5 61
0008ffffffffffffffff is datagram 4611686018427387903
00024000 is datagram 0
400003006869 is datagram 0 6869
8000000003006869 is datagram 0 6869
c00000000000000003006869 is datagram 0 6869
004003006869 is datagram 0 6869
0080000003006869 is datagram 0 6869
00c000000000000003006869 is datagram 0 6869
0003006869000200610001000003016b6c is datagram 0 6869; datagram 0 61; datagram 0; datagram 1 6b6c
"
}

/// Streams with a value that has no whole Context ID.
fn malformed_rows() -> &'static str {
    "\
0000 is NoContext
40000003006869 is NoContext
000140 is NoContext
0001 is nothing
000240 is nothing
000180 is NoContext
0003800000 is NoContext
00038000 is nothing
0007c0000000000000 is NoContext
0007ffffffffffffff is NoContext
0001ff is NoContext
00000003006869 is NoContext
000300686900000003006869 is datagram 0 6869; NoContext
0001400003006869 is NoContext
"
}

/// Streams with types that aren't known.
fn unknown_rows() -> &'static str {
    "\
04 is nothing
0400 is nothing
0403616263 is nothing
04036162630003006869 is datagram 0 6869
04000003006869 is datagram 0 6869
0403000100 is nothing
0403000100000201610403000100 is datagram 1 61
ffffffffffffffff026162000100 is datagram 0
40040361626300020062 is datagram 0 62
3f01614040016100020063 is datagram 0 63
04ffffffffffffffff000100000100 is nothing
00ffffffffffffffff000100000100 is nothing
"
}

/// Streams of a tunnel for IP packets.
fn control_rows() -> &'static str {
    "\
0103616263 is control 1 616263
0200 is control 2
0303616263 is control 3 616263
01036162 is nothing
4001026162 is control 1 6162
c00000000000000302616200020061 is control 3 6162; datagram 0 61
01400161020001000300 is control 1 61; control 2; control 1; control 3
0180010000 is nothing
0180010001 is TooLong
01800100 is nothing
0280010001 is TooLong
0380010001 is TooLong
0480010001 is nothing
01bfffffff is TooLong
01ffffffffffffffff is TooLong
018001000100020061 is TooLong
00020061038001000100020062 is datagram 0 61; TooLong
010161000001026162 is control 1 61; NoContext
"
}

/// The same types in a tunnel for UDP.
fn without_control_rows() -> &'static str {
    "\
0103616263 is nothing
0200 is nothing
010361626300020061 is datagram 0 61
0180010001 is nothing
01ffffffffffffffff is nothing
0305000100010000020061 is datagram 0 61
"
}

/// Pieces of one stream, how many items each gives, and whether a capsule is begun behind it.
fn begun_rows() -> &'static str {
    "\
 is 0 between
00 is 0 inside
03 is 0 inside
00 is 0 inside
6869 is 1 between
04 is 0 inside
03 is 0 inside
616263 is 0 between
01 is 0 inside
02 is 0 inside
61 is 0 inside
62 is 1 between
000100000200 is 1 inside
61000100 is 2 between
0180010000 is 0 inside
"
}

/// A name, numbers, and the hex of bytes where there are some.
fn line(alloc: Global, name: &str, numbers: &[u64], bytes: &[u8]) -> Result<String, Fail> {
    let mut text = String::from_str(alloc, name)?;
    for number in numbers {
        text.push_str(format!(in alloc; " {number}")?.as_str())?;
    }
    if !bytes.is_empty() {
        text.push_str(" ")?;
        text.push_str(hex::encode(alloc, bytes)?.as_str())?;
    }
    Ok(text)
}

fn text_of(alloc: Global, item: &Item) -> Result<String, Fail> {
    match item {
        Item::Datagram { context, payload } => {
            line(alloc, "datagram", &[*context], payload.as_slice())
        }
        Item::TooLongDatagram { context, length } => {
            line(alloc, "too long", &[*context, *length], &[])
        }
        Item::Control { kind, value } => line(alloc, "control", &[*kind], value.as_slice()),
        Item::Bad { fault } => line(alloc, format!(in alloc; "{fault:?}")?.as_str(), &[], &[]),
    }
}

/// Adds an item.
fn add_item(alloc: Global, item: &Item, text: &mut String) -> Result<(), Fail> {
    if !text.is_empty() {
        text.push_str("; ")?;
    }
    text.push_str(text_of(alloc, item)?.as_str())?;
    Ok(())
}

/// Adds the items of a piece.
fn add_items(
    alloc: Global,
    reader: &mut Reader,
    piece: &[u8],
    text: &mut String,
) -> Result<(), Fail> {
    for item in reader.feed(alloc, piece)?.as_slice() {
        add_item(alloc, item, text)?;
    }
    Ok(())
}

/// Adds the item with which the front of a piece ends, and answers how many bytes that front has.
fn add_next(
    alloc: Global,
    reader: &mut Reader,
    piece: &[u8],
    text: &mut String,
) -> Result<usize, Fail>
    ensures { IfOk result (λ used. used ≤ length piece.now) }
{
    let Taken { item, used } = reader.next(alloc, piece)?;
    if let Some(item) = item {
        add_item(alloc, &item, text)?;
    }
    Ok(used)
}

/// The items of bytes, which are taken one at a time.
fn items_by_one(alloc: Global, control: bool, bytes: &[u8]) -> Result<String, Fail> {
    let mut reader = Reader::new(control);
    let mut text = String::new(alloc);
    let mut left = bytes;
    for _ in 0..bytes.len() {
        let used = add_next(alloc, &mut reader, left, &mut text)?;
        let (_, rest) = left.split_at(used);
        left = rest;
    }
    Ok(text)
}

/// The items of bytes that come in pieces of this size.
fn items_in(alloc: Global, control: bool, bytes: &[u8], size: usize) -> Result<String, Fail>
    requires { 0 < size }
{
    let mut reader = Reader::new(control);
    let mut text = String::new(alloc);
    for piece in bytes.chunks(size) {
        add_items(alloc, &mut reader, piece, &mut text)?;
    }
    Ok(text)
}

/// The items of bytes that come in two pieces, the second from here on.
fn items_of_two(alloc: Global, control: bool, bytes: &[u8], at: usize) -> Result<String, Fail>
    requires { at ≤ length bytes.now }
{
    let (first, second) = bytes.split_at(at);
    let mut reader = Reader::new(control);
    let mut text = String::new(alloc);
    add_items(alloc, &mut reader, first, &mut text)?;
    add_items(alloc, &mut reader, second, &mut text)?;
    Ok(text)
}

/// What a stream says, whole, in pieces of every size and in every two pieces.
fn check(
    rt: &impl Abort,
    alloc: Global,
    control: bool,
    stream: &str,
    want: &str,
) -> Result<(), Fail> {
    let bytes = hex::decode(alloc, stream)?;
    let seen = items_by_one(alloc, control, bytes.as_slice())?;
    assert!(rt; seen.as_str() == want, "{stream} by one");
    for size in 1..=bytes.len() {
        let seen = items_in(alloc, control, bytes.as_slice(), size)?;
        assert!(rt; seen.as_str() == want, "{stream} in pieces of {size}");
    }
    for at in 0..=bytes.len() {
        let seen = items_of_two(alloc, control, bytes.as_slice(), at)?;
        assert!(rt; seen.as_str() == want, "{stream} cut at {at}");
    }
    Ok(())
}

fn check_rows(rt: &impl Abort, alloc: Global, control: bool, rows: &str) -> Result<(), Fail> {
    for line in rows.lines() {
        let Some((stream, want)) = line.split_once(" is ") else {
            continue;
        };
        let want = if want == "nothing" { "" } else { want };
        check(rt, alloc, control, stream, want)?;
    }
    Ok(())
}

#[test]
fn datagrams_are_told_with_and_without_control_capsules(rt: HostRuntime) -> Result<(), Fail> {
    for &control in &[false, true] {
        for &rows in &[common_rows(), malformed_rows(), unknown_rows()] {
            check_rows(&rt, rt.alloc(), control, rows)?;
        }
    }
    Ok(())
}

#[test]
fn control_capsules_are_told_in_a_tunnel_for_ip_packets_alone(rt: HostRuntime) -> Result<(), Fail> {
    check_rows(&rt, rt.alloc(), true, control_rows())?;
    check_rows(&rt, rt.alloc(), false, without_control_rows())
}

/// Feeds a piece, and compares how many items it gives and whether a capsule is begun then.
fn feed(
    rt: &impl Abort,
    alloc: Global,
    reader: &mut Reader,
    piece: &str,
    want: (usize, bool),
) -> Result<(), Fail> {
    let bytes = hex::decode(alloc, piece)?;
    let count = reader.feed(alloc, bytes.as_slice())?.as_slice().len();
    assert!(rt; (count, reader.begun()) == want, "after {piece}");
    let end = if want.1 { Err(Truncated) } else { Ok(()) };
    assert!(rt; reader.finish() == end, "after {piece}");
    Ok(())
}

#[test]
fn a_capsule_is_begun_until_its_last_byte(rt: HostRuntime) -> Result<(), Fail> {
    let mut reader = Reader::new(true);
    for line in begun_rows().lines() {
        let Some((piece, want)) = line.split_once(" is ") else {
            continue;
        };
        let want = match want {
            "0 inside" => (0, true),
            "1 between" => (1, false),
            "1 inside" => (1, true),
            "2 between" => (2, false),
            _ => (0, false),
        };
        feed(&rt, rt.alloc(), &mut reader, piece, want)?;
    }
    Ok(())
}

#[test]
fn a_stream_that_ends_inside_a_capsule_goes_on_with_it(rt: HostRuntime) -> Result<(), Fail> {
    let mut reader = Reader::new(false);
    let front = reader.feed(rt.alloc(), b"\x00\x03\x00\x68")?;
    assert_eq!(rt; front.as_slice().len(), 0);
    assert_eq!(rt; reader.finish(), Err(Truncated));
    let mut text = String::new(rt.alloc());
    add_items(rt.alloc(), &mut reader, b"\x69", &mut text)?;
    assert_eq!(rt; text.as_str(), "datagram 0 6869");
    assert_eq!(rt; reader.finish(), Ok(()));
    Ok(())
}

#[test]
fn a_length_above_the_limit_is_told_with_its_last_byte(rt: HostRuntime) -> Result<(), Fail> {
    let mut reader = Reader::new(true);
    feed(&rt, rt.alloc(), &mut reader, "01ffffffffffffff", (0, true))?;
    feed(&rt, rt.alloc(), &mut reader, "ff", (1, false))?;
    feed(&rt, rt.alloc(), &mut reader, "00020061", (0, false))?;
    feed(&rt, rt.alloc(), &mut reader, "01", (0, false))
}

#[test]
fn a_missing_context_is_told_at_the_end_of_the_value(rt: HostRuntime) -> Result<(), Fail> {
    let mut reader = Reader::new(false);
    feed(&rt, rt.alloc(), &mut reader, "0003c0", (0, true))?;
    feed(&rt, rt.alloc(), &mut reader, "00", (0, true))?;
    feed(&rt, rt.alloc(), &mut reader, "00", (1, false))?;
    feed(&rt, rt.alloc(), &mut reader, "0002006100", (0, false))
}

/// A capsule with a long value.
struct Long {
    control: bool,
    /// The bytes before the run of letters.
    front: &'static str,
    /// How many letters follow.
    letters: usize,
    /// What the capsule says.
    says: &'static str,
}

/// Payloads and values on either side of each limit.
const LONG: [Long; 10] = [
    Long {
        control: false,
        front: "008001000000",
        letters: 65_535,
        says: "datagram 0 of 65535",
    },
    Long {
        control: false,
        front: "008001000100",
        letters: 65_536,
        says: "too long 0 65536",
    },
    Long {
        control: true,
        front: "00800100014005",
        letters: 65_535,
        says: "datagram 5 of 65535",
    },
    Long {
        control: true,
        front: "0080010007c000000000000009",
        letters: 65_535,
        says: "datagram 9 of 65535",
    },
    Long {
        control: true,
        front: "0080010008c000000000000009",
        letters: 65_536,
        says: "too long 9 65536",
    },
    Long {
        control: false,
        front: "008003000000",
        letters: 196_607,
        says: "too long 0 196607",
    },
    Long {
        control: true,
        front: "0180010000",
        letters: 65_536,
        says: "control 1 of 65536",
    },
    Long {
        control: false,
        front: "0180010001",
        letters: 65_537,
        says: "",
    },
    Long {
        control: true,
        front: "0480030d40",
        letters: 200_000,
        says: "",
    },
    Long {
        control: false,
        front: "c0000000ffffffff80030d40",
        letters: 200_000,
        says: "",
    },
];

/// What an item of letters says, in short.
fn summary_of(rt: &impl Abort, alloc: Global, item: &Item) -> Result<String, Fail> {
    let (name, number, bytes) = match item {
        Item::Datagram { context, payload } => ("datagram", *context, payload.as_slice()),
        Item::Control { kind, value } => ("control", *kind, value.as_slice()),
        _ => return text_of(alloc, item),
    };
    assert!(rt; bytes.iter().all(|b| *b == b'a'));
    let length = bytes.len();
    Ok(format!(in alloc; "{name} {number} of {length}")?)
}

/// Feeds bytes in pieces of this size, and compares what they say and whether a capsule is begun then.
fn check_said(
    rt: &impl Abort,
    alloc: Global,
    reader: &mut Reader,
    bytes: &[u8],
    size: usize,
    want: (&str, bool),
) -> Result<(), Fail>
    requires { 0 < size }
{
    let mut text = String::new(alloc);
    for piece in bytes.chunks(size) {
        for item in reader.feed(alloc, piece)?.as_slice() {
            text.push_str(summary_of(rt, alloc, item)?.as_str())?;
        }
    }
    assert!(rt; text.as_str() == want.0, "in pieces of {size}");
    assert!(rt; reader.begun() == want.1, "in pieces of {size}");
    Ok(())
}

/// The bytes of a long capsule.
fn stream_of(alloc: Global, long: &Long) -> Result<Vec<u8>, Fail> {
    let letters = Vec::from_elem(alloc, b'a', long.letters)?;
    let mut bytes = hex::decode(alloc, long.front)?;
    bytes.extend_from_slice(letters.as_slice())?;
    Ok(bytes)
}

/// A long capsule in pieces of this size, its last byte alone, and a capsule behind it.
fn check_long(rt: &impl Abort, alloc: Global, long: &Long, size: usize) -> Result<(), Fail>
    requires { 0 < size }
{
    let bytes = stream_of(alloc, long)?;
    let (front, last) = bytes.as_slice().split_at(bytes.len().saturating_sub(1));
    let mut reader = Reader::new(long.control);
    check_said(rt, alloc, &mut reader, front, size, ("", true))?;
    check_said(rt, alloc, &mut reader, last, 1, (long.says, false))?;
    let next = b"\x00\x02\x05a\x00";
    check_said(
        rt,
        alloc,
        &mut reader,
        next,
        size,
        ("datagram 5 of 1", true),
    )
}

#[test]
fn limits_hold_at_their_ends_and_long_capsules_are_told_with_their_last_byte(
    rt: HostRuntime,
) -> Result<(), Fail> {
    for long in &LONG {
        for &size in &[1, 4_099, 16_384, 300_000] {
            check_long(&rt, rt.alloc(), long, size)?;
        }
    }
    Ok(())
}

/// The hex of a DATAGRAM with this payload.
fn datagram(alloc: Global, payload: &[u8]) -> Result<String, Fail> {
    let mut out = Vec::new(alloc);
    write_datagram(&mut out, payload)?;
    Ok(hex::encode(alloc, out)?)
}

/// The hex of a capsule of this type and value.
fn control(alloc: Global, kind: u64, value: &[u8]) -> Result<String, Fail> {
    let mut out = Vec::new(alloc);
    write_control(&mut out, kind, value)?;
    Ok(hex::encode(alloc, out)?)
}

#[test]
fn capsules_are_written_as_the_standard_lays_them_out(rt: HostRuntime) -> Result<(), Fail> {
    let alloc = rt.alloc();
    assert_eq!(rt; datagram(alloc, b"hi")?.as_str(), "0003006869");
    assert_eq!(rt; datagram(alloc, b"")?.as_str(), "000100");
    assert_eq!(rt; control(alloc, 3, b"")?.as_str(), "0300");
    assert_eq!(rt; control(alloc, 1, b"abc")?.as_str(), "0103616263");
    assert_eq!(rt; control(alloc, 64, b"a")?.as_str(), "40400161");
    assert_eq!(rt;
        control(alloc, 0x3fff_ffff_ffff_ffff, b"a")?.as_str(),
        "ffffffffffffffff0161"
    );
    Ok(())
}

/// A DATAGRAM with so many letters begins so.
fn check_front(rt: &impl Abort, alloc: Global, letters: usize, front: &str) -> Result<(), Fail> {
    let payload = Vec::from_elem(alloc, b'a', letters)?;
    let mut want = hex::decode(alloc, front)?;
    want.extend_from_slice(payload.as_slice())?;
    let mut out = Vec::new(alloc);
    write_datagram(&mut out, payload.as_slice())?;
    assert!(rt; out.as_slice() == want.as_slice(), "{letters} letters");
    Ok(())
}

#[test]
fn lengths_are_written_in_their_shortest_form(rt: HostRuntime) -> Result<(), Fail> {
    check_front(&rt, rt.alloc(), 62, "003f00")?;
    check_front(&rt, rt.alloc(), 63, "00404000")?;
    check_front(&rt, rt.alloc(), 16_382, "007fff00")?;
    check_front(&rt, rt.alloc(), 16_383, "008000400000")?;
    check_front(&rt, rt.alloc(), 65_536, "008001000100")
}

#[test]
fn types_that_are_too_large_are_refused_and_nothing_is_written(
    rt: HostRuntime,
) -> Result<(), Fail> {
    for &kind in &[0x4000_0000_0000_0000, 0xffff_ffff_ffff_ffff] {
        let mut out = Vec::from_slice(rt.alloc(), b"x")?;
        assert_eq!(rt;
            write_control(&mut out, kind, b"a"),
            Err(WireFault::TooLarge)
        );
        assert_eq!(rt; out.as_slice(), b"x".as_slice());
    }
    Ok(())
}

#[test]
fn what_is_written_stands_behind_what_was_and_is_read_again(rt: HostRuntime) -> Result<(), Fail> {
    let mut out = Vec::new(rt.alloc());
    write_control(&mut out, 2, b"ab")?;
    write_datagram(&mut out, b"hi")?;
    write_control(&mut out, 7, b"cd")?;
    write_datagram(&mut out, b"")?;
    let text = items_in(rt.alloc(), true, out.as_slice(), 3)?;
    assert_eq!(rt;
        text.as_str(),
        "control 2 6162; datagram 0 6869; datagram 0"
    );
    Ok(())
}

#[test]
fn a_refused_control_capsule_has_its_cause(rt: HostRuntime) -> Result<(), Fail> {
    let mut reader = Reader::new(true);
    let items = reader.feed(rt.alloc(), b"\x01\xff\xff\xff\xff\xff\xff\xff\xff")?;
    match items.as_slice() {
        [Item::Bad { fault }] => assert_eq!(rt; *fault, CapsuleFault::TooLong),
        _ => assert!(rt; false),
    }
    Ok(())
}

#[test]
fn a_fault_says_what_it_is(rt: HostRuntime) -> Result<(), Fail> {
    let rows = [
        (
            CapsuleFault::TooLong,
            "the value of a control capsule is longer than 65536 bytes",
        ),
        (
            CapsuleFault::NoContext,
            "the value of a DATAGRAM capsule has no whole Context ID",
        ),
    ];
    for &(fault, text) in &rows {
        assert_eq!(rt; format!(in rt.alloc(); "{fault}")?.as_str(), text);
    }
    assert_eq!(rt;
        format!(in rt.alloc(); "{}", Truncated)?.as_str(),
        "the data stream ended inside a capsule"
    );
    Ok(())
}
