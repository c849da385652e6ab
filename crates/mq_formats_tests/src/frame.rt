//! Streams of frames, with what RFC 9113 makes of them.
ghost use Rattle.std.specs.Prelude.{◌<◌, ◌≤◌, length};
ghost use Rattle.mq_frame.specs.Writing.{IsWritable};

use mq_frame::{Frame, FrameReader, Setting, write_data, write_frame, write_headers};
use mq_wire::{Bytes, Seq};
use std::alloc::Global;
use std::process::Abort;
use std::test::Fail;

/// SETTINGS without settings.
const SETTINGS: &str = "000000040000000000";
/// Streams from the first byte on, and what they are read as.
fn first_rows() -> &'static str {
    "\
000000040000000000 is settings 0
000000040100000000 is fault 1
0000080600000000000000000000000007 is fault 1
000000000000000001000000040000000000 is fault 1
0000000b0000000001 is fault 1
004001000000000001 is fault 6
004000000000000001 is nothing
0000000400000000 is nothing
"
}

/// Streams behind SETTINGS, and what they are read as: DATA and its padding.
fn data_rows() -> &'static str {
    "\
0000020000000000016162 is data 1 2 0 6162
0000050009000000010261620000 is data 1 5 1 6162
000003000800000001020000 is data 1 3 0
0000020008000000010200 is fault 1
00000100080000000100 is data 1 1 0
000000000800000001 is fault 6
000000000080000001 is data 1 0 0
000000000000000000 is fault 1
"
}

/// Streams behind SETTINGS, and what they are read as: HEADERS, its padding and its priority.
fn headers_rows() -> &'static str {
    "\
0000020105000000018284 is headers 1 1 1 8284
000009012d00000001010000000010828400 is headers 1 1 1 8284
0000050124000000010000000010 is headers 1 0 1
00000401240000000100000000 is fault 6
000005012c000000010000000000 is fault 6
000006012c00000001010000000010 is fault 1
000007012c0000000101000000001000 is headers 1 0 1
000000010400000000 is fault 1
"
}

/// Streams behind SETTINGS, and what they are read as: header blocks.
fn block_rows() -> &'static str {
    "\
000002010000000001828400000109000000000186000001090400000001870000080600000000000000000000000007 is headers 1 0 0 8284; continuation 1 0 86; continuation 1 1 87; ping 0 7
000002010000000001828400000109040000000384 is headers 1 0 0 8284; fault 1
00000201000000000182840000080600000000000000000000000007 is headers 1 0 0 8284; fault 1
000002010000000001828400000101040000000184 is headers 1 0 0 8284; fault 1
00000201000000000182840000000b0000000001 is headers 1 0 0 8284; fault 1
00000201000000000182840000050200000000010000000010 is headers 1 0 0 8284; fault 1
00000109040000000184 is fault 1
0000010104000000018400000109040000000184 is headers 1 0 1 84; fault 1
"
}

/// Streams behind SETTINGS, and what they are read as: PUSH_PROMISE, PRIORITY and unknown types.
fn other_rows() -> &'static str {
    "\
00000405040000000100000002 is fault 1
000000020000000003 is priority 3
000006020000000003000000000000 is priority 3
0000050200000000000000000010 is fault 1
0000030bff00000001616263 is unknown 11 1
000000ff0000000000 is unknown 255 0
"
}

/// Streams behind SETTINGS, and what they are read as: RST_STREAM and PING.
fn reset_and_ping_rows() -> &'static str {
    "\
00000403000000000100000008 is reset 1 8
000003030000000001000008 is fault 6
0000050300000000010000000008 is fault 6
00000403000000000000000008 is fault 1
0000080600000000000000000000000007 is ping 0 7
00000806010000000000000000000000ff is ping 1 255
00000706000000000000000000000007 is fault 6
000009060000000000000000000000000007 is fault 6
0000080600000000010000000000000007 is fault 1
"
}

/// Streams behind SETTINGS, and what they are read as: GOAWAY and WINDOW_UPDATE.
fn goaway_and_window_rows() -> &'static str {
    "\
000008070000000000800000030000000b is goaway 3 11
00000907000000000000000003000000006f is goaway 3 0
00000707000000000000000003000000 is fault 6
0000080700000000010000000300000000 is fault 1
00000408000000000000000001 is window 0 1
00000408000000000000000000 is fault 1
00000408000000000080000000 is fault 1
00000408000000000180000000 is window 1 0
000004080000000001ffffffff is window 1 2147483647
000003080000000001000001 is fault 6
0000050800000000010000000001 is fault 6
"
}

/// Streams behind SETTINGS, and what they are read as: SETTINGS.
fn settings_rows() -> &'static str {
    "\
000000040100000000 is settings 1
00000c0400000000000003000000641234ffffffff is settings 0 3 100 4660 4294967295
000006040100000000000300000064 is fault 6
0000050400000000000003000000 is fault 6
00000704000000000000030000006400 is fault 6
000000040000000001 is fault 1
000006040000000000000200000001 is settings 0 2 1
000006040000000000000200000002 is fault 1
00000604000000000000047fffffff is settings 0 4 2147483647
000006040000000000000480000000 is fault 3
00000c040000000000000500004000000500ffffff is settings 0 5 16384 5 16777215
000006040000000000000500003fff is fault 1
000006040000000000000501000000 is fault 1
00000c040000000000000480000000000200000002 is fault 3
00000c040000000000000200000002000480000000 is fault 1
"
}

/// Streams behind SETTINGS, and what they are read as: nothing follows an error.
fn error_rows() -> &'static str {
    "\
0000000904000000010000080600000000000000000000000007 is fault 1
0000040800000000000000000000000405040000000100000002 is fault 1
ffffff0b0000000001 is fault 6
"
}

/// Pieces of one stream, and what stands behind each.
fn begun_rows() -> &'static str {
    "\
 is nothing
00 is begun
0000040000000000 is whole
0000030b0000000001 is begun
6162 is begun
63 is whole
000002000000000001 is begun
61 is begun
6200000008 is whole and begun
"
}

/// One frame of each other type.
fn each() -> &'static str {
    "\
0000020001000000016162000003000800000003016300000006012100000005000000001082000001090400\
0000058400000502000000000700000000100000040300000000010000000800000604000000000000030000\
0064000008060100000000000000000000000700000807000000000000000005000000000000040800000000\
01000040000000030b0000000001616263"
}

/// What they are read as.
fn each_read() -> &'static str {
    "\
data 1 2 1 6162; data 3 3 0 63; headers 5 1 0 82; continuation 5 1 84; \
priority 7; reset 1 8; settings 0 3 100; ping 1 7; goaway 5 0; window 1 16384; \
unknown 11 1"
}

/// A name, numbers, and the hex of bytes where there are some.
fn line(alloc: Global, name: &str, numbers: &[u64], bytes: &[u8]) -> Result<String, Fail> {
    let mut text = String::from_str(alloc, name)?;
    for number in numbers {
        text.push_str(format!(in alloc; " {number}")?.as_str())?;
    }
    if !bytes.is_empty() {
        text.push_str(" ")?;
        text.push_str(hex::encode(alloc, bytes)?.as_str())?;
    }
    Ok(text)
}

/// Whether SETTINGS has ACK, and its settings.
fn settings_line(alloc: Global, ack: bool, pairs: &[Setting]) -> Result<String, Fail> {
    let mut numbers = Vec::new(alloc);
    numbers.push(u64::from(ack))?;
    for pair in pairs {
        numbers.push(u64::from(pair.id))?;
        numbers.push(u64::from(pair.value))?;
    }
    line(alloc, "settings", numbers.as_slice(), &[])
}

/// The part of a header block that a frame has.
fn block_line(alloc: Global, frame: &Frame) -> Result<String, Fail> {
    match frame {
        Frame::Headers {
            stream,
            block,
            end,
            whole,
        } => {
            let numbers = [u64::from(*stream), u64::from(*end), u64::from(*whole)];
            line(alloc, "headers", &numbers, block.as_slice())
        }
        Frame::Continuation {
            stream,
            block,
            whole,
        } => {
            let numbers = [u64::from(*stream), u64::from(*whole)];
            line(alloc, "continuation", &numbers, block.as_slice())
        }
        _ => line(alloc, "", &[], &[]),
    }
}

/// The numbers of a frame that has nothing else.
fn number_line(alloc: Global, frame: &Frame) -> Result<String, Fail> {
    match frame {
        Frame::Priority { stream } => line(alloc, "priority", &[u64::from(*stream)], &[]),
        Frame::Reset { stream, code } => line(
            alloc,
            "reset",
            &[u64::from(*stream), u64::from(*code)],
            &[],
        ),
        Frame::Ping { ack, bytes } => line(alloc, "ping", &[u64::from(*ack), *bytes], &[]),
        Frame::GoAway { last, code } => line(
            alloc,
            "goaway",
            &[u64::from(*last), u64::from(*code)],
            &[],
        ),
        Frame::Window { stream, grow } => line(
            alloc,
            "window",
            &[u64::from(*stream), u64::from(*grow)],
            &[],
        ),
        Frame::Unknown { kind, stream } => line(
            alloc,
            "unknown",
            &[u64::from(*kind), u64::from(*stream)],
            &[],
        ),
        Frame::Fault { code } => line(alloc, "fault", &[u64::from(*code)], &[]),
        _ => line(alloc, "", &[], &[]),
    }
}

fn text_of(alloc: Global, frame: &Frame) -> Result<String, Fail> {
    match frame {
        Frame::Content {
            stream,
            bytes,
            length,
            end,
        } => {
            let numbers = [u64::from(*stream), u64::from(*length), u64::from(*end)];
            line(alloc, "data", &numbers, bytes.as_slice())
        }
        Frame::Settings { ack, pairs } => settings_line(alloc, *ack, pairs.as_slice()),
        Frame::Headers { .. } | Frame::Continuation { .. } => block_line(alloc, frame),
        _ => number_line(alloc, frame),
    }
}

/// Adds the frames of a piece.
fn add_frames(
    alloc: Global,
    reader: &mut FrameReader,
    piece: &[u8],
    text: &mut String,
) -> Result<(), Fail> {
    for frame in reader.feed(alloc, piece)?.as_slice() {
        if !text.is_empty() {
            text.push_str("; ")?;
        }
        text.push_str(text_of(alloc, frame)?.as_str())?;
    }
    Ok(())
}

/// The frames of bytes that come in pieces of this size.
fn frames_in(alloc: Global, bytes: &[u8], size: usize) -> Result<String, Fail>
    requires { 0 < size }
{
    let mut reader = FrameReader::new();
    let mut text = String::new(alloc);
    for piece in bytes.chunks(size) {
        add_frames(alloc, &mut reader, piece, &mut text)?;
    }
    Ok(text)
}

/// The frames of bytes that come in two pieces, the second from here on.
fn frames_of_two(alloc: Global, bytes: &[u8], at: usize) -> Result<String, Fail>
    requires { at ≤ length bytes.now }
{
    let (first, second) = bytes.split_at(at);
    let mut reader = FrameReader::new();
    let mut text = String::new(alloc);
    add_frames(alloc, &mut reader, first, &mut text)?;
    add_frames(alloc, &mut reader, second, &mut text)?;
    Ok(text)
}

/// What a stream is read as, in pieces of every size.
fn check(rt: &impl Abort, alloc: Global, stream: &str, want: &str) -> Result<(), Fail> {
    let bytes = hex::decode(alloc, stream)?;
    for size in 1..=bytes.len() {
        let seen = frames_in(alloc, bytes.as_slice(), size)?;
        assert!(rt; seen.as_str() == want, "{stream} in pieces of {size}");
    }
    Ok(())
}

#[test]
fn the_first_frame_is_settings_and_a_length_is_tried_first(rt: HostRuntime) -> Result<(), Fail> {
    for line in first_rows().lines() {
        let Some((stream, want)) = line.split_once(" is ") else {
            continue;
        };
        let want = if want == "nothing" { "" } else { want };
        check(&rt, rt.alloc(), stream, want)?;
    }
    Ok(())
}

/// Each stream behind SETTINGS.
fn check_rows(rt: &impl Abort, alloc: Global, rows: &str) -> Result<(), Fail> {
    for line in rows.lines() {
        let Some((stream, want)) = line.split_once(" is ") else {
            continue;
        };
        let stream = format!(in alloc; "{SETTINGS}{stream}")?;
        let want = format!(in alloc; "settings 0; {want}")?;
        check(rt, alloc, stream.as_str(), want.as_str())?;
    }
    Ok(())
}

#[test]
fn each_error_has_a_frame_on_either_side(rt: HostRuntime) -> Result<(), Fail> {
    for &rows in &[
        data_rows(),
        headers_rows(),
        block_rows(),
        other_rows(),
        reset_and_ping_rows(),
        goaway_and_window_rows(),
        settings_rows(),
        error_rows(),
    ] {
        check_rows(&rt, rt.alloc(), rows)?;
    }
    Ok(())
}

#[test]
fn one_frame_of_each_type_is_the_same_in_every_cutting(rt: HostRuntime) -> Result<(), Fail> {
    let stream = format!(in rt.alloc(); "{SETTINGS}{}", each())?;
    let want = format!(in rt.alloc(); "settings 0; {}", each_read())?;
    check(&rt, rt.alloc(), stream.as_str(), want.as_str())?;
    let bytes = hex::decode(rt.alloc(), stream.as_str())?;
    for at in 0..=bytes.len() {
        let seen = frames_of_two(rt.alloc(), bytes.as_slice(), at)?;
        assert!(rt; seen.as_str() == want.as_str(), "cut at {at}");
    }
    Ok(())
}

/// Feeds a piece, and compares how many frames it gives and whether one is begun then.
fn feed(
    rt: &impl Abort,
    alloc: Global,
    reader: &mut FrameReader,
    piece: &str,
    want: (usize, bool),
) -> Result<(), Fail> {
    let bytes = hex::decode(alloc, piece)?;
    let count = reader.feed(alloc, bytes.as_slice())?.as_slice().len();
    assert!(rt; (count, reader.begun()) == want, "after {piece}");
    Ok(())
}

#[test]
fn a_length_above_the_limit_is_told_at_the_ninth_byte(rt: HostRuntime) -> Result<(), Fail> {
    let mut reader = FrameReader::new();
    feed(&rt, rt.alloc(), &mut reader, "0040010000000000", (0, true))?;
    feed(&rt, rt.alloc(), &mut reader, "01", (1, false))
}

#[test]
fn a_frame_is_begun_until_its_last_byte(rt: HostRuntime) -> Result<(), Fail> {
    let mut reader = FrameReader::new();
    for line in begun_rows().lines() {
        let Some((piece, want)) = line.split_once(" is ") else {
            continue;
        };
        let want = match want {
            "begun" => (0, true),
            "whole" => (1, false),
            "whole and begun" => (1, true),
            _ => (0, false),
        };
        feed(&rt, rt.alloc(), &mut reader, piece, want)?;
    }
    Ok(())
}

/// The hex that a frame is written as.
fn written(alloc: Global, frame: &Frame) -> Result<String, Fail>
    requires { IsWritable frame.now }
{
    let mut out = Vec::new(alloc);
    write_frame(&mut out, frame)?;
    Ok(hex::encode(alloc, out)?)
}

fn written_content(alloc: Global) -> Result<String, Fail> {
    let bytes = Vec::from_slice(alloc, &[0x61, 0x62])?;
    let frame = Frame::Content {
        stream: 1,
        bytes: Bytes::from_vec(bytes),
        length: 2,
        end: true,
    };
    written(alloc, &frame)
}

fn written_headers(alloc: Global) -> Result<String, Fail> {
    let block = Vec::from_slice(alloc, &[0x63])?;
    let frame = Frame::Headers {
        stream: 5,
        block: Bytes::from_vec(block),
        end: true,
        whole: false,
    };
    written(alloc, &frame)
}

fn written_continuation(alloc: Global) -> Result<String, Fail> {
    let block = Vec::from_slice(alloc, &[0x64])?;
    let frame = Frame::Continuation {
        stream: 5,
        block: Bytes::from_vec(block),
        whole: true,
    };
    written(alloc, &frame)
}

fn written_settings(alloc: Global) -> Result<String, Fail> {
    let pair = Setting { id: 3, value: 100 };
    let pairs = Vec::from_slice(alloc, &[pair])?;
    let frame = Frame::Settings {
        ack: false,
        pairs: Seq::from_vec(pairs),
    };
    written(alloc, &frame)
}

#[test]
fn frames_with_bytes_are_written_as_the_standard_lays_them_out(
    rt: HostRuntime,
) -> Result<(), Fail> {
    let alloc = rt.alloc();
    assert_eq!(rt; written_content(alloc)?.as_str(), "0000020001000000016162");
    assert_eq!(rt; written_headers(alloc)?.as_str(), "00000101010000000563");
    assert_eq!(rt;
        written_continuation(alloc)?.as_str(),
        "00000109040000000564"
    );
    assert_eq!(rt;
        written_settings(alloc)?.as_str(),
        "000006040000000000000300000064"
    );
    Ok(())
}

#[test]
fn borrowed_bytes_are_written_behind_what_stands_there(rt: HostRuntime) -> Result<(), Fail> {
    let mut out = Vec::from_slice(rt.alloc(), &[0xff])?;
    write_data(&mut out, 1, &[0x61], &[0x62], false)?;
    write_headers(&mut out, 5, &[0x88], true)?;
    write_headers(&mut out, 7, &[0x88], false)?;
    assert_eq!(rt;
        hex::encode(rt.alloc(), out)?.as_str(),
        "ff00000200000000000161620000010105000000058800000101040000000788"
    );
    Ok(())
}

#[test]
fn frames_of_numbers_are_written_as_the_standard_lays_them_out(
    rt: HostRuntime,
) -> Result<(), Fail> {
    let alloc = rt.alloc();
    let ping = Frame::Ping {
        ack: true,
        bytes: 7,
    };
    assert_eq!(rt;
        written(alloc, &ping)?.as_str(),
        "0000080601000000000000000000000007"
    );
    let priority = Frame::Priority { stream: 7 };
    assert_eq!(rt;
        written(alloc, &priority)?.as_str(),
        "0000050200000000070000000000"
    );
    let reset = Frame::Reset { stream: 1, code: 8 };
    assert_eq!(rt;
        written(alloc, &reset)?.as_str(),
        "00000403000000000100000008"
    );
    Ok(())
}

#[test]
fn frames_of_flow_and_end_are_written_as_the_standard_lays_them_out(
    rt: HostRuntime,
) -> Result<(), Fail> {
    let alloc = rt.alloc();
    let goaway = Frame::GoAway { last: 5, code: 0 };
    assert_eq!(rt;
        written(alloc, &goaway)?.as_str(),
        "0000080700000000000000000500000000"
    );
    let window = Frame::Window {
        stream: 1,
        grow: 16_384,
    };
    assert_eq!(rt;
        written(alloc, &window)?.as_str(),
        "00000408000000000100004000"
    );
    Ok(())
}
