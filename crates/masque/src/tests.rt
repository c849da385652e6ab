//! Whole replays over sources and sinks in memory.

ghost use Rattle.std.specs.Prelude.{◌≡◌, []};

mod capsules;
mod generated;
mod limits;
mod lines;
mod many;
mod meeting;
mod network;
mod packets;
mod requests;
mod rows;
mod soak;
mod udp;

use mq_mem::{MemOutside, MemSink, MemSource};
use mq_replay::{StandardSink, StandardSource, Status, replay};
use mq_top::run;
use mq_wire::{Bytes, NoMemory, Seq};
use packets::{SESSION, SESSION_PRINTS};
use rows::{
    BAD, BAD_PRINTS, BIND_FAILS, BIND_FAILS_PRINTS, CUT_CAPSULE, CUT_CAPSULE_PRINTS, DENIED,
    DENIED_PRINTS, FIRST, FIRST_PRINTS, FULL_WORKER, FULL_WORKER_PRINTS, HISTORY_FULL,
    HISTORY_FULL_PRINTS, LONG_FOR_PORT, LONG_FOR_PORT_PRINTS, LONG_FOR_UDP, LONG_FOR_UDP_PRINTS,
    LOOKALIKE, LOOKALIKE_PRINTS, NO_UPGRADE, NO_UPGRADE_PRINTS, NOT_FOUND, NOT_FOUND_PRINTS,
    OTHER_CONTEXT, OTHER_CONTEXT_PRINTS, PORT_FAILS, PORT_FAILS_PRINTS, READ_FAILS,
    READ_FAILS_PRINTS, REFUSED, REFUSED_PRINTS, UNBOUND, UNBOUND_PRINTS, UNKNOWN_CAPSULE,
    UNKNOWN_CAPSULE_PRINTS, WRITE_FAILS, WRITE_FAILS_PRINTS,
};
use std::alloc::Global;
use std::collections::VecDeque;
use std::process::Abort;
use std::sync::Wait;
use std::test::Fail;

/// The number of a call that is never made.
const NEVER: u64 = u64::MAX;

/// How a source gives a script and a sink takes what is printed: the calls that fail, and the most bytes of a call.
#[derive(Drop)]
struct Way {
    fail_read: u64,
    read: u32,
    fail_write: u64,
    written: u32,
}

/// No call fails, and each gives or takes as much as it can.
const PLAIN: Way = Way {
    fail_read: NEVER,
    read: u32::MAX,
    fail_write: NEVER,
    written: u32::MAX,
};

fn none<T: Drop>(alloc: Global) -> Seq<T>
    ensures { result ≡ [] }
{
    Seq::from_vec(Vec::new(alloc))
}

fn words_of(alloc: Global, words: &[&str]) -> Result<Vec<String>, NoMemory> {
    let mut list = Vec::new(alloc);
    for word in words {
        list.push(String::from_str(alloc, word)?)?;
    }
    Ok(list)
}

/// Does what words say. Answers the status.
fn does(
    rt: &impl Wait,
    alloc: Global,
    words: &[String],
    source: &mut MemSource,
    sink: &mut MemSink,
    outside: &mut MemOutside,
) -> u8 {
    run(rt, alloc, words, source, sink, outside)
}

/// Replays a script. Answers the status, and what the sink took.
fn replayed(alloc: Global, script: &[u8], way: &Way) -> Result<(Status, Vec<u8>), NoMemory> {
    let contents = Bytes::from_vec(Vec::from_slice(alloc, script)?);
    let reads = Seq::from_vec(vec![in alloc; way.fail_read]?);
    let writes = Seq::from_vec(vec![in alloc; way.fail_write]?);
    let mut source = MemSource::new(contents, reads)?.in_pieces(way.read);
    let mut sink = MemSink::new(alloc, 200_000, writes)?.in_pieces(way.written);
    let status = replay(alloc, &mut source, &mut sink);
    Ok((status, Vec::from_slice(alloc, sink.taken())?))
}

/// Replays a script. It has to end so, and to print this.
fn prints(
    rt: &impl Abort,
    alloc: Global,
    script: &[u8],
    way: &Way,
    want: Status,
    text: &[u8],
) -> Result<(), Fail> {
    let (status, out) = replayed(alloc, script, way)?;
    assert_eq!(rt; out.as_slice(), text);
    assert_eq!(rt; status, want);
    Ok(())
}

/// Replays a good script. What it prints has to end so.
fn ends(rt: &impl Abort, alloc: Global, script: &[u8], text: &[u8]) -> Result<(), Fail> {
    let (status, out) = replayed(alloc, script, &PLAIN)?;
    assert!(rt; out.as_slice().ends_with(text));
    assert_eq!(rt; status, Status::Done);
    Ok(())
}

#[test]
fn rows_print_what_they_should(rt: HostRuntime) -> Result<(), Fail> {
    let nothing: &[u8] = b"";
    let cases = [
        (nothing, Status::Done, nothing),
        (FIRST, Status::Done, FIRST_PRINTS),
        (REFUSED, Status::Done, REFUSED_PRINTS),
        (NOT_FOUND, Status::Done, NOT_FOUND_PRINTS),
        (NO_UPGRADE, Status::Done, NO_UPGRADE_PRINTS),
        (BIND_FAILS, Status::Done, BIND_FAILS_PRINTS),
        (UNBOUND, Status::Done, UNBOUND_PRINTS),
        (DENIED, Status::Done, DENIED_PRINTS),
        (OTHER_CONTEXT, Status::Done, OTHER_CONTEXT_PRINTS),
        (UNKNOWN_CAPSULE, Status::Done, UNKNOWN_CAPSULE_PRINTS),
        (LONG_FOR_PORT, Status::Done, LONG_FOR_PORT_PRINTS),
        (LONG_FOR_UDP, Status::Done, LONG_FOR_UDP_PRINTS),
        (CUT_CAPSULE, Status::Done, CUT_CAPSULE_PRINTS),
        (LOOKALIKE, Status::Done, LOOKALIKE_PRINTS),
        (HISTORY_FULL, Status::Done, HISTORY_FULL_PRINTS),
        (PORT_FAILS, Status::Done, PORT_FAILS_PRINTS),
        (READ_FAILS, Status::Done, READ_FAILS_PRINTS),
        (WRITE_FAILS, Status::Done, WRITE_FAILS_PRINTS),
        (FULL_WORKER, Status::Done, FULL_WORKER_PRINTS),
        (BAD, Status::BadScript, BAD_PRINTS),
        (b"conn 0\n\n# said\n\n", Status::Done, nothing),
        (b"step 0", Status::Done, b"idle 0\n"),
        (
            b"step 0\nstep  0",
            Status::BadScript,
            b"idle 0\nbad line 2\n",
        ),
    ];
    for &(script, want, text) in &cases {
        prints(&rt, rt.alloc(), script, &PLAIN, want, text)?;
    }
    Ok(())
}

#[test]
fn any_cutting_prints_the_same(rt: HostRuntime) -> Result<(), Fail> {
    for read in 1..=200 {
        for &written in &[1, 7, u32::MAX] {
            let way = Way {
                fail_read: NEVER,
                read,
                fail_write: NEVER,
                written,
            };
            prints(&rt, rt.alloc(), REFUSED, &way, Status::Done, REFUSED_PRINTS)?;
        }
    }
    Ok(())
}

#[test]
fn failing_reads_end_with_what_was_played(rt: HostRuntime) -> Result<(), Fail> {
    for &(script, text) in &[
        (FIRST, FIRST_PRINTS),
        (REFUSED, REFUSED_PRINTS),
        (SESSION, SESSION_PRINTS),
    ] {
        let mut ended = Status::ReadFault;
        for fail_read in 0..400 {
            let way = Way {
                fail_read,
                read: 9,
                fail_write: NEVER,
                written: u32::MAX,
            };
            let (status, out) = replayed(rt.alloc(), script, &way)?;
            assert!(rt; text.starts_with(out.as_slice()), "read {fail_read}");
            ended = status;
            if status != Status::ReadFault {
                assert_eq!(rt; out.as_slice(), text);
                break;
            }
            assert!(rt; fail_read > 0 || out.is_empty());
        }
        assert_eq!(rt; ended, Status::Done);
    }
    Ok(())
}

#[test]
fn failing_writes_end_with_a_front(rt: HostRuntime) -> Result<(), Fail> {
    for &(script, text) in &[
        (FIRST, FIRST_PRINTS),
        (REFUSED, REFUSED_PRINTS),
        (SESSION, SESSION_PRINTS),
    ] {
        let mut ended = Status::WriteFault;
        for fail_write in 0..800 {
            let way = Way {
                fail_read: NEVER,
                read: u32::MAX,
                fail_write,
                written: 5,
            };
            let (status, out) = replayed(rt.alloc(), script, &way)?;
            assert!(rt; text.starts_with(out.as_slice()), "write {fail_write}");
            ended = status;
            if status != Status::WriteFault {
                assert_eq!(rt; out.as_slice(), text);
                break;
            }
            assert!(rt; out.len() < text.len(), "write {fail_write}");
        }
        assert_eq!(rt; ended, Status::Done);
    }
    Ok(())
}

#[test]
fn a_full_sink_ends_with_what_fits(rt: HostRuntime) -> Result<(), Fail> {
    let alloc = rt.alloc();
    for &room in &[0u32, 1, 17, 40] {
        let script = Bytes::from_vec(Vec::from_slice(alloc, FIRST)?);
        let mut source = MemSource::new(script, Seq::from_vec(Vec::new(alloc)))?;
        let mut sink = MemSink::new(alloc, room, Seq::from_vec(Vec::new(alloc)))?;
        assert_eq!(rt; replay(alloc, &mut source, &mut sink), Status::WriteFault);
        assert_eq!(rt; sink.taken().len(), room as usize);
        assert!(rt; FIRST_PRINTS.starts_with(sink.taken()), "room for {room}");
    }
    Ok(())
}

#[test]
fn one_word_is_a_command(rt: HostRuntime) -> Result<(), Fail> {
    let none: &[&str] = &[];
    let cases = [
        (none, 2, ""),
        (&["replay", "x"], 2, ""),
        (&["Replay"], 2, ""),
        (&[""], 2, ""),
        (&["replay"], 0, "idle 0\n"),
    ];
    for &(words, want, text) in &cases {
        let alloc = rt.alloc();
        let mut list = Vec::new(alloc);
        for word in words {
            list.push(String::from_str(alloc, word)?)?;
        }
        let contents = Bytes::from_vec(Vec::from_slice(alloc, b"step 0\n")?);
        let mut source = MemSource::new(contents, Seq::from_vec(Vec::new(alloc)))?.in_pieces(4);
        let mut sink = MemSink::new(alloc, 100, Seq::from_vec(Vec::new(alloc)))?.in_pieces(4);
        let status = run(
            &rt,
            alloc,
            list.as_slice(),
            &mut source,
            &mut sink,
            &mut MemOutside::nowhere(alloc),
        );
        assert_eq!(rt; status, want);
        assert_eq!(rt; sink.taken(), text.as_bytes());
    }
    Ok(())
}

#[test]
fn adapters_over_std_hand_on_each_byte(rt: HostRuntime) -> Result<(), Fail> {
    let reader = VecDeque::from(Vec::from_slice(rt.alloc(), FIRST)?);
    let mut source = StandardSource::telling(reader);
    let mut sink = MemSink::new(rt.alloc(), 10_000, Seq::from_vec(Vec::new(rt.alloc())))?;
    assert_eq!(rt; replay(rt.alloc(), &mut source, &mut sink), Status::Done);
    assert_eq!(rt; sink.taken(), FIRST_PRINTS);
    let script = Bytes::from_vec(Vec::from_slice(rt.alloc(), FIRST)?);
    let mut source = MemSource::new(script, Seq::from_vec(Vec::new(rt.alloc())))?;
    let mut sink = StandardSink::telling(VecDeque::new(rt.alloc()));
    assert_eq!(rt; replay(rt.alloc(), &mut source, &mut sink), Status::Done);
    Ok(())
}
