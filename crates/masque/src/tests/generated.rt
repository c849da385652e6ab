//! The word `gen`: scripts are printed.

use super::{NEVER, PLAIN, does, replayed, words_of};
use mq_mem::{MemOutside, MemSink, MemSource};
use mq_replay::Status;
use mq_wire::{Bytes, NoMemory, Seq};
use std::alloc::Global;
use std::sync::Wait;
use std::test::Fail;

/// The script that 7 makes with one packet, as a program prints it that was written from docs/generator.md.
const ONE: &[u8] =
    b"workers 2\npool 10.0.0.0/16\nroute 0.0.0.0 255.255.255.255 0\nhost 203.0.113.5\nconn 0\nconn 1\nconn 0\nconn 1\ntext 0 GET /.well-known/masque/ip/*/*/ HTTP/1.1\\r\\nHost: p\\r\\nConnection: Upgrade\\r\\nUpgrade: connect-ip\\r\\n\\r\\n\nbytes 0 020701040a00000020\ntext 1 GET /.well-known/masque/ip/*/*/ HTTP/1.1\\r\\nHost: p\\r\\nConnection: Upgrade\\r\\nUpgrade: connect-ip\\r\\n\\r\\n\nbytes 1 020701040a00000120\ntext 2 GET /.well-known/masque/ip/*/*/ HTTP/1.1\\r\\nHost: p\\r\\nConnection: Upgrade\\r\\nUpgrade: connect-ip\\r\\n\\r\\n\nbytes 2 020701040a00000220\ntext 3 GET /.well-known/masque/ip/*/*/ HTTP/1.1\\r\\nHost: p\\r\\nConnection: Upgrade\\r\\nUpgrade: connect-ip\\r\\n\\r\\n\nbytes 3 020701040a00000320\nrun 1000\nbytes 0 0024004500002300000000401134c50a000000cb0071050fa00007000f000000000000000000\nstep 1 2\nrun 1000000\n";

/// The last lines of the one with 2,000 packets, which has 175,843 bytes.
const LAST_OF_2000: &[u8] =
    b"bytes 1 001e004500001d00000000401134ca0a000001cb0071050fa0000700090000cf\nstep net 2\nrun 1000000\n";

/// Does what words say, over a source with a script and a sink with so much room, of which one write fails and each takes at
/// most so many bytes. Answers the status and what the sink took.
pub fn done(
    rt: &impl Wait,
    alloc: Global,
    words: &[&str],
    room: u32,
    fail_write: u64,
    written: u32,
) -> Result<(u8, Vec<u8>), NoMemory> {
    let list = words_of(alloc, words)?;
    let script = Bytes::from_vec(Vec::from_slice(alloc, b"step 0\n")?);
    let mut source = MemSource::new(script, Seq::from_vec(Vec::new(alloc)))?;
    let writes = Seq::from_vec(vec![in alloc; fail_write]?);
    let mut sink = MemSink::new(alloc, room, writes)?.in_pieces(written);
    let mut outside = MemOutside::nowhere(alloc);
    let status = does(
        rt,
        alloc,
        list.as_slice(),
        &mut source,
        &mut sink,
        &mut outside,
    );
    Ok((status, Vec::from_slice(alloc, sink.taken())?))
}

#[test]
fn a_seed_and_a_count_make_a_script(rt: HostRuntime) -> Result<(), Fail> {
    for &written in &[1, 7, u32::MAX] {
        let (status, text) = done(&rt, rt.alloc(), &["gen", "7", "1"], 1_000, NEVER, written)?;
        assert_eq!(rt; text.as_slice(), ONE);
        assert_eq!(rt; status, 0);
    }
    let words = ["gen", "7", "2000"];
    let (status, text) = done(&rt, rt.alloc(), &words, 200_000, NEVER, u32::MAX)?;
    assert_eq!(rt; text.len(), 175_843);
    assert!(rt; text.ends_with(LAST_OF_2000));
    assert_eq!(rt; status, 0);
    Ok(())
}

#[test]
fn a_printed_script_is_played(rt: HostRuntime) -> Result<(), Fail> {
    let (_, script) = done(&rt, rt.alloc(), &["gen", "7", "1"], 1_000, NEVER, u32::MAX)?;
    let (status, _) = replayed(rt.alloc(), script.as_slice(), &PLAIN)?;
    assert_eq!(rt; status, Status::Done);
    Ok(())
}

#[test]
fn seeds_and_counts_have_limits(rt: HostRuntime) -> Result<(), Fail> {
    let cases: [(&[&str], u8, usize); 18] = [
        (&["gen", "0", "1"], 0, 773),
        (&["gen", "18446744073709551615", "1"], 0, 765),
        (&["gen", "7", "50000"], 0, 4_382_653),
        (&["gen", "7", "50001"], 2, 0),
        (&["gen", "7", "0"], 2, 0),
        (&["gen", "18446744073709551616", "1"], 2, 0),
        (&["gen", "x", "1"], 2, 0),
        (&["gen", "", "1"], 2, 0),
        (&["gen", "07", "1"], 2, 0),
        (&["gen", "7", "01"], 2, 0),
        (&["gen", "+7", "1"], 2, 0),
        (&["gen", "-7", "1"], 2, 0),
        (&["gen", "7", "1 "], 2, 0),
        (&["gen", "7"], 2, 0),
        (&["gen"], 2, 0),
        (&["gen", "7", "1", "1"], 2, 0),
        (&["Gen", "7", "1"], 2, 0),
        (&["replay", "7", "1"], 2, 0),
    ];
    for &(words, want, length) in &cases {
        let (status, text) = done(&rt, rt.alloc(), words, 5_000_000, NEVER, u32::MAX)?;
        assert_eq!(rt; status, want);
        assert_eq!(rt; text.len(), length);
    }
    Ok(())
}

#[test]
fn a_failing_sink_has_a_front(rt: HostRuntime) -> Result<(), Fail> {
    for &fail_write in &[0, 1, 77, 155] {
        let (status, text) = done(&rt, rt.alloc(), &["gen", "7", "1"], 1_000, fail_write, 5)?;
        assert!(rt; ONE.starts_with(text.as_slice()), "write {fail_write}");
        assert_eq!(rt; text.len() as u64, 5 * fail_write);
        assert_eq!(rt; status, 4);
    }
    let (status, text) = done(
        &rt,
        rt.alloc(),
        &["gen", "7", "2000"],
        100_000,
        NEVER,
        u32::MAX,
    )?;
    assert_eq!(rt; text.len(), 100_000);
    assert!(rt; text.starts_with(ONE.split_at(600).0));
    assert_eq!(rt; status, 4);
    Ok(())
}
