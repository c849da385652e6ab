//! The word `soak`: scripts are played, and what happens is counted.

use super::NEVER;
use super::generated::done;
use std::test::Fail;

/// Each packet of the script has its way: those to a client are queued there and delivered, and those to the host, of which a
/// program counted 5 that was written from docs/generator.md, are sent and answered, and the answers delivered. The history has
/// the openings of four tunnels and their four addresses.
const OF_7_AND_20: &[u8] =
    b"passed 25\npushed 25\nsent 5\nqueued 20\ndelivered 20\ndropped 0\nhistory 8\n";

#[test]
fn a_generated_script_is_counted(rt: HostRuntime) -> Result<(), Fail> {
    for &written in &[1, 7, u32::MAX] {
        let (status, text) = done(&rt, rt.alloc(), &["soak", "7", "20"], 1_000, NEVER, written)?;
        assert_eq!(rt; text.as_slice(), OF_7_AND_20);
        assert_eq!(rt; status, 0);
    }
    Ok(())
}

#[test]
fn words_have_limits(rt: HostRuntime) -> Result<(), Fail> {
    let cases: [&[&str]; 7] = [
        &["soak", "7", "50001"],
        &["soak", "7", "0"],
        &["soak", "18446744073709551616", "1"],
        &["soak", "07", "1"],
        &["soak", "7"],
        &["soak"],
        &["Soak", "7", "1"],
    ];
    for &words in &cases {
        let (status, text) = done(&rt, rt.alloc(), words, 1_000, NEVER, u32::MAX)?;
        assert_eq!(rt; status, 2);
        assert!(rt; text.is_empty());
    }
    Ok(())
}

#[test]
fn a_failing_sink_has_a_front(rt: HostRuntime) -> Result<(), Fail> {
    for &fail_write in &[0, 1, 9] {
        let (status, text) = done(&rt, rt.alloc(), &["soak", "7", "20"], 1_000, fail_write, 5)?;
        assert!(rt;
            OF_7_AND_20.starts_with(text.as_slice()),
            "write {fail_write}"
        );
        assert_eq!(rt; text.len() as u64, 5 * fail_write);
        assert_eq!(rt; status, 4);
    }
    Ok(())
}
