//! The limits of a line and of a script.

use super::{NEVER, PLAIN, Way, prints};
use mq_replay::Status;
use std::alloc::{AllocError, Global};
use std::test::Fail;

/// A comment of so many bytes.
fn comment(alloc: Global, length: usize) -> Result<Vec<u8>, AllocError> {
    vec![in alloc; b'#'; length]
}

#[test]
fn a_line_has_at_most_200000_bytes(rt: HostRuntime) -> Result<(), Fail> {
    let nothing: &[u8] = b"";
    let cases = [
        (200_000, Status::Done, nothing),
        (200_001, Status::BadScript, b"bad line 1\n"),
    ];
    for &(length, want, text) in &cases {
        for &read in &[4_096, u32::MAX] {
            let way = Way {
                fail_read: NEVER,
                read,
                fail_write: NEVER,
                written: u32::MAX,
            };
            let mut script = comment(rt.alloc(), length)?;
            prints(&rt, rt.alloc(), script.as_slice(), &way, want, text)?;
            script.push(b'\n')?;
            prints(&rt, rt.alloc(), script.as_slice(), &way, want, text)?;
        }
    }
    Ok(())
}

/// A script of 335 comments, together 67,000,335 bytes, and one of so many more.
fn long_script(alloc: Global, last: usize) -> Result<Vec<u8>, AllocError> {
    let mut line = comment(alloc, 200_000)?;
    line.push(b'\n')?;
    let mut script = Vec::with_capacity(alloc, 67_108_865)?;
    for _ in 0..335 {
        script.extend_from_slice(line.as_slice())?;
    }
    script.extend_from_slice(comment(alloc, last)?.as_slice())?;
    Ok(script)
}

#[test]
fn byte_67108865_makes_its_line_bad(rt: HostRuntime) -> Result<(), Fail> {
    let script = long_script(rt.alloc(), 108_530)?;
    let want = b"bad line 336\n".as_slice();
    prints(
        &rt,
        rt.alloc(),
        script.as_slice(),
        &PLAIN,
        Status::BadScript,
        want,
    )
}

#[test]
fn byte_67108865_may_be_a_newline(rt: HostRuntime) -> Result<(), Fail> {
    let mut script = long_script(rt.alloc(), 108_529)?;
    script.push(b'\n')?;
    let want = b"bad line 336\n".as_slice();
    prints(
        &rt,
        rt.alloc(),
        script.as_slice(),
        &PLAIN,
        Status::BadScript,
        want,
    )
}
