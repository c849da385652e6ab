//! Heads with their answers: from the RFCs, from the rules read by hand, and from other parsers' tests.
use mq_head::*;
use std::alloc::Global;
use std::process::Abort;
use std::test::Fail;

mod answers;
mod cuts;
mod heads;
mod limits;
mod others;
mod pieces;

/// What an answer has to be.
#[derive(Clone, Copy)]
enum Want {
    More,
    Udp(&'static [u8]),
    Ip(&'static [u8]),
    Refused(u16),
}

fn is_wanted(step: &HeadStep, want: Want) -> bool {
    match (step, want) {
        (HeadStep::More, Want::More) => true,
        (HeadStep::Refuse { status }, Want::Refused(wanted)) => *status == wanted,
        (HeadStep::Upgrade { kind, path, .. }, Want::Udp(wanted)) => {
            *kind == Kind::Udp && path.as_slice() == wanted
        }
        (HeadStep::Upgrade { kind, path, .. }, Want::Ip(wanted)) => {
            *kind == Kind::Ip && path.as_slice() == wanted
        }
        _ => false,
    }
}

/// The last answer to these bytes in pieces of this size, and how many bytes of them belong to a head.
fn answer(alloc: Global, bytes: &[u8], size: usize) -> Result<(HeadStep, usize), Fail> {
    let mut reader = HeadReader::new();
    let mut before = 0usize;
    for piece in bytes.chunks(size.max(1)) {
        let step = reader.feed(alloc, piece)?;
        match &step {
            HeadStep::More => before = before.saturating_add(piece.len()),
            HeadStep::Upgrade { used, .. } => {
                let all = before.saturating_add(*used as usize);
                return Ok((step, all));
            }
            HeadStep::Refuse { .. } => return Ok((step, before)),
        }
    }
    Ok((HeadStep::More, before))
}

/// Each of the bytes has its answer, in one piece and in small ones; a head that asks for a tunnel has no bytes behind.
fn all_hold(rt: &impl Abort, alloc: Global, cases: &[(&'static [u8], Want)]) -> Result<(), Fail> {
    for (bytes, want) in cases {
        for &size in &[1usize, 7, 8192] {
            holds(rt, alloc, bytes, *want, size)?;
        }
    }
    Ok(())
}

fn holds(
    rt: &impl Abort,
    alloc: Global,
    bytes: &[u8],
    want: Want,
    size: usize,
) -> Result<(), Fail> {
    let (step, used) = answer(alloc, bytes, size)?;
    assert!(rt; is_wanted(&step, want), "{bytes:?} in pieces of {size}");
    if matches!(&step, HeadStep::Upgrade { .. }) {
        assert!(rt; used == bytes.len(), "{bytes:?} in pieces of {size}");
    }
    Ok(())
}
