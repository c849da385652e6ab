//! A request and its capsules, cut at each byte.

use super::{REQUEST, WILLING, told};
use std::alloc::Global;
use std::test::Fail;

/// A payload, one of another context, an unknown capsule and another payload.
const CAPSULES: &[u8] = &[
    0, 3, 0, 0x68, 0x69, 0, 2, 1, 0x61, 0x29, 2, 7, 7, 0, 0x40, 2, 0, 0x62,
];

const WANT: &str =
    "ported 0 0\nopened 0 0 0 udp\nsent 0 0 6869\ndropped 0 1 UnknownContext\nsent 0 2 62\nclosed 0 End left 0\nended Done\n";

/// What is done with these pieces and then the end, but for what is written.
fn done(alloc: Global, pieces: &[&[u8]]) -> Result<String, Fail> {
    let told = told(alloc, WILLING, pieces, true)?;
    without_written(alloc, told.as_str())
}

fn without_written(alloc: Global, told: &str) -> Result<String, Fail> {
    let mut text = String::new(alloc);
    for line in told.lines() {
        if !line.starts_with("wrote") {
            text.push_str(line)?;
            text.push_str("\n")?;
        }
    }
    Ok(text)
}

#[test]
fn cut_in_two(rt: HostRuntime) -> Result<(), Fail> {
    let mut bytes = Vec::from_slice(rt.alloc(), REQUEST)?;
    bytes.extend_from_slice(CAPSULES)?;
    assert_eq!(rt; done(rt.alloc(), &[bytes.as_slice()])?.as_str(), WANT);
    for cut in 1..bytes.len() {
        let (front, back) = bytes.as_slice().split_at(cut);
        let text = done(rt.alloc(), &[front, back])?;
        assert!(rt; text.as_str() == WANT, "cut at {cut}");
    }
    Ok(())
}

#[test]
fn capsules_byte_by_byte(rt: HostRuntime) -> Result<(), Fail> {
    let mut pieces = Vec::new(rt.alloc());
    pieces.push(REQUEST)?;
    for piece in CAPSULES.chunks(1) {
        pieces.push(piece)?;
    }
    let text = done(rt.alloc(), pieces.as_slice())?;
    assert_eq!(rt; text.as_str(), WANT);
    Ok(())
}
