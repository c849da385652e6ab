//! What the first bytes of a connection ask for.
ghost use Rattle.std.specs.Prelude.{◌≡◌, ◌≤◌, ◌<◌, ◌/◌, length, IfOk, IsTrue, ◌⊎◌};
ghost use Rattle.httparse.specs.Grammar.{HasNoRequest};
ghost use Rattle.httparse.specs.Spans.{IsRequestWithin, IsRequestOf};
ghost use Rattle.mq_head.specs.Heads.{CanBecomeHead, ends_in_target, head_limit};
ghost use Rattle.mq_head.specs.Alike.{IsOpen};
ghost use Rattle.mq_head.specs.Parsed.{IsParsed, IsAnswer};

use crate::line::ends_in_target;
use crate::rules::{Asked, asked_for};
use crate::step::HeadStep;
use httparse::Status;
use httparse::spans::{EMPTY_HEADER_SPAN, HeaderSpan, RequestSpans, parse_request};
use mq_wire::{Bytes, NoMemory};
use std::alloc::Global;

/// The most bytes that a head may have, of a request and of its answer.
pub const MAX_HEAD: usize = 8192;

/// What stands at the front of the bytes.
#[derive(Clone, Copy)]
enum Parsed {
    /// A head.
    Whole(RequestSpans),
    /// No head yet.
    Open,
    /// No head, whatever follows.
    Never,
}

/// Looks for a head at the front. A field has at least three bytes, so the room serves.
fn parse(front: &[u8], headers: &mut [HeaderSpan]) -> Parsed
    requires { length front.now / 3 < length headers.old }
    ensures { IsParsed front.now headers.new result }
{
    match parse_request(front, headers) {
        Ok(Status::Complete(head)) => Parsed::Whole(head),
        Ok(Status::Partial) => Parsed::Open,
        Err(_) => Parsed::Never,
    }
}

/// The answer to a whole head of which so many bytes came with earlier pieces.
fn answer(
    alloc: Global,
    front: &[u8],
    headers: &[HeaderSpan],
    head: &RequestSpans,
    before: usize,
) -> Result<HeadStep, NoMemory>
    requires within { IsRequestWithin front.now headers.now head.now }
    requires found { IsRequestOf front.now headers.now head.now }
    requires short { length front.now ≤ head_limit }
    ensures { IfOk result (IsAnswer front.now before) }
{
    match asked_for(alloc, front, headers, head)? {
        Asked::Tunnel { kind, path } => Ok(HeadStep::Upgrade {
            kind,
            path: Bytes::from_vec(Vec::from_slice(alloc, path)?),
            used: head.len.saturating_sub(before) as u32,
        }),
        Asked::Refused { status } => Ok(HeadStep::Refuse { status }),
    }
}

/// The answer to bytes that hold no head yet: more are waited for, up to the limit.
fn without_head(front: &[u8], before: usize) -> HeadStep
    requires none { HasNoRequest front.now }
    requires goes_on { IsTrue (ends_in_target front.now) ⊎ CanBecomeHead front.now }
    ensures { IsAnswer front.now before result }
{
    if front.len() < MAX_HEAD {
        HeadStep::More
    } else {
        HeadStep::Refuse { status: 400 }
    }
}

/// Whether bytes that don't end inside the request target hold no head yet, and can become one.
pub fn is_open(alloc: Global, front: &[u8]) -> Result<bool, NoMemory>
    ensures { IfOk result (λ answer. IsTrue answer → IsOpen front.now) }
{
    if ends_in_target(front) {
        return Ok(false);
    }
    let mut room = vec![in alloc; EMPTY_HEADER_SPAN; front.len() / 3 + 1]?;
    let headers = room.as_mut_slice();
    match parse(front, headers) {
        Parsed::Open => Ok(true),
        Parsed::Whole(_) => Ok(false),
        Parsed::Never => Ok(false),
    }
}

/// The answer to the first bytes of a connection, of which so many came with earlier pieces.
pub fn decide(alloc: Global, front: &[u8], before: usize) -> Result<HeadStep, NoMemory>
    requires { length front.now ≤ head_limit }
    ensures { IfOk result (IsAnswer front.now before) }
{
    if ends_in_target(front) {
        return Ok(without_head(front, before));
    }
    let mut room = vec![in alloc; EMPTY_HEADER_SPAN; front.len() / 3 + 1]?;
    let headers = room.as_mut_slice();
    match parse(front, headers) {
        Parsed::Whole(head) => answer(alloc, front, headers, &head, before),
        Parsed::Open => Ok(without_head(front, before)),
        Parsed::Never => Ok(HeadStep::Refuse { status: 400 }),
    }
}
