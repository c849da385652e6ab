//! What the first bytes of the proxy answer.
ghost use Rattle.std.specs.Prelude.{◌≤◌, ◌<◌, ◌/◌, ℕ, List, length, IfOk};
ghost use Rattle.httparse.specs.Grammar.{HasNoResponse, MayBecomeResponse};
ghost use Rattle.httparse.specs.Spans.{IsResponseWithin, IsResponseOf};
ghost use Rattle.httparse.specs.declared.spans.HeaderSpan.{HeaderSpan as Header};
ghost use Rattle.mq_head.specs.Heads.{head_limit};
ghost use Rattle.mq_client.specs.Answers.{IsParsed, IsDecided};

use crate::answer::Answer;
use httparse::Status;
use httparse::spans::{EMPTY_HEADER_SPAN, HeaderSpan, ResponseSpans, parse_response};
use mq_head::MAX_HEAD;
use mq_wire::NoMemory;
use std::alloc::Global;

/// The most fields that a head may have.
const MAX_FIELDS: usize = 64;

/// The status that opens a tunnel (RFC 9298, section 3.3).
const SWITCHING_PROTOCOLS: u16 = 101;

/// What stands at the front of the bytes.
#[derive(Clone, Copy)]
enum Parsed {
    /// A head.
    Whole(ResponseSpans),
    /// No head yet.
    Open,
    /// No head, whatever follows.
    Never,
}

/// Looks for a head at the front. A field has at least three bytes, so the room serves.
fn parse(front: &[u8], headers: &mut [HeaderSpan]) -> Parsed
    requires { length front.now / 3 < length headers.old }
    ensures { IsParsed front.now headers.new result }
{
    match parse_response(front, headers) {
        Ok(Status::Complete(head)) => Parsed::Whole(head),
        Ok(Status::Partial) => Parsed::Open,
        Err(_) => Parsed::Never,
    }
}

/// What a whole head answers of which so many bytes came with earlier pieces.
fn answer_of(head: &ResponseSpans, before: usize) -> Answer
    ensures { (front : List ℕ) (headers : List Header) → IsResponseWithin front headers head.now → IsResponseOf front headers head.now
        → length front ≤ head_limit → IsDecided front before result }
{
    if head.headers > MAX_FIELDS {
        return Answer::Bad;
    }
    if head.code != SWITCHING_PROTOCOLS {
        return Answer::Status { status: head.code };
    }
    Answer::Switched {
        used: head.len.saturating_sub(before),
    }
}

/// What bytes answer that hold no head yet: more are waited for, up to the limit.
fn without_head(front: &[u8], before: usize) -> Answer
    ensures { HasNoResponse front.now → MayBecomeResponse front.now → IsDecided front.now before result }
{
    if front.len() < MAX_HEAD {
        Answer::More
    } else {
        Answer::Bad
    }
}

/// What the first bytes of the proxy answer, of which so many came with earlier pieces.
pub fn decide(alloc: Global, front: &[u8], before: usize) -> Result<Answer, NoMemory>
    ensures { IfOk result (λ answer. length front.now ≤ head_limit → IsDecided front.now before answer) }
{
    let mut room = vec![in alloc; EMPTY_HEADER_SPAN; front.len() / 3 + 1]?;
    match parse(front, room.as_mut_slice()) {
        Parsed::Whole(head) => Ok(answer_of(&head, before)),
        Parsed::Open => Ok(without_head(front, before)),
        Parsed::Never => Ok(Answer::Bad),
    }
}
