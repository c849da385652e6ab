//! What a whole head asks for: a tunnel, or the refusal of the first rule that it breaks.
ghost use Rattle.std.specs.Prelude.{◌≡◌, ◌≤◌, length, option_map, Some, IfOk};
ghost use Rattle.httparse.specs.Grammar.{RequestHead};
ghost use Rattle.httparse.specs.Spans.{IsWithin, span_bytes, IsRequestWithin, IsRequestAt, IsRequestOf};
ghost use Rattle.mq_head.specs.Heads.{head_limit};
ghost use Rattle.mq_head.specs.Rules.{fields_of, is_upgrade, with_path, for_kind, asked};
ghost use Rattle.mq_head.specs.Kept.{Keeps};
ghost use Rattle.mq_head.specs.Parsed.{meaning, IsSoundAs};

use crate::fields::Fields;
use crate::target::path_of;
use httparse::spans::{HeaderSpan, RequestSpans};
use mq_addr::Kind;
use mq_wire::NoMemory;
use std::alloc::Global;

/// The most fields that a head may have.
const MAX_FIELDS: usize = 64;

/// What a whole head asks for.
#[derive(Clone, Copy)]
pub enum Asked<'b> {
    /// A tunnel, with path and query of the request target.
    Tunnel { kind: Kind, path: &'b [u8] },
    /// A refusal with this status.
    Refused { status: u16 },
}

/// Whether a request for an upgrade is well-formed but for its target.
#[tactic(auto, unfolding(crate::specs::Rules::is_upgrade))]
fn is_upgrade(method: &[u8], fields: &Fields) -> bool
    ensures { (h : RequestHead) → method.now ≡ h.method → Keeps fields.now (fields_of h) → result ≡ is_upgrade h }
{
    if method != b"GET".as_slice() {
        return false;
    }
    if fields.connection_upgrades() {
        !fields.has_content()
    } else {
        false
    }
}

/// The fields of a head that keeps the general rules of HTTP/1.1, and else None.
#[tactic(auto, unfolding(crate::specs::Rules::is_sound))]
fn sound_fields(
    alloc: Global,
    buf: &[u8],
    headers: &[HeaderSpan],
    head: &RequestSpans,
) -> Result<Option<Fields>, NoMemory>
    requires within { IsRequestWithin buf.now headers.now head.now }
    requires found { IsRequestOf buf.now headers.now head.now }
    requires short { length buf.now ≤ head_limit }
    ensures { IfOk result (λ found. (h : RequestHead) → IsRequestAt buf.now headers.now head.now h → IsSoundAs h found) }
{
    if head.headers > MAX_FIELDS {
        return Ok(None);
    }
    if head.version != 1 {
        return Ok(None);
    }
    let fields = Fields::of(alloc, buf, &headers[..head.headers])?;
    if fields.hosts() == 1 {
        Ok(Some(fields))
    } else {
        Ok(None)
    }
}

/// A tunnel of this kind, where there is a path.
fn with_path(kind: Kind, path: Option<&[u8]>) -> Asked<'_>
    ensures { meaning result ≡ with_path kind (option_map (λ p. p.now) path.entry) }
{
    match path {
        Some(path) => Asked::Tunnel { kind, path },
        None => Asked::Refused { status: 400 },
    }
}

/// What a request for a tunnel of this kind asks for.
fn for_kind<'b>(buf: &'b [u8], head: &RequestSpans, fields: &Fields, kind: Kind) -> Asked<'b>
    requires method { IsWithin (length buf.now) head.now.method }
    requires path { IsWithin (length buf.now) head.now.path }
    ensures { (h : RequestHead) → span_bytes buf.now head.now.method ≡ h.method → span_bytes buf.now head.now.path ≡ h.target
        → Keeps fields.now (fields_of h) → meaning result ≡ for_kind h (Some kind) }
{
    if is_upgrade(head.method.of(buf), fields) {
        with_path(kind, path_of(head.path.of(buf)))
    } else {
        Asked::Refused { status: 400 }
    }
}

/// What a head asks for, whose parts were found in `buf`.
#[tactic(auto, unfolding(crate::specs::Rules::asked))]
pub fn asked_for<'b>(
    alloc: Global,
    buf: &'b [u8],
    headers: &[HeaderSpan],
    head: &RequestSpans,
) -> Result<Asked<'b>, NoMemory>
    requires within { IsRequestWithin buf.now headers.now head.now }
    requires found { IsRequestOf buf.now headers.now head.now }
    requires short { length buf.now ≤ head_limit }
    ensures { IfOk result (λ a. (h : RequestHead) → IsRequestAt buf.now headers.now head.now h → meaning a ≡ asked h) }
{
    let Some(fields) = sound_fields(alloc, buf, headers, head)? else {
        return Ok(Asked::Refused { status: 400 });
    };
    match fields.upgrade_kind() {
        Some(kind) => Ok(for_kind(buf, head, &fields, kind)),
        None => Ok(Asked::Refused { status: 501 }),
    }
}
