//! What a reader of heads answers.

use mq_addr::Kind;
use mq_wire::Bytes;

/// What the bytes so far ask for.
#[derive(Drop)]
pub enum HeadStep {
    /// Nothing is decided yet.
    More,
    /// A tunnel. `path` has path and query of the request target; `used` counts the bytes of the last piece that
    /// belong to the head.
    Upgrade { kind: Kind, path: Bytes, used: u32 },
    /// A refusal with status 400 or 501.
    Refuse { status: u16 },
}
