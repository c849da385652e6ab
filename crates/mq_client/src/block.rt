//! A header block whose last frame wasn't met.
use mq_wire::Bytes;

/// The bytes of a header block so far.
#[derive(Drop)]
pub struct OpenBlock {
    /// END_STREAM was set.
    pub end: bool,
    pub bytes: Bytes,
}
