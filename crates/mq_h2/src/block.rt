//! A header block whose last frame wasn't met.
use mq_streams::Began;
use mq_wire::Bytes;

/// The bytes of a header block so far, with what its HEADERS said and began.
#[derive(Drop)]
pub struct OpenBlock {
    pub stream: u32,
    pub began: Began,
    /// END_STREAM was set.
    pub end: bool,
    pub bytes: Bytes,
}
