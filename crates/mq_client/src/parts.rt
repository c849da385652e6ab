//! What a client over HTTP/2 keeps beside its reader of frames.
use crate::block::OpenBlock;
use crate::queue::Queue;
use crate::stage::Stage;
use mq_hpack::Decoder;
use mq_streams::Streams;

/// The only stream of a client, which its request begins.
pub const STREAM: u32 = 1;

#[derive(Drop)]
pub struct Parts {
    /// The table of the proxy's header blocks.
    pub decoder: Decoder,
    /// The windows of the stream and of the connection.
    pub streams: Streams,
    /// The header block that isn't whole.
    pub block: Option<OpenBlock>,
    pub stage: Stage,
    /// The bytes of capsules that aren't framed yet.
    pub waits: Queue,
    /// The bytes that are to be written.
    pub owed: Queue,
}
