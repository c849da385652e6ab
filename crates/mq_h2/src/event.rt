//! What the frames of a read say to the server.
use mq_hpack::Field;
use mq_wire::{Bytes, Seq};

/// What happened on a stream, or to the connection.
#[derive(Drop)]
pub enum StreamEvent {
    /// A request that isn't malformed. `end`: the client has ended its side.
    Request {
        stream: u32,
        fields: Seq<Field>,
        end: bool,
    },
    /// An error of the stream, for which it was reset.
    Malformed {
        stream: u32,
        code: u32,
    },
    /// Contents of a live stream. `length` is what its windows count.
    Content {
        stream: u32,
        bytes: Bytes,
        length: u32,
        end: bool,
    },
    /// The client reset a live stream.
    Reset {
        stream: u32,
        code: u32,
    },
    /// An error of the connection. Nothing follows it.
    ConnectionError {
        code: u32,
    },
}
