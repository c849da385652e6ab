//! Frames, as they are given out and written.

use mq_wire::{Bytes, Seq};

/// One setting of a SETTINGS frame (RFC 9113, section 6.5.1), known or not.
#[derive(Clone, Copy, Debug, PartialEq, Eq)]
pub struct Setting {
    pub id: u16,
    pub value: u32,
}

/// A frame without its padding and its priority, or the connection error in its place.
#[derive(Drop)]
pub enum Frame {
    /// DATA. `length` is that of all its contents, with the Pad Length and the padding, as windows count it.
    Content {
        stream: u32,
        bytes: Bytes,
        length: u32,
        end: bool,
    },
    /// HEADERS: the first part of a header block, all of it where `whole`.
    Headers {
        stream: u32,
        block: Bytes,
        end: bool,
        whole: bool,
    },
    /// CONTINUATION: a further part of a header block, the last where `whole`.
    Continuation {
        stream: u32,
        block: Bytes,
        whole: bool,
    },
    /// PRIORITY, of any length. What it says is read past.
    Priority {
        stream: u32,
    },
    /// RST_STREAM.
    Reset {
        stream: u32,
        code: u32,
    },
    /// SETTINGS, with the unknown ones too.
    Settings {
        ack: bool,
        pairs: Seq<Setting>,
    },
    /// PING. The eight bytes are one number, the highest byte first.
    Ping {
        ack: bool,
        bytes: u64,
    },
    /// GOAWAY. Its debug data is read past.
    GoAway {
        last: u32,
        code: u32,
    },
    /// WINDOW_UPDATE.
    Window {
        stream: u32,
        grow: u32,
    },
    /// A frame of an unknown type, which is read past.
    Unknown {
        kind: u8,
        stream: u32,
    },
    /// A connection error with its code (RFC 9113, section 7). No frame follows it.
    Fault {
        code: u32,
    },
}
