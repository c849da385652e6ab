//! Flags (RFC 9113, section 6) and error codes (section 7) that frames and their faults have.

/// A frame that isn't allowed where it stands, or has a value that isn't allowed.
pub const PROTOCOL_ERROR: u32 = 1;
/// A window above 2^31 - 1.
pub const FLOW_CONTROL_ERROR: u32 = 3;
/// A frame of a length that its type can't have.
pub const FRAME_SIZE_ERROR: u32 = 6;

/// The last frame that its sender sends on the stream.
pub const END_STREAM: u8 = 0x1;
/// SETTINGS or PING that answers one.
pub const ACK: u8 = 0x1;
/// The last frame of a header block.
pub const END_HEADERS: u8 = 0x4;
/// The contents begin with a Pad Length and end with padding.
pub const PADDED: u8 = 0x8;
/// HEADERS with the five bytes of a priority before the block.
pub const PRIORITY: u8 = 0x20;

/// The largest contents of a frame, without a setting that allows more (RFC 9113, section 4.2).
pub const MAX_FRAME_SIZE: u32 = 16_384;
