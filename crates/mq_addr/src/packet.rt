//! What is read of an IP packet's headers, and why a packet isn't taken.

use super::range::Flow;
use thiserror::Error;

/// What the headers of a packet say.
#[derive(Clone, Copy, Debug, PartialEq, Eq)]
pub struct IpView {
    /// 4 or 6.
    pub version: u8,
    /// The ends, and the protocol behind the extension headers that were walked.
    pub flow: Flow,
    /// The Time to Live or the Hop Limit.
    pub hop: u8,
    /// The bytes of the IPv4 header with its options, or of the IPv6 header and the extension headers that were walked.
    pub header: u16,
    /// The bytes of the packet.
    pub length: u32,
}

/// Why a packet isn't taken. Where several causes hold, the first that the definition lists is told.
#[derive(Clone, Copy, Debug, PartialEq, Eq, Error)]
pub enum HeaderFault {
    /// No byte, or fewer than the fixed header has.
    #[error("the packet is shorter than its fixed header")]
    Short,
    /// Neither 4 nor 6.
    #[error("the version is neither 4 nor 6")]
    Version,
    /// The length that the header says isn't the packet's.
    #[error("the length that the header says isn't the packet's")]
    Length,
    /// The IPv4 header says fewer than 20 bytes of itself, or more than are there.
    #[error("the IPv4 header says a wrong length of itself")]
    HeaderLength,
    /// The ones' complement sum of the IPv4 header isn't `ffff`.
    #[error("the checksum of the IPv4 header is wrong")]
    Checksum,
    /// The source or the target isn't the address of one host elsewhere.
    #[error("an address isn't that of one host elsewhere")]
    Address,
    /// An IPv6 extension header doesn't fit, or is one too many.
    #[error("an IPv6 extension header doesn't fit, or is one too many")]
    Extensions,
}
