//! The frames whose contents are one or two numbers (RFC 9113, sections 6.4, 6.7, 6.8 and 6.9).
ghost use Rattle.std.specs.Prelude.{◌≡◌};
ghost use Rattle.mq_frame.specs.declared.kind.Kind.TheVariants as kinds;
ghost use Rattle.mq_frame.specs.Table.{judged};

use super::codes::{ACK, FRAME_SIZE_ERROR, PROTOCOL_ERROR};
use super::frame::Frame;
use super::header::Header;

/// Without the reserved bit.
const STREAM_LIMIT: u32 = 0x8000_0000;

/// A RST_STREAM frame, or its error.
#[tactic(auto, unfolding(crate::specs::Table::judged))]
pub fn reset(header: Header, contents: &[u8]) -> Frame
    ensures { result ≡ judged kinds.Reset header contents.now }
{
    match contents {
        [a, b, c, d] => Frame::Reset {
            stream: header.stream,
            code: u32::from_be_bytes([*a, *b, *c, *d]),
        },
        _ => Frame::Fault {
            code: FRAME_SIZE_ERROR,
        },
    }
}

/// A PING frame, or its error.
#[tactic(auto, unfolding(crate::specs::Table::judged))]
pub fn ping(header: Header, contents: &[u8]) -> Frame
    ensures { result ≡ judged kinds.Ping header contents.now }
{
    match contents {
        [a, b, c, d, e, f, g, h] => Frame::Ping {
            ack: header.has(ACK),
            bytes: u64::from_be_bytes([*a, *b, *c, *d, *e, *f, *g, *h]),
        },
        _ => Frame::Fault {
            code: FRAME_SIZE_ERROR,
        },
    }
}

/// A GOAWAY frame, or its error. The debug data at its end is read past.
#[tactic(auto, unfolding(crate::specs::Table::judged))]
pub fn goaway(header: Header, contents: &[u8]) -> Frame
    ensures { result ≡ judged kinds.GoAway header contents.now }
{
    match contents {
        [a, b, c, d, e, f, g, h, ..] => Frame::GoAway {
            last: u32::from_be_bytes([*a, *b, *c, *d]) % STREAM_LIMIT,
            code: u32::from_be_bytes([*e, *f, *g, *h]),
        },
        _ => Frame::Fault {
            code: FRAME_SIZE_ERROR,
        },
    }
}

/// A WINDOW_UPDATE frame, or its error. For a stream a growth of 0 is none of the connection's errors.
#[tactic(auto, unfolding(crate::specs::Table::judged))]
pub fn window(header: Header, contents: &[u8]) -> Frame
    ensures { result ≡ judged kinds.Window header contents.now }
{
    match contents {
        [a, b, c, d] => {
            let grow = u32::from_be_bytes([*a, *b, *c, *d]) % STREAM_LIMIT;
            if grow == 0 && header.stream == 0 {
                Frame::Fault {
                    code: PROTOCOL_ERROR,
                }
            } else {
                Frame::Window {
                    stream: header.stream,
                    grow,
                }
            }
        }
        _ => Frame::Fault {
            code: FRAME_SIZE_ERROR,
        },
    }
}
