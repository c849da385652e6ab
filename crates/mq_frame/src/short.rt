//! The bytes of short frames, as arrays, which take no memory (RFC 9113, sections 4.1 and 6).
ghost use Rattle.std.specs.Prelude.{◌≡◌, ◌++◌, [], true};
ghost use Rattle.std.specs.Int.{w32, to_be_bytes};
ghost use Rattle.mq_frame.specs.declared.frame.Frame.TheVariants.{Content, Reset, Settings, Ping, GoAway, Window};
ghost use Rattle.mq_frame.specs.Header.{header_text};
ghost use Rattle.mq_frame.specs.Writing.{spelling_of};

use super::codes::{ACK, END_STREAM};
use super::header::{flag, header_bytes};
use super::kind::Kind;

/// RST_STREAM.
#[tactic(auto, unfolding(crate::specs::Writing::spelling_of))]
pub fn reset_text(stream: u32, code: u32) -> [u8; 13]
    ensures { result ≡ spelling_of (Reset stream code) }
{
    with_number(Kind::Reset, stream, code)
}

/// WINDOW_UPDATE.
#[tactic(auto, unfolding(crate::specs::Writing::spelling_of))]
pub fn window_text(stream: u32, grow: u32) -> [u8; 13]
    ensures { result ≡ spelling_of (Window stream grow) }
{
    with_number(Kind::Window, stream, grow)
}

/// GOAWAY.
#[tactic(auto, unfolding(crate::specs::Writing::spelling_of))]
pub fn goaway_text(last: u32, code: u32) -> [u8; 17]
    ensures { result ≡ spelling_of (GoAway last code) }
{
    let [a, b, c, d, e, f, g, h, i] = header_bytes(8, Kind::GoAway, 0, 0);
    let [j, k, l, m] = last.to_be_bytes();
    let [n, o, p, q] = code.to_be_bytes();
    [a, b, c, d, e, f, g, h, i, j, k, l, m, n, o, p, q]
}

/// PING, or the answer to one.
#[tactic(auto, unfolding(crate::specs::Writing::spelling_of))]
pub fn ping_text(ack: bool, bytes: u64) -> [u8; 17]
    ensures { result ≡ spelling_of (Ping ack bytes) }
{
    let [a, b, c, d, e, f, g, h, i] = header_bytes(8, Kind::Ping, flag(ack, ACK), 0);
    let [j, k, l, m, n, o, p, q] = bytes.to_be_bytes();
    [a, b, c, d, e, f, g, h, i, j, k, l, m, n, o, p, q]
}

/// PING that answers one with its bytes.
pub fn pong_text(bytes: u64) -> [u8; 17]
    ensures { result ≡ spelling_of (Ping true bytes) }
{
    ping_text(true, bytes)
}

/// SETTINGS that acknowledge the other side's.
#[tactic(auto, unfolding(crate::specs::Writing::spelling_of))]
pub fn acknowledgement_text() -> [u8; 9]
    ensures { result ≡ spelling_of (Settings true []) }
{
    header_bytes(0, Kind::Settings, ACK, 0)
}

/// Empty DATA with END_STREAM.
#[tactic(auto, unfolding(crate::specs::Writing::spelling_of))]
pub fn end_text(stream: u32) -> [u8; 9]
    ensures { result ≡ spelling_of (Content stream [] 0 true) }
{
    header_bytes(0, Kind::Data, END_STREAM, stream)
}

/// A frame of a stream whose contents are one number.
fn with_number(kind: Kind, stream: u32, number: u32) -> [u8; 13]
    ensures { result ≡ header_text 4 kind 0 stream ++ to_be_bytes w32 number }
{
    let [a, b, c, d, e, f, g, h, i] = header_bytes(4, kind, 0, stream);
    let [j, k, l, m] = number.to_be_bytes();
    [a, b, c, d, e, f, g, h, i, j, k, l, m]
}
