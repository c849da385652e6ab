//! Writing frames, without padding.
ghost use Rattle.std.specs.Prelude.{◌≡◌, ◌+◌, ◌*◌, ◌≤◌, ◌++◌, true, length, OnOk, OnErr, IsOk};
ghost use Rattle.std.specs.List.{flat_map};
ghost use Rattle.std.specs.Vec.{vec_len, vec_capacity};
ghost use Rattle.mq_frame.specs.declared.kind.Kind.TheVariants as kinds;
ghost use Rattle.mq_frame.specs.declared.frame.Frame.TheVariants.{Content, Headers};
ghost use Rattle.mq_frame.specs.Header.{header_text};
ghost use Rattle.mq_frame.specs.Numbers.{max_frame_size};
ghost use Rattle.mq_frame.specs.Writing.{pair_text, spelling_of, IsWritable};

use super::codes::{ACK, END_HEADERS, END_STREAM};
use super::frame::{Frame, Setting};
use super::header::{flag, header_bytes};
use super::kind::Kind;
use super::short::{goaway_text, ping_text, reset_text, window_text};
use mq_wire::NoMemory;

/// Writes a frame at the end. An `Err` changes nothing.
#[tactic(auto, unfolding(crate::specs::Writing::spelling_of))]
pub fn write_frame(out: &mut Vec<u8>, frame: &Frame) -> Result<(), NoMemory>
    requires { IsWritable frame.now }
    ensures ok { OnOk result (out.new.items ≡ out.old.items ++ spelling_of frame.now) }
    ensures err { OnErr result (out.new.items ≡ out.old.items) }
    ensures succeeds { vec_len out.old + length (spelling_of frame.now) ≤ vec_capacity out.old → IsOk result }
    ensures capacity { vec_capacity out.old ≤ vec_capacity out.new }
{
    match frame {
        Frame::Content {
            stream,
            bytes,
            end,
            ..
        } => put(
            out,
            Kind::Data,
            flag(*end, END_STREAM),
            *stream,
            bytes.as_slice(),
        ),
        Frame::Headers {
            stream,
            block,
            end,
            whole,
        } => {
            let flags = flag(*end, END_STREAM) + flag(*whole, END_HEADERS);
            put(out, Kind::Headers, flags, *stream, block.as_slice())
        }
        Frame::Continuation {
            stream,
            block,
            whole,
        } => put(
            out,
            Kind::Continuation,
            flag(*whole, END_HEADERS),
            *stream,
            block.as_slice(),
        ),
        Frame::Priority { stream } => put(out, Kind::Priority, 0, *stream, &[0; 5]),
        Frame::Reset { stream, code } => put_text(out, &reset_text(*stream, *code)),
        Frame::Settings { ack, pairs } => put_settings(out, flag(*ack, ACK), pairs.as_slice()),
        Frame::Ping { ack, bytes } => put_text(out, &ping_text(*ack, *bytes)),
        Frame::GoAway { last, code } => put_text(out, &goaway_text(*last, *code)),
        Frame::Window { stream, grow } => put_text(out, &window_text(*stream, *grow)),
        Frame::Unknown { .. } | Frame::Fault { .. } => unreachable!(),
    }
}

/// Writes a DATA frame at the end, whose contents are these two slices, which aren't copied before. An `Err` changes
/// nothing.
#[tactic(auto, unfolding(crate::specs::Writing::spelling_of))]
pub fn write_data(
    out: &mut Vec<u8>,
    stream: u32,
    front: &[u8],
    rest: &[u8],
    end: bool,
) -> Result<(), NoMemory>
    requires { length front.now + length rest.now ≤ max_frame_size }
    ensures ok { OnOk result (out.new.items ≡ out.old.items ++ spelling_of (Content stream (front.now ++ rest.now) (length (front.now ++ rest.now)) end)) }
    ensures err { OnErr result (out.new.items ≡ out.old.items) }
    ensures succeeds { vec_len out.old + (9 + length (front.now ++ rest.now)) ≤ vec_capacity out.old → IsOk result }
    ensures capacity { vec_capacity out.old ≤ vec_capacity out.new }
{
    let length = front.len() + rest.len();
    out.reserve(9 + length)?;
    out.extend_from_slice(&header_bytes(length, Kind::Data, flag(end, END_STREAM), stream))?;
    out.extend_from_slice(front)?;
    out.extend_from_slice(rest)?;
    Ok(())
}

/// Writes a HEADERS frame with a whole header block at the end, which isn't copied before. An `Err` changes nothing.
#[tactic(auto, unfolding(crate::specs::Writing::spelling_of))]
pub fn write_headers(
    out: &mut Vec<u8>,
    stream: u32,
    block: &[u8],
    end: bool,
) -> Result<(), NoMemory>
    requires { length block.now ≤ max_frame_size }
    ensures ok { OnOk result (out.new.items ≡ out.old.items ++ spelling_of (Headers stream block.now end true)) }
    ensures err { OnErr result (out.new.items ≡ out.old.items) }
    ensures succeeds { vec_len out.old + (9 + length block.now) ≤ vec_capacity out.old → IsOk result }
    ensures capacity { vec_capacity out.old ≤ vec_capacity out.new }
{
    let flags = flag(end, END_STREAM) + END_HEADERS;
    put(out, Kind::Headers, flags, stream, block)
}

/// Writes a header and contents.
fn put(
    out: &mut Vec<u8>,
    kind: Kind,
    flags: u8,
    stream: u32,
    contents: &[u8],
) -> Result<(), NoMemory>
    requires { length contents.now ≤ max_frame_size }
    ensures ok { OnOk result (out.new.items ≡ out.old.items ++ (header_text (length contents.now) kind flags stream ++ contents.now)) }
    ensures err { OnErr result (out.new.items ≡ out.old.items) }
    ensures succeeds { vec_len out.old + (9 + length contents.now) ≤ vec_capacity out.old → IsOk result }
    ensures capacity { vec_capacity out.old ≤ vec_capacity out.new }
{
    out.reserve(9 + contents.len())?;
    out.extend_from_slice(&header_bytes(contents.len(), kind, flags, stream))?;
    out.extend_from_slice(contents)?;
    Ok(())
}

/// Writes a frame that is spelled already.
fn put_text(out: &mut Vec<u8>, text: &[u8]) -> Result<(), NoMemory>
    ensures ok { OnOk result (out.new.items ≡ out.old.items ++ text.now) }
    ensures err { OnErr result (out.new.items ≡ out.old.items) }
    ensures succeeds { vec_len out.old + length text.now ≤ vec_capacity out.old → IsOk result }
    ensures capacity { vec_capacity out.old ≤ vec_capacity out.new }
{
    out.extend_from_slice(text)?;
    Ok(())
}

fn put_settings(out: &mut Vec<u8>, flags: u8, pairs: &[Setting]) -> Result<(), NoMemory>
    requires { 6 * length pairs.now ≤ max_frame_size }
    ensures ok { OnOk result (out.new.items ≡ out.old.items ++ (header_text (6 * length pairs.now) kinds.Settings flags 0 ++ flat_map pair_text pairs.now)) }
    ensures err { OnErr result (out.new.items ≡ out.old.items) }
    ensures succeeds { vec_len out.old + (9 + 6 * length pairs.now) ≤ vec_capacity out.old → IsOk result }
    ensures capacity { vec_capacity out.old ≤ vec_capacity out.new }
{
    let length = 6 * pairs.len();
    out.reserve(9 + length)?;
    out.extend_from_slice(&header_bytes(length, Kind::Settings, flags, 0))?;
    for pair in pairs {
        put_pair(out, *pair)?;
    }
    Ok(())
}

fn put_pair(out: &mut Vec<u8>, pair: Setting) -> Result<(), NoMemory>
    ensures ok { OnOk result (out.new.items ≡ out.old.items ++ pair_text pair) }
    ensures len { OnOk result (vec_len out.new ≡ vec_len out.old + 6) }
    ensures capacity { vec_capacity out.old ≤ vec_capacity out.new }
    ensures succeeds { vec_len out.old + 6 ≤ vec_capacity out.old → IsOk result }
{
    let [a, b] = pair.id.to_be_bytes();
    let [c, d, e, f] = pair.value.to_be_bytes();
    out.extend_from_slice(&[a, b, c, d, e, f])?;
    Ok(())
}
