//! DATA and HEADERS: what stands between the fields in front and the padding (RFC 9113, sections 6.1 and 6.2).
ghost use Rattle.std.specs.Prelude.{◌≡◌, ◌+◌, IfOk, MatchResult, if◌then◌else◌};
ghost use Rattle.mq_frame.specs.declared.kind.Kind.TheVariants as kinds;
ghost use Rattle.mq_frame.specs.declared.frame.Frame.TheVariants.{Content, Headers};
ghost use Rattle.mq_frame.specs.Numbers.{end_stream_flag, end_headers_flag};
ghost use Rattle.mq_frame.specs.Header.{is_set};
ghost use Rattle.mq_frame.specs.Table.{judged, fields_len, padding_len, IsInner, HasNoInner};

use super::codes::{END_HEADERS, END_STREAM, FRAME_SIZE_ERROR, PADDED, PRIORITY, PROTOCOL_ERROR};
use super::frame::Frame;
use super::header::Header;
use mq_wire::{Bytes, NoMemory};
use std::alloc::Global;

/// A DATA frame with a copy of its bytes, or its error.
#[tactic(auto, unfolding(crate::specs::Table::judged))]
pub fn data(alloc: Global, header: Header, contents: &[u8]) -> Result<Frame, NoMemory>
    ensures { IfOk result (λ f. f ≡ judged kinds.Data header contents.now) }
{
    let padding = padding_len(header, contents);
    match inner(pad_field_len(header), padding, contents) {
        Ok(bytes) => Ok(content(header, Vec::from_slice(alloc, bytes)?)),
        Err(code) => Ok(Frame::Fault { code }),
    }
}

/// A DATA frame to which its bytes move, or its error.
#[tactic(auto, unfolding(crate::specs::Table::judged))]
pub fn data_of(header: Header, contents: Vec<u8>) -> Frame
    ensures { result ≡ judged kinds.Data header contents.items }
{
    let padding = padding_len(header, contents.as_slice());
    match cut(pad_field_len(header), padding, contents) {
        Ok(bytes) => content(header, bytes),
        Err(code) => Frame::Fault { code },
    }
}

/// A HEADERS frame with a copy of its block, or its error.
#[tactic(auto, unfolding(crate::specs::Table::judged))]
pub fn headers(alloc: Global, header: Header, contents: &[u8]) -> Result<Frame, NoMemory>
    ensures { IfOk result (λ f. f ≡ judged kinds.Headers header contents.now) }
{
    let fields = pad_field_len(header) + priority_len(header);
    match inner(fields, padding_len(header, contents), contents) {
        Ok(block) => Ok(block_start(header, Vec::from_slice(alloc, block)?)),
        Err(code) => Ok(Frame::Fault { code }),
    }
}

/// A HEADERS frame to which its block moves, or its error.
#[tactic(auto, unfolding(crate::specs::Table::judged))]
pub fn headers_of(header: Header, contents: Vec<u8>) -> Frame
    ensures { result ≡ judged kinds.Headers header contents.items }
{
    let fields = pad_field_len(header) + priority_len(header);
    let padding = padding_len(header, contents.as_slice());
    match cut(fields, padding, contents) {
        Ok(block) => block_start(header, block),
        Err(code) => Frame::Fault { code },
    }
}

fn content(header: Header, bytes: Vec<u8>) -> Frame
    ensures { result ≡ Content header.stream bytes.items header.length (is_set header.flags end_stream_flag) }
{
    Frame::Content {
        stream: header.stream,
        bytes: Bytes::from_vec(bytes),
        length: header.length,
        end: header.has(END_STREAM),
    }
}

fn block_start(header: Header, block: Vec<u8>) -> Frame
    ensures { result ≡ Headers header.stream block.items (is_set header.flags end_stream_flag) (is_set header.flags end_headers_flag) }
{
    Frame::Headers {
        stream: header.stream,
        block: Bytes::from_vec(block),
        end: header.has(END_STREAM),
        whole: header.has(END_HEADERS),
    }
}

fn pad_field_len(header: Header) -> usize
    ensures { result ≡ fields_len kinds.Data header.flags }
{
    if header.has(PADDED) { 1 } else { 0 }
}

fn priority_len(header: Header) -> usize
    ensures { fields_len kinds.Data header.flags + result ≡ fields_len kinds.Headers header.flags }
{
    if header.has(PRIORITY) { 5 } else { 0 }
}

fn padding_len(header: Header, contents: &[u8]) -> usize
    ensures { result ≡ padding_len header.flags contents.now }
{
    match contents {
        [padding, ..] if header.has(PADDED) => usize::from(*padding),
        _ => 0,
    }
}

/// What is left between the fields in front and the padding, or the error of one of them.
fn inner(fields: usize, padding: usize, contents: &[u8]) -> Result<&[u8], u32>
    ensures { MatchResult result (λ inner. IsInner fields padding contents.now inner.now) (HasNoInner fields padding contents.now) }
{
    if contents.len() < fields {
        return Err(FRAME_SIZE_ERROR);
    }
    let (_, rest) = contents.split_at(fields);
    if rest.len() < padding {
        return Err(PROTOCOL_ERROR);
    }
    let (inner, _) = rest.split_at(rest.len() - padding);
    Ok(inner)
}

/// The same of contents that the caller owns, in their own memory.
fn cut(fields: usize, padding: usize, contents: Vec<u8>) -> Result<Vec<u8>, u32>
    ensures { MatchResult result (λ v. IsInner fields padding contents.items v.items) (HasNoInner fields padding contents.items) }
{
    let mut contents = contents;
    let length = match inner(fields, padding, contents.as_slice()) {
        Ok(inner) => inner.len(),
        Err(code) => return Err(code),
    };
    if fields > 0 {
        contents.drain(..fields);
    }
    contents.truncate(length);
    Ok(contents)
}
