//! The request for a tunnel over HTTP/2 (RFC 9298, section 3.4).
ghost use Rattle.std.specs.Prelude.{◌≡◌, ◌+◌, ◌≤◌, ◌++◌, length, IfOk, OnOk};
ghost use Rattle.mq_client.specs.Asking.{field, request_fields, request_frame, preface};
ghost use Rattle.mq_client.specs.Requests.{target_limit};

use crate::parts::STREAM;
use mq_frame::write_headers;
use mq_hpack::{Encoder, Field, Text, is_no_longer};
use mq_wire::{Bytes, NoMemory};
use std::alloc::Global;

/// The preface of a client: a text, and SETTINGS that disable server push (RFC 9113, section 3.4).
const PREFACE: &[u8] =
    b"PRI * HTTP/2.0\r\n\r\nSM\r\n\r\n\x00\x00\x06\x04\x00\x00\x00\x00\x00\x00\x02\x00\x00\x00\x00";

/// Writes the preface at the end.
#[tactic(auto, unfolding(crate::specs::Asking::preface, mq_frame::specs::Writing::spelling_of))]
pub fn write_preface(out: &mut Vec<u8>) -> Result<(), NoMemory>
    ensures { OnOk result (out.new.items ≡ out.old.items ++ preface) }
{
    out.extend_from_slice(PREFACE)?;
    Ok(())
}

fn field(alloc: Global, name: &[u8], value: &[u8]) -> Result<Field, NoMemory>
    ensures { IfOk result (λ made. made ≡ field name.now value.now) }
{
    Ok(Field {
        name: Text::copy_of(alloc, name)?,
        value: Text::copy_of(alloc, value)?,
    })
}

/// The fields of the request with this path and query, to this host (RFC 8441, section 4; RFC 9298, section 3.4).
#[tactic(auto, unfolding(crate::specs::Asking::request_fields))]
fn request_fields(alloc: Global, path: &[u8], host: &[u8]) -> Result<Vec<Field>, NoMemory>
    ensures { IfOk result (λ fields. fields.items ≡ request_fields path.now host.now) }
{
    let mut fields = Vec::new(alloc);
    fields.push(field(alloc, b":method", b"CONNECT")?)?;
    fields.push(field(alloc, b":protocol", b"connect-udp")?)?;
    fields.push(field(alloc, b":scheme", b"http")?)?;
    fields.push(field(alloc, b":path", path)?)?;
    fields.push(field(alloc, b":authority", host)?)?;
    fields.push(field(alloc, b"capsule-protocol", b"?1")?)?;
    Ok(fields)
}

/// HEADERS with the request.
pub fn request_frame(alloc: Global, path: &[u8], host: &[u8]) -> Result<Bytes, NoMemory>
    requires { length path.now + length host.now ≤ target_limit }
    ensures { IfOk result (λ bytes. bytes ≡ request_frame path.now host.now) }
{
    let fields = request_fields(alloc, path, host)?;
    let block = Encoder::new(alloc).block(fields.as_slice())?;
    is_no_longer();
    let mut out = Vec::new(alloc);
    write_headers(&mut out, STREAM, block.as_slice(), false)?;
    Ok(Bytes::from_vec(out))
}
