//! What a request of HTTP/2 asks for: an extended CONNECT to a tunnel, or something that isn't served (RFC 8441, section 4; RFC
//! 9298, section 3.4).
ghost use Rattle.std.specs.Prelude.{◌≡◌, IfOk, option_map};
ghost use Rattle.mq_machine.specs.Http2.{kind_by, kind_of, path_of};
ghost use Rattle.mq_machine.specs.Reading.{FieldsMean};
ghost use Rattle.mq_front.specs.Meanings.{meaning_of};

use crate::judge::{Verdict, judge_path};
use mq_addr::Kind;
use mq_h2::{is_connect, is_value, value_of};
use mq_hpack::Field;
use mq_machine::Setup;
use mq_wire::NoMemory;
use std::alloc::Global;

/// The tunnel that a protocol is.
fn kind_by(protocol: Option<&[u8]>) -> Option<Kind>
    ensures { result ≡ kind_by (option_map (λ v. v.now) protocol.entry) }
{
    if is_value(protocol, b"connect-udp") {
        Some(Kind::Udp)
    } else if is_value(protocol, b"connect-ip") {
        Some(Kind::Ip)
    } else {
        None
    }
}

/// The tunnel that a request asks for, if it is one.
fn kind_of(fields: &[Field]) -> Option<Kind>
    ensures { result ≡ kind_of fields.now }
{
    if is_connect(fields) {
        kind_by(value_of(fields, b":protocol"))
    } else {
        None
    }
}

fn path_of(fields: &[Field]) -> &[u8]
    ensures { result.now ≡ path_of fields.now }
{
    match value_of(fields, b":path") {
        Some(path) => path,
        None => &[],
    }
}

/// What a request means. One for no tunnel isn't served.
pub fn judge_request(alloc: Global, setup: &Setup, fields: &[Field]) -> Result<Verdict, NoMemory>
    ensures { IfOk result (λ verdict. FieldsMean setup.now fields.now (meaning_of verdict)) }
{
    match kind_of(fields) {
        Some(kind) => judge_path(alloc, setup, kind, path_of(fields)),
        None => Ok(Verdict::Refused {
            status: 501,
            rule: 0,
        }),
    }
}
