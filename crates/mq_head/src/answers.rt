//! The answers to a request for a tunnel.
ghost use Rattle.std.specs.Prelude.{◌≡◌, ◌++◌, OnOk, OnErr};
ghost use Rattle.mq_head.specs.Answers.{success_text, refusal_text};

use mq_addr::Kind;
use mq_wire::NoMemory;

#[tactic(auto, unfolding(crate::specs::Answers::success_text))]
fn success_text(kind: Kind) -> &'static [u8]
    ensures { result.now ≡ success_text kind }
{
    match kind {
        Kind::Udp =>
            b"HTTP/1.1 101 Switching Protocols\r\nConnection: Upgrade\r\nUpgrade: connect-udp\r\nCapsule-Protocol: ?1\r\n\r\n",
        Kind::Ip =>
            b"HTTP/1.1 101 Switching Protocols\r\nConnection: Upgrade\r\nUpgrade: connect-ip\r\nCapsule-Protocol: ?1\r\n\r\n",
    }
}

#[tactic(auto, unfolding(crate::specs::Answers::refusal_text))]
fn refusal_text(status: u16) -> &'static [u8]
    ensures { result.now ≡ refusal_text status }
{
    match status {
        400 => b"HTTP/1.1 400 Bad Request\r\nConnection: close\r\nContent-Length: 0\r\n\r\n",
        403 => b"HTTP/1.1 403 Forbidden\r\nConnection: close\r\nContent-Length: 0\r\n\r\n",
        404 => b"HTTP/1.1 404 Not Found\r\nConnection: close\r\nContent-Length: 0\r\n\r\n",
        501 => b"HTTP/1.1 501 Not Implemented\r\nConnection: close\r\nContent-Length: 0\r\n\r\n",
        502 => b"HTTP/1.1 502 Bad Gateway\r\nConnection: close\r\nContent-Length: 0\r\n\r\n",
        _ => b"HTTP/1.1 503 Service Unavailable\r\nConnection: close\r\nContent-Length: 0\r\n\r\n",
    }
}

/// Writes the answer that opens a tunnel at the end: status 101 (RFC 9298, section 3.3; RFC 9484, section 4.2). An
/// `Err` changes nothing.
pub fn success(out: &mut Vec<u8>, kind: Kind) -> Result<(), NoMemory>
    ensures ok { OnOk result (out.new.items ≡ out.old.items ++ success_text kind) }
    ensures err { OnErr result (out.new.items ≡ out.old.items) }
{
    out.extend_from_slice(success_text(kind))?;
    Ok(())
}

/// Writes the refusal of this status at the end, after which the connection ends. An `Err` changes nothing.
pub fn refusal(out: &mut Vec<u8>, status: u16) -> Result<(), NoMemory>
    ensures ok { OnOk result (out.new.items ≡ out.old.items ++ refusal_text status) }
    ensures err { OnErr result (out.new.items ≡ out.old.items) }
{
    out.extend_from_slice(refusal_text(status))?;
    Ok(())
}
