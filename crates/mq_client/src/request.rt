//! The request for a tunnel over HTTP/1.1 (RFC 9298, section 3.2).
ghost use Rattle.std.specs.Prelude.{◌≡◌, ◌++◌, OnOk};
ghost use Rattle.mq_client.specs.Requests.{request_text};

use mq_wire::NoMemory;

/// Writes the request with this path and query, to this host, at the end.
pub fn write_request(out: &mut Vec<u8>, path: &[u8], host: &[u8]) -> Result<(), NoMemory>
    ensures { OnOk result (out.new.items ≡ out.old.items ++ request_text path.now host.now) }
{
    out.extend_from_slice(b"GET ")?;
    out.extend_from_slice(path)?;
    out.extend_from_slice(b" HTTP/1.1\r\nHost: ")?;
    out.extend_from_slice(host)?;
    out.extend_from_slice(
        b"\r\nConnection: Upgrade\r\nUpgrade: connect-udp\r\nCapsule-Protocol: ?1\r\n\r\n",
    )?;
    Ok(())
}
