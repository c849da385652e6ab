//! What a client asks of which proxy.
ghost use Rattle.std.specs.Prelude.{◌≡◌, ℕ, ◌+◌, ◌≤◌, ◌++◌, length, IfOk, OnOk};
ghost use Rattle.mq_client.specs.Requests.{AreVisible, target_limit};
ghost use Rattle.mq_target.specs.declared.target.Host.{Host};
ghost use Rattle.mq_target.specs.declared.target.Target.TheVariants as to;
ghost use Rattle.mq_target.specs.Expansion.{host_text};
ghost use Rattle.mq_udp.specs.Asked.{authority, in_brackets, path_to};

use mq_addr::{Addr, Kind, addr_bytes, addr_text, has_its_size, printed_again};
use mq_target::{Host, Target, Template, values_are_escaped};
use mq_wire::{Bytes, NoMemory};
use std::alloc::Global;

/// What a client asks of which proxy.
#[derive(Drop)]
pub struct Asked {
    /// Where the proxy is.
    pub addr: Addr,
    pub port: u16,
    /// Whether it is asked over HTTP/2, and else over HTTP/1.1.
    pub h2: bool,
    /// The path and query of the request, and its host.
    pub path: Bytes,
    pub host: Bytes,
    /// How many payloads are waited for.
    pub count: u32,
}

/// Puts an address at the end, where it is one of IPv6 in brackets.
fn put_addr(out: &mut Vec<u8>, addr: &Addr) -> Result<(), NoMemory>
    ensures { OnOk result (out.new.items ≡ out.old.items ++ in_brackets addr.now) }
{
    let text = addr_text(addr);
    match addr {
        Addr::V4(_) => out.extend_from_slice(text.as_slice())?,
        Addr::V6(_) => {
            out.push(b'[')?;
            out.extend_from_slice(text.as_slice())?;
            out.push(b']')?;
        }
    }
    Ok(())
}

/// The host of a request to a proxy: its address and port (RFC 9110, section 7.2).
fn authority(alloc: Global, addr: &Addr, port: u16) -> Result<Bytes, NoMemory>
    ensures { IfOk result (λ host. host ≡ authority addr.now port) }
{
    let mut out = Vec::new(alloc);
    put_addr(&mut out, addr)?;
    let port = format!(in alloc; ":{port}")?;
    out.extend_from_slice(port.as_bytes())?;
    Ok(Bytes::from_vec(out))
}

/// Such a host has at most 47 bytes, all of them visible.
fn authority_fits(addr: &Addr, port: u16)
    ensures visible { AreVisible (authority addr.now port) }
    ensures short { length (authority addr.now port) ≤ 47 }
{
    addr_bytes();
    printed_again();
    has_its_size(addr);
    let _text = addr_text(addr);
}

/// A host has at most 253 bytes.
fn host_is_short(host: &Host)
    ensures { length (host_text host.now) ≤ 253 }
{
    match host {
        Host::Address(addr) => {
            let _text = addr_text(addr);
        }
        Host::Name(name) => {
            let _text = name.as_slice();
        }
    }
}

/// The path to a target has visible bytes alone, and to a host for UDP at most 800.
fn path_fits(target: &Target)
    ensures visible { AreVisible (path_to target.now) }
    ensures short { (host : Host) (port : ℕ) → target.now ≡ to.Udp host port → length (path_to target.now) ≤ 800 }
{
    values_are_escaped();
    if let Target::Udp { host, port } = target {
        let _port = *port;
        host_is_short(host);
    }
}

impl Asked {
    /// A tunnel to a target, by the template for UDP where none is set (RFC 9298, section 2), asked of the
    /// proxy at this address and port, which is also the host of the request.
    pub fn to(
        alloc: Global,
        addr: Addr,
        port: u16,
        h2: bool,
        target: &Target,
        count: u32,
    ) -> Result<Asked, NoMemory>
        ensures asks { IfOk result (λ asked. asked ≡ record {
          addr = addr;
          port = port;
          h2 = h2;
          path = path_to target.now;
          host = authority addr port;
          count = count;
        }) }
        ensures visible { IfOk result (λ asked. AreVisible asked.path × AreVisible asked.host) }
        ensures fits { (host : Host) (port : ℕ) → target.now ≡ to.Udp host port
            → IfOk result (λ asked. length asked.path + length asked.host ≤ target_limit) }
    {
        authority_fits(&addr, port);
        path_fits(target);
        let path = Template::well_known(alloc, Kind::Udp)?.expand(alloc, target)?;
        let host = authority(alloc, &addr, port)?;
        Ok(Asked {
            addr,
            port,
            h2,
            path,
            host,
            count,
        })
    }
}
