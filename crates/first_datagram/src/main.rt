//! The core of one connection at work, without a network: the example request of RFC 9298, section 3.2, over HTTP/1.1, and one
//! datagram behind it.
//!
//! A core takes the bytes of its client, says what it wants of the outside next, and is told how that went. What it owes to its
//! client is there to be written.
#![tactic(auto)]

ghost use Rattle.mq_iptun.specs.Answers.{CanTell};

use mq_addr::Kind;
use mq_conn::{Conn, Want};
use mq_machine::Setup;
use mq_outside::PortPut;
use mq_policy::Policy;
use mq_talk::{Call, Note, Reply};
use mq_target::Template;
use mq_wire::{NoMemory, Seq};
use std::alloc::Global;
use std::process::ExitCode;

/// The request, head and nothing else.
const REQUEST: &[u8] =
    b"GET https://example.org/.well-known/masque/udp/192.0.2.6/443/ HTTP/1.1\r\nHost: example.org\r\nConnection: Upgrade\r\nUpgrade: connect-udp\r\nCapsule-Protocol: ?1\r\n\r\n";

/// A DATAGRAM capsule of three bytes (RFC 9297, section 3.5): context 0, and a payload of two bytes.
const CAPSULE: &[u8] = b"\x00\x03\x00hi";

/// The most bytes of a payload that the port takes: those that fit into a packet of IPv4 behind its header and that of UDP.
const MOST_SENT: u32 = 65_507;

/// A proxy with the well-known templates, which allows every target.
fn setup(alloc: Global) -> Result<Setup, NoMemory> {
    Ok(Setup {
        udp: Template::well_known(alloc, Kind::Udp)?,
        ip: Template::well_known(alloc, Kind::Ip)?,
        policy: Policy::new(alloc),
        mtu: 1500,
        pump: 1,
    })
}

/// The book opens tunnel 0.
fn opened(alloc: Global) -> Reply
    ensures { CanTell result }
{
    Reply::Opened {
        tunnel: 0,
        routes: Seq::from_vec(Vec::new(alloc)),
    }
}

/// Says what was done.
fn show(rt: &HostRuntime, note: &Note) -> Option<()> {
    match note {
        Note::Ported { .. } => println!(rt; "the port is bound").ok(),
        Note::Opened { tunnel, .. } => println!(rt; "tunnel {tunnel} is open").ok(),
        Note::Sent { n, packet, .. } => {
            let payload = str::from_utf8(packet.as_slice()).ok()?;
            println!(rt; "payload {n} goes to the target: {payload}").ok()
        }
        _ => None,
    }
}

/// What the connection wants is done, until it wants nothing: its port is bound, its tunnel opens, and what it sends is taken.
/// None where it wants anything else, which isn't of this example, or more often than ten times.
fn go_on(rt: &HostRuntime, conn: &mut Conn) -> Option<()> {
    for _ in 0..10 {
        let note = match conn.next().ok()? {
            Want::Nothing => return Some(()),
            Want::Bind { .. } => conn.bound(true).ok()?,
            Want::Ask(Call::Open { .. }) => conn.answer(opened(rt.alloc())).ok()?,
            Want::SendUdp { .. } => conn.sent(PortPut::Sent, MOST_SENT),
            _ => return None,
        };
        show(rt, &note)?;
    }
    None
}

/// All that is owed to the client is written.
fn write(rt: &HostRuntime, conn: &mut Conn) -> Option<()> {
    let owed = conn.owed();
    let count = u32::try_from(owed.len()).ok()?;
    let text = str::from_utf8(owed).ok()?;
    print!(rt; "{text}").ok()?;
    conn.wrote(count);
    Some(())
}

/// These bytes come of the client.
fn take(rt: &HostRuntime, setup: &Setup, conn: &mut Conn, bytes: &[u8]) -> Option<()> {
    conn.feed(setup, bytes).ok()?;
    go_on(rt, conn)?;
    write(rt, conn)
}

/// The request comes, and the capsule behind it.
fn serve(rt: &HostRuntime) -> Option<()> {
    let setup = setup(rt.alloc()).ok()?;
    let mut conn = Conn::new(rt.alloc(), 0, 0).ok()?;
    take(rt, &setup, &mut conn, REQUEST)?;
    take(rt, &setup, &mut conn, CAPSULE)
}

fn main(rt: HostRuntime) -> ExitCode {
    match serve(&rt) {
        Some(()) => ExitCode::from(0),
        None => ExitCode::from(7),
    }
}
