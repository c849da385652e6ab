//! Tunnels for IP packets: how one opens, what it asks of the book, and the way of its packets (RFC 9484).

use super::{Outside, WILLING, add_line, copied, is, is_line, settles, told, tunneled_by};
use mq_conn::Conn;
use mq_talk::{From, Place, Verdict};
use std::alloc::Global;
use std::process::Abort;
use std::test::Fail;

/// A request for a tunnel for IP packets.
const REQUEST: &[u8] =
    b"GET /.well-known/masque/ip/*/*/ HTTP/1.1\r\nHost: example.org\r\nConnection: Upgrade\r\nUpgrade: connect-ip\r\n\r\n";

/// The success, and behind it that the proxy leads nowhere (ROUTE_ADVERTISEMENT, section 4.7.3).
const SWITCHING: &str =
    "485454502f312e312031303120537769746368696e672050726f746f636f6c730d0a436f6e6e656374696f6e3a20557067726164650d0a557067726164653a20636f6e6e6563742d69700d0a43617073756c652d50726f746f636f6c3a203f310d0a0d0a0300";

/// A UDP datagram from 198.51.100.8 to 203.0.113.5 that may go 64 hops, in a capsule.
const PACKET: &[u8] =
    b"\x00\x1f\x00\x45\x00\x00\x1e\x00\x00\x00\x00\x40\x11\x14\x8e\xc6\x33\x64\x08\xcb\x00\x71\x05\x0f\xa0\x00\x07\x00\x0a\x00\x00hi";

/// The same as it goes on: a hop less, and the checksum of that.
const ONWARD: &str = "4500001e000000003f11158ec6336408cb0071050fa00007000a00006869";

/// A request for an address, any one of IPv4 (ADDRESS_REQUEST, section 4.7.2).
const ANY_ADDRESS: &[u8] = b"\x02\x07\x01\x04\x00\x00\x00\x00\x20";

/// What is done from the request on, where its tunnel opens.
fn open(alloc: Global, rest: &str) -> Result<String, Fail> {
    Ok(format!(in alloc; "opened 0 0 0 ip\ncontrol 0 0300\nwrote {SWITCHING}\n{rest}")?)
}

/// With these bytes behind the request, whose tunnel opens, this is done.
fn opens(
    rt: &impl Abort,
    alloc: Global,
    outside: Outside,
    bytes: &[u8],
    want: &str,
) -> Result<(), Fail> {
    let text = told(alloc, outside, &[REQUEST, bytes], false)?;
    let want = open(alloc, want)?;
    is(rt, text.as_str(), want.as_str());
    Ok(())
}

#[test]
fn capsules_of_a_tunnel(rt: HostRuntime) -> Result<(), Fail> {
    let full = Outside {
        has_room: false,
        ..WILLING
    };
    let to_another = Outside {
        verdict: Verdict::Pass(Place::Tunnel {
            tunnel: 7,
            actor: 1,
        }),
        ..WILLING
    };
    let not_its_own = Outside {
        verdict: Verdict::Source,
        ..WILLING
    };
    let no_way = Outside {
        verdict: Verdict::NoRoute,
        ..WILLING
    };
    let rows: [(Outside, &[u8], &str); 9] = [
        (
            WILLING,
            PACKET,
            "passed 0 0 at 2 to net\npushed 0 0 to net\n",
        ),
        (
            to_another,
            PACKET,
            "passed 0 0 at 2 to 7\npushed 0 0 to 7\n",
        ),
        (
            full,
            PACKET,
            "passed 0 0 at 2 to net\ndropped 0 0 InboxFull\n",
        ),
        (not_its_own, PACKET, "dropped 0 0 Source\n"),
        (no_way, PACKET, "dropped 0 0 NoRoute\n"),
        (WILLING, b"\x00\x03\x02hi", "dropped 0 0 UnknownContext\n"),
        (WILLING, b"\x00\x03\x00hi", "dropped 0 0 BadHeader\n"),
        (
            WILLING,
            ANY_ADDRESS,
            "assigned 0 at 1 #0\ncontrol 0 0100\nwrote 0100\n",
        ),
        (WILLING, b"\x03\x00", "advertised 0 at 1 true\n"),
    ];
    for &(outside, bytes, want) in &rows {
        opens(&rt, rt.alloc(), outside, bytes, want)?;
    }
    Ok(())
}

#[test]
fn the_book_refuses_a_tunnel(rt: HostRuntime) -> Result<(), Fail> {
    let full = Outside {
        opens: false,
        ..WILLING
    };
    let text = told(rt.alloc(), full, &[REQUEST], false)?;
    assert!(rt; text.as_str().starts_with("refused 0 0 503 0\n"));
    Ok(())
}

/// This text so many times.
fn repeated(alloc: Global, text: &str, count: usize) -> Result<String, Fail> {
    let mut all = String::new(alloc);
    for _ in 0..count {
        all.push_str(text)?;
    }
    Ok(all)
}

/// A request for an address so many times.
fn asked(alloc: Global, count: usize) -> Result<Vec<u8>, Fail> {
    let mut all = Vec::new(alloc);
    for _ in 0..count {
        all.extend_from_slice(ANY_ADDRESS)?;
    }
    Ok(all)
}

#[test]
fn a_seventeenth_value_closes(rt: HostRuntime) -> Result<(), Fail> {
    let asked = asked(rt.alloc(), 17)?;
    let mut want = repeated(rt.alloc(), "assigned 0 at 1 #0\n", 16)?;
    want.push_str("closed 0 Full left 0\nended Tunnel\n")?;
    opens(&rt, rt.alloc(), WILLING, asked.as_slice(), want.as_str())
}

/// What a connection does when this packet is delivered to tunnel 0.
fn delivers(
    alloc: Global,
    conn: &mut Conn,
    from: From,
    packet: &[u8],
    text: &mut String,
) -> Result<(), Fail> {
    let packet = copied(alloc, packet)?;
    let note = conn.deliver(from, 3, 0, packet);
    add_line(alloc, text, &note)?;
    settles(alloc, conn, WILLING, text)
}

/// What a delivery to tunnel 0 of this packet is.
fn delivered(alloc: Global, from: From, packet: &[u8]) -> Result<String, Fail> {
    let mut text = String::new(alloc);
    let mut conn = tunneled_by(alloc, REQUEST)?;
    delivers(alloc, &mut conn, from, packet, &mut text)?;
    Ok(text)
}

/// The packet of that capsule, where it may go so many hops.
fn packet_of(alloc: Global, hops: u8) -> Result<Vec<u8>, Fail> {
    let mut packet = Vec::from_slice(alloc, PACKET.get(3..).unwrap_or(&[]))?;
    if let Some(place) = packet.get_mut(8) {
        *place = hops;
    }
    Ok(packet)
}

#[test]
fn packets_for_a_tunnel(rt: HostRuntime) -> Result<(), Fail> {
    let packet = PACKET.get(3..).unwrap_or(&[]);
    let text = delivered(rt.alloc(), From::Net, packet)?;
    let want = format!(in rt.alloc();
        "queued net 3 to 0\ndelivered net 3 to 0 {ONWARD}\nwrote 001f00{ONWARD}\n"
    )?;
    is(&rt, text.as_str(), want.as_str());
    Ok(())
}

#[test]
fn a_packet_on_its_last_hop(rt: HostRuntime) -> Result<(), Fail> {
    let packet = packet_of(rt.alloc(), 1)?;
    let text = delivered(rt.alloc(), From::Tunnel(5), packet.as_slice())?;
    is(&rt, text.as_str(), "dropped 5 3 HopLimit\n");
    Ok(())
}

#[test]
fn a_packet_for_another_tunnel(rt: HostRuntime) -> Result<(), Fail> {
    let packet = copied(rt.alloc(), b"hi")?;
    let mut conn = tunneled_by(rt.alloc(), REQUEST)?;
    let note = conn.deliver(From::Net, 3, 1, packet);
    is_line(&rt, rt.alloc(), &note, "dropped net 3 Gone\n")
}
