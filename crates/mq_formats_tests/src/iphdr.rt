//! The worked packets, and a table of packets whose answers come from another program.
mod table;

use crate::iphdr::table::{REFUSED, TAKEN};
use mq_addr::{Addr, Flow};
use mq_iphdr::{HeaderFault, HopLimit, IpView, check, echo, onward};
use std::alloc::Global;
use std::test::Fail;

/// A UDP packet from 192.0.2.1 to 198.51.100.9.
const PACKET: &[u8] =
    b"\x45\x00\x00\x15\x00\x00\x00\x00\x40\x11\x8e\x9a\xc0\x00\x02\x01\xc6\x33\x64\x09\xaa";
/// The same behind the next hop.
const BEHIND: &[u8] =
    b"\x45\x00\x00\x15\x00\x00\x00\x00\x3f\x11\x8f\x9a\xc0\x00\x02\x01\xc6\x33\x64\x09\xaa";
/// The same at its last hop.
const LAST: &[u8] =
    b"\x45\x00\x00\x15\x00\x00\x00\x00\x01\x11\xcd\x9a\xc0\x00\x02\x01\xc6\x33\x64\x09\xaa";

fn view(hop: u8) -> IpView {
    IpView {
        version: 4,
        flow: Flow {
            source: Addr::V4(0xc000_0201),
            target: Addr::V4(0xc633_6409),
            protocol: 17,
        },
        hop,
        header: 20,
        length: 21,
    }
}

#[test]
fn a_packet_is_taken(rt: HostRuntime) {
    assert_eq!(rt; check(PACKET), Ok(view(64)));
    assert_eq!(rt; check(BEHIND), Ok(view(63)));
    assert_eq!(rt; check(LAST), Ok(view(1)));
}

#[test]
fn a_packet_with_a_fault_is_not_taken(rt: HostRuntime) -> Result<(), Fail> {
    let mut wrong = Vec::from_slice(rt.alloc(), PACKET)?;
    wrong[11] = 0x9b;
    assert_eq!(rt; check(wrong.as_slice()), Err(HeaderFault::Checksum));
    assert_eq!(rt; check(PACKET.split_at(20).0), Err(HeaderFault::Length));
    assert_eq!(rt; check(PACKET.split_at(19).0), Err(HeaderFault::Short));
    assert_eq!(rt; check(b"\x50"), Err(HeaderFault::Version));
    Ok(())
}

#[test]
fn a_packet_goes_on(rt: HostRuntime) -> Result<(), Fail> {
    let mut packet = Vec::from_slice(rt.alloc(), PACKET)?;
    if let Ok(view) = check(packet.as_slice()) {
        assert_eq!(rt; onward(packet.as_mut_slice(), &view), Ok(()));
    }
    assert_eq!(rt; packet.as_slice(), BEHIND);
    Ok(())
}

#[test]
fn the_last_hop_changes_nothing(rt: HostRuntime) -> Result<(), Fail> {
    let mut packet = Vec::from_slice(rt.alloc(), LAST)?;
    if let Ok(view) = check(packet.as_slice()) {
        assert_eq!(rt; onward(packet.as_mut_slice(), &view), Err(HopLimit));
    }
    assert_eq!(rt; packet.as_slice(), LAST);
    Ok(())
}

#[test]
fn packets_are_taken(rt: HostRuntime) {
    for row in &TAKEN {
        match check(row.packet) {
            Ok(view) => {
                let flow = Flow {
                    source: row.source,
                    target: row.target,
                    protocol: row.protocol,
                };
                assert!(rt; view.flow == flow, "{:?}", row.packet);
                assert!(rt; view.hop == row.hop, "{:?}", row.packet);
                assert!(rt; view.header == row.header, "{:?}", row.packet);
                assert!(rt;
                    view.length as usize == row.packet.len(),
                    "{:?}",
                    row.packet
                );
            }
            Err(fault) => assert!(rt; false, "{fault:?} {:?}", row.packet),
        }
    }
}

#[test]
fn packets_go_on(rt: HostRuntime) -> Result<(), Fail> {
    for row in &TAKEN {
        let mut packet = Vec::from_slice(rt.alloc(), row.packet)?;
        if let Ok(view) = check(packet.as_slice()) {
            assert_eq!(rt; onward(packet.as_mut_slice(), &view), Ok(()));
        }
        assert_eq!(rt; packet.as_slice(), row.behind);
    }
    Ok(())
}

#[test]
fn packets_with_a_fault_are_not_taken(rt: HostRuntime) {
    for (packet, fault) in &REFUSED {
        assert!(rt; check(packet) == Err(*fault), "{packet:?}");
    }
}

#[test]
fn every_hop_limit_is_lowered_by_one(rt: HostRuntime) -> Result<(), Fail> {
    let mut packet = Vec::new(rt.alloc());
    packet.extend_from_slice(b"\x60\0\0\0\0\0\x3b\0")?;
    packet.extend_from_slice(b"\x20\x01\x0d\xb8\0\0\0\0\0\0\0\0\0\0\0\x01")?;
    packet.extend_from_slice(b"\x20\x01\x0d\xb8\0\0\0\0\0\0\0\0\0\0\0\x09")?;
    for hop in 0..=255u8 {
        if let [_, _, _, _, _, _, _, place, ..] = packet.as_mut_slice() {
            *place = hop;
        }
        if let Ok(view) = check(packet.as_slice()) {
            let answer = onward(packet.as_mut_slice(), &view);
            let wanted = if hop < 2 { Err(HopLimit) } else { Ok(()) };
            assert!(rt; answer == wanted, "{hop}");
        }
        let left = if hop < 2 { hop } else { hop - 1 };
        assert_eq!(rt; check(packet.as_slice()).map(|view| view.hop), Ok(left));
    }
    Ok(())
}

/// A UDP datagram from 198.51.100.8 to 203.0.113.5.
const DATAGRAM: &[u8] =
    b"\x45\x00\x00\x1e\x00\x00\x00\x00\x40\x11\x14\x8e\xc6\x33\x64\x08\xcb\x00\x71\x05\x12\x34\x00\x07\x00\x0a\x00\x00\x68\x69";

const DATAGRAM_BACK: &[u8] =
    b"\x45\x00\x00\x1e\x00\x00\x00\x00\x40\x11\x14\x8e\xcb\x00\x71\x05\xc6\x33\x64\x08\x00\x07\x12\x34\x00\x0a\x00\x00\x68\x69";
/// A request for an echo with seven bytes of data and identification, from 198.51.100.9 to 203.0.113.5.
const REQUEST_4: &[u8] =
    b"\x45\x10\x00\x1f\x12\x34\x40\x00\x09\x01\xf9\x57\xc6\x33\x64\x09\xcb\x00\x71\x05\x08\x00\x74\xac\xbe\xef\x00\x01\x61\x62\x63";

const REPLY_4: &[u8] =
    b"\x45\x10\x00\x1f\x12\x34\x40\x00\x40\x01\xc2\x57\xcb\x00\x71\x05\xc6\x33\x64\x09\x00\x00\x7c\xac\xbe\xef\x00\x01\x61\x62\x63";
/// The same from 2001:db8::9 to 2001:db8:1::5.
const REQUEST_6: &[u8] =
    b"\x60\x01\x23\x45\x00\x0b\x3a\x09\x20\x01\x0d\xb8\x00\x00\x00\x00\x00\x00\x00\x00\x00\x00\x00\x09\x20\x01\x0d\xb8\x00\x01\x00\x00\x00\x00\x00\x00\x00\x00\x00\x05\x80\x00\xa0\xe5\xbe\xef\x00\x01\x61\x62\x63";

const REPLY_6: &[u8] =
    b"\x60\x01\x23\x45\x00\x0b\x3a\x40\x20\x01\x0d\xb8\x00\x01\x00\x00\x00\x00\x00\x00\x00\x00\x00\x05\x20\x01\x0d\xb8\x00\x00\x00\x00\x00\x00\x00\x00\x00\x00\x00\x09\x81\x00\x9f\xe5\xbe\xef\x00\x01\x61\x62\x63";
/// A datagram that says one byte more than it has, and requests of code 1, of seven bytes, and behind options.
const SWALLOWED: [&[u8]; 4] = [
    b"\x45\x00\x00\x1e\x00\x00\x00\x00\x40\x11\x14\x8d\xc6\x33\x64\x09\xcb\x00\x71\x05\x12\x34\x00\x07\x00\x0b\x00\x00\x68\x69",
    b"\x45\x00\x00\x1c\x00\x00\x00\x00\x40\x01\x14\x9f\xc6\x33\x64\x09\xcb\x00\x71\x05\x08\x01\x39\x0e\xbe\xef\x00\x01",
    b"\x45\x00\x00\x1b\x00\x00\x00\x00\x40\x01\x14\xa0\xc6\x33\x64\x09\xcb\x00\x71\x05\x08\x00\x39\x10\xbe\xef\x00",
    b"\x46\x00\x00\x20\x00\x00\x00\x00\x40\x01\x11\x9a\xc6\x33\x64\x09\xcb\x00\x71\x05\x01\x01\x01\x00\x08\x00\x39\x0f\xbe\xef\x00\x01",
];

/// What is answered to a packet, and what stands in its place then.
fn echoed(alloc: Global, packet: &[u8]) -> Result<(bool, Vec<u8>), Fail> {
    let mut copy = Vec::from_slice(alloc, packet)?;
    let answered = match check(packet) {
        Ok(view) => echo(copy.as_mut_slice(), &view),
        Err(_) => false,
    };
    Ok((answered, copy))
}

#[test]
fn a_host_answers(rt: HostRuntime) -> Result<(), Fail> {
    let wanted = [
        (DATAGRAM, DATAGRAM_BACK),
        (REQUEST_4, REPLY_4),
        (REQUEST_6, REPLY_6),
    ];
    for &(packet, answer) in &wanted {
        let (answered, copy) = echoed(rt.alloc(), packet)?;
        assert!(rt; answered);
        assert_eq!(rt; copy.as_slice(), answer);
    }
    Ok(())
}

#[test]
fn other_packets_are_swallowed(rt: HostRuntime) -> Result<(), Fail> {
    for &packet in &SWALLOWED {
        assert!(rt; check(packet).is_ok());
        let (answered, copy) = echoed(rt.alloc(), packet)?;
        assert!(rt; !answered);
        assert_eq!(rt; copy.as_slice(), packet);
    }
    Ok(())
}
