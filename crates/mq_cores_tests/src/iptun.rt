//! The values of other crates' tests, through a tunnel.
ghost use Rattle.mq_iptun.specs.Answers.{CanTell};

use mq_addr::{Addr, Asked, Flow, Given, Prefix, Range};
use mq_capsule::{CapsuleFault, Item};
use mq_iptun::{IpAct, IpTunnel, control_capsule, item_act, next_number};
use mq_machine::StreamAct;
use mq_talk::{Call, Cause, Reply};
use mq_wire::{Bytes, Seq};
use std::test::Fail;

/// A UDP packet of 21 bytes from 192.0.2.1 to 198.51.100.9.
const PACKET: &[u8] =
    b"\x45\x00\x00\x15\x00\x00\x00\x00\x40\x11\x8e\x9a\xc0\x00\x02\x01\xc6\x33\x64\x09\xaa";

/// 198.51.100.9/32, with Request ID 1.
const NINE: Given = Given {
    id: 1,
    block: Prefix {
        addr: Addr::V4(0xc633_6409),
        length: 32,
    },
};

/// The capsule of no routes, and that of this assignment.
const NO_ROUTES: &[u8] = b"\x03\0";

const ONE_ADDRESS: &[u8] = b"\x01\x07\x01\x04\xc6\x33\x64\x09\x20";

/// The packet with another checksum.
const WRONG: &[u8] =
    b"\x45\x00\x00\x15\x00\x00\x00\x00\x40\x11\x8e\x9b\xc0\x00\x02\x01\xc6\x33\x64\x09\xaa";

/// Values of ADDRESS_ASSIGN.
const ASSIGNMENTS: [&[u8]; 2] = [b"", b"\x01\x04\xc6\x33\x64\x09\x20"];

/// Control values with a fault, with their types.
const MALFORMED: [(u64, &[u8]); 4] = [
    (1, b"\0"),
    (2, b""),
    (2, b"\0\x04\0\0\0\0\x20"),
    (3, b"\x04\x0a\0\0\x05\x0a\0\0\x01\0"),
];

fn bytes(rt: &HostRuntime, text: &[u8]) -> Result<Bytes, Fail> {
    Ok(Bytes::from_vec(Vec::from_slice(rt.alloc(), text)?))
}

fn datagram(rt: &HostRuntime, context: u64, text: &[u8]) -> Result<Item, Fail> {
    let payload = bytes(rt, text)?;
    Ok(Item::Datagram { context, payload })
}

fn control(rt: &HostRuntime, kind: u64, text: &[u8]) -> Result<Item, Fail> {
    let value = bytes(rt, text)?;
    Ok(Item::Control { kind, value })
}

/// What one item of a tunnel of number 7 asks for.
fn first(rt: &HostRuntime, item: Item) -> Result<IpAct, Fail> {
    let mut tunnel = IpTunnel::new(7, 1500);
    Ok(tunnel.item(rt.alloc(), item)?)
}

/// What a control capsule of this type and value asks for.
fn asked(rt: &HostRuntime, kind: u64, value: &[u8]) -> Result<IpAct, Fail> {
    first(rt, control(rt, kind, value)?)
}

/// The number and the cause of a drop.
fn drop_of(act: &IpAct) -> Option<(u64, Cause)> {
    match act {
        IpAct::Dropped { n, cause } => Some((*n, *cause)),
        _ => None,
    }
}

/// Why a payload in this context is dropped.
fn cause(rt: &HostRuntime, context: u64, payload: &[u8]) -> Result<Option<(u64, Cause)>, Fail> {
    let act = first(rt, datagram(rt, context, payload)?)?;
    Ok(drop_of(&act))
}

#[test]
fn a_request_for_addresses_asks_the_book(rt: HostRuntime) -> Result<(), Fail> {
    let mut tunnel = IpTunnel::new(0, 1500);
    let act = tunnel.item(rt.alloc(), control(&rt, 2, b"\x01\x04\0\0\0\0\x20")?)?;
    let wanted = Asked {
        id: 1,
        block: Prefix {
            addr: Addr::V4(0),
            length: 32,
        },
    };
    match &act {
        IpAct::Ask(Call::Assign { tunnel, asked }) => {
            assert_eq!(rt; *tunnel, 0);
            assert_eq!(rt; asked.as_slice(), [wanted].as_slice());
        }
        _ => assert!(rt; false),
    }
    Ok(())
}

#[test]
fn an_advertisement_asks_the_book(rt: HostRuntime) -> Result<(), Fail> {
    let act = asked(&rt, 3, b"\x04\x0a\0\0\0\x0a\0\0\xff\x11")?;
    let wanted = Range {
        first: Addr::V4(0x0a00_0000),
        last: Addr::V4(0x0a00_00ff),
        protocol: 17,
    };
    match &act {
        IpAct::Ask(Call::Advertise { tunnel, ranges }) => {
            assert_eq!(rt; *tunnel, 7);
            assert_eq!(rt; ranges.as_slice(), [wanted].as_slice());
        }
        _ => assert!(rt; false),
    }
    Ok(())
}

#[test]
fn an_assignment_of_the_client_asks_for_nothing(rt: HostRuntime) -> Result<(), Fail> {
    for value in &ASSIGNMENTS {
        let act = asked(&rt, 1, value)?;
        assert!(rt; matches!(act, IpAct::Nothing), "{value:?}");
    }
    Ok(())
}

#[test]
fn a_malformed_value_closes_the_tunnel(rt: HostRuntime) -> Result<(), Fail> {
    for (kind, value) in &MALFORMED {
        let act = asked(&rt, *kind, value)?;
        assert!(rt; matches!(act, IpAct::Malformed), "{value:?}");
    }
    let fault = CapsuleFault::TooLong;
    let act = first(&rt, Item::Bad { fault })?;
    assert!(rt; matches!(act, IpAct::Malformed));
    Ok(())
}

#[test]
fn a_packet_is_to_be_judged(rt: HostRuntime) -> Result<(), Fail> {
    let wanted = Flow {
        source: Addr::V4(0xc000_0201),
        target: Addr::V4(0xc633_6409),
        protocol: 17,
    };
    let act = first(&rt, datagram(&rt, 0, PACKET)?)?;
    match &act {
        IpAct::Packet { n, packet, flow } => {
            assert_eq!(rt; *n, 0);
            assert_eq!(rt; packet.as_slice(), PACKET);
            assert_eq!(rt; *flow, wanted);
        }
        _ => assert!(rt; false),
    }
    Ok(())
}

/// An IPv4 packet of so many bytes from 192.0.2.1 to 198.51.100.9, whose checksum is this.
fn long(rt: &HostRuntime, size: u16, checksum: u16) -> Result<Vec<u8>, Fail> {
    let [high, low] = size.to_be_bytes();
    let [first, second] = checksum.to_be_bytes();
    let mut packet = Vec::from_slice(rt.alloc(), b"\x45\0")?;
    packet.extend_from_slice(&[high, low])?;
    packet.extend_from_slice(b"\0\0\0\0\x40\x11")?;
    packet.extend_from_slice(&[first, second])?;
    packet.extend_from_slice(b"\xc0\0\x02\x01\xc6\x33\x64\x09")?;
    packet.resize(size as usize, 0)?;
    Ok(packet)
}

#[test]
fn a_payload_that_is_dropped_has_its_first_cause(rt: HostRuntime) -> Result<(), Fail> {
    assert_eq!(rt; cause(&rt, 0, WRONG)?, Some((0, Cause::BadHeader)));
    assert_eq!(rt; cause(&rt, 1, WRONG)?, Some((0, Cause::UnknownContext)));
    let packet = long(&rt, 1500, 0x88d3)?;
    assert_eq!(rt; cause(&rt, 0, packet.as_slice())?, None);
    let packet = long(&rt, 1501, 0x88d2)?;
    assert_eq!(rt;
        cause(&rt, 0, packet.as_slice())?,
        Some((0, Cause::TooLong))
    );
    let packet = long(&rt, 1501, 0x88d1)?;
    assert_eq!(rt;
        cause(&rt, 0, packet.as_slice())?,
        Some((0, Cause::BadHeader))
    );
    Ok(())
}

/// Why the next item of a tunnel is dropped.
fn next(rt: &HostRuntime, tunnel: &mut IpTunnel, item: Item) -> Result<Option<(u64, Cause)>, Fail> {
    let act = tunnel.item(rt.alloc(), item)?;
    Ok(drop_of(&act))
}

#[test]
fn every_payload_has_the_next_number(rt: HostRuntime) -> Result<(), Fail> {
    let mut tunnel = IpTunnel::new(3, 1500);
    let item = datagram(&rt, 0, b"")?;
    assert_eq!(rt; next(&rt, &mut tunnel, item)?, Some((0, Cause::BadHeader)));
    let item = control(&rt, 1, b"")?;
    assert_eq!(rt; next(&rt, &mut tunnel, item)?, None);
    let item = Item::TooLongDatagram {
        context: 0,
        length: 65_536,
    };
    assert_eq!(rt; next_number(1, &item)?, 2);
    assert_eq!(rt; next(&rt, &mut tunnel, item)?, Some((1, Cause::TooLong)));
    let item = Item::TooLongDatagram {
        context: 2,
        length: 65_536,
    };
    assert_eq!(rt;
        next(&rt, &mut tunnel, item)?,
        Some((2, Cause::UnknownContext))
    );
    Ok(())
}

#[test]
fn a_packet_is_an_act_of_its_data_stream(rt: HostRuntime) -> Result<(), Fail> {
    let act = item_act(rt.alloc(), 21, 5, datagram(&rt, 0, PACKET)?)?;
    match &act {
        Some(StreamAct::Packet { n, packet, .. }) => {
            assert_eq!(rt; *n, 5);
            assert_eq!(rt; packet.as_slice(), PACKET);
        }
        _ => assert!(rt; false),
    }
    Ok(())
}

#[test]
fn a_long_packet_is_a_drop_of_its_data_stream(rt: HostRuntime) -> Result<(), Fail> {
    let act = item_act(rt.alloc(), 20, 5, datagram(&rt, 0, PACKET)?)?;
    match &act {
        Some(StreamAct::Drop { n, cause }) => {
            assert_eq!(rt; *n, 5);
            assert_eq!(rt; *cause, Cause::TooLong);
        }
        _ => assert!(rt; false),
    }
    Ok(())
}

/// Whether a tunnel answers a reply with this capsule, or with none.
fn is_told(rt: &HostRuntime, reply: &Reply, wanted: Option<&[u8]>) -> Result<bool, Fail>
    requires { CanTell reply.now }
{
    let mut tunnel = IpTunnel::new(0, 1500);
    let capsule = tunnel.answer(rt.alloc(), reply)?;
    let again = control_capsule(rt.alloc(), reply)?;
    Ok(is_text(&capsule, wanted) && is_text(&again, wanted))
}

fn is_text(capsule: &Option<Bytes>, wanted: Option<&[u8]>) -> bool {
    match (capsule, wanted) {
        (Some(capsule), Some(wanted)) => capsule.as_slice() == wanted,
        (None, None) => true,
        _ => false,
    }
}

#[test]
fn routes_and_addresses_are_told(rt: HostRuntime) -> Result<(), Fail> {
    let routes = Seq::from_vec(Vec::new(rt.alloc()));
    let opened = Reply::Opened { tunnel: 0, routes };
    assert!(rt; is_told(&rt, &opened, Some(NO_ROUTES))?);
    let list = Seq::from_vec(Vec::from_array(rt.alloc(), [NINE])?);
    let assigned = Reply::Assigned { list, at: 1 };
    assert!(rt; is_told(&rt, &assigned, Some(ONE_ADDRESS))?);
    Ok(())
}

#[test]
fn other_replies_have_no_capsule(rt: HostRuntime) -> Result<(), Fail> {
    let accepted = Reply::Accepted { yes: true, at: 2 };
    assert!(rt; is_told(&rt, &accepted, None)?);
    assert!(rt; is_told(&rt, &Reply::Closed, None)?);
    Ok(())
}
