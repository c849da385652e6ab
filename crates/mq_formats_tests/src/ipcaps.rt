//! Values and capsules by hand from RFC 9484, section 4.7, and each fault at its place.
use mq_addr::{Addr, Asked, Given, Prefix, Range};
use mq_ipcaps::{
    CapsFault, read_assign, read_request, read_routes, write_assign, write_request, write_routes,
};
use mq_wire::WireFault;
use std::test::Fail;

/// Any block of one address of IPv4, with Request ID 1.
const ANY: Asked = Asked {
    id: 1,
    block: Prefix {
        addr: Addr::V4(0),
        length: 32,
    },
};

/// 198.51.100.9/32, with Request ID 1.
const NINE: Given = Given {
    id: 1,
    block: Prefix {
        addr: Addr::V4(0xc633_6409),
        length: 32,
    },
};

/// 2001:db8::/32, with the largest Request ID.
const WIDE: Given = Given {
    id: 0x3fff_ffff_ffff_ffff,
    block: Prefix {
        addr: Addr::V6(0x2001_0db8_0000_0000_0000_0000_0000_0000),
        length: 32,
    },
};

const WIDE_TEXT: &[u8] =
    b"\xff\xff\xff\xff\xff\xff\xff\xff\x06\x20\x01\x0d\xb8\0\0\0\0\0\0\0\0\0\0\0\0\x20";

/// 10.0.0.0 to 10.0.0.255 for UDP, and all of IPv6 for every protocol.
const ROUTES: [Range; 2] = [
    Range {
        first: Addr::V4(0x0a00_0000),
        last: Addr::V4(0x0a00_00ff),
        protocol: 17,
    },
    Range {
        first: Addr::V6(0),
        last: Addr::V6(0xffff_ffff_ffff_ffff_ffff_ffff_ffff_ffff),
        protocol: 0,
    },
];

const ROUTES_TEXT: &[u8] =
    b"\x04\x0a\0\0\0\x0a\0\0\xff\x11\x06\0\0\0\0\0\0\0\0\0\0\0\0\0\0\0\0\xff\xff\xff\xff\xff\xff\xff\xff\xff\xff\xff\xff\xff\xff\xff\xff\0";

/// Requests with a fault, the first from the left.
const BAD_REQUESTS: [(&[u8], CapsFault); 12] = [
    (b"", CapsFault::Empty),
    (b"\x40", CapsFault::Truncated),
    (b"\0", CapsFault::ZeroId),
    (b"\x40\0\x05", CapsFault::ZeroId),
    (b"\x01", CapsFault::Truncated),
    (b"\x01\x05", CapsFault::Version),
    (b"\x01\x04\0\0\0", CapsFault::Truncated),
    (b"\x01\x04\0\0\0\0", CapsFault::Truncated),
    (b"\x01\x04\0\0\0\0\x21", CapsFault::Bits),
    (b"\x01\x04\xc0\0\x02\x01\x18", CapsFault::Bits),
    (b"\x01\x04\0\0\0\0\x20\0\x07", CapsFault::ZeroId),
    (b"\x01\x04\0\0\0\0\x20\x02", CapsFault::Truncated),
];

/// Assignments with a fault. A Request ID may be 0 here.
const BAD_ASSIGNMENTS: [(&[u8], CapsFault); 5] = [
    (b"\0", CapsFault::Truncated),
    (b"\0\0", CapsFault::Version),
    (
        b"\0\x06\x20\x01\x0d\xb8\0\0\0\0\0\0\0\0\0\0\0",
        CapsFault::Truncated,
    ),
    (
        b"\0\x06\x20\x01\x0d\xb8\0\0\0\0\0\0\0\0\0\0\0\0\x81",
        CapsFault::Bits,
    ),
    (
        b"\0\x06\x20\x01\x0d\xb8\0\0\0\0\0\0\0\0\0\0\0\x01\x7f",
        CapsFault::Bits,
    ),
];

/// Advertisements of two ranges, by the second: the first is 10.0.0.5 to 10.0.0.9 for TCP.
const SECOND_RANGES: [(&[u8], Option<CapsFault>); 9] = [
    (b"\x04\x0a\0\0\x0a\x0a\0\0\x0a\x06", None),
    (b"\x04\x0a\0\0\x09\x0a\0\0\x0a\x06", Some(CapsFault::Order)),
    (b"\x04\x0a\0\0\x05\x0a\0\0\x09\x06", Some(CapsFault::Order)),
    (b"\x04\x0a\0\0\0\x0a\0\0\x04\x06", Some(CapsFault::Order)),
    (b"\x04\x0a\0\0\0\x0a\0\0\x04\x07", None),
    (b"\x04\x0a\0\0\x0a\x0a\0\0\x0a\x05", Some(CapsFault::Order)),
    (b"\x04\x0a\0\0\x0b\x0a\0\0\x0a\x06", Some(CapsFault::Order)),
    (
        b"\x06\0\0\0\0\0\0\0\0\0\0\0\0\0\0\0\0\0\0\0\0\0\0\0\0\0\0\0\0\0\0\0\0\0",
        None,
    ),
    (b"\x07", Some(CapsFault::Version)),
];

#[test]
fn a_request_is_read(rt: HostRuntime) -> Result<(), Fail> {
    let list = read_request(rt.alloc(), b"\x01\x04\0\0\0\0\x20")?;
    assert_eq!(rt; list.as_slice(), [ANY].as_slice());
    let list = read_request(rt.alloc(), b"\x40\x01\x04\0\0\0\0\x20\x01\x04\0\0\0\0\x20")?;
    assert_eq!(rt; list.as_slice(), [ANY, ANY].as_slice());
    Ok(())
}

#[test]
fn a_request_with_a_fault_is_refused(rt: HostRuntime) {
    for (value, fault) in &BAD_REQUESTS {
        match read_request(rt.alloc(), value) {
            Ok(_) => assert!(rt; false, "{value:?}"),
            Err(told) => assert!(rt; told == *fault, "{value:?}"),
        }
    }
}

#[test]
fn an_assignment_is_read(rt: HostRuntime) -> Result<(), Fail> {
    assert_eq!(rt; read_assign(rt.alloc(), b"")?.as_slice().len(), 0);
    let list = read_assign(rt.alloc(), b"\x01\x04\xc6\x33\x64\x09\x20")?;
    assert_eq!(rt; list.as_slice(), [NINE].as_slice());
    let list = read_assign(rt.alloc(), WIDE_TEXT)?;
    assert_eq!(rt; list.as_slice(), [WIDE].as_slice());
    Ok(())
}

#[test]
fn an_assignment_with_a_fault_is_refused(rt: HostRuntime) {
    for (value, fault) in &BAD_ASSIGNMENTS {
        match read_assign(rt.alloc(), value) {
            Ok(_) => assert!(rt; false, "{value:?}"),
            Err(told) => assert!(rt; told == *fault, "{value:?}"),
        }
    }
}

#[test]
fn routes_are_read(rt: HostRuntime) -> Result<(), Fail> {
    assert_eq!(rt; read_routes(rt.alloc(), b"")?.as_slice().len(), 0);
    let list = read_routes(rt.alloc(), ROUTES_TEXT)?;
    assert_eq!(rt; list.as_slice(), ROUTES.as_slice());
    Ok(())
}

#[test]
fn routes_stand_in_order(rt: HostRuntime) -> Result<(), Fail> {
    for (second, fault) in &SECOND_RANGES {
        let mut value = Vec::from_slice(rt.alloc(), b"\x04\x0a\0\0\x05\x0a\0\0\x09\x06")?;
        value.extend_from_slice(second)?;
        assert!(rt;
            read_routes(rt.alloc(), value.as_slice()).err() == *fault,
            "{second:?}"
        );
    }
    Ok(())
}

#[test]
fn a_value_cut_short_is_truncated(rt: HostRuntime) {
    for len in 1..ROUTES_TEXT.len() {
        let (front, _) = ROUTES_TEXT.split_at(len);
        let told = read_routes(rt.alloc(), front).err();
        let wanted = if len == 10 {
            None
        } else {
            Some(CapsFault::Truncated)
        };
        assert!(rt; told == wanted, "{len}");
    }
}

#[test]
fn a_request_has_at_most_sixteen_entries(rt: HostRuntime) -> Result<(), Fail> {
    let mut value = Vec::new(rt.alloc());
    for _ in 0..16 {
        value.extend_from_slice(b"\x01\x04\0\0\0\0\x20")?;
    }
    let list = read_request(rt.alloc(), value.as_slice())?;
    assert_eq!(rt; list.as_slice().len(), 16);
    value.push(0)?;
    assert_eq!(rt;
        read_request(rt.alloc(), value.as_slice()).err(),
        Some(CapsFault::TooMany)
    );
    Ok(())
}

#[test]
fn an_assignment_has_at_most_thirty_two_entries(rt: HostRuntime) -> Result<(), Fail> {
    let mut value = Vec::new(rt.alloc());
    for _ in 0..32 {
        value.extend_from_slice(b"\0\x04\xc6\x33\x64\x09\x20")?;
    }
    let list = read_assign(rt.alloc(), value.as_slice())?;
    assert_eq!(rt; list.as_slice().len(), 32);
    value.push(0)?;
    assert_eq!(rt;
        read_assign(rt.alloc(), value.as_slice()).err(),
        Some(CapsFault::TooMany)
    );
    Ok(())
}

#[test]
fn an_advertisement_has_at_most_thirty_two_ranges(rt: HostRuntime) -> Result<(), Fail> {
    let mut value = Vec::new(rt.alloc());
    for protocol in 0..32 {
        value.extend_from_slice(b"\x04\x0a\0\0\0\x0a\0\0\xff")?;
        value.push(protocol)?;
    }
    let list = read_routes(rt.alloc(), value.as_slice())?;
    assert_eq!(rt; list.as_slice().len(), 32);
    value.push(7)?;
    assert_eq!(rt;
        read_routes(rt.alloc(), value.as_slice()).err(),
        Some(CapsFault::TooMany)
    );
    Ok(())
}

#[test]
fn capsules_are_written(rt: HostRuntime) -> Result<(), Fail> {
    let mut out = Vec::new(rt.alloc());
    assert_eq!(rt; write_assign(&mut out, &[NINE]), Ok(()));
    assert_eq!(rt; write_request(&mut out, &[ANY]), Ok(()));
    assert_eq!(rt; write_routes(&mut out, &[]).is_ok(), true);
    assert_eq!(rt;
        out.as_slice(),
        b"\x01\x07\x01\x04\xc6\x33\x64\x09\x20\x02\x07\x01\x04\0\0\0\0\x20\x03\0".as_slice()
    );
    Ok(())
}

#[test]
fn routes_are_written(rt: HostRuntime) -> Result<(), Fail> {
    let mut out = Vec::new(rt.alloc());
    assert_eq!(rt; write_routes(&mut out, &ROUTES).is_ok(), true);
    let mut wanted = Vec::from_slice(rt.alloc(), b"\x03\x2c")?;
    wanted.extend_from_slice(ROUTES_TEXT)?;
    assert_eq!(rt; out.as_slice(), wanted.as_slice());
    Ok(())
}

#[test]
fn a_long_value_has_a_longer_length(rt: HostRuntime) -> Result<(), Fail> {
    let mut out = Vec::new(rt.alloc());
    assert_eq!(rt; write_assign(&mut out, &[WIDE, WIDE, WIDE]), Ok(()));
    assert_eq!(rt; out.as_slice().len(), 81);
    let (front, value) = out.as_slice().split_at(3);
    assert_eq!(rt; front, b"\x01\x40\x4e".as_slice());
    let list = read_assign(rt.alloc(), value)?;
    assert_eq!(rt; list.as_slice(), [WIDE, WIDE, WIDE].as_slice());
    Ok(())
}

#[test]
fn large_ids_are_refused(rt: HostRuntime) -> Result<(), Fail> {
    let mut out = Vec::from_slice(rt.alloc(), b"x")?;
    for &id in &[0x4000_0000_0000_0000, 0xffff_ffff_ffff_ffff] {
        let large = Given {
            id,
            block: WIDE.block,
        };
        assert_eq!(rt;
            write_assign(&mut out, &[NINE, large]),
            Err(WireFault::TooLarge)
        );
        let large = Asked {
            id,
            block: WIDE.block,
        };
        assert_eq!(rt; write_request(&mut out, &[large]), Err(WireFault::TooLarge));
        assert_eq!(rt; out.as_slice(), b"x".as_slice());
    }
    Ok(())
}

#[test]
fn a_fault_says_what_it_is(rt: HostRuntime) -> Result<(), Fail> {
    let rows = [
        (
            CapsFault::Truncated,
            "the value ends inside an entry or a range",
        ),
        (CapsFault::Version, "an IP version is neither 4 nor 6"),
        (
            CapsFault::Bits,
            "a prefix length is above the bits of its address, or a bit past it is set",
        ),
        (CapsFault::Empty, "a request has no entry"),
        (CapsFault::ZeroId, "an entry of a request has Request ID 0"),
        (
            CapsFault::Order,
            "a range is reversed, or is not behind the one before",
        ),
        (
            CapsFault::TooMany,
            "there are more entries or ranges than are taken",
        ),
        (CapsFault::NoMemory, "memory ran out"),
    ];
    for &(fault, text) in &rows {
        assert_eq!(rt; format!(in rt.alloc(); "{fault}")?.as_str(), text);
    }
    Ok(())
}
