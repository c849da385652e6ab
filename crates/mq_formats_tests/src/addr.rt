//! Texts with the verdicts of the RFCs, and a few addresses as numbers. That the texts equal their grammar is proved; these
//! show that the grammar is the RFCs'.
use mq_addr::*;
use std::test::Fail;

/// Addresses, each with the text of RFC 5952 for it (without its dotted form). From RFC 4291, section 2.2; RFC 5952,
/// sections 1, 2 and 4; RFC 3986, section 3.2.2; RFC 6052, section 2.4; and the smallest and largest.
const ADDRESSES: [(&str, &str); 42] = [
    ("0.0.0.0", "0.0.0.0"),
    ("255.255.255.255", "255.255.255.255"),
    ("192.0.2.16", "192.0.2.16"),
    ("7.10.100.250", "7.10.100.250"),
    (
        "ABCD:EF01:2345:6789:ABCD:EF01:2345:6789",
        "abcd:ef01:2345:6789:abcd:ef01:2345:6789",
    ),
    ("2001:DB8:0:0:8:800:200C:417A", "2001:db8::8:800:200c:417a"),
    ("2001:DB8::8:800:200C:417A", "2001:db8::8:800:200c:417a"),
    ("FF01:0:0:0:0:0:0:101", "ff01::101"),
    ("FF01::101", "ff01::101"),
    ("0:0:0:0:0:0:0:1", "::1"),
    ("::1", "::1"),
    ("0:0:0:0:0:0:0:0", "::"),
    ("::", "::"),
    ("0:0:0:0:0:0:13.1.68.3", "::d01:4403"),
    ("::13.1.68.3", "::d01:4403"),
    ("0:0:0:0:0:FFFF:129.144.52.38", "::ffff:8190:3426"),
    ("::FFFF:129.144.52.38", "::ffff:8190:3426"),
    ("::ffff:1.2.3.4", "::ffff:102:304"),
    ("2001:db8:0:0:1:0:0:1", "2001:db8::1:0:0:1"),
    ("2001:0db8:0:0:1:0:0:1", "2001:db8::1:0:0:1"),
    ("2001:db8::1:0:0:1", "2001:db8::1:0:0:1"),
    ("2001:db8::0:1:0:0:1", "2001:db8::1:0:0:1"),
    ("2001:0db8::1:0:0:1", "2001:db8::1:0:0:1"),
    ("2001:db8:0:0:1::1", "2001:db8::1:0:0:1"),
    ("2001:db8:0000:0:1::1", "2001:db8::1:0:0:1"),
    ("2001:DB8:0:0:1::1", "2001:db8::1:0:0:1"),
    ("2001:DB8:0:0::1", "2001:db8::1"),
    (
        "2001:db8:aaaa:bbbb:cccc:dddd:eeee:0001",
        "2001:db8:aaaa:bbbb:cccc:dddd:eeee:1",
    ),
    ("2001:db8:0:0:0:0:2:1", "2001:db8::2:1"),
    ("2001:db8::0:1", "2001:db8::1"),
    ("2001:db8::1:1:1:1:1", "2001:db8:0:1:1:1:1:1"),
    ("2001:db8:0:1:1:1:1:1", "2001:db8:0:1:1:1:1:1"),
    ("2001:0:0:1:0:0:0:1", "2001:0:0:1::1"),
    ("2001:0:0:1:0:0:1:0", "2001::1:0:0:1:0"),
    ("64:ff9b::192.0.2.33", "64:ff9b::c000:221"),
    ("64:FF9B:0:0:0:0:192.0.2.33", "64:ff9b::c000:221"),
    ("1:2:3:4:5:6:7::", "1:2:3:4:5:6:7:0"),
    ("::2:3:4:5:6:7:8", "0:2:3:4:5:6:7:8"),
    ("1::8", "1::8"),
    ("1:0:3:0:5:0:7:0", "1:0:3:0:5:0:7:0"),
    (
        "ffff:ffff:ffff:ffff:ffff:ffff:ffff:ffff",
        "ffff:ffff:ffff:ffff:ffff:ffff:ffff:ffff",
    ),
    (
        "FFFF:FFFF:FFFF:FFFF:FFFF:FFFF:255.255.255.255",
        "ffff:ffff:ffff:ffff:ffff:ffff:ffff:ffff",
    ),
];

/// Texts that are no address: IPv4 with a number above 255, a leading zero or other parts than four; IPv6 with other groups
/// than eight, two `::`, `::` for none, a group of five digits, or a dotted part elsewhere than at the end.
const NO_ADDRESSES: [&str; 44] = [
    "",
    " ",
    "192.0.2.256",
    "256.0.2.1",
    "192.0.2.06",
    "192.0.2.01",
    "00.0.0.0",
    "0300.0.2.1",
    "0xc0.0.2.1",
    "192.0.2",
    "192.0.2.1.1",
    "192.0.2.",
    ".192.0.2.1",
    "192..2.1",
    "192.0.2.1 ",
    " 192.0.2.1",
    "192.0.2.-1",
    "192.0.2.+1",
    "192.0.2.1a",
    "3221225985",
    ":",
    ":::",
    "1:2:3:4:5:6:7",
    "1:2:3:4:5:6:7:8:9",
    "1:2:3:4:5:6:7:8::",
    "::1:2:3:4:5:6:7:8",
    "1:2:3:4::5:6:7:8",
    "1::2::3",
    "2001:db8:::1",
    ":2001:db8::1",
    "2001:db8::1:",
    "2001:db8::12345",
    "2001:db8::g",
    "2001:db8::-1",
    "[2001:db8::1]",
    "fe80::1%1",
    "::192.0.2.256",
    "::192.0.2.01",
    "::192.0.2",
    "192.0.2.1::",
    "1:192.0.2.1:3:4:5:6:7",
    "1:2:3:4:5:6:7:192.0.2.1",
    "1:2:3:4:5:6::192.0.2.1:1",
    "2001:db8::1/128",
];

/// Prefixes, each with the text that is printed of it (RFC 4632, section 3.1; RFC 4291, section 2.3).
const PREFIXES: [(&str, &str); 17] = [
    ("0.0.0.0/0", "0.0.0.0/0"),
    ("10.0.0.0/8", "10.0.0.0/8"),
    ("192.168.99.0/24", "192.168.99.0/24"),
    ("172.16.0.0/12", "172.16.0.0/12"),
    ("192.0.2.128/25", "192.0.2.128/25"),
    ("192.0.2.254/31", "192.0.2.254/31"),
    ("192.0.2.1/32", "192.0.2.1/32"),
    ("192.0.2.1", "192.0.2.1/32"),
    ("::/0", "::/0"),
    (
        "2001:0DB8:0000:CD30:0000:0000:0000:0000/60",
        "2001:db8:0:cd30::/60",
    ),
    ("2001:0DB8::CD30:0:0:0:0/60", "2001:db8:0:cd30::/60"),
    ("2001:0DB8:0:CD30::/60", "2001:db8:0:cd30::/60"),
    ("8000::/1", "8000::/1"),
    ("::ffff:192.0.2.0/120", "::ffff:c000:200/120"),
    ("2001:db8::1/128", "2001:db8::1/128"),
    ("2001:db8::1", "2001:db8::1/128"),
    (
        "ffff:ffff:ffff:ffff:ffff:ffff:ffff:ffff/128",
        "ffff:ffff:ffff:ffff:ffff:ffff:ffff:ffff/128",
    ),
];

/// Texts that are no prefix, each with its fault.
const NO_PREFIXES: [(&str, AddrFault); 26] = [
    ("192.0.2.1/24", AddrFault::Bits),
    ("192.0.2.1/0", AddrFault::Bits),
    ("192.0.2.1/31", AddrFault::Bits),
    ("128.0.0.0/0", AddrFault::Bits),
    ("2001:db8::1/64", AddrFault::Bits),
    ("2001:db8::1/127", AddrFault::Bits),
    ("2001:0DB8:0:CD30:123:4567:89AB:CDEF/60", AddrFault::Bits),
    ("8000::/0", AddrFault::Bits),
    ("192.0.2.0/33", AddrFault::Syntax),
    ("192.0.2.1/33", AddrFault::Syntax),
    ("2001:db8::/129", AddrFault::Syntax),
    ("192.0.2.0/", AddrFault::Syntax),
    ("/24", AddrFault::Syntax),
    ("/", AddrFault::Syntax),
    ("", AddrFault::Syntax),
    ("192.0.2.0/024", AddrFault::Syntax),
    ("0.0.0.0/00", AddrFault::Syntax),
    ("192.0.2.0/+24", AddrFault::Syntax),
    ("192.0.2.0/-1", AddrFault::Syntax),
    ("192.0.2.0/24/24", AddrFault::Syntax),
    ("192.0.2.0//24", AddrFault::Syntax),
    ("192.0.2.0/24 ", AddrFault::Syntax),
    ("192.0.2/24", AddrFault::Syntax),
    ("192.0.2.0/255.255.255.0", AddrFault::Syntax),
    ("192.0.2.256/24", AddrFault::Syntax),
    ("192.0.2.0/18446744073709551640", AddrFault::Syntax),
];

/// Blocks, each with its first and its last address.
const BLOCKS: [(&str, &str, &str); 6] = [
    ("192.0.2.0/24", "192.0.2.0", "192.0.2.255"),
    ("0.0.0.0/0", "0.0.0.0", "255.255.255.255"),
    ("192.0.2.7/32", "192.0.2.7", "192.0.2.7"),
    (
        "2001:db8::/32",
        "2001:db8::",
        "2001:db8:ffff:ffff:ffff:ffff:ffff:ffff",
    ),
    ("::/0", "::", "ffff:ffff:ffff:ffff:ffff:ffff:ffff:ffff"),
    ("2001:db8::1/128", "2001:db8::1", "2001:db8::1"),
];

/// Pairs of a block and an address outside of it: one number before or behind, or of the other version.
const OUTSIDE: [(&str, &str); 8] = [
    ("192.0.2.0/24", "192.0.1.255"),
    ("192.0.2.0/24", "192.0.3.0"),
    ("192.0.2.7/32", "192.0.2.6"),
    ("0.0.0.0/0", "::"),
    ("::/0", "0.0.0.0"),
    ("2001:db8::/32", "2001:db7:ffff:ffff:ffff:ffff:ffff:ffff"),
    ("2001:db8::/32", "2001:db9::"),
    ("::ffff:0.0.0.0/96", "192.0.2.1"),
];

/// Pairs of blocks, and whether they have an address in common.
const PAIRS: [(&str, &str, bool); 8] = [
    ("10.0.0.0/8", "10.1.0.0/16", true),
    ("10.1.0.0/16", "10.0.0.0/8", true),
    ("10.0.0.0/9", "10.128.0.0/9", false),
    ("0.0.0.0/0", "192.0.2.1/32", true),
    ("0.0.0.0/0", "::/0", false),
    ("2001:db8::/33", "2001:db8:8000::/33", false),
    ("2001:db8::/32", "2001:db8:8000::/33", true),
    ("192.0.2.1/32", "192.0.2.1/32", true),
];

#[test]
fn addresses_are_read_and_printed(rt: HostRuntime) {
    for &(text, printed) in &ADDRESSES {
        let Ok(addr) = parse_addr(text.as_bytes()) else {
            assert!(rt; false, "{text}");
            return;
        };
        assert!(rt; addr_text(&addr).as_slice() == printed.as_bytes(), "{text}");
    }
}

#[test]
fn addresses_are_these_numbers(rt: HostRuntime) {
    assert_eq!(rt; parse_addr(b"192.0.2.16"), Ok(Addr::V4(0xc000_0210)));
    assert_eq!(rt;
        parse_addr(b"2001:db8::8:800:200c:417a"),
        Ok(Addr::V6(0x2001_0db8_0000_0000_0008_0800_200c_417a))
    );
    assert_eq!(rt;
        parse_addr(b"::ffff:1.2.3.4"),
        Ok(Addr::V6(0xffff_0102_0304))
    );
}

#[test]
fn other_texts_are_no_addresses(rt: HostRuntime) {
    for &text in &NO_ADDRESSES {
        assert!(rt;
            parse_addr(text.as_bytes()) == Err(AddrFault::Syntax),
            "{text}"
        );
    }
}

#[test]
fn prefixes_are_read_and_printed(rt: HostRuntime) {
    for &(text, printed) in &PREFIXES {
        let Ok(block) = parse_prefix(text.as_bytes()) else {
            assert!(rt; false, "{text}");
            return;
        };
        assert!(rt;
            prefix_text(&block).as_slice() == printed.as_bytes(),
            "{text}"
        );
    }
    for &(text, fault) in &NO_PREFIXES {
        assert!(rt; parse_prefix(text.as_bytes()) == Err(fault), "{text}");
    }
}

/// Whether both texts are read and the address lies in the block.
fn lies_in(block: &str, addr: &str) -> Option<bool> {
    let block = parse_prefix(block.as_bytes()).ok()?;
    let addr = parse_addr(addr.as_bytes()).ok()?;
    Some(contains(&block, &addr))
}

/// Whether both texts are read and the blocks overlap.
fn meet(a: &str, b: &str) -> Option<bool> {
    let a = parse_prefix(a.as_bytes()).ok()?;
    let b = parse_prefix(b.as_bytes()).ok()?;
    Some(overlaps(&a, &b))
}

#[test]
fn blocks_hold_their_ends_and_nothing_beside(rt: HostRuntime) {
    for &(block, first, last) in &BLOCKS {
        assert!(rt; lies_in(block, first) == Some(true), "{block} {first}");
        assert!(rt; lies_in(block, last) == Some(true), "{block} {last}");
    }
    for &(block, addr) in &OUTSIDE {
        assert!(rt; lies_in(block, addr) == Some(false), "{block} {addr}");
    }
    for &(a, b, both) in &PAIRS {
        assert!(rt; meet(a, b) == Some(both), "{a} {b}");
    }
}

#[test]
fn faults_have_texts(rt: HostRuntime) -> Result<(), Fail> {
    let text = format!(in rt.alloc(); "{}; {}", AddrFault::Bits, HeaderFault::Version)?;
    assert_eq!(rt;
        text.as_str(),
        "a bit past the prefix length is set; the version is neither 4 nor 6"
    );
    Ok(())
}
