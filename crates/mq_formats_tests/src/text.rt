//! Numbers at their limits, and texts with no separator, one and several.
use mq_text::{cut, parse_digits, parse_number, place};

/// Limits, texts, and the numbers that they spell.
const NUMBERS: [(u64, &[u8], Option<u64>); 24] = [
    (9, b"0", Some(0)),
    (0, b"0", Some(0)),
    (0, b"1", None),
    (9, b"9", Some(9)),
    (9, b"10", None),
    (255, b"255", Some(255)),
    (255, b"256", None),
    (65_535, b"65535", Some(65_535)),
    (65_535, b"65536", None),
    (65_535, b"443", Some(443)),
    (u64::MAX, b"18446744073709551615", Some(u64::MAX)),
    (u64::MAX, b"18446744073709551616", None),
    (u64::MAX, b"100000000000000000000", None),
    (9, b"", None),
    (9, b"00", None),
    (9, b"09", None),
    (9, b"+9", None),
    (9, b"-0", None),
    (9, b" 9", None),
    (9, b"9 ", None),
    (99, b"9a", None),
    (99, b"/", None),
    (99, b":", None),
    (99, b"\xff", None),
];

/// Texts of digits, which may begin with zeros, and their numbers.
const DIGITS: [(&[u8], Option<u64>); 12] = [
    (b"0", Some(0)),
    (b"000", Some(0)),
    (b"0443", Some(443)),
    (b"443", Some(443)),
    (b"18446744073709551615", Some(u64::MAX)),
    (b"0018446744073709551615", Some(u64::MAX)),
    (b"18446744073709551616", None),
    (b"", None),
    (b"+443", None),
    (b"-443", None),
    (b"44 3", None),
    (b"4\xc3\xa93", None),
];

/// Texts, and the parts before and behind their first colon.
const CUTS: [(&[u8], Option<(&[u8], &[u8])>); 8] = [
    (b"", None),
    (b"host", None),
    (b":", Some((b"", b""))),
    (b"host:443", Some((b"host", b"443"))),
    (b"host:", Some((b"host", b""))),
    (b":443", Some((b"", b"443"))),
    (b"2001:db8::1", Some((b"2001", b"db8::1"))),
    (b"::1", Some((b"", b":1"))),
];

#[test]
fn numbers_are_read_up_to_a_limit(rt: HostRuntime) {
    for &(limit, text, number) in &NUMBERS {
        assert!(rt; parse_number(limit, text) == number, "{limit} {text:?}");
    }
}

#[test]
fn digits_may_begin_with_zeros(rt: HostRuntime) {
    for &(text, number) in &DIGITS {
        assert!(rt; parse_digits(text) == number, "{text:?}");
    }
}

#[test]
fn texts_are_cut_at_the_first_separator(rt: HostRuntime) {
    for &(text, parts) in &CUTS {
        assert!(rt; cut(b':', text) == parts, "{text:?}");
        let before = parts.map(|(before, _)| before.len());
        assert!(rt; place(b':', text) == before, "{text:?}");
    }
}
