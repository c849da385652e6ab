//! Vectors from outside: the strings of RFC 7541, appendix C, and inputs that only a decoder with a
//! hole takes.
use mq_huff::{HuffFault, decode, encode, encoded_len};
use std::alloc::{AllocError, Global};
use std::test::Fail;

/// The strings in the examples of RFC 7541, appendices C.4 and C.6.
#[rattlefmt::skip]
const VECTORS: [(&[u8], &[u8]); 13] = [
    (b"www.example.com", &[0xf1, 0xe3, 0xc2, 0xe5, 0xf2, 0x3a, 0x6b, 0xa0, 0xab, 0x90, 0xf4, 0xff]),
    (b"no-cache", &[0xa8, 0xeb, 0x10, 0x64, 0x9c, 0xbf]),
    (b"custom-key", &[0x25, 0xa8, 0x49, 0xe9, 0x5b, 0xa9, 0x7d, 0x7f]),
    (b"custom-value", &[0x25, 0xa8, 0x49, 0xe9, 0x5b, 0xb8, 0xe8, 0xb4, 0xbf]),
    (b"302", &[0x64, 0x02]),
    (b"private", &[0xae, 0xc3, 0x77, 0x1a, 0x4b]),
    (b"Mon, 21 Oct 2013 20:13:21 GMT", &[0xd0, 0x7a, 0xbe, 0x94, 0x10, 0x54, 0xd4, 0x44, 0xa8, 0x20, 0x05, 0x95, 0x04, 0x0b, 0x81, 0x66, 0xe0, 0x82, 0xa6, 0x2d, 0x1b, 0xff]),
    (b"https://www.example.com", &[0x9d, 0x29, 0xad, 0x17, 0x18, 0x63, 0xc7, 0x8f, 0x0b, 0x97, 0xc8, 0xe9, 0xae, 0x82, 0xae, 0x43, 0xd3]),
    (b"307", &[0x64, 0x0e, 0xff]),
    (b"Mon, 21 Oct 2013 20:13:22 GMT", &[0xd0, 0x7a, 0xbe, 0x94, 0x10, 0x54, 0xd4, 0x44, 0xa8, 0x20, 0x05, 0x95, 0x04, 0x0b, 0x81, 0x66, 0xe0, 0x84, 0xa6, 0x2d, 0x1b, 0xff]),
    (b"gzip", &[0x9b, 0xd9, 0xab]),
    (b"foo=ASDJKHQKBZXOQWEOPIUAXQWEOIU; max-age=3600; version=1", &[0x94, 0xe7, 0x82, 0x1d, 0xd7, 0xf2, 0xe6, 0xc7, 0xb3, 0x35, 0xdf, 0xdf, 0xcd, 0x5b, 0x39, 0x60, 0xd5, 0xaf, 0x27, 0x08, 0x7f, 0x36, 0x72, 0xc1, 0xab, 0x27, 0x0f, 0xb5, 0x29, 0x1f, 0x95, 0x87, 0x31, 0x60, 0x65, 0xc0, 0x03, 0xed, 0x4e, 0xe5, 0xb1, 0x06, 0x3d, 0x50, 0x07]),
    (b"", &[]),
];

fn encoded(alloc: Global, text: &[u8]) -> Result<Vec<u8>, AllocError> {
    let mut out = Vec::new(alloc);
    encode(&mut out, text)?;
    Ok(out)
}

#[test]
fn the_examples_of_the_standard_go_both_ways(rt: HostRuntime) {
    for &(text, coded) in &VECTORS {
        let written = encoded(rt.alloc(), text);
        assert!(rt; written.is_ok_and(|w| w.as_slice() == coded), "{text:?}");
        let read = decode(rt.alloc(), coded);
        assert!(rt; read.is_ok_and(|r| r.as_slice() == text), "{text:?}");
        assert!(rt;
            text.len() < 0x1000 && encoded_len(text) == coded.len() as u64,
            "{text:?}"
        );
    }
}

#[test]
fn padding_and_eos_are_refused(rt: HostRuntime) {
    let padding: [&[u8]; 4] = [&[0x18], &[0x1f, 0xff], &[0xff], &[0x1e]];
    for &coded in &padding {
        assert!(rt;
            decode(rt.alloc(), coded).is_err_and(|f| f == HuffFault::Padding),
            "{coded:?}"
        );
    }
    let eos: [&[u8]; 3] = [
        &[0xff, 0xff, 0xff, 0xff],
        &[0x1f, 0xff, 0xff, 0xff, 0xff],
        &[0xff, 0xff, 0xff, 0xfc],
    ];
    for &coded in &eos {
        assert!(rt;
            decode(rt.alloc(), coded).is_err_and(|f| f == HuffFault::Eos),
            "{coded:?}"
        );
    }
    assert!(rt; decode(rt.alloc(), &[0x1f]).is_ok_and(|r| r.as_slice() == b"a".as_slice()));
}

/// A text of two symbols after so many times `0`, whose code has five bits.
fn at_offset(alloc: Global, offset: usize, first: u8, second: u8) -> Result<Vec<u8>, AllocError> {
    let mut text = Vec::new(alloc);
    for _ in 0..offset {
        text.push(b'0')?;
    }
    text.push(first)?;
    text.push(second)?;
    Ok(text)
}

fn comes_back(alloc: Global, text: &[u8]) -> bool {
    let Ok(coded) = encoded(alloc, text) else {
        return false;
    };
    decode(alloc, coded.as_slice()).is_ok_and(|r| r.as_slice() == text)
}

#[test]
fn every_byte_and_every_offset_come_back(rt: HostRuntime) {
    for byte in 0..=255 {
        assert!(rt; comes_back(rt.alloc(), &[byte]), "byte {byte}");
    }
    for offset in 0..8 {
        for short in b"012aceiost" {
            for &long in &[10, 13, 22] {
                let text = at_offset(rt.alloc(), offset, *short, long);
                assert!(rt;
                    text.is_ok_and(|t| comes_back(rt.alloc(), t.as_slice())),
                    "{offset} {short} {long}"
                );
                let text = at_offset(rt.alloc(), offset, long, *short);
                assert!(rt;
                    text.is_ok_and(|t| comes_back(rt.alloc(), t.as_slice())),
                    "{offset} {long} {short}"
                );
            }
        }
    }
}

#[test]
fn a_fault_says_what_it_is(rt: HostRuntime) -> Result<(), Fail> {
    let rows = [
        (
            HuffFault::Padding,
            "the padding is longer than seven bits, or has a zero bit",
        ),
        (HuffFault::Eos, "the code of EOS stands in the text"),
        (HuffFault::NoMemory, "memory ran out"),
    ];
    for &(fault, text) in &rows {
        assert_eq!(rt; format!(in rt.alloc(); "{fault}")?.as_str(), text);
    }
    Ok(())
}
