//! The integers of RFC 9000, appendix A.1, and the answers around them.
use mq_wire::{Bytes, NoMemory, Seq, Varint, WireFault, read_varint, write_varint};
use std::test::Fail;

/// Spellings, and what is read at their front.
const READ: [(&[u8], Varint); 17] = [
    (
        b"\xc2\x19\x7c\x5e\xff\x14\xe8\x8c",
        Varint::Got {
            value: 151_288_809_941_952_652,
            used: 8,
        },
    ),
    (
        b"\x9d\x7f\x3e\x7d",
        Varint::Got {
            value: 494_878_333,
            used: 4,
        },
    ),
    (
        b"\x7b\xbd",
        Varint::Got {
            value: 15_293,
            used: 2,
        },
    ),
    (b"\x25", Varint::Got { value: 37, used: 1 }),
    (b"\x40\x25", Varint::Got { value: 37, used: 2 }),
    (b"\x25\xff", Varint::Got { value: 37, used: 1 }),
    (b"\x00", Varint::Got { value: 0, used: 1 }),
    (b"\x3f", Varint::Got { value: 63, used: 1 }),
    (b"\x80\x00\x00\x00\x07", Varint::Got { value: 0, used: 4 }),
    (
        b"\xff\xff\xff\xff\xff\xff\xff\xff",
        Varint::Got {
            value: 4_611_686_018_427_387_903,
            used: 8,
        },
    ),
    (b"", Varint::Short),
    (b"\x40", Varint::Short),
    (b"\x7f", Varint::Short),
    (b"\x80\x00\x00", Varint::Short),
    (b"\xbf", Varint::Short),
    (b"\xc0\x00\x00\x00\x00\x00\x00", Varint::Short),
    (b"\xff", Varint::Short),
];

/// Numbers, and their spellings.
const WRITTEN: [(u64, &[u8]); 12] = [
    (0, b"\x00"),
    (37, b"\x25"),
    (63, b"\x3f"),
    (64, b"\x40\x40"),
    (15_293, b"\x7b\xbd"),
    (16_383, b"\x7f\xff"),
    (16_384, b"\x80\x00\x40\x00"),
    (494_878_333, b"\x9d\x7f\x3e\x7d"),
    (1_073_741_823, b"\xbf\xff\xff\xff"),
    (1_073_741_824, b"\xc0\x00\x00\x00\x40\x00\x00\x00"),
    (151_288_809_941_952_652, b"\xc2\x19\x7c\x5e\xff\x14\xe8\x8c"),
    (
        4_611_686_018_427_387_903,
        b"\xff\xff\xff\xff\xff\xff\xff\xff",
    ),
];

#[test]
fn integers_are_read(rt: HostRuntime) {
    for &(bytes, answer) in &READ {
        assert!(rt; read_varint(bytes) == answer, "{bytes:?}");
    }
}

#[test]
fn integers_are_written(rt: HostRuntime) -> Result<(), Fail> {
    for &(value, spelling) in &WRITTEN {
        let mut out = Vec::from_slice(rt.alloc(), b"x")?;
        assert!(rt; write_varint(&mut out, value) == Ok(()), "{value}");
        assert!(rt; out.as_slice().split_at(1).1 == spelling, "{value}");
    }
    Ok(())
}

#[test]
fn large_numbers_are_refused(rt: HostRuntime) {
    for &value in &[0x4000_0000_0000_0000, 0xffff_ffff_ffff_ffff] {
        let mut out = Vec::new(rt.alloc());
        assert!(rt;
            write_varint(&mut out, value) == Err(WireFault::TooLarge),
            "{value}"
        );
        assert_eq!(rt; out.len(), 0);
    }
}

#[test]
fn lists_give_back_what_they_hold(rt: HostRuntime) -> Result<(), Fail> {
    let bytes = Bytes::from_vec(Vec::from_slice(rt.alloc(), b"hi")?);
    assert_eq!(rt; bytes.as_slice(), b"hi".as_slice());
    assert_eq!(rt; bytes.into_vec().as_slice(), b"hi".as_slice());
    let numbers = Seq::from_vec(Vec::from_slice(rt.alloc(), &[7u32, 9])?);
    assert_eq!(rt; numbers.as_slice(), [7, 9].as_slice());
    assert_eq!(rt; numbers.into_vec().as_slice(), [7, 9].as_slice());
    Ok(())
}

#[test]
fn errors_have_texts(rt: HostRuntime) -> Result<(), Fail> {
    let text = format!(in rt.alloc(); "{}; {}", NoMemory, WireFault::TooLarge)?;
    assert_eq!(rt; text.as_str(), "memory ran out; the number is 2^62 or more");
    Ok(())
}
