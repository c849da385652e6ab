//! Packets that come from the network, while no tunnel is for IP packets. The header checksums are another program's.

use super::{PLAIN, prints, replayed};
use mq_replay::Status;
use std::alloc::{AllocError, Global};
use std::test::Fail;

/// Scripts of packets with what they print: no tunnel is the way of a sound packet, one whose source is in the pool doesn't come
/// from the network, and one whose header is cut off or has another checksum has a bad header. An order for a send on the network
/// prints nothing.
const DROPPED: [(&[u8], &[u8]); 5] = [
    (
        b"packet 2 4500001d00000000401134cacb0071050a00000100070fa00009000061\nstep net 3\n",
        b"dropped net 0 NoRoute\ndropped net 1 NoRoute\nidle net\n",
    ),
    (
        b"packet 1 4500001d00000000401134cbcb0071050a00000100070fa00009000061\nstep net\n",
        b"dropped net 0 BadHeader\n",
    ),
    (
        b"pool 10.0.0.0/24\npacket 1 4500001d00000000401166c70a0000090a00000100070fa00009000061\nrun 9\n",
        b"dropped net 0 Source\n",
    ),
    (
        b"conn 0\npacket 3 45\nrun 3\nstep net 9\n",
        b"accepted 0 0\ndropped net 0 BadHeader\ndropped net 1 BadHeader\nmore\ndropped net 2 BadHeader\nidle net\n",
    ),
    (
        b"host 203.0.113.5\nfailnet\nstep net 2\nrun 1\n",
        b"idle net\n",
    ),
];

#[test]
fn packets_are_dropped_by_cause(rt: HostRuntime) -> Result<(), Fail> {
    for &(script, want) in &DROPPED {
        prints(&rt, rt.alloc(), script, &PLAIN, Status::Done, want)?;
    }
    Ok(())
}

/// One packet that begins so, filled up to this length, and a step of the network.
fn with_packet(alloc: Global, front: &[u8], length: usize) -> Result<Vec<u8>, AllocError> {
    let mut script = Vec::from_slice(alloc, b"mtu 1280\npacket 1 ".as_slice())?;
    script.extend_from_slice(front)?;
    for _ in front.len() / 2..length {
        script.extend_from_slice(b"61".as_slice())?;
    }
    script.extend_from_slice(b"\nstep net\n".as_slice())?;
    Ok(script)
}

#[test]
fn a_packet_is_as_long_as_it_may_be(rt: HostRuntime) -> Result<(), Fail> {
    let fits: &[u8] = b"450005000000000040112fe7cb0071050a000001";
    let longer: &[u8] = b"450005010000000040112fe6cb0071050a000001";
    let cases: [(&[u8], usize, &[u8]); 4] = [
        (fits, 1_280, b"dropped net 0 NoRoute\n"),
        (longer, 1_281, b"dropped net 0 TooLong\n"),
        (b"61", 65_535, b"dropped net 0 BadHeader\n"),
        (b"61", 65_536, b"bad line 2\n"),
    ];
    for &(front, length, want) in &cases {
        let script = with_packet(rt.alloc(), front, length)?;
        let (_, out) = replayed(rt.alloc(), script.as_slice(), &PLAIN)?;
        assert_eq!(rt; out.as_slice(), want);
    }
    Ok(())
}
