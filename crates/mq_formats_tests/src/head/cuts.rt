//! Heads in pieces.
use super::*;

/// Three heads, each with its answer.
const HEADS: [(&[u8], Want); 3] = [
    (
        b"GET https://example.org/.well-known/masque/udp/192.0.2.6/443/ HTTP/1.1\r\nHost: example.org\r\nConnection: Upgrade\r\nUpgrade: connect-udp\r\nCapsule-Protocol: ?1\r\n\r\n",
        Want::Udp(b"/.well-known/masque/udp/192.0.2.6/443/"),
    ),
    (
        b"\r\nGET /ip HTTP/1.1\nHost: p\nConnection: a, upgrade\nUpgrade: connect-ip\n\n",
        Want::Ip(b"/ip"),
    ),
    (b"POST /p HTTP/1.1\r\nHost: p\r\n\r\n", Want::Refused(501)),
];

/// The head, cut at this byte, with three bytes behind it.
fn in_two(alloc: Global, head: &[u8], cut: usize) -> Result<(HeadStep, HeadStep), Fail> {
    let mut reader = HeadReader::new();
    let (front, back) = head.split_at(cut.min(head.len()));
    let first = reader.feed(alloc, front)?;
    let mut rest = Vec::from_slice(alloc, back)?;
    rest.extend_from_slice(b"\x00\x01\x00")?;
    let second = reader.feed(alloc, rest.as_slice())?;
    Ok((first, second))
}

#[test]
fn every_cutting_gives_the_same_answer(rt: HostRuntime) -> Result<(), Fail> {
    for &(head, want) in &HEADS {
        for cut in 0..head.len() {
            let (first, second) = in_two(rt.alloc(), head, cut)?;
            assert!(rt; is_wanted(&first, Want::More), "cut at {cut}");
            assert!(rt; is_wanted(&second, want), "cut at {cut}");
            if let HeadStep::Upgrade { used, .. } = &second {
                assert!(rt;
                    *used as usize == head.len().saturating_sub(cut),
                    "cut at {cut}"
                );
            }
        }
    }
    Ok(())
}

#[test]
fn used_counts_the_last_piece_alone(rt: HostRuntime) -> Result<(), Fail> {
    let (head, want) = HEADS[0];
    let (first, second) = in_two(rt.alloc(), head, 100)?;
    assert!(rt; is_wanted(&first, Want::More));
    assert!(rt; is_wanted(&second, want));
    assert!(rt; matches!(&second, HeadStep::Upgrade { used: 58, .. }));
    Ok(())
}

#[test]
fn a_reader_is_spent_after_its_last_answer(rt: HostRuntime) -> Result<(), Fail> {
    let mut reader = HeadReader::new();
    let step = reader.feed(rt.alloc(), b"GET / HTTP/1.1\r\n\r\n")?;
    assert!(rt; is_wanted(&step, Want::Refused(400)));
    assert!(rt; reader.feed(rt.alloc(), b"GET").is_err());
    Ok(())
}
