//! What waits in a tunnel: how much may, in which order it is framed, and when.

use super::{add_line, copied, filled, is, is_line, tunneled, writes};
use mq_conn::Conn;
use mq_talk::{From, Note};
use std::alloc::Global;
use std::process::Abort;
use std::test::Fail;

/// A packet of so many bytes comes from the tunnel's port.
fn comes(alloc: Global, conn: &mut Conn, n: u64, count: usize) -> Result<Note, Fail> {
    let packet = filled(alloc, 0x61, count)?;
    Ok(conn.deliver(From::Port(0), n, 0, packet))
}

/// Whether a packet of so many bytes finds a place.
fn waits(alloc: Global, conn: &mut Conn, n: u64, count: usize) -> Result<bool, Fail> {
    let note = comes(alloc, conn, n, count)?;
    Ok(matches!(&note, Note::Queued { .. }))
}

/// 64 find a place, and another one when one is framed.
fn wait_in_turn(rt: &impl Abort, alloc: Global, conn: &mut Conn) -> Result<(), Fail> {
    for n in 0..64 {
        assert!(rt; waits(alloc, conn, n, 1)?);
    }
    let note = comes(alloc, conn, 64, 1)?;
    is_line(rt, alloc, &note, "dropped port0 64 QueueFull\n")?;
    let note = conn.frame()?;
    is_line(rt, alloc, &note, "delivered port0 0 to 0 61\n")?;
    let note = comes(alloc, conn, 65, 1)?;
    is_line(rt, alloc, &note, "queued port0 65 to 0\n")
}

#[test]
fn sixty_four_wait(rt: HostRuntime) -> Result<(), Fail> {
    let mut conn = tunneled(rt.alloc())?;
    assert!(rt; !conn.can_frame());
    wait_in_turn(&rt, rt.alloc(), &mut conn)
}

/// So many bytes wait, and no more.
fn wait_by_bytes(rt: &impl Abort, alloc: Global, conn: &mut Conn) -> Result<(), Fail> {
    // A capsule of 65,533 bytes: its type, four of its length, the context and the payload.
    for n in 0..16 {
        assert!(rt; waits(alloc, conn, n, 65_527)?);
    }
    // 48 bytes are left.
    assert!(rt; !waits(alloc, conn, 16, 46)?);
    assert!(rt; waits(alloc, conn, 17, 45)?);
    assert!(rt; !waits(alloc, conn, 18, 0)?);
    Ok(())
}

#[test]
fn as_many_bytes_wait(rt: HostRuntime) -> Result<(), Fail> {
    let mut conn = tunneled(rt.alloc())?;
    wait_by_bytes(&rt, rt.alloc(), &mut conn)
}

/// A packet comes from the tunnel's port.
fn comes_with(alloc: Global, conn: &mut Conn, n: u64, packet: &[u8]) -> Result<Note, Fail> {
    let packet = copied(alloc, packet)?;
    Ok(conn.deliver(From::Port(0), n, 0, packet))
}

/// Two packets wait, and are framed and written in their order.
fn frame_in_order(rt: &impl Abort, alloc: Global, conn: &mut Conn) -> Result<(), Fail> {
    let note = comes_with(alloc, conn, 0, b"hi")?;
    is_line(rt, alloc, &note, "queued port0 0 to 0\n")?;
    let note = comes_with(alloc, conn, 1, b"")?;
    is_line(rt, alloc, &note, "queued port0 1 to 0\n")?;
    let text = written(alloc, conn)?;
    let want = "delivered port0 0 to 0 6869\ndelivered port0 1 to 0 \nwrote 0003006869000100\n";
    is(rt, text.as_str(), want);
    Ok(())
}

/// All is framed and written.
fn written(alloc: Global, conn: &mut Conn) -> Result<String, Fail> {
    let mut text = String::new(alloc);
    frames(alloc, conn, &mut text)?;
    writes(alloc, conn, &mut text)?;
    Ok(text)
}

#[test]
fn capsules_are_framed_in_order(rt: HostRuntime) -> Result<(), Fail> {
    let mut conn = tunneled(rt.alloc())?;
    frame_in_order(&rt, rt.alloc(), &mut conn)
}

/// All is framed that can be.
fn frames(alloc: Global, conn: &mut Conn, text: &mut String) -> Result<(), Fail> {
    for _ in 0..70 {
        if conn.can_frame() {
            let note = conn.frame()?;
            add_line(alloc, text, &note)?;
        }
    }
    Ok(())
}

/// Packets with these numbers and of so many bytes wait, and all is framed that can be.
fn wait_and_frame(
    rt: &impl Abort,
    alloc: Global,
    conn: &mut Conn,
    packets: &[(u64, usize)],
) -> Result<(), Fail> {
    for (n, count) in packets {
        assert!(rt; waits(alloc, conn, *n, *count)?);
    }
    frames(alloc, conn, &mut String::new(alloc))
}

#[test]
fn nothing_is_framed_or_read_above_65_535_owed(rt: HostRuntime) -> Result<(), Fail> {
    let mut conn = tunneled(rt.alloc())?;
    // A capsule of 65,533 bytes, one of 3, and another.
    wait_and_frame(&rt, rt.alloc(), &mut conn, &[(0, 65_527), (1, 0), (2, 0)])?;
    assert_eq!(rt; conn.owed().len(), 65_536);
    assert!(rt; !conn.can_read());
    assert!(rt; conn.frame().is_err());
    Ok(())
}

#[test]
fn fewer_than_65_536_owed(rt: HostRuntime) -> Result<(), Fail> {
    let mut conn = tunneled(rt.alloc())?;
    wait_and_frame(&rt, rt.alloc(), &mut conn, &[(0, 65_527), (1, 0)])?;
    conn.wrote(1);
    assert_eq!(rt; conn.owed().len(), 65_535);
    assert!(rt; conn.can_read());
    Ok(())
}

#[test]
fn a_tunnel_that_is_gone(rt: HostRuntime) -> Result<(), Fail> {
    let packet = copied(rt.alloc(), b"hi")?;
    let mut conn = tunneled(rt.alloc())?;
    let note = conn.deliver(From::Port(0), 3, 1, packet);
    is_line(&rt, rt.alloc(), &note, "dropped port0 3 Gone\n")
}
