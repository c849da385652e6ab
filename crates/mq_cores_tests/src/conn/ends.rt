//! How a connection ends, in each state, and why its tunnel closes.

use super::{REQUEST, WILLING, acts, copied, is, over, settles, setup, tunneled};
use mq_conn::{Conn, Want};
use mq_talk::{Call, End, From, Reply};
use mq_wire::Seq;
use std::alloc::Global;
use std::process::Abort;
use std::test::Fail;

fn feeds(alloc: Global, conn: &mut Conn, piece: &[u8]) -> Result<(), Fail> {
    let setup = setup(alloc)?;
    conn.feed(&setup, piece)?;
    Ok(())
}

/// A connection that read this.
fn after(alloc: Global, piece: &[u8]) -> Result<Conn, Fail> {
    let mut conn = Conn::new(alloc, 0, 0)?;
    if !piece.is_empty() {
        feeds(alloc, &mut conn, piece)?;
    }
    Ok(conn)
}

/// It does this until it is over.
fn is_rest(rt: &impl Abort, alloc: Global, conn: &mut Conn, want: &str) -> Result<(), Fail> {
    let mut text = String::new(alloc);
    settles(alloc, conn, WILLING, &mut text)?;
    is(rt, text.as_str(), want);
    Ok(())
}

/// A packet comes from the port of its tunnel.
fn delivers(alloc: Global, conn: &mut Conn) -> Result<(), Fail> {
    let packet = copied(alloc, b"hi")?;
    let _ = conn.deliver(From::Port(0), 0, 0, packet);
    Ok(())
}

/// A connection that read this ends with its link like this.
fn ends(rt: &impl Abort, alloc: Global, piece: &[u8], want: &str) -> Result<(), Fail> {
    let mut conn = after(alloc, piece)?;
    if !conn.can_read() {
        return Ok(());
    }
    conn.finish();
    is_rest(rt, alloc, &mut conn, want)
}

#[test]
fn a_link_ends_inside_a_head(rt: HostRuntime) -> Result<(), Fail> {
    for &(piece, want) in &[
        (b"".as_slice(), "ended Done\n"),
        (b"G".as_slice(), "ended Truncated\n"),
        (b"\r\n".as_slice(), "ended Truncated\n"),
        (b"PRI * HTTP/2.0\r\n\r\n".as_slice(), "ended Truncated\n"),
    ] {
        ends(&rt, rt.alloc(), piece, want)?;
    }
    Ok(())
}

/// A connection that read this fails like this.
fn fails(rt: &impl Abort, alloc: Global, piece: &[u8], why: End, want: &str) -> Result<(), Fail> {
    let mut conn = after(alloc, piece)?;
    conn.fail(why);
    assert!(rt; !conn.can_read());
    is_rest(rt, alloc, &mut conn, want)
}

/// A connection that owes bytes fails: its tunnel closes, and it is over.
fn owes_and_fails(
    rt: &impl Abort,
    alloc: Global,
    conn: &mut Conn,
    why: End,
    want: &str,
) -> Result<(), Fail> {
    acts(alloc, conn, WILLING, &mut String::new(alloc))?;
    assert!(rt; !conn.owed().is_empty());
    conn.fail(why);
    let mut text = String::new(alloc);
    acts(alloc, conn, WILLING, &mut text)?;
    over(alloc, conn, &mut text)?;
    let end = text.strip_prefix("closed 0 Conn left 0\n").unwrap_or("");
    is(rt, end, want);
    Ok(())
}

#[test]
fn a_link_fails_or_memory_is_refused(rt: HostRuntime) -> Result<(), Fail> {
    for &(why, want) in &[
        (End::Link, "ended Link\n"),
        (End::NoMemory, "ended NoMemory\n"),
    ] {
        // Before the head, with a request due, with a refusal due, and with bytes owed.
        for &piece in &[b"".as_slice(), b"GET", REQUEST, b"GET / HTTP/1.1\r\n\r\n"] {
            fails(&rt, rt.alloc(), piece, why, want)?;
        }
        let mut conn = after(rt.alloc(), REQUEST)?;
        owes_and_fails(&rt, rt.alloc(), &mut conn, why, want)?;
    }
    Ok(())
}

#[test]
fn a_port_fails(rt: HostRuntime) -> Result<(), Fail> {
    let mut conn = tunneled(rt.alloc())?;
    delivers(rt.alloc(), &mut conn)?;
    conn.shut(1);
    assert!(rt; !conn.wants());
    conn.shut(0);
    assert!(rt; conn.wants());
    is_rest(
        &rt,
        rt.alloc(),
        &mut conn,
        "closed 0 Port left 1\nended Tunnel\n",
    )
}

/// A port fails while a payload waits for it: the tunnel closes before that.
#[test]
fn a_port_fails_before_a_send(rt: HostRuntime) -> Result<(), Fail> {
    let mut conn = tunneled(rt.alloc())?;
    feeds(rt.alloc(), &mut conn, &[0, 3, 0, 0x68, 0x69])?;
    assert_eq!(rt; conn.payload(), b"hi".as_slice());
    conn.shut(0);
    assert!(rt; conn.payload().is_empty());
    is_rest(
        &rt,
        rt.alloc(),
        &mut conn,
        "closed 0 Port left 0\nended Tunnel\n",
    )
}

#[test]
fn what_waits_is_left_at_the_end(rt: HostRuntime) -> Result<(), Fail> {
    let mut conn = tunneled(rt.alloc())?;
    conn.finish();
    delivers(rt.alloc(), &mut conn)?;
    assert!(rt; !conn.can_frame());
    is_rest(
        &rt,
        rt.alloc(),
        &mut conn,
        "closed 0 End left 1\nended Done\n",
    )
}

/// Whether it asks to close tunnel 0.
fn closes(conn: &Conn) -> Result<bool, Fail> {
    Ok(match conn.next()? {
        Want::Ask(Call::Close { tunnel }) => tunnel == 0,
        _ => false,
    })
}

/// A request and what it asks for are refused memory, and the end is served.
fn serves_its_end(rt: &impl Abort, alloc: Global, conn: &mut Conn) -> Result<(), Fail> {
    let setup = setup(alloc)?;
    assert!(rt; conn.feed(&setup, b"x").is_err());
    assert!(rt; conn.frame().is_err());
    assert!(rt; conn.say().is_err());
    assert!(rt; conn.bound(true).is_err());
    let reply = Reply::Opened {
        tunnel: 9,
        routes: Seq::from_vec(Vec::new(alloc)),
    };
    assert!(rt; conn.answer(reply).is_err());
    assert!(rt; closes(conn)?);
    is_rest(rt, alloc, conn, "closed 0 Conn left 0\nended NoMemory\n")
}

#[test]
fn one_that_was_refused_memory_serves_its_own_end(rt: HostRuntime) -> Result<(), Fail> {
    let mut conn = tunneled(rt.alloc())?;
    conn.fail(End::NoMemory);
    serves_its_end(&rt, rt.alloc(), &mut conn)
}
