//! A book that actors share, in one thread and in several.
ghost use Rattle.std.specs.Prelude.{◌≡◌, ◌<◌};
ghost use Rattle.mq_turn.specs.Passes.{IsOf, first_pass};

mod joins;
mod many;
mod replay;
mod tunnels;

use crate::{Desk, DeskKey, DeskPass};
use mq_addr::Addr;
use mq_talk::{Call, Goal, Office, Reply};
use mq_wire::NoMemory;
use std::process::Abort;
use std::sync::Wait;
use std::test::*;
use std::thread;
use std::thread::Threads;
use tunnels::desk_of;

/// Where all tunnels lead.
const DNS: Goal = Goal::Udp {
    addr: Addr::V4(0xc000_0235),
    port: 53,
};

/// How many tunnels a thread opens.
const MANY: u32 = 100;

/// The actor opens a tunnel.
fn opens<R: Wait>(pass: &mut DeskPass<'_, R>, actor: u32) -> Result<Reply, NoMemory>
    requires { (pass.old.key.number ≡ actor) × (actor < pass.old.desk.now.settings.workers) }
    ensures desk { pass.new.desk ≡ pass.old.desk }
    ensures key { pass.new.key ≡ record pass.old.key { seen = pass.new.key.seen } }
{
    pass.call(Call::Open {
        conn: 3,
        stream: 0,
        actor,
        goal: DNS,
    })
}

fn is_opened(reply: &Reply, number: u32) -> bool {
    matches!(reply, Reply::Opened { tunnel, .. } if *tunnel == number)
}

#[test]
fn two_actors_open_a_tunnel_each(rt: HostRuntime) -> Result<(), Fail> {
    let (desk, key) = desk_of(rt.alloc(), 2)?;
    let mut first = desk.sit(&rt, key);
    let mut second = desk.sit(&rt, first.split(1)?);
    assert!(rt; is_opened(&opens(&mut first, 0)?, 0));
    assert!(rt; is_opened(&opens(&mut second, 1)?, 1));
    first.join(second.rise());
    let key = first.rise();
    let book = desk.close(key);
    assert!(rt; book.live(0) && book.live(1));
    assert_eq!(rt; book.count(), 2);
    Ok(())
}

#[test]
fn two_threads_open_a_hundred_tunnels_each(rt: HostRuntime) -> Result<(), Fail> {
    for _ in 0..100 {
        let (desk, key) = desk_of(rt.alloc(), 2)?;
        both_open(&rt, desk, key)?;
    }
    Ok(())
}

/// Two actors open a hundred tunnels each, in threads of their own, and the book has them all.
pub fn both_open<R: Threads + Wait + Abort + Sync>(
    rt: &R,
    desk: Desk,
    key: DeskKey,
) -> Result<(), Fail>
    requires workers { desk.settings.workers ≡ 2 }
    requires key { key ≡ first_pass desk }
{
    let shared = &desk;
    let mut pass = shared.sit(rt, key);
    let second = pass.split(1)?;
    let first = pass.rise();
    let (first, second) = thread::join(
        rt,
        move || -> DeskKey
            requires { IsOf shared.now first × (shared.now.settings.workers ≡ 2) × (first.number ≡ 0) }
            ensures { result ≡ record first { seen = result.seen } }
        { opens_many(rt, shared, first, 0) },
        move || -> DeskKey
            requires { IsOf shared.now second × (shared.now.settings.workers ≡ 2) × (second.number ≡ 1) }
            ensures { result ≡ record second { seen = result.seen } }
        { opens_many(rt, shared, second, 1) },
    );
    let mut pass = shared.sit(rt, first);
    pass.join(second);
    let key = pass.rise();
    let book = desk.close(key);
    let entries = book.history();
    assert_eq!(rt; entries.len(), 200);
    assert_eq!(rt;
        entries.iter().filter(|entry| entry.actor == 1).count(),
        100
    );
    Ok(())
}

/// The actor of a key opens a hundred tunnels.
fn opens_many<R: Wait>(rt: &R, desk: &Desk, key: DeskKey, actor: u32) -> DeskKey
    requires desk { IsOf desk.now key }
    requires workers { desk.now.settings.workers ≡ 2 }
    requires actor { (key.number ≡ actor) × (actor < 2) }
    ensures { result ≡ record key { seen = result.seen } }
{
    let mut pass = desk.sit(rt, key);
    for _ in 0..MANY {
        let _ = opens(&mut pass, actor);
    }
    pass.rise()
}
