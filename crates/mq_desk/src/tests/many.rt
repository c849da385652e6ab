//! Many calls and judgements, by one, two and four threads. `bench/desk.sh` times these tests.
ghost use Rattle.std.specs.Prelude.{◌≡◌, ◌<◌, ◌≤◌, IfOk};
ghost use Rattle.mq_turn.specs.Passes.{IsOf, first_pass};

use super::tunnels::{ONE, begin, close, desk_of, judge, verdict_of};
use crate::{Desk, DeskKey, DeskPass};
use mq_wire::NoMemory;
use std::alloc::Global;
use std::process::Abort;
use std::sync::Wait;
use std::test::*;
use std::thread;
use std::thread::Threads;

/// What one thread does: so many tunnels, or so many packets of one tunnel.
#[derive(Drop)]
struct Job<'a> {
    desk: &'a Desk,
    key: DeskKey,
    actor: u32,
    tunnels: u32,
    packets: u32,
    ghost same: { IsOf desk.now key },
    ghost own: { (key.number ≡ actor) × (actor < desk.now.settings.workers) },
}

/// Whether all was answered as it is to be.
fn is_done<R: Wait>(rt: &R, alloc: Global, job: Job<'_>) -> bool {
    let Job {
        desk,
        key,
        actor,
        tunnels,
        packets,
    } = job;
    let mut pass = desk.sit(rt, key);
    if packets > 0 {
        judge_many(&mut pass, alloc, actor, packets)
    } else {
        open_many(&mut pass, alloc, actor, tunnels)
    }
}

/// So many tunnels open, ask for an address and close, one behind another.
fn open_many<R: Wait>(pass: &mut DeskPass<'_, R>, alloc: Global, actor: u32, count: u32) -> bool
    requires actor { (pass.old.key.number ≡ actor) × (actor < pass.old.desk.now.settings.workers) }
{
    for _ in 0..count {
        let Some((tunnel, _)) = begin(pass, alloc, actor, ONE) else {
            return false;
        };
        if !close(pass, actor, tunnel) {
            return false;
        }
    }
    true
}

/// One tunnel opens, and so many packets of it are judged.
fn judge_many<R: Wait>(pass: &mut DeskPass<'_, R>, alloc: Global, actor: u32, count: u32) -> bool
    requires actor { (pass.old.key.number ≡ actor) × (actor < pass.old.desk.now.settings.workers) }
{
    let Some((tunnel, addr)) = begin(pass, alloc, actor, ONE) else {
        return false;
    };
    for _ in 0..count {
        if judge(pass, actor, tunnel, addr) != verdict_of(actor, tunnel, addr) {
            return false;
        }
    }
    true
}

/// The jobs of so many actors.
fn jobs_of<'a, R: Wait>(
    rt: &R,
    alloc: Global,
    desk: &'a Desk,
    key: DeskKey,
    threads: u32,
    tunnels: u32,
    packets: u32,
) -> Result<Vec<Job<'a>>, NoMemory>
    requires threads { (0 < threads) × (threads ≤ desk.now.settings.workers) }
    requires key { key ≡ first_pass desk.now }
{
    let mut jobs = Vec::new(alloc);
    let mut pass = desk.sit(rt, key);
    for actor in 1..threads {
        let key = pass.split(actor)?;
        jobs.push(Job {
            desk,
            key,
            actor,
            tunnels,
            packets,
        })?;
    }
    jobs.push(Job {
        desk,
        key: pass.rise(),
        actor: 0,
        tunnels,
        packets,
    })?;
    Ok(jobs)
}

/// So many threads open tunnels, or judge packets: so many, all together.
fn work<R: Threads + Wait + Abort + Sync>(
    rt: &R,
    alloc: Global,
    threads: u32,
    tunnels: u32,
    packets: u32,
) -> Result<(), Fail>
    requires { 0 < threads }
{
    let (desk, key) = desk_of(alloc, threads)?;
    let jobs = jobs_of(
        rt,
        alloc,
        &desk,
        key,
        threads,
        tunnels / threads,
        packets / threads,
    )?;
    let done = thread::map_vec(
        rt,
        jobs,
        &|job: Job<'_>| -> bool { is_done(rt, alloc, job) },
    )?;
    for done in &done {
        assert!(rt; *done);
    }
    Ok(())
}

#[test]
fn one_calls(rt: HostRuntime) -> Result<(), Fail> {
    work(&rt, rt.alloc(), 1, 100_000, 0)
}

#[test]
fn two_call(rt: HostRuntime) -> Result<(), Fail> {
    work(&rt, rt.alloc(), 2, 40_000, 0)
}

#[test]
fn four_call(rt: HostRuntime) -> Result<(), Fail> {
    work(&rt, rt.alloc(), 4, 40_000, 0)
}

#[test]
fn one_judges(rt: HostRuntime) -> Result<(), Fail> {
    work(&rt, rt.alloc(), 1, 0, 1_000_000)
}

#[test]
fn two_judge(rt: HostRuntime) -> Result<(), Fail> {
    work(&rt, rt.alloc(), 2, 0, 200_000)
}

#[test]
fn four_judge(rt: HostRuntime) -> Result<(), Fail> {
    work(&rt, rt.alloc(), 4, 0, 200_000)
}
