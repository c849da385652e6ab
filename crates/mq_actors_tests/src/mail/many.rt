//! Much through one inbox or lane, between threads and in one. `bench/inboxes.sh` times these tests.
ghost use Rattle.std.specs.Prelude.{◌≡◌, ◌<◌, All, length};
ghost use Rattle.mq_talk.specs.Mails.{IsParcel};
ghost use Rattle.mq_mail.specs.Posts.{KeyOf};

use crate::common::first_of;
use crate::mail::are_taken;
use crate::mail::inboxes::{pop_all, push_all};
use crate::parcels::{long, short};
use mq_mail::{MailKey, Post, make_lane, matrix};
use mq_talk::{Parcel, Pushed};
use mq_wire::NoMemory;
use std::alloc::Global;
use std::collections::VecDeque;
use std::sync::Wait;
use std::test::Fail;
use std::thread;
use std::thread::Threads;

/// All parcels of a run together.
const ALL: u64 = 400_000;

/// What one thread does: it pushes so many parcels to inbox 4, or pops so many there.
#[derive(Drop)]
struct Job<'a> {
    post: &'a Post,
    key: MailKey,
    actor: u32,
    pushes: u64,
    pops: u64,
    ghost same: { key.post ≡ post.now.inboxes },
    ghost size: { length key.post ≡ 5 },
}

/// Whether the job was done, and all that was popped was in order.
fn is_done<R: Wait>(rt: &R, alloc: Global, job: Job<'_>) -> bool {
    let Job {
        post,
        key,
        actor,
        pushes,
        pops,
    } = job;
    if pops > 0 {
        pop_all(rt, post, key, pops).1
    } else {
        push_all(rt, alloc, post, key, actor, 4, pushes).1 == pushes
    }
}

/// The jobs of five actors, of which the first so many push, and the last pops.
fn jobs_of<'a>(
    alloc: Global,
    post: &'a Post,
    mut keys: VecDeque<MailKey>,
    pushers: u32,
) -> Result<Vec<Job<'a>>, NoMemory>
    requires pushers { (0 < pushers) × (pushers < 5) }
    requires size { (length post.now.inboxes ≡ 5) × (length keys.items ≡ 5) }
    requires keys { All (λ (key : KeyOf). key.post ≡ post.now.inboxes) keys.items }
{
    let mut jobs = Vec::with_capacity(alloc, 5)?;
    for i in 0..5u32 {
        let key = first_of(&mut keys);
        let pushes = if i < pushers { ALL / pushers as u64 } else { 0 };
        let pops = if i == 4 { ALL } else { 0 };
        jobs.push(Job {
            post,
            key,
            actor: i,
            pushes,
            pops,
        })?;
    }
    Ok(jobs)
}

/// So many threads push, and one pops. Whether all of them did so.
fn is_delivered_by<R: Threads + Wait + Sync>(
    rt: &R,
    alloc: Global,
    pushers: u32,
) -> Result<bool, NoMemory>
    requires { (0 < pushers) × (pushers < 5) }
{
    let (post, keys) = matrix(alloc, 5, 256)?;
    let jobs = jobs_of(alloc, &post, VecDeque::from_vec(keys.into_vec()), pushers)?;
    let done = thread::map_vec(
        rt,
        jobs,
        &|job: Job<'_>| -> bool { is_done(rt, alloc, job) },
    )?;
    Ok(done.iter().all(|is| *is))
}

#[test]
fn one_puts(rt: HostRuntime) -> Result<(), Fail> {
    let (lane, into, out) = make_lane(rt.alloc(), 32)?;
    assert!(rt; are_taken(&rt, lane, into, out, ALL as u32));
    Ok(())
}

#[test]
fn one_pushes(rt: HostRuntime) -> Result<(), Fail> {
    assert!(rt; is_delivered_by(&rt, rt.alloc(), 1)?);
    Ok(())
}

#[test]
fn two_push(rt: HostRuntime) -> Result<(), Fail> {
    assert!(rt; is_delivered_by(&rt, rt.alloc(), 2)?);
    Ok(())
}

#[test]
fn four_push(rt: HostRuntime) -> Result<(), Fail> {
    assert!(rt; is_delivered_by(&rt, rt.alloc(), 4)?);
    Ok(())
}

/// One parcel goes into an actor's own inbox and out of it so often.
fn round<R: Wait>(
    rt: &R,
    post: &Post,
    mut key: MailKey,
    mut parcel: Parcel,
    count: u32,
) -> Option<Parcel>
    requires same { key.post ≡ post.now.inboxes }
    requires own { 0 < length key.post }
    requires parcel { IsParcel parcel }
{
    for _ in 0..count {
        match key.push(rt, post, 0, parcel) {
            Pushed::Taken => {}
            Pushed::Full(_) => return None,
        }
        parcel = key.pop(rt, post)?;
    }
    Some(parcel)
}

/// Whether a parcel goes round a million times, and comes back with as many bytes.
fn goes_round<R: Wait>(rt: &R, alloc: Global, parcel: Parcel) -> Result<bool, NoMemory>
    requires { IsParcel parcel }
{
    let size = parcel.packet.as_slice().len();
    let (post, keys) = matrix(alloc, 1, 1)?;
    let mut keys = VecDeque::from_vec(keys.into_vec());
    let key = first_of(&mut keys);
    match round(rt, &post, key, parcel, 1_000_000) {
        None => Ok(false),
        Some(back) => Ok(back.packet.as_slice().len() == size),
    }
}

#[test]
fn a_short_parcel_goes_round(rt: HostRuntime) -> Result<(), Fail> {
    let parcel = short(rt.alloc(), 0, 0)?;
    assert!(rt; goes_round(&rt, rt.alloc(), parcel)?);
    Ok(())
}

#[test]
fn the_longest_parcel_goes_round(rt: HostRuntime) -> Result<(), Fail> {
    let parcel = long(rt.alloc(), 0, 0)?;
    assert!(rt; goes_round(&rt, rt.alloc(), parcel)?);
    Ok(())
}
