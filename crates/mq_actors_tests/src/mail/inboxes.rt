//! Inboxes, in one thread and between three.
ghost use Rattle.std.specs.Prelude.{◌≡◌, ◌<◌, ◌∷◌, [], length, IfOk, OnOk};
ghost use Rattle.mq_talk.specs.Mails.{IsParcel};
ghost use Rattle.mq_mail.specs.Posts.{KeyOf, new_key};
ghost use Rattle.mq_mail.specs.Tallies.{AreKeysOf};

use crate::common::first_of;
use crate::parcels::{long, short};
use mq_mail::{MailKey, Post, Tally, matrix};
use mq_talk::{Mail, Origin, Parcel, Pushed};
use mq_wire::{NoMemory, Seq};
use std::alloc::Global;
use std::collections::VecDeque;
use std::sync::Wait;
use std::test::Fail;
use std::thread;
use std::thread::Threads;

/// A post of two actors, and their keys.
fn two(alloc: Global, capacity: u32) -> Result<(Post, MailKey, MailKey), NoMemory>
    requires { 0 < capacity }
    ensures post { IfOk result (λ made. (length made.0.inboxes ≡ 2) × (made.0.capacity ≡ capacity)) }
    ensures first { IfOk result (λ made. made.1 ≡ new_key made.0.inboxes 0) }
    ensures second { IfOk result (λ made. made.2 ≡ new_key made.0.inboxes 1) }
{
    let (post, keys) = matrix(alloc, 2, capacity)?;
    let mut keys = VecDeque::from_vec(keys.into_vec());
    let first = first_of(&mut keys);
    let second = first_of(&mut keys);
    Ok((post, first, second))
}

/// The tallies of two actors' inboxes.
fn close_two<R: Wait>(
    rt: &R,
    alloc: Global,
    post: Post,
    first: MailKey,
    second: MailKey,
) -> Result<Seq<Tally>, NoMemory>
    requires size { length post.inboxes ≡ 2 }
    requires keys { AreKeysOf post.inboxes 0 (first ∷ second ∷ []) }
{
    let keys = vec![in alloc; first, second]?;
    Ok(post.close(rt, Seq::from_vec(keys)))
}

/// Pushes so many parcels to an inbox through a `Mail`. The number behind the last that was taken.
fn fill<R: Wait>(
    rt: &R,
    alloc: Global,
    post: &Post,
    key: MailKey,
    to: u32,
    count: u64,
) -> (MailKey, u64)
    requires same { key.post ≡ post.now.inboxes }
    requires room { post.now.capacity ≡ 256 }
    requires own { key.actor < length key.post }
    requires to { to < length key.post }
    ensures { (result.0.post ≡ key.post) × (result.0.actor ≡ key.actor) }
{
    let mut mail = post.mail(rt, key);
    let mut taken = 0;
    for n in 0..count {
        let Ok(parcel) = short(alloc, 0, n) else {
            break;
        };
        match mail.push(to, parcel) {
            Pushed::Taken => taken = n + 1,
            Pushed::Full(_) => {}
        }
    }
    (mail.back(), taken)
}

/// Whose the parcel is, its number, and the bytes of its packet.
fn parts_of(parcel: &Parcel) -> (u32, u64, usize) {
    let actor = match parcel.from {
        Origin::Tunnel(actor) => actor,
        Origin::Net => u32::MAX,
    };
    (actor, parcel.n, parcel.packet.as_slice().len())
}

/// Pops a parcel's parts through a `Mail`.
fn pop_by_mail<R: Wait>(rt: &R, post: &Post, key: MailKey) -> (MailKey, Option<(u32, u64, usize)>)
    requires same { key.post ≡ post.now.inboxes }
    requires room { post.now.capacity ≡ 256 }
    requires own { key.actor < length key.post }
    ensures { (result.0.post ≡ key.post) × (result.0.actor ≡ key.actor) }
{
    let mut mail = post.mail(rt, key);
    let parts = match mail.pop() {
        None => None,
        Some(parcel) => Some(parts_of(&parcel)),
    };
    (mail.back(), parts)
}

/// Pops a parcel's parts.
fn pop_parts<R: Wait>(rt: &R, post: &Post, key: &mut MailKey) -> Option<(u32, u64, usize)>
    requires { key.old.post ≡ post.now.inboxes }
    ensures { (key.new.post ≡ key.old.post) × (key.new.actor ≡ key.old.actor) }
{
    match key.pop(rt, post) {
        None => None,
        Some(parcel) => Some(parts_of(&parcel)),
    }
}

/// Pushes a parcel, and says whether it was taken. None where there was no memory for it.
fn is_taken<R: Wait>(
    rt: &R,
    post: &Post,
    key: &mut MailKey,
    to: u32,
    parcel: Result<Parcel, NoMemory>,
) -> Option<bool>
    requires same { key.old.post ≡ post.now.inboxes }
    requires to { to < length key.old.post }
    requires parcel { IfOk parcel (λ p. IsParcel p) }
    ensures { (key.new.post ≡ key.old.post) × (key.new.actor ≡ key.old.actor) }
{
    let Ok(parcel) = parcel else {
        return None;
    };
    match key.push(rt, post, to, parcel) {
        Pushed::Taken => Some(true),
        Pushed::Full(_) => Some(false),
    }
}

/// An inbox with room for 256 is handed as many, and then one more, and pops one. How many were taken each time, what was
/// popped, and the tallies.
fn fill_and_pop<R: Wait>(
    rt: &R,
    alloc: Global,
) -> Result<([u64; 2], Option<(u32, u64, usize)>, Seq<Tally>), NoMemory> {
    let (post, first, second) = two(alloc, 256)?;
    let (first, taken) = fill(rt, alloc, &post, first, 1, 256);
    let (first, more) = fill(rt, alloc, &post, first, 1, 1);
    let (second, popped) = pop_by_mail(rt, &post, second);
    let tallies = close_two(rt, alloc, post, first, second)?;
    Ok(([taken, more], popped, tallies))
}

#[test]
fn the_257th_parcel_comes_back(rt: HostRuntime) -> Result<(), Fail> {
    let (taken, popped, tallies) = fill_and_pop(&rt, rt.alloc())?;
    assert!(rt; taken == [256, 0]);
    assert!(rt; popped == Some((0, 0, 40)));
    let none = Tally {
        pushed: 0,
        popped: 0,
        left: 0,
    };
    let some = Tally {
        pushed: 256,
        popped: 1,
        left: 255,
    };
    assert!(rt; tallies.as_slice() == [none, some].as_slice());
    Ok(())
}

/// Two actors push to an inbox with room for two until it is full for both, and again after a pop. Which parcels were
/// taken, what was popped, and the tallies.
fn fill_from_both<R: Wait>(
    rt: &R,
    alloc: Global,
) -> Result<
    (
        [Option<bool>; 5],
        [Option<(u32, u64, usize)>; 3],
        Seq<Tally>,
    ),
    NoMemory,
> {
    let (post, mut first, mut second) = two(alloc, 2)?;
    let one = is_taken(rt, &post, &mut first, 1, short(alloc, 0, 0));
    let two = is_taken(rt, &post, &mut second, 1, long(alloc, 1, 0));
    let three = is_taken(rt, &post, &mut first, 1, short(alloc, 0, 1));
    let four = is_taken(rt, &post, &mut second, 1, short(alloc, 1, 1));
    let popped = pop_parts(rt, &post, &mut second);
    let five = is_taken(rt, &post, &mut first, 1, short(alloc, 0, 2));
    let behind = pop_parts(rt, &post, &mut second);
    let other = pop_parts(rt, &post, &mut first);
    let tallies = close_two(rt, alloc, post, first, second)?;
    Ok((
        [one, two, three, four, five],
        [popped, behind, other],
        tallies,
    ))
}

#[test]
fn an_inbox_is_full_for_both_sides(rt: HostRuntime) -> Result<(), Fail> {
    let (taken, popped, tallies) = fill_from_both(&rt, rt.alloc())?;
    assert!(rt; taken == [Some(true), Some(true), Some(false), Some(false), Some(true)]);
    assert!(rt; popped == [Some((0, 0, 40)), Some((1, 0, 65_535)), None]);
    let none = Tally {
        pushed: 0,
        popped: 0,
        left: 0,
    };
    let some = Tally {
        pushed: 3,
        popped: 2,
        left: 1,
    };
    assert!(rt; tallies.as_slice() == [none, some].as_slice());
    Ok(())
}

/// A post of three actors, and their keys.
fn three(alloc: Global, capacity: u32) -> Result<(Post, MailKey, MailKey, MailKey), NoMemory>
    requires { 0 < capacity }
    ensures post { IfOk result (λ made. length made.0.inboxes ≡ 3) }
    ensures first { IfOk result (λ made. made.1 ≡ new_key made.0.inboxes 0) }
    ensures second { IfOk result (λ made. made.2 ≡ new_key made.0.inboxes 1) }
    ensures third { IfOk result (λ made. made.3 ≡ new_key made.0.inboxes 2) }
{
    let (post, keys) = matrix(alloc, 3, capacity)?;
    let mut keys = VecDeque::from_vec(keys.into_vec());
    let first = first_of(&mut keys);
    let second = first_of(&mut keys);
    let third = first_of(&mut keys);
    Ok((post, first, second, third))
}

/// The tallies of three actors' inboxes.
fn close_three<R: Wait>(
    rt: &R,
    alloc: Global,
    post: Post,
    first: MailKey,
    second: MailKey,
    third: MailKey,
) -> Result<Seq<Tally>, NoMemory>
    requires size { length post.inboxes ≡ 3 }
    requires keys { AreKeysOf post.inboxes 0 (first ∷ second ∷ third ∷ []) }
{
    let keys = vec![in alloc; first, second, third]?;
    Ok(post.close(rt, Seq::from_vec(keys)))
}

/// Pushes a parcel again until it is taken.
fn push_until<R: Wait>(rt: &R, post: &Post, key: &mut MailKey, to: u32, mut parcel: Parcel)
    requires same { key.old.post ≡ post.now.inboxes }
    requires to { to < length key.old.post }
    requires parcel { IsParcel parcel }
    ensures { (key.new.post ≡ key.old.post) × (key.new.actor ≡ key.old.actor) }
{
    for _ in rt.forever() {
        match key.push(rt, post, to, parcel) {
            Pushed::Taken => return,
            Pushed::Full(back) => parcel = back,
        }
        thread::yield_now();
    }
    unreachable!()
}

/// Pushes so many parcels of an actor, and says how many.
pub fn push_all<R: Wait>(
    rt: &R,
    alloc: Global,
    post: &Post,
    mut key: MailKey,
    actor: u32,
    to: u32,
    count: u64,
) -> (MailKey, u64)
    requires same { key.post ≡ post.now.inboxes }
    requires to { to < length key.post }
    ensures { (result.0.post ≡ key.post) × (result.0.actor ≡ key.actor) }
{
    for n in 0..count {
        let Ok(parcel) = short(alloc, actor, n) else {
            return (key, n);
        };
        push_until(rt, post, &mut key, to, parcel);
    }
    (key, count)
}

/// Whether it is the next parcel of its actor's, of which the numbers are kept.
fn is_next(next: &mut [u64; 4], parcel: &Parcel) -> bool {
    let (actor, n, _) = parts_of(parcel);
    if actor > 3 || n == u64::MAX {
        return false;
    }
    let is = next[actor as usize] == n;
    next[actor as usize] = n + 1;
    is
}

/// Pops so many parcels, and says whether each was the next of its actor's.
pub fn pop_all<R: Wait>(rt: &R, post: &Post, mut key: MailKey, count: u64) -> (MailKey, bool)
    requires { key.post ≡ post.now.inboxes }
    ensures { (result.0.post ≡ key.post) × (result.0.actor ≡ key.actor) }
{
    let mut next = [0, 0, 0, 0];
    let mut in_order = true;
    let mut popped = 0;
    for _ in rt.forever() {
        if popped >= count {
            break;
        }
        match key.pop(rt, post) {
            Some(parcel) => {
                popped += 1;
                in_order = is_next(&mut next, &parcel) && in_order;
            }
            None => thread::yield_now(),
        }
    }
    (key, in_order)
}

/// One actor pushes to inbox 2 while its own pops.
fn push_and_pop<R: Threads + Wait + Sync>(
    rt: &R,
    alloc: Global,
    post: &Post,
    second: MailKey,
    third: MailKey,
    pops: u64,
) -> ((MailKey, u64), (MailKey, bool))
    requires size { length post.now.inboxes ≡ 3 }
    requires second { second.post ≡ post.now.inboxes }
    requires third { third.post ≡ post.now.inboxes }
    ensures second { (result.0.0.post ≡ second.post) × (result.0.0.actor ≡ second.actor) }
    ensures third { (result.1.0.post ≡ third.post) × (result.1.0.actor ≡ third.actor) }
{
    thread::join(
        rt,
        move || -> (MailKey, u64)
            requires { (second.post ≡ post.now.inboxes) × (length post.now.inboxes ≡ 3) }
            ensures { (result.0.post ≡ second.post) × (result.0.actor ≡ second.actor) }
        { push_all(rt, alloc, post, second, 1, 2, 1_000) },
        move || -> (MailKey, bool)
            requires { third.post ≡ post.now.inboxes }
            ensures { (result.0.post ≡ third.post) × (result.0.actor ≡ third.actor) }
        { pop_all(rt, post, third, pops) },
    )
}

/// Two threads push a thousand parcels each, and one pops all but so many. Whether all was in order and is in the tallies.
fn is_delivered<R: Threads + Wait + Sync>(
    rt: &R,
    alloc: Global,
    capacity: u32,
    left: u64,
) -> Result<bool, NoMemory>
    requires capacity { 0 < capacity }
    requires left { left < 2000 }
{
    let (post, first, second, third) = three(alloc, capacity)?;
    let shared = &post;
    let pops = 2_000 - left;
    let ((first, from_first), ((second, from_second), (third, in_order))) = thread::join(
        rt,
        move || -> (MailKey, u64)
            requires { (first.post ≡ shared.now.inboxes) × (length shared.now.inboxes ≡ 3) }
            ensures { (result.0.post ≡ first.post) × (result.0.actor ≡ first.actor) }
        { push_all(rt, alloc, shared, first, 0, 2, 1_000) },
        move || -> ((MailKey, u64), (MailKey, bool))
            requires size { length shared.now.inboxes ≡ 3 }
            requires second { second.post ≡ shared.now.inboxes }
            requires third { third.post ≡ shared.now.inboxes }
            ensures second { (result.0.0.post ≡ second.post) × (result.0.0.actor ≡ second.actor) }
            ensures third { (result.1.0.post ≡ third.post) × (result.1.0.actor ≡ third.actor) }
        { push_and_pop(rt, alloc, shared, second, third, pops) },
    );
    let tallies = close_three(rt, alloc, post, first, second, third)?;
    let none = Tally {
        pushed: 0,
        popped: 0,
        left: 0,
    };
    let some = Tally {
        pushed: 2_000,
        popped: pops,
        left,
    };
    Ok(
        from_first == 1_000
            && from_second == 1_000
            && in_order
            && tallies.as_slice() == [none, none, some].as_slice(),
    )
}

#[test]
fn two_threads_push_and_one_pops(rt: HostRuntime) -> Result<(), Fail> {
    for &(capacity, left) in &[(1, 0), (1, 1), (2, 0), (16, 10), (256, 256), (2_000, 7)] {
        for _ in 0..5 {
            assert!(rt;
                is_delivered(&rt, rt.alloc(), capacity, left)?,
                "{capacity}"
            );
        }
    }
    Ok(())
}
