//! Four threads, and a plain book that is asked what they asked.
ghost use Rattle.std.specs.Prelude.{◌≡◌, ◌↔◌, ◌+◌, ◌<◌, ◌≤◌, IsTrue, length};
ghost use Rattle.std.specs.List.{All};
ghost use Rattle.mq_addr.specs.Block.{IsPrefix};
ghost use Rattle.mq_talk.specs.Answers.{IsAsked, IsMine, MayCall};
ghost use Rattle.mq_turn.specs.Passes.{IsOf, first_pass};

use super::tunnels::{begin, close, config_of, desk_of, judge, verdict_of, wish_of};
use crate::{Desk, DeskKey, DeskPass};
use mq_addr::{Asked, Prefix, first_of, free_bits, full_length, number};
use mq_book::Book;
use mq_talk::{Call, Entry, Reply};
use mq_wire::{NoMemory, Seq};
use std::alloc::Global;
use std::sync::Wait;
use std::test::*;
use std::thread;
use std::thread::Threads;

/// How many tunnels a thread opens and closes.
const MANY: u32 = 200;

/// The actor's tunnel opens, asks for a block, has a packet judged, and closes. Whether that is judged as it is to be,
/// whatever the other actors have.
fn round<R: Wait>(pass: &mut DeskPass<'_, R>, alloc: Global, actor: u32) -> bool
    requires actor { (pass.old.key.number ≡ actor) × (actor < pass.old.desk.now.settings.workers) }
    ensures desk { pass.new.desk ≡ pass.old.desk }
    ensures key { pass.new.key ≡ record pass.old.key { seen = pass.new.key.seen } }
{
    let Some((tunnel, addr)) = begin(pass, alloc, actor, wish_of(actor)) else {
        return false;
    };
    let verdict = judge(pass, actor, tunnel, addr);
    close(pass, actor, tunnel) && verdict == verdict_of(actor, tunnel, addr)
}

/// So many rounds, and whether all went so.
fn rounds<R: Wait>(rt: &R, alloc: Global, desk: &Desk, key: DeskKey, actor: u32) -> (DeskKey, bool)
    requires desk { IsOf desk.now key }
    requires actor { (key.number ≡ actor) × (actor < desk.now.settings.workers) }
    ensures { result.0 ≡ record key { seen = result.0.seen } }
{
    let mut pass = desk.sit(rt, key);
    let mut all = true;
    for _ in 0..MANY {
        all = round(&mut pass, alloc, actor) && all;
    }
    (pass.rise(), all)
}

/// An actor and the next one do so in a thread each.
fn two_act<R: Threads + Wait + Sync>(
    rt: &R,
    alloc: Global,
    desk: &Desk,
    one: DeskKey,
    next: DeskKey,
    actor: u32,
) -> ((DeskKey, bool), (DeskKey, bool))
    requires one { IsOf desk.now one × (one.number ≡ actor) × (actor < desk.now.settings.workers) }
    requires next { IsOf desk.now next × (next.number ≡ actor + 1) × (actor + 1 < desk.now.settings.workers) }
    requires fits { actor < 3 }
    ensures one { result.0.0 ≡ record one { seen = result.0.0.seen } }
    ensures next { result.1.0 ≡ record next { seen = result.1.0.seen } }
{
    thread::join(
        rt,
        move || -> (DeskKey, bool)
            requires { IsOf desk.now one × (one.number ≡ actor) × (actor < desk.now.settings.workers) }
            ensures { result.0 ≡ record one { seen = result.0.seen } }
        { rounds(rt, alloc, desk, one, actor) },
        move || -> (DeskKey, bool)
            requires next { IsOf desk.now next × (next.number ≡ actor + 1) × (actor + 1 < desk.now.settings.workers) }
            requires fits { actor < 3 }
            ensures { result.0 ≡ record next { seen = result.0.seen } }
        { rounds(rt, alloc, desk, next, actor + 1) },
    )
}

/// Four actors do so in a thread each. The book at the end, and whether all went so.
fn four_act<R: Threads + Wait + Sync>(
    rt: &R,
    alloc: Global,
    desk: Desk,
    key: DeskKey,
) -> Result<(Book, bool), NoMemory>
    requires workers { desk.settings.workers ≡ 4 }
    requires key { key ≡ first_pass desk }
{
    let shared = &desk;
    let mut pass = shared.sit(rt, key);
    let second = pass.split(1)?;
    let third = pass.split(2)?;
    let fourth = pass.split(3)?;
    let first = pass.rise();
    let (front, back) = thread::join(
        rt,
        move || -> ((DeskKey, bool), (DeskKey, bool))
            requires workers { shared.now.settings.workers ≡ 4 }
            requires first { IsOf shared.now first × (first.number ≡ 0) }
            requires second { IsOf shared.now second × (second.number ≡ 1) }
            ensures first { result.0.0 ≡ record first { seen = result.0.0.seen } }
            ensures second { result.1.0 ≡ record second { seen = result.1.0.seen } }
        { two_act(rt, alloc, shared, first, second, 0) },
        move || -> ((DeskKey, bool), (DeskKey, bool))
            requires workers { shared.now.settings.workers ≡ 4 }
            requires third { IsOf shared.now third × (third.number ≡ 2) }
            requires fourth { IsOf shared.now fourth × (fourth.number ≡ 3) }
            ensures third { result.0.0 ≡ record third { seen = result.0.0.seen } }
            ensures fourth { result.1.0 ≡ record fourth { seen = result.1.0.seen } }
        { two_act(rt, alloc, shared, third, fourth, 2) },
    );
    let ((first, first_went), (second, second_went)) = front;
    let ((third, third_went), (fourth, fourth_went)) = back;
    let mut pass = shared.sit(rt, first);
    pass.join(second);
    pass.join(third);
    pass.join(fourth);
    let key = pass.rise();
    let all = first_went && second_went && third_went && fourth_went;
    Ok((desk.close(key), all))
}

/// Whether an actor may make a call that asks for blocks, opens or closes.
fn may_call(book: &Book, workers: u32, actor: u32, call: &Call) -> bool
    requires { book.now.config.workers ≡ workers }
    ensures { IsTrue result → MayCall book.now.config book.now.history actor call.now }
{
    match call {
        Call::Open { actor: named, .. } => actor < workers && *named == actor,
        Call::Assign { tunnel, asked } => {
            actor < workers && is_mine(book, actor, *tunnel) && are_asked(asked.as_slice())
        }
        Call::Advertise { .. } => false,
        Call::Close { tunnel } => actor < workers && is_mine(book, actor, *tunnel),
    }
}

/// Whether a tunnel is live and this actor opened it.
fn is_mine(book: &Book, actor: u32, tunnel: u32) -> bool
    ensures { IsTrue result → IsMine book.now.history actor tunnel }
{
    let history = book.history();
    book.live(tunnel)
        && (tunnel as usize) < history.len()
        && history[tunnel as usize].actor == actor
}

/// Whether a request may have these entries.
fn are_asked(asked: &[Asked]) -> bool
    ensures { IsTrue result ↔ ((1 ≤ length asked.now) × (length asked.now ≤ 16) × All IsAsked asked.now) }
{
    !asked.is_empty() && asked.len() <= 16 && asked.iter().all(is_asked)
}

/// Whether a request may have this entry.
fn is_asked(asked: &Asked) -> bool
    ensures { IsTrue result ↔ IsAsked asked.now }
{
    asked.id >= 1 && asked.id < 1 << 62 && is_prefix(&asked.block)
}

/// Whether a length fits the version, and no bit past it is set.
fn is_prefix(block: &Prefix) -> bool
    ensures { IsTrue result ↔ IsPrefix block.now }
{
    let bits = number(&block.addr);
    block.length <= full_length(&block.addr) && first_of(bits, free_bits(block)) == bits
}

/// The same call once more, where it is one of those that the actors make.
fn again(alloc: Global, call: &Call) -> Result<Option<Call>, NoMemory> {
    let again = match call {
        Call::Open {
            conn,
            stream,
            actor,
            goal,
        } => Call::Open {
            conn: *conn,
            stream: *stream,
            actor: *actor,
            goal: *goal,
        },
        Call::Assign { tunnel, asked } => Call::Assign {
            tunnel: *tunnel,
            asked: Seq::from_vec(Vec::from_slice(alloc, asked.as_slice())?),
        },
        Call::Advertise { .. } => return Ok(None),
        Call::Close { tunnel } => Call::Close { tunnel: *tunnel },
    };
    Ok(Some(again))
}

/// Whether two replies to such calls are the same.
fn is_same(one: &Reply, other: &Reply) -> bool {
    match (one, other) {
        (
            Reply::Opened { tunnel, routes },
            Reply::Opened {
                tunnel: number,
                routes: ways,
            },
        ) => tunnel == number && routes.as_slice() == ways.as_slice(),
        (
            Reply::Assigned { list, at },
            Reply::Assigned {
                list: told,
                at: place,
            },
        ) => at == place && list.as_slice() == told.as_slice(),
        (Reply::Closed, Reply::Closed) => true,
        _ => false,
    }
}

/// Whether a book answers the call of an entry as the entry says.
fn answers_so(alloc: Global, book: &mut Book, workers: u32, entry: &Entry) -> Result<bool, NoMemory>
    requires { book.old.config.workers ≡ workers }
    ensures { book.new.config ≡ book.old.config }
{
    let Some(call) = again(alloc, &entry.call)? else {
        return Ok(false);
    };
    if !may_call(book, workers, entry.actor, &call) {
        return Ok(false);
    }
    let reply = book.call(alloc, entry.actor, call)?;
    Ok(is_same(&reply, &entry.reply))
}

/// How many of these entries, from the first on, a new book with the same configuration answers as they say.
fn replayed(alloc: Global, workers: u32, entries: &[Entry]) -> Result<usize, NoMemory> {
    let mut book = Book::new(alloc, config_of(alloc, workers)?)?;
    for place in 0..entries.len() {
        if !answers_so(alloc, &mut book, workers, &entries[place])? {
            return Ok(place);
        }
    }
    Ok(entries.len())
}

#[test]
fn a_plain_book_answers_what_four_threads_ask_the_same(rt: HostRuntime) -> Result<(), Fail> {
    for _ in 0..20 {
        let (desk, key) = desk_of(rt.alloc(), 4)?;
        let (book, all) = four_act(&rt, rt.alloc(), desk, key)?;
        assert!(rt; all);
        let entries = book.history();
        assert_eq!(rt; entries.len(), 2400);
        assert_eq!(rt; replayed(rt.alloc(), 4, entries)?, 2400);
    }
    Ok(())
}
