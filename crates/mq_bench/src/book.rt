//! Calls and judgements of a book in which so many tunnels are live, each with one address.
ghost use Rattle.std.specs.Prelude.{◌≡◌, IsTrue, IfOk};
ghost use Rattle.mq_addr.specs.Block.{IsPrefix};
ghost use Rattle.mq_talk.specs.Answers.{IsMine};

use mq_addr::{Addr, Asked, Flow, Prefix, Range, alone};
use mq_book::Book;
use mq_talk::{Call, Config, Goal, Origin, Place, Reply, Verdict};
use mq_wire::{NoMemory, Seq};
use std::alloc::Global;

/// 10.0.0.0/16.
const POOL: Prefix = Prefix {
    addr: Addr::V4(0x0a00_0000),
    length: 16,
};

/// Any one IPv4 address.
const ANY: Prefix = Prefix {
    addr: Addr::V4(0),
    length: 32,
};

/// 0.0.0.0 to 255.255.255.255, for all protocols.
const ALL: Range = Range {
    first: Addr::V4(0),
    last: Addr::V4(0xffff_ffff),
    protocol: 0,
};

/// The checksum of so many rounds, in which a tunnel opens, names a block that it gets, and closes.
pub fn checksum_of_named(alloc: Global, count: u32, live: u16) -> Result<u64, NoMemory> {
    rounds(alloc, count, live, alone(addr_of(live)))
}

/// The same where it asks for any address.
pub fn checksum_of_any(alloc: Global, count: u32, live: u16) -> Result<u64, NoMemory> {
    rounds(alloc, count, live, ANY)
}

fn rounds(alloc: Global, count: u32, live: u16, block: Prefix) -> Result<u64, NoMemory>
    requires { IsPrefix block }
{
    let mut book = filled(alloc, live)?;
    let mut sum = 0u64;
    for _ in 0..count {
        let number = open(&mut book, alloc)?;
        let told = assign(&mut book, alloc, number, block)?;
        close(&mut book, number);
        sum = sum.wrapping_add(u64::from(number)).wrapping_add(told);
    }
    Ok(sum)
}

/// The checksum of so many judgements of packets, each from one tunnel to another.
pub fn checksum_of_judging(alloc: Global, count: u32, live: u16) -> Result<u64, NoMemory> {
    let book = filled(alloc, live)?;
    let mut sum = 0u64;
    for packet in 0..count {
        let from = place(packet, 7_919, live);
        let flow = Flow {
            source: addr_of(from),
            target: addr_of(place(packet, 104_729, live)),
            protocol: 17,
        };
        let verdict = book.judge(Origin::Tunnel(u32::from(from) * 2), &flow);
        sum = sum.wrapping_add(worth(verdict));
    }
    Ok(sum)
}

/// Some number below a count.
fn place(packet: u32, step: u32, count: u16) -> u16 {
    if count == 0 {
        return 0;
    }
    (packet.wrapping_mul(step) % u32::from(count)) as u16
}

fn worth(verdict: Verdict) -> u64 {
    match verdict {
        Verdict::Pass(Place::Tunnel { tunnel, actor: _ }) => u64::from(tunnel) + 3,
        Verdict::Pass(Place::Net) => 2,
        Verdict::NoRoute => 1,
        Verdict::Source => 0,
    }
}

/// The address of the tunnel that opened so many tunnels behind the first.
fn addr_of(tunnel: u16) -> Addr {
    Addr::V4(0x0a00_0000 + u32::from(tunnel))
}

/// A book of one worker, in which so many tunnels opened, and each named its address and got it. The first has the
/// number 0, and each other one the second number behind the one before.
fn filled(alloc: Global, live: u16) -> Result<Book, NoMemory>
    ensures { IfOk result (λ book. book.config.workers ≡ 1) }
{
    let mut book = new_book(alloc)?;
    for tunnel in 0..live {
        let number = open(&mut book, alloc)?;
        assign(&mut book, alloc, number, alone(addr_of(tunnel)))?;
    }
    Ok(book)
}

fn new_book(alloc: Global) -> Result<Book, NoMemory>
    ensures { IfOk result (λ book. book.config.workers ≡ 1) }
{
    let mut pool = Vec::new(alloc);
    pool.push(POOL)?;
    let mut routes = Vec::new(alloc);
    routes.push(ALL)?;
    let book = Book::new(
        alloc,
        Config {
            pool: Seq::from_vec(pool),
            reach: Seq::from_vec(Vec::new(alloc)),
            routes: Seq::from_vec(routes),
            history: u32::MAX,
            workers: 1,
        },
    )?;
    Ok(book)
}

/// The number of a tunnel that opens.
fn open(book: &mut Book, alloc: Global) -> Result<u32, NoMemory>
    requires { book.old.config.workers ≡ 1 }
    ensures { book.new.config.workers ≡ 1 }
{
    let goal = Goal::Ip {
        area: None,
        protocol: None,
    };
    let reply = book.call(
        alloc,
        0,
        Call::Open {
            conn: 0,
            stream: 0,
            actor: 0,
            goal,
        },
    )?;
    match reply {
        Reply::Opened { tunnel, routes: _ } => Ok(tunnel),
        _ => Err(NoMemory),
    }
}

/// A tunnel asks for a block; the last number of what it is told.
fn assign(book: &mut Book, alloc: Global, tunnel: u32, block: Prefix) -> Result<u64, NoMemory>
    requires workers { book.old.config.workers ≡ 1 }
    requires block { IsPrefix block }
    ensures { book.new.config.workers ≡ 1 }
{
    let mut asked = Vec::new(alloc);
    asked.push(Asked { id: 1, block })?;
    if !is_mine(book, tunnel) {
        return Err(NoMemory);
    }
    let asked = Seq::from_vec(asked);
    let reply = book.call(alloc, 0, Call::Assign { tunnel, asked })?;
    match reply {
        Reply::Assigned { list, at: _ } => Ok(last_number(list.as_slice())),
        _ => Err(NoMemory),
    }
}

fn last_number(list: &[mq_addr::Given]) -> u64 {
    match list.last() {
        Some(given) => match given.block.addr {
            Addr::V4(bits) => u64::from(bits),
            Addr::V6(_) => 0,
        },
        None => 0,
    }
}

fn close(book: &mut Book, tunnel: u32)
    requires { book.old.config.workers ≡ 1 }
    ensures { book.new.config.workers ≡ 1 }
{
    if is_mine(book, tunnel) {
        book.close(0, tunnel);
    }
}

/// Whether the worker may call for a tunnel.
fn is_mine(book: &Book, tunnel: u32) -> bool
    ensures { IsTrue result → IsMine book.now.history 0 tunnel }
{
    let history = book.history();
    book.live(tunnel) && (tunnel as usize) < history.len() && history[tunnel as usize].actor == 0
}
