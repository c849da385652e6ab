//! What the actors of a desk do with tunnels for IP packets. All ask for addresses of one small pool.
ghost use Rattle.std.specs.Prelude.{◌≡◌, ◌<◌, ◌∷◌, [], IfOk, IfSome};
ghost use Rattle.mq_talk.specs.Answers.{IsAsked, IsMine};
ghost use Rattle.mq_talk.specs.Config.{IsConfig};
ghost use Rattle.mq_turn.specs.Passes.{first_pass};

use crate::{Desk, DeskKey, DeskPass};
use mq_addr::{Addr, Asked, Flow, Given, Prefix, Range};
use mq_book::{Book, Config};
use mq_talk::{Call, Goal, Office, Origin, Place, Reply, Verdict};
use mq_wire::{NoMemory, Seq};
use std::alloc::Global;
use std::sync::Wait;

/// 10.0.0.0/30, four addresses.
const POOL: Prefix = Prefix {
    addr: Addr::V4(0x0a00_0000),
    length: 30,
};

/// 0.0.0.0 to 255.255.255.255, for all protocols.
const ALL: Range = Range {
    first: Addr::V4(0),
    last: Addr::V4(0xffff_ffff),
    protocol: 0,
};

/// Where the tunnels lead.
const ANYWHERE: Goal = Goal::Ip {
    area: None,
    protocol: None,
};

/// Any one address.
pub const ONE: Asked = Asked {
    id: 1,
    block: Prefix {
        addr: Addr::V4(0),
        length: 32,
    },
};

/// Any two addresses beside each other.
const TWO: Asked = Asked {
    id: 1,
    block: Prefix {
        addr: Addr::V4(0),
        length: 31,
    },
};

/// A list of one element.
fn alone<T: Drop>(alloc: Global, element: T) -> Result<Seq<T>, NoMemory>
    ensures { IfOk result (λ list. list ≡ element ∷ []) }
{
    let mut list = Vec::new(alloc);
    list.push(element)?;
    Ok(Seq::from_vec(list))
}

/// A configuration of four addresses, for so many workers.
pub fn config_of(alloc: Global, workers: u32) -> Result<Config, NoMemory>
    ensures config { IfOk result (λ config. IsConfig config) }
    ensures workers { IfOk result (λ config. config.workers ≡ workers) }
{
    Ok(Config {
        pool: alone(alloc, POOL)?,
        reach: Seq::from_vec(Vec::new(alloc)),
        routes: alone(alloc, ALL)?,
        history: u32::MAX,
        workers,
    })
}

/// A desk of so many actors, and the key of actor 0.
pub fn desk_of(alloc: Global, workers: u32) -> Result<(Desk, DeskKey), NoMemory>
    ensures workers { IfOk result (λ made. made.0.settings.workers ≡ workers) }
    ensures key { IfOk result (λ made. made.1 ≡ first_pass made.0) }
{
    let book = Book::new(alloc, config_of(alloc, workers)?)?;
    Desk::new(alloc, book)
}

/// What an actor asks for: two addresses where its number is odd, else one. So four actors ask for more than there is.
pub fn wish_of(actor: u32) -> Asked
    ensures { IsAsked result }
{
    if actor % 2 == 0 { ONE } else { TWO }
}

/// The number of a tunnel that the actor opens, where it is answered so.
fn open<R: Wait>(pass: &mut DeskPass<'_, R>, actor: u32) -> Option<u32>
    requires actor { (pass.old.key.number ≡ actor) × (actor < pass.old.desk.now.settings.workers) }
    ensures desk { pass.new.desk ≡ pass.old.desk }
    ensures key { pass.new.key ≡ record pass.old.key { seen = pass.new.key.seen } }
    ensures mine { IfSome result (λ tunnel. IsMine pass.new.key.seen actor tunnel) }
{
    let open = Call::Open {
        conn: 0,
        stream: 0,
        actor,
        goal: ANYWHERE,
    };
    let Ok(reply) = pass.call(open) else {
        return None;
    };
    match reply {
        Reply::Opened { tunnel, routes: _ } => Some(tunnel),
        _ => None,
    }
}

/// What the actor's tunnel is told when it asks for a block, where it is answered so.
fn assign<R: Wait>(
    pass: &mut DeskPass<'_, R>,
    alloc: Global,
    actor: u32,
    tunnel: u32,
    asked: Asked,
) -> Option<Given>
    requires actor { (pass.old.key.number ≡ actor) × (actor < pass.old.desk.now.settings.workers) }
    requires mine { IsMine pass.old.key.seen actor tunnel }
    requires asked { IsAsked asked }
    ensures desk { pass.new.desk ≡ pass.old.desk }
    ensures key { pass.new.key ≡ record pass.old.key { seen = pass.new.key.seen } }
    ensures mine { IsMine pass.new.key.seen actor tunnel }
{
    let Ok(asked) = alone(alloc, asked) else {
        return None;
    };
    match pass.call(Call::Assign { tunnel, asked }) {
        Ok(Reply::Assigned { list, .. }) => list.as_slice().last().copied(),
        _ => None,
    }
}

/// What the book says of a packet of the actor's tunnel from an address to itself.
pub fn judge<R: Wait>(pass: &mut DeskPass<'_, R>, actor: u32, tunnel: u32, addr: Addr) -> Verdict
    requires actor { pass.old.key.number ≡ actor }
    requires mine { IsMine pass.old.key.seen actor tunnel }
    ensures desk { pass.new.desk ≡ pass.old.desk }
    ensures key { pass.new.key ≡ record pass.old.key { seen = pass.new.key.seen } }
    ensures mine { IsMine pass.new.key.seen actor tunnel }
{
    let flow = Flow {
        source: addr,
        target: addr,
        protocol: 17,
    };
    pass.judge(Origin::Tunnel(tunnel), &flow).verdict
}

/// What is to be said of it: the packet comes back to its tunnel, if that has the address. A denied block has the
/// all-zero address, which no tunnel has.
pub fn verdict_of(actor: u32, tunnel: u32, addr: Addr) -> Verdict {
    if addr == Addr::V4(0) {
        Verdict::Source
    } else {
        Verdict::Pass(Place::Tunnel { tunnel, actor })
    }
}

/// The actor's tunnel closes.
pub fn close<R: Wait>(pass: &mut DeskPass<'_, R>, actor: u32, tunnel: u32) -> bool
    requires actor { (pass.old.key.number ≡ actor) × (actor < pass.old.desk.now.settings.workers) }
    requires mine { IsMine pass.old.key.seen actor tunnel }
    ensures desk { pass.new.desk ≡ pass.old.desk }
    ensures key { pass.new.key ≡ record pass.old.key { seen = pass.new.key.seen } }
{
    matches!(pass.call(Call::Close { tunnel }), Ok(Reply::Closed))
}

/// A tunnel that the actor opens, and the first address of the block that it is told when it asks for one.
pub fn begin<R: Wait>(
    pass: &mut DeskPass<'_, R>,
    alloc: Global,
    actor: u32,
    asked: Asked,
) -> Option<(u32, Addr)>
    requires actor { (pass.old.key.number ≡ actor) × (actor < pass.old.desk.now.settings.workers) }
    requires asked { IsAsked asked }
    ensures desk { pass.new.desk ≡ pass.old.desk }
    ensures key { pass.new.key ≡ record pass.old.key { seen = pass.new.key.seen } }
    ensures mine { IfSome result (λ begun. IsMine pass.new.key.seen actor begun.0) }
{
    let tunnel = open(pass, actor)?;
    let given = assign(pass, alloc, actor, tunnel, asked)?;
    Some((tunnel, given.block.addr))
}
