//! A history with its live tunnels, which are looked through in place of it.
ghost use Rattle.std.specs.Prelude.{◌≡◌, ◌≢◌, ◌↔◌, ◌+◌, ◌<◌, ◌≤◌, ◌++◌, ◌∷◌, [], IsTrue, IfOk, OnOk, MatchBool, MatchOption, MatchResult, length, if◌then◌else◌, vec_capacity};
ghost use Rattle.std.specs.List.{All, HoldsAt, flat_map};
ghost use Rattle.mq_addr.specs.Ranges.{IsRange};
ghost use Rattle.mq_talk.specs.Answers.{Follows, HasPlaces, IsAcceptable, IsAsked, MayCall};
ghost use Rattle.mq_talk.specs.Book.{blocks, is_live, live_tunnels, taken};
ghost use Rattle.mq_talk.specs.declared.book.Call.TheVariants as call;
ghost use Rattle.mq_talk.specs.declared.book.Reply.TheVariants as reply;
ghost use Rattle.mq_book.specs.Stand.{IsAnswered, IsChange, IsClear, IsNew, IsReachable, Stands, Stays};
ghost use Rattle.mq_book.specs.Treat.{AreDone};

use crate::assign::{Treated, treat};
use crate::setup::{Setup, no_routes};
use crate::tunnel::Tunnel;
use mq_addr::{Asked, Given, Prefix, Range};
use mq_route::RouteList;
use mq_talk::{Call, Entry, Goal, Reply};
use mq_wire::{NoMemory, Seq};
use std::alloc::Global;

/// The configuration, the entries, and the live tunnels by their numbers. The history has a place for the close of each.
#[derive(Drop)]
pub(crate) struct Ledger {
    pub setup: Setup,
    pub history: Vec<Entry>,
    pub live: Vec<Tunnel>,
}

impl Ledger {
    /// A tunnel opens.
    pub fn open(
        &mut self,
        alloc: Global,
        actor: u32,
        conn: u32,
        stream: u32,
        goal: Goal,
    ) -> Result<Reply, NoMemory>
        requires stands { Stands self.old }
        requires may { MayCall self.old.setup self.old.history.items actor (call.Open conn stream actor goal) }
        ensures { MatchResult result (λ reply. IsAnswered self.old self.new actor (call.Open conn stream actor goal) reply) (λ _. Stays self.old self.new) }
    {
        if !self.has_places(2) {
            return Ok(self.full());
        }
        let routes = self.setup.routes_for(alloc, &goal)?;
        let told = copy_ranges(alloc, routes.ranges())?;
        let kept = copy_ranges(alloc, routes.ranges())?;
        self.make_room(2, 1)?;
        let number = self.count();
        self.write_open(
            Entry {
                actor,
                call: Call::Open {
                    conn,
                    stream,
                    actor,
                    goal,
                },
                reply: Reply::Opened {
                    tunnel: number,
                    routes: kept,
                },
            },
            Tunnel {
                number,
                actor,
                held: Seq::from_vec(Vec::new(alloc)),
                ranges: no_routes(alloc),
                routes,
            },
        );
        Ok(Reply::Opened {
            tunnel: number,
            routes: told,
        })
    }

    /// A tunnel asks for blocks.
    pub fn assign(
        &mut self,
        alloc: Global,
        actor: u32,
        tunnel: u32,
        asked: Seq<Asked>,
    ) -> Result<Reply, NoMemory>
        requires stands { Stands self.old }
        requires may { MayCall self.old.setup self.old.history.items actor (call.Assign tunnel asked) }
        ensures { MatchResult result (λ reply. IsAnswered self.old self.new actor (call.Assign tunnel asked) reply) (λ _. Stays self.old self.new) }
    {
        if !self.has_places(1) {
            return Ok(self.full());
        }
        let at = self.place_of(tunnel);
        let treated = self.treat(alloc, at, asked.as_slice())?;
        let told = list_of(alloc, &treated)?;
        let kept = list_of(alloc, &treated)?;
        self.make_room(1, 0)?;
        let place = self.count();
        self.write_held(
            at,
            Entry {
                actor,
                call: Call::Assign { tunnel, asked },
                reply: Reply::Assigned {
                    list: kept,
                    at: place,
                },
            },
            Seq::from_vec(treated.into_held()),
        );
        Ok(Reply::Assigned {
            list: told,
            at: place,
        })
    }

    /// A tunnel offers ways.
    pub fn advertise(
        &mut self,
        alloc: Global,
        actor: u32,
        tunnel: u32,
        ranges: Seq<Range>,
    ) -> Result<Reply, NoMemory>
        requires stands { Stands self.old }
        requires may { MayCall self.old.setup self.old.history.items actor (call.Advertise tunnel ranges) }
        ensures { MatchResult result (λ reply. IsAnswered self.old self.new actor (call.Advertise tunnel ranges) reply) (λ _. Stays self.old self.new) }
    {
        if !self.has_places(1) {
            return Ok(self.full());
        }
        let at = self.place_of(tunnel);
        let offered = RouteList::new(copy_ranges(alloc, ranges.as_slice())?);
        self.make_room(1, 0)?;
        let yes = self.is_acceptable(tunnel, &offered);
        let place = self.count();
        self.write_ranges(
            at,
            Entry {
                actor,
                call: Call::Advertise { tunnel, ranges },
                reply: Reply::Accepted { yes, at: place },
            },
            accepted(alloc, yes, offered),
        );
        Ok(Reply::Accepted { yes, at: place })
    }

    /// A tunnel closes.
    pub fn close(&mut self, actor: u32, tunnel: u32)
        requires stands { Stands self.old }
        requires may { MayCall self.old.setup self.old.history.items actor (call.Close tunnel) }
        ensures { IsAnswered self.old self.new actor (call.Close tunnel) reply.Closed }
    {
        let at = self.place_of(tunnel);
        self.history.push_reserved(Entry {
            actor,
            call: Call::Close { tunnel },
            reply: Reply::Closed,
        });
        let _ = self.live.remove(at);
    }

    /// Writes an entry that opens a tunnel.
    fn write_open(&mut self, entry: Entry, tunnel: Tunnel)
        requires stands { Stands self.old }
        requires few { HasPlaces self.old.setup self.old.history.items 2 }
        requires room { length self.old.history.items + length self.old.live.items + 2 ≤ vec_capacity self.old.history }
        requires place { length self.old.live.items < vec_capacity self.old.live }
        requires follows { Follows self.old.setup self.old.history.items entry }
        requires new { IsNew self.old.history.items entry tunnel }
        ensures history { self.new.history.items ≡ self.old.history.items ++ entry ∷ [] }
        ensures setup { self.new.setup ≡ self.old.setup }
        ensures stands { Stands self.new }
    {
        self.history.push_reserved(entry);
        self.live.push_reserved(tunnel);
    }

    /// Writes an entry that changes the blocks of a tunnel.
    fn write_held(&mut self, at: usize, entry: Entry, held: Seq<Given>)
        requires stands { Stands self.old }
        requires few { HasPlaces self.old.setup self.old.history.items 1 }
        requires room { length self.old.history.items + length self.old.live.items + 1 ≤ vec_capacity self.old.history }
        requires follows { Follows self.old.setup self.old.history.items entry }
        requires within { at < length self.old.live.items }
        requires changes { HoldsAt (λ t. IsChange self.old.history.items entry t (record t { held = held })) self.old.live.items at }
        ensures history { self.new.history.items ≡ self.old.history.items ++ entry ∷ [] }
        ensures setup { self.new.setup ≡ self.old.setup }
        ensures stands { Stands self.new }
    {
        self.history.push_reserved(entry);
        self.live[at].held = held;
    }

    /// Writes an entry that changes the ranges of a tunnel.
    fn write_ranges(&mut self, at: usize, entry: Entry, ranges: RouteList)
        requires stands { Stands self.old }
        requires few { HasPlaces self.old.setup self.old.history.items 1 }
        requires room { length self.old.history.items + length self.old.live.items + 1 ≤ vec_capacity self.old.history }
        requires follows { Follows self.old.setup self.old.history.items entry }
        requires within { at < length self.old.live.items }
        requires changes { HoldsAt (λ t. IsChange self.old.history.items entry t (record t { ranges = ranges })) self.old.live.items at }
        ensures history { self.new.history.items ≡ self.old.history.items ++ entry ∷ [] }
        ensures setup { self.new.setup ≡ self.old.setup }
        ensures stands { Stands self.new }
    {
        self.history.push_reserved(entry);
        self.live[at].ranges = ranges;
    }

    /// Takes memory for so many entries and tunnels more.
    fn make_room(&mut self, entries: usize, tunnels: usize) -> Result<(), NoMemory>
        requires stands { Stands self.old }
        requires few { entries ≤ 2 }
        ensures stays { Stays self.old self.new }
        ensures live { self.new.live.items ≡ self.old.live.items }
        ensures room { OnOk result (length self.new.history.items + length self.new.live.items + entries ≤ vec_capacity self.new.history) }
        ensures place { OnOk result (length self.new.live.items + tunnels ≤ vec_capacity self.new.live) }
    {
        let _places = self.setup.places();
        self.history.reserve(self.live.len() + entries)?;
        self.live.reserve(tunnels)?;
        Ok(())
    }

    /// Whether the history has places for so many entries more, beside one for the close of each live tunnel.
    fn has_places(&self, more: usize) -> bool
        requires stands { Stands self.now }
        requires few { more ≤ 2 }
        ensures { MatchBool result (HasPlaces self.now.setup self.now.history.items more)
            (self.now.setup.history < length self.now.history.items + length (live_tunnels self.now.history.items) + more) }
    {
        let places = self.setup.places() as usize;
        self.history.len() + self.live.len() + more <= places
    }

    /// How many entries there are.
    pub fn count(&self) -> u32
        requires { Stands self.now }
        ensures { result ≡ length self.now.history.items }
    {
        let _places = self.setup.places();
        self.history.len() as u32
    }

    /// What is told where the history has no place.
    fn full(&self) -> Reply
        requires { Stands self.now }
        ensures { result ≡ reply.HistoryFull (length self.now.history.items) (length (live_tunnels self.now.history.items)) }
    {
        let _places = self.setup.places();
        Reply::HistoryFull {
            entries: self.history.len() as u32,
            live: self.live.len() as u32,
        }
    }

    /// Where a tunnel is, if it is live.
    pub fn find(&self, number: u32) -> Option<usize>
        ensures { MatchOption result (All (λ t. t.number ≢ number) self.now.live.items)
            (λ at. (at < length self.now.live.items) × HoldsAt (λ t. t.number ≡ number) self.now.live.items at) }
    {
        place_in(self.live.as_slice(), number)
    }

    /// Where a live tunnel is.
    fn place_of(&self, number: u32) -> usize
        requires stands { Stands self.now }
        requires live { IsTrue (is_live self.now.history.items number) }
        ensures within { result < length self.now.live.items }
        ensures there { HoldsAt (λ t. t.number ≡ number) self.now.live.items result }
    {
        self.find(number).unwrap()
    }

    /// Treats a request of the tunnel at a place.
    fn treat(&self, alloc: Global, at: usize, asked: &[Asked]) -> Result<Treated, NoMemory>
        requires stands { Stands self.now }
        requires within { at < length self.now.live.items }
        requires asked { All IsAsked asked.now }
        ensures { IfOk result (λ t. HoldsAt (λ tunnel. AreDone self.now.setup.pool (taken self.now.history.items) tunnel.held asked.now t) self.now.live.items at) }
    {
        let tunnel = &self.live[at];
        let taken = all_taken(alloc, self.live.as_slice())?;
        let held = Vec::from_slice(alloc, tunnel.held.as_slice())?;
        let treated = treat(alloc, &self.setup, taken, held, asked)?;
        Ok(treated)
    }

    /// Whether clients may lead to each of the ranges, and no other live tunnel leads to an address of them.
    fn is_acceptable(&self, tunnel: u32, offered: &RouteList) -> bool
        requires { Stands self.now }
        ensures { IsTrue result ↔ IsAcceptable self.now.setup self.now.history.items tunnel offered.now }
    {
        all_reachable(&self.setup, offered.ranges())
            && is_apart(self.live.as_slice(), tunnel, offered)
    }
}

/// Where the tunnel of a number is.
fn place_in(tunnels: &[Tunnel], number: u32) -> Option<usize>
    ensures { MatchOption result (All (λ t. t.number ≢ number) tunnels.now)
        (λ at. (at < length tunnels.now) × HoldsAt (λ t. t.number ≡ number) tunnels.now at) }
{
    tunnels.iter().position(|tunnel| tunnel.number == number)
}

/// The blocks that some tunnels hold.
fn all_taken(alloc: Global, tunnels: &[Tunnel]) -> Result<Vec<Prefix>, NoMemory>
    ensures { IfOk result (λ v. v.items ≡ flat_map (λ t. blocks t.held) tunnels.now) }
{
    let mut taken = Vec::new(alloc);
    for tunnel in tunnels {
        push_blocks(&mut taken, tunnel.held.as_slice())?;
    }
    Ok(taken)
}

fn push_blocks(taken: &mut Vec<Prefix>, held: &[Given]) -> Result<(), NoMemory>
    ensures { OnOk result (taken.new.items ≡ taken.old.items ++ blocks held.now) }
{
    for given in held {
        taken.push(given.block)?;
    }
    Ok(())
}

/// Whether clients may lead to each of some ranges.
fn all_reachable(setup: &Setup, ranges: &[Range]) -> bool
    requires { All IsRange ranges.now }
    ensures { IsTrue result ↔ All (λ r. IsReachable setup.now r) ranges.now }
{
    ranges.iter().all(|range| setup.is_reachable(range))
}

/// Whether no tunnel of another number leads to an address of the ranges.
fn is_apart(tunnels: &[Tunnel], number: u32, offered: &RouteList) -> bool
    ensures { IsTrue result ↔ All (λ t. IsClear number offered.now t) tunnels.now }
{
    tunnels.iter().all(|other| other.is_clear(number, offered))
}

/// The ranges of a tunnel behind an advertisement.
fn accepted(alloc: Global, yes: bool, offered: RouteList) -> RouteList
    ensures { result ≡ (if yes then offered else []) }
{
    if yes { offered } else { no_routes(alloc) }
}

/// What the tunnel holds, then what is denied.
fn list_of(alloc: Global, treated: &Treated) -> Result<Seq<Given>, NoMemory>
    ensures { IfOk result (λ list. list ≡ treated.now.held.items ++ treated.now.denied.items) }
{
    let mut list = Vec::from_slice(alloc, treated.held.as_slice())?;
    list.extend_from_slice(treated.denied.as_slice())?;
    Ok(Seq::from_vec(list))
}

fn copy_ranges(alloc: Global, ranges: &[Range]) -> Result<Seq<Range>, NoMemory>
    ensures { IfOk result (λ list. list ≡ ranges.now) }
{
    let list = Vec::from_slice(alloc, ranges)?;
    Ok(Seq::from_vec(list))
}
