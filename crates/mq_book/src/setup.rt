//! What the operator configured, and what it says of a call.
ghost use Rattle.std.specs.Prelude.{◌≡◌, ◌↔◌, [], IsTrue, IfOk};
ghost use Rattle.std.specs.List.{Any};
ghost use Rattle.mq_addr.specs.Block.{IsIn, IsPrefix, Overlap};
ghost use Rattle.mq_addr.specs.Cover.{IsFree, IsWithin};
ghost use Rattle.mq_addr.specs.Ranges.{IsRange};
ghost use Rattle.mq_book.specs.Stand.{IsReachable};
ghost use Rattle.mq_talk.specs.Answers.{IsOffered, IsRoutes};
ghost use Rattle.mq_talk.specs.Config.{IsConfig, IsOurs};

use mq_addr::{
    Addr, Asked, Prefix, Range, contains, covers, is_inside, number, overlaps, version_of,
};
use mq_pool::least_free;
use mq_route::RouteList;
use mq_talk::{Config, Goal};
use mq_wire::{NoMemory, Seq};
use std::alloc::Global;
use std::marker::Model;

/// A configuration, with its routes as a list that can be met.
#[derive(Drop)]
pub(crate) struct Setup {
    pool: Seq<Prefix>,
    reach: Seq<Prefix>,
    routes: RouteList,
    history: u32,
    workers: u32,
}

impl Model for Setup {
    ghost use Rattle.mq_talk.specs.declared.book.Config.{Config};
    ghost use Rattle.mq_talk.specs.contracts.book.Config as config;
    ghost use Rattle.mq_talk.specs.Config.{IsConfig};

    ghost Value = { Config };

    ghost coded = { config.the_row.coded };

    ghost view = { λ s. record { pool = s.pool; reach = s.reach; routes = s.routes; history = s.history; workers = s.workers } };

    ghost invariant = { λ s. IsConfig (record { pool = s.pool; reach = s.reach; routes = s.routes; history = s.history; workers = s.workers }) };
}

impl Setup {
    pub fn new(config: Config) -> Setup
        requires { IsConfig config }
        ensures { result ≡ config }
    {
        let Config {
            pool,
            reach,
            routes,
            history,
            workers,
        } = config;
        Setup {
            pool,
            reach,
            routes: RouteList::new(routes),
            history,
            workers,
        }
    }

    /// How many entries the history may have.
    pub fn places(&self) -> u32
        ensures { result ≡ self.now.history }
    {
        self.history
    }

    /// The routes that a tunnel is told when it opens.
    pub fn routes_for(&self, alloc: Global, goal: &Goal) -> Result<RouteList, NoMemory>
        ensures { IfOk result (λ routes. IsRoutes self.now goal.now routes) }
    {
        match goal {
            Goal::Udp { .. } => Ok(no_routes(alloc)),
            Goal::Ip { area, protocol } => {
                let routes = self.routes.meet(alloc, *area, *protocol)?;
                Ok(routes)
            }
        }
    }

    /// What may be given for an asked block: the least free one, or the one that is named, if it is free.
    pub fn offer(&self, taken: &[Prefix], asked: &Asked) -> Option<Prefix>
        requires { IsPrefix asked.now.block }
        ensures { IsOffered self.now.pool taken.now asked.now result }
    {
        let block = asked.block;
        if number(&block.addr) == 0 {
            least_free(
                self.pool.as_slice(),
                taken,
                version_of(&block.addr),
                block.length,
            )
        } else if is_free(self.pool.as_slice(), taken, &block) {
            Some(block)
        } else {
            None
        }
    }

    /// Whether clients may lead to all of a range.
    #[tactic(auto, unfolding(crate::specs::Stand::IsReachable))]
    pub fn is_reachable(&self, range: &Range) -> bool
        requires { IsRange range.now }
        ensures { IsTrue result ↔ IsReachable self.now range.now }
    {
        self.reach
            .as_slice()
            .iter()
            .any(|block| is_inside(range, block))
    }

    /// Whether an address is one that the proxy gives or leads to.
    pub fn is_ours(&self, addr: &Addr) -> bool
        ensures { IsTrue result ↔ IsOurs self.now addr.now }
    {
        is_in(self.pool.as_slice(), addr) || is_in(self.reach.as_slice(), addr)
    }
}

/// A list without a route.
pub(crate) fn no_routes(alloc: Global) -> RouteList
    ensures { result ≡ [] }
{
    RouteList::new(Seq::from_vec(Vec::new(alloc)))
}

/// Whether a block lies in one of a pool, and has no address of a taken one.
fn is_free(pool: &[Prefix], taken: &[Prefix], block: &Prefix) -> bool
    ensures { IsTrue result ↔ IsFree pool.now taken.now block.now }
{
    lies_in(pool, block) && !meets_any(taken, block)
}

/// Whether one of the blocks has every address of another.
fn lies_in(blocks: &[Prefix], part: &Prefix) -> bool
    ensures { IsTrue result ↔ Any (λ whole. IsWithin part.now whole) blocks.now }
{
    blocks.iter().any(|whole| covers(whole, part))
}

/// Whether a block of a list has an address of another block.
pub(crate) fn meets_any(blocks: &[Prefix], block: &Prefix) -> bool
    ensures { IsTrue result ↔ Any (λ other. Overlap other block.now) blocks.now }
{
    blocks.iter().any(|other| overlaps(other, block))
}

/// Whether one of the blocks has an address.
fn is_in(blocks: &[Prefix], addr: &Addr) -> bool
    ensures { IsTrue result ↔ Any (λ block. IsIn block addr.now) blocks.now }
{
    blocks.iter().any(|block| contains(block, addr))
}
