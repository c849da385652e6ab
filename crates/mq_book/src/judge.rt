//! Where a packet may go (RFC 9484, sections 4.7.1 and 4.7.3).
ghost use Rattle.std.specs.Prelude.{◌<◌, MatchOption, length};
ghost use Rattle.std.specs.List.{All, HoldsAt};
ghost use Rattle.mq_talk.specs.Judging.{HasNoOwner, IsJudged};
ghost use Rattle.mq_talk.specs.Book.{IsOwner};
ghost use Rattle.mq_talk.specs.declared.place.Origin.TheVariants as origin;
ghost use Rattle.mq_book.specs.Stand.{Has, IsOnward, IsToward, IsTunnel, Stands};

use crate::laws::one_owner;
use crate::ledger::Ledger;
use crate::tunnel::Tunnel;
use mq_addr::{Addr, Flow};
use mq_talk::{Origin, Place, Verdict};

impl Ledger {
    /// What becomes of a packet.
    pub fn judge(&self, origin: Origin, flow: &Flow) -> Verdict
        requires { Stands self.now }
        ensures { IsJudged self.now.setup self.now.history.items origin flow.now result }
    {
        match origin {
            Origin::Tunnel(number) => self.judge_of_tunnel(number, flow),
            Origin::Net => self.judge_of_net(flow),
        }
    }

    /// A packet of a tunnel: the source has to be its own, and a route that it was told has to lead to the target.
    fn judge_of_tunnel(&self, number: u32, flow: &Flow) -> Verdict
        requires { Stands self.now }
        ensures { IsJudged self.now.setup self.now.history.items (origin.Tunnel number) flow.now result }
    {
        match self.find(number) {
            Some(at) => self.judge_of_live(&self.live[at], flow),
            None => Verdict::Source,
        }
    }

    fn judge_of_live(&self, tunnel: &Tunnel, flow: &Flow) -> Verdict
        requires stands { Stands self.now }
        requires tunnel { IsTunnel self.now.history.items tunnel.now }
        ensures { IsJudged self.now.setup self.now.history.items (origin.Tunnel tunnel.now.number) flow.now result }
    {
        if !tunnel.owns(&flow.source, flow.protocol) {
            Verdict::Source
        } else if !tunnel.routes.allows(&flow.target, flow.protocol) {
            Verdict::NoRoute
        } else {
            self.judge_target(flow)
        }
    }

    /// To the owner of the target, or, where it has none and isn't the proxy's, to the network.
    fn judge_target(&self, flow: &Flow) -> Verdict
        requires { Stands self.now }
        ensures { IsOnward self.now.setup self.now.history.items flow.now result }
    {
        match self.owner(&flow.target) {
            Some(at) => toward(&self.live[at], flow),
            None if self.setup.is_ours(&flow.target) => Verdict::NoRoute,
            None => Verdict::Pass(Place::Net),
        }
    }

    /// A packet of the network: its source may not be inside.
    fn judge_of_net(&self, flow: &Flow) -> Verdict
        requires { Stands self.now }
        ensures { IsJudged self.now.setup self.now.history.items origin.Net flow.now result }
    {
        one_owner();
        if self.owner(&flow.source).is_some() || self.setup.is_ours(&flow.source) {
            return Verdict::Source;
        }
        match self.owner(&flow.target) {
            Some(at) => toward(&self.live[at], flow),
            None => Verdict::NoRoute,
        }
    }

    /// The first tunnel that has an address.
    fn owner(&self, addr: &Addr) -> Option<usize>
        requires { Stands self.now }
        ensures { MatchOption result (HasNoOwner self.now.history.items addr.now)
            (λ at. (at < length self.now.live.items) × HoldsAt (λ t. IsOwner self.now.history.items t.number addr.now) self.now.live.items at) }
    {
        first_with(self.live.as_slice(), addr)
    }
}

/// To a tunnel, if the target is its own for this protocol and a route that it was told has the source.
fn toward(tunnel: &Tunnel, flow: &Flow) -> Verdict
    ensures { IsToward tunnel.now flow.now result }
{
    if tunnel.owns(&flow.target, flow.protocol)
        && tunnel.routes.allows(&flow.source, flow.protocol)
    {
        Verdict::Pass(Place::Tunnel {
            tunnel: tunnel.number,
            actor: tunnel.actor,
        })
    } else {
        Verdict::NoRoute
    }
}

/// The first of some tunnels that has an address.
fn first_with(tunnels: &[Tunnel], addr: &Addr) -> Option<usize>
    ensures { MatchOption result (All (λ t. ¬ (Has t addr.now)) tunnels.now)
        (λ at. (at < length tunnels.now) × HoldsAt (λ t. Has t addr.now) tunnels.now at) }
{
    tunnels.iter().position(|tunnel| tunnel.has(addr))
}
