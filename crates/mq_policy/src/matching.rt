//! Which rules are for a goal, and which of them decides.
ghost use Rattle.std.specs.Prelude.{◌≡◌, ◌↔◌, ◌<◌, ◌^◌, ◌≤◌, length, IsTrue, MatchOption, Bool};
ghost use Rattle.std.specs.List.{AllWithin, HoldsAt};
ghost use Rattle.mq_policy.specs.Rules.{Matches, IsForPort, IsForProtocol, allows};
ghost use Rattle.mq_policy.specs.Decisions.{DecidesGoal};

use crate::area::{covers_area, has_addr};
use crate::{Decision, Rule};
use mq_talk::Goal;

/// What the rules say of a goal.
pub fn decide_goal(rules: &[Rule], goal: Goal) -> Decision
    requires { length rules.now < 2 ^ 32 }
    ensures { DecidesGoal rules.now goal result }
{
    match first_match(rules, &goal) {
        Some(place) if rules[place].allows() => Decision::Go(goal),
        Some(place) => Decision::Denied(place as u32 + 1),
        None if rules.is_empty() => Decision::Go(goal),
        None => Decision::Denied(0),
    }
}

/// The place of the first rule that is for a goal.
fn first_match(rules: &[Rule], goal: &Goal) -> Option<usize>
    ensures { MatchOption result
        (AllWithin (λ rule. ¬ (Matches rule goal.now)) rules.now 0 (length rules.now))
        (λ place. (place < length rules.now) × HoldsAt (λ rule. Matches rule goal.now) rules.now place
        × AllWithin (λ rule. ¬ (Matches rule goal.now)) rules.now 0 place) }
{
    rules.iter().position(|rule| rule.is_for(goal))
}

impl Rule {
    /// Whether the rule allows what it is for.
    fn allows(&self) -> bool
        ensures { result ≡ allows self.now }
    {
        match self {
            Rule::Udp { allow, .. } => *allow,
            Rule::Ip { allow, .. } => *allow,
        }
    }

    /// Whether the rule is for this goal.
    fn is_for(&self, goal: &Goal) -> bool
        ensures { IsTrue result ↔ Matches self.now goal.now }
    {
        match (self, goal) {
            (
                Rule::Udp {
                    block,
                    low,
                    high,
                    ..
                },
                Goal::Udp { addr, port },
            ) => { is_for_port(*low, *high, *port) && has_addr(block, addr) }
            (
                Rule::Ip {
                    block,
                    protocol,
                    ..
                },
                Goal::Ip {
                    area,
                    protocol: asked,
                },
            ) => { is_for_protocol(*protocol, *asked) && covers_area(block, area) }
            _ => false,
        }
    }
}

/// Whether a port is from `low` to `high`.
fn is_for_port(low: u16, high: u16, port: u16) -> bool
    ensures { IsTrue result ↔ IsForPort low high port }
{
    (low..=high).contains(&port)
}

/// Whether a rule for this protocol, or for every one, is for a request that asks for that one, or for every one.
fn is_for_protocol(protocol: Option<u8>, asked: Option<u8>) -> bool
    ensures { IsTrue result ↔ IsForProtocol protocol asked }
{
    protocol.is_none() || protocol == asked
}
