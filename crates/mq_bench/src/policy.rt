//! Decisions on requests for a name, by a policy with 64 names and 256 rules of which the last is for them.

use mq_addr::{Addr, Prefix};
use mq_policy::{Decision, Policy, Rule};
use mq_talk::Goal;
use mq_target::{Host, Name, Target};
use mq_wire::NoMemory;
use std::alloc::Global;

/// 255 rules for a network each, and one for every address.
fn rules(alloc: Global) -> Result<Policy, NoMemory> {
    let mut policy = Policy::new(alloc);
    for network in 0..255u32 {
        policy.add_rule(Rule::Udp {
            allow: false,
            block: Some(Prefix {
                addr: Addr::V4(network * 0x1_0000),
                length: 16,
            }),
            low: 1,
            high: 65535,
        })?;
    }
    policy.add_rule(Rule::Udp {
        allow: true,
        block: None,
        low: 1,
        high: 65535,
    })?;
    Ok(policy)
}

/// The name of this number.
fn name(alloc: Global, number: u32) -> Result<Name, NoMemory> {
    let text = format!(in alloc; "host-{number}.example")?;
    match Name::of(alloc, text.as_bytes())? {
        Some(name) => Ok(name),
        None => Err(NoMemory),
    }
}

/// Gives 64 names their addresses, which lie in no network of a rule, and asks for a port of each.
fn targets(alloc: Global, policy: &mut Policy) -> Result<Vec<Target>, NoMemory> {
    let mut targets = Vec::new(alloc);
    for number in 0..64u32 {
        let name = name(alloc, number)?;
        policy.add_name(alloc, &name, Addr::V4(0xc000_0200 + number))?;
        targets.push(Target::Udp {
            host: Host::Name(name),
            port: 443,
        })?;
    }
    Ok(targets)
}

/// What a decision adds: the address that it leads to, or the number of the rule.
fn worth(decision: &Decision) -> u64 {
    match decision {
        Decision::Go(
            Goal::Udp {
                addr: Addr::V4(bits),
                ..
            },
        ) => u64::from(*bits),
        Decision::Denied(number) => u64::from(*number),
        _ => 0,
    }
}

/// The sum over so many rounds of 64 decisions, one on each name.
pub fn checksum(alloc: Global, count: u32) -> Result<u64, NoMemory> {
    let mut policy = rules(alloc)?;
    let targets = targets(alloc, &mut policy)?;
    let mut sum = 0u64;
    for _ in 0..count {
        for target in targets.as_slice() {
            sum = sum.wrapping_add(worth(&policy.decide(target)));
        }
    }
    Ok(sum)
}
