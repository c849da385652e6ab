//! Names, rules, and what is decided by them.
ghost use Rattle.std.specs.Prelude.{◌<◌, ◌^◌, length};

use mq_addr::{Addr, Prefix};
use mq_policy::*;
use mq_talk::Goal;
use mq_target::{Area, Host, Name, Target};
use mq_wire::NoMemory;
use std::alloc::Global;

/// 192.0.2.6.
const HOST: Addr = Addr::V4(0xc000_0206);

/// 2001:db8::6.
const HOST_6: Addr = Addr::V6(0x2001_0db8_0000_0000_0000_0000_0000_0006);

/// 192.0.2.0/24.
const NET: Option<Prefix> = Some(Prefix {
    addr: Addr::V4(0xc000_0200),
    length: 24,
});

/// 192.0.2.0/25.
const LOW_HALF: Option<Prefix> = Some(Prefix {
    addr: Addr::V4(0xc000_0200),
    length: 25,
});

/// 192.0.2.128/25.
const HIGH_HALF: Option<Prefix> = Some(Prefix {
    addr: Addr::V4(0xc000_0280),
    length: 25,
});

/// 192.0.2.6/32.
const HOST_ALONE: Option<Prefix> = Some(Prefix {
    addr: HOST,
    length: 32,
});

/// 0.0.0.0/0.
const ALL_4: Option<Prefix> = Some(Prefix {
    addr: Addr::V4(0),
    length: 0,
});

/// ::/0.
const ALL_6: Option<Prefix> = Some(Prefix {
    addr: Addr::V6(0),
    length: 0,
});

/// 2001:db8::/32.
const NET_6: Option<Prefix> = Some(Prefix {
    addr: Addr::V6(0x2001_0db8_0000_0000_0000_0000_0000_0000),
    length: 32,
});

fn udp(allow: bool, block: Option<Prefix>, low: u16, high: u16) -> Rule {
    Rule::Udp {
        allow,
        block,
        low,
        high,
    }
}

fn ip(allow: bool, block: Option<Prefix>, protocol: Option<u8>) -> Rule {
    Rule::Ip {
        allow,
        block,
        protocol,
    }
}

fn port(addr: Addr, port: u16) -> Goal {
    Goal::Udp { addr, port }
}

fn packets(area: Option<Prefix>, protocol: Option<u8>) -> Goal {
    Goal::Ip { area, protocol }
}

/// The target that leads there, without a name.
fn target_of(goal: Goal) -> Target {
    match goal {
        Goal::Udp { addr, port } => Target::Udp {
            host: Host::Address(addr),
            port,
        },
        Goal::Ip { area, protocol } => Target::Ip {
            area: match area {
                None => Area::All,
                Some(block) => Area::Block(block),
            },
            protocol,
        },
    }
}

/// A policy with these rules and no names.
fn policy_of(alloc: Global, rules: &[Rule]) -> Result<Policy, NoMemory>
    requires { length rules.now < 2 ^ 32 }
{
    let mut policy = Policy::new(alloc);
    for rule in rules {
        policy.add_rule(*rule)?;
    }
    Ok(policy)
}

/// Whether two rules deny a goal with this number, which is 0 where neither is for it, or allow it where there is none.
fn is_decided(alloc: Global, first: Rule, second: Rule, goal: Goal, denied: Option<u32>) -> bool {
    let want = match denied {
        None => Decision::Go(goal),
        Some(number) => Decision::Denied(number),
    };
    match policy_of(alloc, [first, second].as_slice()) {
        Ok(policy) => policy.decide(&target_of(goal)) == want,
        Err(_) => false,
    }
}

#[test]
fn the_first_rule_decides(rt: HostRuntime) {
    let rows = [
        (
            udp(false, NET, 1, 65535),
            udp(true, None, 1, 65535),
            port(HOST, 53),
            Some(1),
        ),
        (
            udp(true, None, 1, 65535),
            udp(false, NET, 1, 65535),
            port(HOST, 53),
            None,
        ),
        (
            udp(true, LOW_HALF, 1, 65535),
            udp(false, NET, 1, 65535),
            port(HOST, 53),
            None,
        ),
        (
            udp(true, HIGH_HALF, 1, 65535),
            udp(false, NET, 1, 65535),
            port(HOST, 53),
            Some(2),
        ),
        (
            udp(false, HIGH_HALF, 1, 65535),
            udp(true, NET, 1, 65535),
            port(HOST, 53),
            None,
        ),
        (
            udp(true, HIGH_HALF, 1, 65535),
            udp(true, HIGH_HALF, 1, 65535),
            port(HOST, 53),
            Some(0),
        ),
    ];
    for &(first, second, goal, denied) in &rows {
        assert!(rt;
            is_decided(rt.alloc(), first, second, goal, denied),
            "{first:?}, {second:?}, {goal:?}"
        );
    }
}

#[test]
fn both_ends_of_a_range_are_in_it(rt: HostRuntime) {
    let rows = [
        (
            udp(true, None, 100, 200),
            udp(false, None, 1, 65535),
            port(HOST, 99),
            Some(2),
        ),
        (
            udp(true, None, 100, 200),
            udp(false, None, 1, 65535),
            port(HOST, 100),
            None,
        ),
        (
            udp(true, None, 100, 200),
            udp(false, None, 1, 65535),
            port(HOST, 200),
            None,
        ),
        (
            udp(true, None, 100, 200),
            udp(false, None, 1, 65535),
            port(HOST, 201),
            Some(2),
        ),
        (
            udp(true, None, 443, 443),
            udp(false, None, 1, 65535),
            port(HOST, 443),
            None,
        ),
        (
            udp(true, None, 443, 443),
            udp(false, None, 1, 65535),
            port(HOST, 442),
            Some(2),
        ),
        (
            udp(true, None, 443, 443),
            udp(false, None, 1, 65535),
            port(HOST, 444),
            Some(2),
        ),
        (
            udp(false, None, 1, 1),
            udp(true, None, 65535, 65535),
            port(HOST, 65535),
            None,
        ),
    ];
    for &(first, second, goal, denied) in &rows {
        assert!(rt;
            is_decided(rt.alloc(), first, second, goal, denied),
            "{first:?}, {second:?}, {goal:?}"
        );
    }
}

#[test]
fn a_block_of_the_other_version_never_matches(rt: HostRuntime) {
    let rows = [
        (
            udp(true, ALL_4, 1, 65535),
            udp(false, None, 1, 65535),
            port(HOST_6, 53),
            Some(2),
        ),
        (
            udp(true, ALL_6, 1, 65535),
            udp(false, None, 1, 65535),
            port(HOST, 53),
            Some(2),
        ),
        (
            udp(false, NET_6, 1, 65535),
            udp(true, ALL_4, 1, 65535),
            port(HOST_6, 53),
            Some(1),
        ),
        (
            ip(true, ALL_6, None),
            ip(false, ALL_4, None),
            packets(NET, None),
            Some(2),
        ),
    ];
    for &(first, second, goal, denied) in &rows {
        assert!(rt;
            is_decided(rt.alloc(), first, second, goal, denied),
            "{first:?}, {second:?}, {goal:?}"
        );
    }
}

#[test]
fn a_rule_of_the_other_kind_never_matches(rt: HostRuntime) {
    let rows = [
        (
            ip(true, None, None),
            udp(false, None, 1, 65535),
            port(HOST, 53),
            Some(2),
        ),
        (
            udp(true, None, 1, 65535),
            ip(false, None, None),
            packets(NET, None),
            Some(2),
        ),
        (
            ip(true, None, None),
            ip(true, NET, None),
            port(HOST, 53),
            Some(0),
        ),
        (
            udp(true, None, 1, 65535),
            udp(true, NET, 1, 65535),
            packets(None, None),
            Some(0),
        ),
    ];
    for &(first, second, goal, denied) in &rows {
        assert!(rt;
            is_decided(rt.alloc(), first, second, goal, denied),
            "{first:?}, {second:?}, {goal:?}"
        );
    }
}

#[test]
fn a_block_holds_a_whole_area(rt: HostRuntime) {
    let rows = [
        (
            ip(true, NET, None),
            ip(false, None, None),
            packets(LOW_HALF, None),
            None,
        ),
        (
            ip(true, NET, None),
            ip(false, None, None),
            packets(NET, None),
            None,
        ),
        (
            ip(true, LOW_HALF, None),
            ip(false, None, None),
            packets(NET, None),
            Some(2),
        ),
        (
            ip(true, LOW_HALF, None),
            ip(false, None, None),
            packets(HIGH_HALF, None),
            Some(2),
        ),
        (
            ip(true, LOW_HALF, None),
            ip(false, None, None),
            packets(HOST_ALONE, None),
            None,
        ),
        (
            ip(true, ALL_4, None),
            ip(true, ALL_6, None),
            packets(None, None),
            Some(0),
        ),
        (
            ip(true, None, None),
            ip(false, None, None),
            packets(None, None),
            None,
        ),
    ];
    for &(first, second, goal, denied) in &rows {
        assert!(rt;
            is_decided(rt.alloc(), first, second, goal, denied),
            "{first:?}, {second:?}, {goal:?}"
        );
    }
}

#[test]
fn a_protocol_is_that_one_alone(rt: HostRuntime) {
    let rows = [
        (
            ip(true, None, Some(17)),
            ip(false, None, None),
            packets(NET, Some(17)),
            None,
        ),
        (
            ip(true, None, Some(17)),
            ip(false, None, None),
            packets(NET, Some(6)),
            Some(2),
        ),
        (
            ip(true, None, Some(17)),
            ip(false, None, None),
            packets(NET, None),
            Some(2),
        ),
        (
            ip(true, None, Some(0)),
            ip(false, None, None),
            packets(NET, None),
            Some(2),
        ),
        (
            ip(true, NET, None),
            ip(false, None, None),
            packets(NET, Some(0)),
            None,
        ),
    ];
    for &(first, second, goal, denied) in &rows {
        assert!(rt;
            is_decided(rt.alloc(), first, second, goal, denied),
            "{first:?}, {second:?}, {goal:?}"
        );
    }
}

#[test]
fn without_rules_all_is_allowed(rt: HostRuntime) {
    let policy = Policy::new(rt.alloc());
    for &goal in &[
        port(HOST, 1),
        port(HOST_6, 65535),
        packets(None, None),
        packets(NET, Some(6)),
    ] {
        assert!(rt;
            policy.decide(&target_of(goal)) == Decision::Go(goal),
            "{goal:?}"
        );
    }
}

/// The name that a text is. That a text is none fails a test as want of memory does.
fn name_of(alloc: Global, text: &str) -> Result<Name, NoMemory> {
    match Name::of(alloc, text.as_bytes())? {
        Some(name) => Ok(name),
        None => Err(NoMemory),
    }
}

/// What is decided on UDP to a port of a name.
fn on_name(alloc: Global, policy: &Policy, name: &str, port: u16) -> Result<Decision, NoMemory> {
    let name = name_of(alloc, name)?;
    Ok(policy.decide(&Target::Udp {
        host: Host::Name(name),
        port,
    }))
}

/// What is decided on packets to a name.
fn on_area(alloc: Global, policy: &Policy, name: &str) -> Result<Decision, NoMemory> {
    let name = name_of(alloc, name)?;
    Ok(policy.decide(&Target::Ip {
        area: Area::Name(name),
        protocol: Some(17),
    }))
}

/// A policy with a name, and a rule that denies all UDP.
fn closed(alloc: Global) -> Result<Policy, NoMemory> {
    let mut policy = Policy::new(alloc);
    policy.add_name(alloc, &name_of(alloc, "a.example")?, HOST)?;
    policy.add_rule(udp(false, None, 1, 65535))?;
    Ok(policy)
}

#[test]
fn names_come_before_rules(rt: HostRuntime) {
    let Ok(policy) = closed(rt.alloc()) else {
        assert!(rt; false, "a policy");
        return;
    };
    assert!(rt; on_name(rt.alloc(), &policy, "a.example", 1) == Ok(Decision::Denied(1)));
    assert!(rt; on_name(rt.alloc(), &policy, "b.example", 1) == Ok(Decision::UnknownName));
    assert!(rt; on_name(rt.alloc(), &policy, "a.exampl", 1) == Ok(Decision::UnknownName));
    assert!(rt; on_name(rt.alloc(), &policy, "A.example", 1) == Ok(Decision::Denied(1)));
    assert!(rt; on_area(rt.alloc(), &policy, "a.example") == Ok(Decision::Denied(0)));
    assert!(rt; on_area(rt.alloc(), &policy, "b.example") == Ok(Decision::UnknownName));
}

/// A policy with a name that has a second address, and another.
fn renamed(alloc: Global) -> Result<Policy, NoMemory> {
    let mut policy = Policy::new(alloc);
    policy.add_name(alloc, &name_of(alloc, "a.example")?, HOST)?;
    policy.add_name(alloc, &name_of(alloc, "b.example")?, HOST)?;
    policy.add_name(alloc, &name_of(alloc, "a.example")?, HOST_6)?;
    policy.copy()
}

#[test]
fn a_second_address_replaces_the_first(rt: HostRuntime) {
    let Ok(policy) = renamed(rt.alloc()) else {
        assert!(rt; false, "a policy");
        return;
    };
    assert!(rt; on_name(rt.alloc(), &policy, "a.example", 7) == Ok(Decision::Go(port(HOST_6, 7))));
    assert!(rt; on_name(rt.alloc(), &policy, "b.example", 7) == Ok(Decision::Go(port(HOST, 7))));
    assert!(rt;
        on_area(rt.alloc(), &policy, "b.example") == Ok(Decision::Go(packets(HOST_ALONE, Some(17))))
    );
}

/// A policy with 256 rules, each of which denies the port of its number, and 64 names, each with the address of its
/// number.
fn crowded(alloc: Global) -> Result<Policy, NoMemory> {
    let mut policy = Policy::new(alloc);
    for number in 0..256u16 {
        policy.add_rule(udp(false, None, number + 1, number + 1))?;
    }
    for number in 0..64u32 {
        let name = format!(in alloc; "name{number}.example")?;
        policy.add_name(alloc, &name_of(alloc, name.as_str())?, Addr::V4(number))?;
    }
    policy.copy()
}

#[test]
fn each_of_many_rules_and_names_is_found(rt: HostRuntime) {
    let Ok(policy) = crowded(rt.alloc()) else {
        assert!(rt; false, "a policy");
        return;
    };
    for &port in &[1, 2, 100, 255, 256] {
        let denied = Decision::Denied(u32::from(port));
        assert!(rt;
            on_name(rt.alloc(), &policy, "name0.example", port) == Ok(denied),
            "{port}"
        );
        assert!(rt;
            on_name(rt.alloc(), &policy, "name63.example", port) == Ok(denied),
            "{port}"
        );
    }
    assert!(rt; on_name(rt.alloc(), &policy, "name7.example", 257) == Ok(Decision::Denied(0)));
    assert!(rt; on_name(rt.alloc(), &policy, "name64.example", 1) == Ok(Decision::UnknownName));
    assert!(rt; on_area(rt.alloc(), &policy, "name7.example") == Ok(Decision::Denied(0)));
}
