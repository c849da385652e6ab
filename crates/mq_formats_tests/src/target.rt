//! Templates and paths with what the RFCs say of them.
ghost use Rattle.mq_target.specs.Expansion.{Suits};

use mq_addr::Addr;
use mq_target::*;
use mq_wire::NoMemory;
use std::alloc::Global;
use std::test::Fail;

const UDP: &[u8] = b"/.well-known/masque/udp/{target_host}/{target_port}/";

const IP: &[u8] = b"/.well-known/masque/ip/{target}/{ipproto}/";

const QUERY: &[u8] = b"/x{?target_host,target_port}";

/// Texts of templates for UDP, and what `parse` answers: `+` where it is one, `v` for Variables, `s` for Syntax.
const TEXTS: [(&str, &str); 34] = [
    ("/.well-known/masque/udp/{target_host}/{target_port}/", "+"),
    ("/{target_port}/{target_host}", "+"),
    ("/{target_host}?port={target_port}", "+"),
    ("/{target_host}&{target_port}", "+"),
    ("/proxy?h={target_host}&p={target_port}", "+"),
    ("/x{?target_host,target_port}", "+"),
    ("/x{?target_port,target_host}", "+"),
    ("/x?y=1{?target_host,target_port}", "+"),
    ("/a-._~!$'()*+,;=:@/{target_host}/{target_port}/z", "+"),
    ("/", "v"),
    ("/x", "v"),
    ("/{target_host}", "v"),
    ("/{target_host}/{target_host}", "v"),
    ("/{target_host}/{target_port}/{target_port}", "v"),
    ("/{target}/{ipproto}", "v"),
    ("/{target_host}/{Target_Port}", "v"),
    ("/{target_host}{?target_port,x}", "v"),
    ("/x{?target_host,target}", "v"),
    ("", "s"),
    ("x/{target_host}/{target_port}", "s"),
    ("{target_host}/{target_port}", "s"),
    ("https://proxy.example/{target_host}/{target_port}", "s"),
    ("/{target_host}{target_port}", "s"),
    ("/{target_host}:{target_port}", "s"),
    ("/{target_host}/{target_port}x", "s"),
    ("/{target_host/{target_port}", "s"),
    ("/target_host}/{target_port}", "s"),
    ("/{}/{target_port}", "s"),
    ("/{+target_host}/{target_port}", "s"),
    ("/{target_host:3}/{target_port}", "s"),
    ("/x{?target_host,target_port,x}", "s"),
    ("/x{?target_host}", "s"),
    ("/x{?target_host,target_port}/", "s"),
    ("/%20/{target_host}/{target_port}", "s"),
];

/// The letter of an answer of `parse`.
fn letter(answer: &Result<Template, TemplateFault>) -> &'static str {
    match answer {
        Ok(_) => "+",
        Err(TemplateFault::Variables) => "v",
        Err(TemplateFault::Syntax) => "s",
        Err(TemplateFault::NoMemory) => "m",
    }
}

#[test]
fn templates_have_one_form(rt: HostRuntime) {
    for &(text, want) in &TEXTS {
        let answer = Template::parse(rt.alloc(), Kind::Udp, text.as_bytes());
        assert!(rt; letter(&answer) == want, "{text}");
    }
    let answer = Template::parse(rt.alloc(), Kind::Ip, IP);
    assert!(rt; letter(&answer) == "+");
    let answer = Template::parse(rt.alloc(), Kind::Ip, UDP);
    assert!(rt; letter(&answer) == "v");
}

/// Paths of the default template for UDP, and what `matches` answers: `n` for No, `b` for Bad, `4` and `6` for
/// addresses, `h` for a name.
const UDP_PATHS: [(&str, &str); 24] = [
    ("/.well-known/masque/udp/192.0.2.6/443/", "4"),
    ("/.well-known/masque/udp/2001%3Adb8%3A%3A42/443/", "6"),
    ("/.well-known/masque/udp/2001:db8::42/443/", "6"),
    ("/.well-known/masque/udp/target.example.com/443/", "h"),
    ("/.well-known/masque/udp/TARGET.example.com/443/", "h"),
    ("/.well-known/masque/udp/%74arget/443/", "h"),
    ("/.well-known/masque/udp/192.0.2.256/443/", "h"),
    ("/.well-known/masque/udp/192.0.2.06/443/", "h"),
    ("/.well-known/masque/udp/a_b-c.d/00080/", "h"),
    ("/.well-known/masque/udp/192.0.2.6/65535/", "4"),
    ("/.well-known/masque/udp/192.0.2.6/65536/", "b"),
    ("/.well-known/masque/udp/192.0.2.6/0/", "b"),
    ("/.well-known/masque/udp/192.0.2.6/000443/", "b"),
    ("/.well-known/masque/udp/192.0.2.6/+443/", "b"),
    ("/.well-known/masque/udp/192.0.2.6/4%34/", "4"),
    ("/.well-known/masque/udp/[2001:db8::42]/443/", "b"),
    ("/.well-known/masque/udp/a%2Fb/443/", "b"),
    ("/.well-known/masque/udp/a%2/443/", "b"),
    ("/.well-known/masque/udp/192%252E0.2.6/443/", "b"),
    ("/.well-known/masque/udp/192.0.2.6/443", "n"),
    ("/.well-known/masque/udp//443/", "n"),
    ("/.well-known/masque/udp/192.0.2.6/443/x", "n"),
    ("/.well-known/masque/udp/192.0.2.6/443/?x", "n"),
    ("/.well-known/masque/ip/192.0.2.6/443/", "n"),
];

/// Paths of the default template for IP: `*` where all is asked for, `p` for a prefix.
const IP_PATHS: [(&str, &str); 20] = [
    ("/.well-known/masque/ip/*/*/", "*"),
    ("/.well-known/masque/ip/%2A/%2A/", "*"),
    ("/.well-known/masque/ip/*/0/", "*"),
    ("/.well-known/masque/ip/*/255/", "*"),
    ("/.well-known/masque/ip/*/006/", "*"),
    ("/.well-known/masque/ip/*/256/", "b"),
    ("/.well-known/masque/ip/*/0006/", "b"),
    ("/.well-known/masque/ip/**/*/", "b"),
    ("/.well-known/masque/ip/192.0.2.6/*/", "p"),
    ("/.well-known/masque/ip/192.0.2.0%2F24/17/", "p"),
    ("/.well-known/masque/ip/192.0.2.0%2f24/17/", "p"),
    ("/.well-known/masque/ip/2001%3Adb8%3A%3A%2F32/58/", "p"),
    ("/.well-known/masque/ip/192.0.2.1%2F24/17/", "b"),
    ("/.well-known/masque/ip/192.0.2.0%2F33/17/", "b"),
    ("/.well-known/masque/ip/192.0.2.0/24/17/", "n"),
    ("/.well-known/masque/ip/Example.ORG/17/", "h"),
    ("/.well-known/masque/ip/192.0.2.256/17/", "h"),
    ("/.well-known/masque/ip/example.org%2F24/17/", "b"),
    ("/.well-known/masque/ip/example.org/tcp/", "b"),
    ("/.well-known/masque/ip/*/", "n"),
];

/// The letter of an answer of `matches`.
fn sort(answer: &Result<Matched, NoMemory>) -> &'static str {
    match answer {
        Ok(Matched::No) => "n",
        Ok(Matched::Bad) => "b",
        Ok(Matched::Yes(target)) => sort_of_target(target),
        Err(_) => "m",
    }
}

fn sort_of_target(target: &Target) -> &'static str {
    match target {
        Target::Udp { host, .. } => match host {
            Host::Address(Addr::V4(_)) => "4",
            Host::Address(Addr::V6(_)) => "6",
            Host::Name(_) => "h",
        },
        Target::Ip { area, .. } => match area {
            Area::All => "*",
            Area::Block(_) => "p",
            Area::Name(_) => "h",
        },
    }
}

#[test]
fn paths_are_sorted(rt: HostRuntime) {
    let Ok(udp) = Template::parse(rt.alloc(), Kind::Udp, UDP) else {
        assert!(rt; false, "the default template for UDP");
        return;
    };
    let Ok(ip) = Template::parse(rt.alloc(), Kind::Ip, IP) else {
        assert!(rt; false, "the default template for IP");
        return;
    };
    for &(path, want) in &UDP_PATHS {
        assert!(rt;
            sort(&udp.matches(rt.alloc(), path.as_bytes())) == want,
            "{path}"
        );
    }
    for &(path, want) in &IP_PATHS {
        assert!(rt;
            sort(&ip.matches(rt.alloc(), path.as_bytes())) == want,
            "{path}"
        );
    }
}

/// Whether a template matches a path as this target.
fn gives(alloc: Global, template: &Template, path: &[u8], want: &Target) -> bool {
    match template.matches(alloc, path) {
        Ok(Matched::Yes(target)) => target == *want,
        _ => false,
    }
}

/// What a path with a name of so many bytes is to the default template.
fn long_name(alloc: Global, template: &Template, count: u32) -> Result<Matched, NoMemory> {
    let mut path = Vec::from_slice(alloc, b"/.well-known/masque/udp/".as_slice())?;
    for _ in 0..count {
        path.push(b'n')?;
    }
    path.extend_from_slice(b"/443/".as_slice())?;
    template.matches(alloc, path.as_slice())
}

/// A target with a name.
fn named(alloc: Global, name: &[u8], port: u16) -> Result<Option<Target>, NoMemory> {
    match Name::of(alloc, name)? {
        Some(name) => Ok(Some(Target::Udp {
            host: Host::Name(name),
            port,
        })),
        None => Ok(None),
    }
}

#[test]
fn names_are_short_and_in_lower_case(rt: HostRuntime) {
    let Ok(template) = Template::parse(rt.alloc(), Kind::Udp, UDP) else {
        assert!(rt; false, "the default template for UDP");
        return;
    };
    assert!(rt; sort(&long_name(rt.alloc(), &template, 1)) == "h");
    assert!(rt; sort(&long_name(rt.alloc(), &template, 253)) == "h");
    assert!(rt; sort(&long_name(rt.alloc(), &template, 254)) == "b");
    let path = b"/.well-known/masque/udp/TARGET.example.COM/443/".as_slice();
    let Ok(Some(target)) = named(rt.alloc(), b"target.example.com".as_slice(), 443) else {
        assert!(rt; false, "a name");
        return;
    };
    assert!(rt; gives(rt.alloc(), &template, path, &target));
}

#[test]
fn a_query_is_matched_and_expanded(rt: HostRuntime) {
    let Ok(template) = Template::parse(rt.alloc(), Kind::Udp, QUERY) else {
        assert!(rt; false, "a template with a query");
        return;
    };
    let Ok(copy) = template.copy(rt.alloc()) else {
        assert!(rt; false, "a copy");
        return;
    };
    let path = b"/x?target_host=2001%3Adb8%3A%3A1&target_port=53".as_slice();
    assert!(rt; sort(&template.matches(rt.alloc(), path)) == "6");
    assert!(rt; sort(&copy.matches(rt.alloc(), path)) == "6");
    assert!(rt;
        sort(&template.matches(
            rt.alloc(),
            b"/x?target_host=2001%3Adb8%3A%3A1&target_port=0".as_slice()
        )) == "b"
    );
    assert!(rt; sort(&template.matches(rt.alloc(), b"/y".as_slice())) == "n");
    assert!(rt;
        sort(&template.matches(
            rt.alloc(),
            b"/x?target_port=53&target_host=2001%3Adb8%3A%3A1".as_slice()
        )) == "n"
    );
}

/// Whether the path of a target is this one, and is read as that target.
fn goes_round(alloc: Global, template: &Template, target: &Target, path: &[u8]) -> bool {
    match template.expand(alloc, target) {
        Ok(expanded) => expanded.as_slice() == path && gives(alloc, template, path, target),
        Err(_) => false,
    }
}

#[test]
fn targets_go_round(rt: HostRuntime) {
    let Ok(query) = Template::parse(rt.alloc(), Kind::Udp, QUERY) else {
        assert!(rt; false, "a template with a query");
        return;
    };
    let target = Target::Udp {
        host: Host::Address(Addr::V6(0x2001_0db8_0000_0000_0000_0000_0000_0001)),
        port: 53,
    };
    let path = b"/x?target_host=2001%3Adb8%3A%3A1&target_port=53".as_slice();
    assert!(rt; goes_round(rt.alloc(), &query, &target, path));
    let Ok(ip) = Template::parse(rt.alloc(), Kind::Ip, IP) else {
        assert!(rt; false, "the default template for IP");
        return;
    };
    let all = Target::Ip {
        area: Area::All,
        protocol: None,
    };
    assert!(rt;
        goes_round(
            rt.alloc(),
            &ip,
            &all,
            b"/.well-known/masque/ip/%2A/%2A/".as_slice()
        )
    );
}

#[test]
fn names_go_round_by_the_default_templates(rt: HostRuntime) -> Result<(), Fail> {
    let udp = Template::well_known(rt.alloc(), Kind::Udp)?;
    let Some(host) = named(rt.alloc(), b"a_b-c.Example", 53)? else {
        return Err(Fail::from("no name"));
    };
    let path = b"/.well-known/masque/udp/a_b-c.example/53/".as_slice();
    assert!(rt; goes_round(rt.alloc(), &udp, &host, path));
    let ip = Template::well_known(rt.alloc(), Kind::Ip)?;
    let Some(name) = Name::of(rt.alloc(), b"target.example")? else {
        return Err(Fail::from("no name"));
    };
    let area = Target::Ip {
        area: Area::Name(name),
        protocol: Some(17),
    };
    let path = b"/.well-known/masque/ip/target.example/17/".as_slice();
    assert!(rt; goes_round(rt.alloc(), &ip, &area, path));
    Ok(())
}

#[test]
fn a_name_has_one_form(rt: HostRuntime) -> Result<(), Fail> {
    let rows = [
        ("a", "a"),
        ("A.B-c_9", "a.b-c_9"),
        ("192.0.2.6", "192.0.2.6"),
        ("", ""),
        ("a b", ""),
        ("a~b", ""),
        ("a:b", ""),
        ("\u{e9}", ""),
    ];
    for &(text, want) in &rows {
        let name = Name::of(rt.alloc(), text.as_bytes())?;
        let found = match &name {
            Some(name) => name.as_slice(),
            None => b"",
        };
        assert!(rt; found == want.as_bytes(), "{text}");
    }
    Ok(())
}

#[test]
fn a_fault_says_what_it_is(rt: HostRuntime) -> Result<(), Fail> {
    let rows = [
        (
            TemplateFault::Syntax,
            "the text hasn't the form of a template",
        ),
        (
            TemplateFault::Variables,
            "the text hasn't exactly the two variables of its kind",
        ),
        (TemplateFault::NoMemory, "memory ran out"),
    ];
    for &(fault, text) in &rows {
        assert_eq!(rt; format!(in rt.alloc(); "{fault}")?.as_str(), text);
    }
    Ok(())
}
