//! Requests, and the settings and bind that decide them.

use super::{PLAIN, ends, prints};
use mq_replay::Status;
use std::alloc::{AllocError, Global};
use std::test::Fail;

/// The path of the example request of RFC 9298, section 3.
const HERE: &[u8] = b"/.well-known/masque/udp/192.0.2.6/443/";

/// These lines, then a request for a UDP tunnel at this path, and three steps.
fn asked(alloc: Global, lines: &[u8], path: &[u8]) -> Result<Vec<u8>, AllocError> {
    let mut script = Vec::from_slice(alloc, lines)?;
    script.extend_from_slice(b"text 0 GET ".as_slice())?;
    script.extend_from_slice(path)?;
    script.extend_from_slice(
        b" HTTP/1.1\\r\\nHost: p\\r\\nConnection: Upgrade\\r\\nUpgrade: connect-udp\\r\\n\\r\\n\nstep 0 3\n".as_slice(),
    )?;
    Ok(script)
}

// By the well-known template of RFC 9298, section 3.4: what isn't a path of it is not found, a value that isn't
// well-formed is a bad request, and a name that isn't known is a bad gateway.
#[test]
fn paths_are_judged(rt: HostRuntime) -> Result<(), Fail> {
    let cases: [(&[u8], &[u8]); 14] = [
        (b"/.well-known/masque/udp/192.0.2.6/443/", b"\nported 0 0\n"),
        (
            b"/.well-known/masque/udp/192.0.2.6/00443/",
            b"\nported 0 0\n",
        ),
        (
            b"/.well-known/masque/udp/2001%3Adb8%3A%3A42/443/",
            b"\nported 0 0\n",
        ),
        (
            b"/.well-known/masque/udp/2001:db8::42/443/",
            b"\nported 0 0\n",
        ),
        (b"/x", b"\nrefused 0 0 404\n"),
        (
            b"/.well-known/masque/udp/192.0.2.6/443",
            b"\nrefused 0 0 404\n",
        ),
        (b"/.well-known/masque/udp//443/", b"\nrefused 0 0 404\n"),
        (
            b"/.well-known/masque/udp/192.0.2.6/443/?a=b",
            b"\nrefused 0 0 404\n",
        ),
        (
            b"/.well-known/masque/udp/192.0.2.6/0/",
            b"\nrefused 0 0 400\n",
        ),
        (
            b"/.well-known/masque/udp/192.0.2.6/65536/",
            b"\nrefused 0 0 400\n",
        ),
        (
            b"/.well-known/masque/udp/192.0.2.6/000443/",
            b"\nrefused 0 0 400\n",
        ),
        (b"/.well-known/masque/udp/a%2/443/", b"\nrefused 0 0 400\n"),
        (
            b"/.well-known/masque/udp/a.example/443/",
            b"\nrefused 0 0 502\n",
        ),
        (
            b"/.well-known/masque/udp/192.0.2.256/443/",
            b"\nrefused 0 0 502\n",
        ),
    ];
    for &(path, want) in &cases {
        let script = asked(rt.alloc(), b"conn 0\n", path)?;
        ends(&rt, rt.alloc(), script.as_slice(), want)?;
    }
    Ok(())
}

/// Settings, and then a request for a UDP tunnel at this path.
fn configured(alloc: Global, settings: &[u8], path: &[u8]) -> Result<Vec<u8>, AllocError> {
    let mut lines = Vec::from_slice(alloc, settings)?;
    lines.extend_from_slice(b"conn 0\n".as_slice())?;
    asked(alloc, lines.as_slice(), path)
}

// The first rule that matches decides; a name is looked up before; the last template and the last line of a name count.
#[test]
fn settings_decide(rt: HostRuntime) -> Result<(), Fail> {
    let named: &[u8] = b"/.well-known/masque/udp/A.Example/443/";
    let cases: [(&[u8], &[u8], &[u8]); 17] = [
        (b"", HERE, b"\nported 0 0\n"),
        (b"deny udp * 1 65535\n", HERE, b"\nrefused 0 0 403 rule 1\n"),
        (
            b"allow udp * 1 65535\ndeny udp * 1 65535\n",
            HERE,
            b"\nported 0 0\n",
        ),
        (
            b"deny udp 192.0.2.0/24 1 65535\nallow udp * 1 65535\n",
            HERE,
            b"\nrefused 0 0 403 rule 1\n",
        ),
        (b"allow ip * *\n", HERE, b"\nrefused 0 0 403 rule 0\n"),
        (
            b"deny ip * *\ndeny udp * 443 443\n",
            HERE,
            b"\nrefused 0 0 403 rule 2\n",
        ),
        (
            b"deny udp * 1 442\ndeny udp * 444 65535\nallow udp * 1 65535\n",
            HERE,
            b"\nported 0 0\n",
        ),
        (
            b"deny udp * 443 65535\n",
            HERE,
            b"\nrefused 0 0 403 rule 1\n",
        ),
        (b"deny udp * 1 443\n", HERE, b"\nrefused 0 0 403 rule 1\n"),
        (
            b"deny udp ::/0 1 65535\nallow udp * 1 65535\n",
            HERE,
            b"\nported 0 0\n",
        ),
        (b"deny udp * 1 65535\n", named, b"\nrefused 0 0 502\n"),
        (b"name a.example 192.0.2.6\n", named, b"\nported 0 0\n"),
        (
            b"name a.example 192.0.2.6\ndeny udp 192.0.2.6/32 1 65535\n",
            named,
            b"\nrefused 0 0 403 rule 1\n",
        ),
        (
            b"name a.example 192.0.2.6\nname a.example 192.0.2.7\ndeny udp 192.0.2.6/32 1 65535\nallow udp * 1 65535\n",
            named,
            b"\nported 0 0\n",
        ),
        (
            b"# said\n\ntemplate udp /u/{target_host}/{target_port}\n",
            HERE,
            b"\nrefused 0 0 404\n",
        ),
        (
            b"template udp /u/{target_host}/{target_port}\n",
            b"/u/192.0.2.6/443",
            b"\nported 0 0\n",
        ),
        (
            b"template udp /u{?target_host,target_port}\ntemplate udp /v{?target_host,target_port}\n",
            b"/v?target_host=192.0.2.6&target_port=443",
            b"\nported 0 0\n",
        ),
    ];
    for &(settings, path, want) in &cases {
        let script = configured(rt.alloc(), settings, path)?;
        ends(&rt, rt.alloc(), script.as_slice(), want)?;
    }
    Ok(())
}

const LETTERS: [u8; 26] = *b"abcdefghijklmnopqrstuvwxyz";

/// So many names of two letters, and so many rules, of which the last alone allows anything.
fn full_settings(alloc: Global, names: u32, rules: u32) -> Result<Vec<u8>, AllocError> {
    let mut settings = Vec::new(alloc);
    for number in 0..names {
        settings.extend_from_slice(b"name ".as_slice())?;
        settings.push(LETTERS[(number / 26 % 26) as usize])?;
        settings.push(LETTERS[(number % 26) as usize])?;
        settings.extend_from_slice(b" 192.0.2.6\n".as_slice())?;
    }
    for _ in 1..rules {
        settings.extend_from_slice(b"deny udp 198.51.100.0/24 1 65535\n".as_slice())?;
    }
    settings.extend_from_slice(b"allow udp 192.0.2.6 443 443\n".as_slice())?;
    Ok(settings)
}

#[test]
fn sixty_four_names_and_256_rules_are_taken(rt: HostRuntime) -> Result<(), Fail> {
    let cases: [(&[u8], &[u8]); 4] = [
        (b"/.well-known/masque/udp/aa/443/", b"\nported 0 0\n"),
        (b"/.well-known/masque/udp/CL/443/", b"\nported 0 0\n"),
        (b"/.well-known/masque/udp/cm/443/", b"\nrefused 0 0 502\n"),
        (
            b"/.well-known/masque/udp/cl/444/",
            b"\nrefused 0 0 403 rule 0\n",
        ),
    ];
    let settings = full_settings(rt.alloc(), 64, 256)?;
    for &(path, want) in &cases {
        let script = configured(rt.alloc(), settings.as_slice(), path)?;
        ends(&rt, rt.alloc(), script.as_slice(), want)?;
    }
    let past: [(u32, u32, &[u8]); 2] = [(65, 1, b"bad line 65\n"), (0, 257, b"bad line 257\n")];
    for &(names, rules, want) in &past {
        let script = full_settings(rt.alloc(), names, rules)?;
        prints(
            &rt,
            rt.alloc(),
            script.as_slice(),
            &PLAIN,
            Status::BadScript,
            want,
        )?;
    }
    Ok(())
}

#[test]
fn settings_stand_first(rt: HostRuntime) -> Result<(), Fail> {
    let cases: [(&[u8], &[u8]); 6] = [
        (b"failbind\ndeny udp * 1 65535\n", b"bad line 2\n"),
        (b"conn 0\ndeny udp * 1 65535\n", b"bad line 2\n"),
        (b"step 0\nname a 192.0.2.6\n", b"idle 0\nbad line 2\n"),
        (
            b"name a 192.0.2.6\nconn 0\ntemplate ip /{target}/{ipproto}\n",
            b"bad line 3\n",
        ),
        (b"template udp /{target}/{ipproto}\n", b"bad line 1\n"),
        (b"deny udp 192.0.2.1/24 1 65535\n", b"bad line 1\n"),
    ];
    for &(script, want) in &cases {
        prints(&rt, rt.alloc(), script, &PLAIN, Status::BadScript, want)?;
    }
    Ok(())
}

// A bind that fails refuses its request, and what came behind it is gone.
#[test]
fn a_bind_fails_where_that_was_said(rt: HostRuntime) -> Result<(), Fail> {
    let cases: [(&[u8], &[u8], &[u8]); 7] = [
        (b"failbind\nconn 0\n", HERE, b"\nrefused 0 0 502\n"),
        (b"conn 0\nfailbind\n", HERE, b"\nrefused 0 0 502\n"),
        (
            b"conn 0\nfailbind\nfailbind\n",
            HERE,
            b"\nrefused 0 0 502\n",
        ),
        (b"conn 0\n", HERE, b"\nported 0 0\n"),
        (b"conn 0\nfailbind\n", b"/x", b"\nrefused 0 0 404\n"),
        (
            b"deny udp * 1 65535\nfailbind\nconn 0\n",
            HERE,
            b"\nrefused 0 0 403 rule 1\n",
        ),
        (
            b"allow udp * 443 443\nfailbind\nconn 0\n",
            HERE,
            b"\nrefused 0 0 502\n",
        ),
    ];
    for &(lines, path, want) in &cases {
        let script = asked(rt.alloc(), lines, path)?;
        ends(&rt, rt.alloc(), script.as_slice(), want)?;
    }
    Ok(())
}
