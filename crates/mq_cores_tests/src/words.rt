//! Words, and what they ask for.

use mq_addr::addr_text;
use mq_target::Host;
use mq_words::{Command, read_words};
use std::alloc::Global;
use std::test::Fail;

fn host_text(alloc: Global, host: &Host) -> Result<String, Fail> {
    let text = match host {
        Host::Address(addr) => String::from_utf8_lossy(alloc, addr_text(addr).as_slice())?,
        Host::Name(name) => String::from_utf8_lossy(alloc, name.as_slice())?,
    };
    Ok(format!(in alloc; "{text}")?)
}

/// What words ask for, in one line.
fn asked(alloc: Global, line: &str) -> Result<String, Fail> {
    let mut words = Vec::new(alloc);
    for word in line.split(' ') {
        words.push(String::from_str(alloc, word)?)?;
    }
    let Some(command) = read_words(alloc, words.as_slice())? else {
        return Ok(format!(in alloc; "nothing")?);
    };
    Ok(match command {
        Command::Replay => format!(in alloc; "replay")?,
        Command::Gen { seed, count } => format!(in alloc; "gen {seed} {count}")?,
        Command::Soak { seed, count } => format!(in alloc; "soak {seed} {count}")?,
        Command::Udp(ask) => {
            let addr = host_text(alloc, &Host::Address(ask.addr))?;
            let host = host_text(alloc, &ask.host)?;
            format!(in alloc;
                "{addr} {} {host} {} {} {}",
                ask.port, ask.target_port, ask.h2, ask.count
            )?
        }
    })
}

#[test]
fn words_ask_for_this(rt: HostRuntime) -> Result<(), Fail> {
    for &(line, want) in &WORDS {
        assert!(rt; asked(rt.alloc(), line)?.as_str() == want, "{line}");
    }
    Ok(())
}

const WORDS: [(&str, &str); 44] = [
    ("replay", "replay"),
    ("replay x", "nothing"),
    ("Replay", "nothing"),
    ("", "nothing"),
    ("--help", "nothing"),
    ("-h", "nothing"),
    ("serve 0 1", "nothing"),
    ("gen 0 1", "gen 0 1"),
    (
        "gen 18446744073709551615 50000",
        "gen 18446744073709551615 50000",
    ),
    ("gen 18446744073709551616 1", "nothing"),
    ("gen 7 50001", "nothing"),
    ("gen 7 0", "nothing"),
    ("gen 07 1", "nothing"),
    ("gen 7 01", "nothing"),
    ("gen +7 1", "nothing"),
    ("gen -7 1", "nothing"),
    ("gen 7", "nothing"),
    ("gen 7 1 1", "nothing"),
    ("soak 7 20000", "soak 7 20000"),
    ("soak 7 50001", "nothing"),
    ("replay 7 1", "nothing"),
    (
        "udp 127.0.0.1 8080 192.0.2.6 443 h1 1",
        "127.0.0.1 8080 192.0.2.6 443 false 1",
    ),
    (
        "udp 127.0.0.1 8080 192.0.2.6 443 h2 65535",
        "127.0.0.1 8080 192.0.2.6 443 true 65535",
    ),
    (
        "udp ::1 1 2001:DB8::1 65535 h1 1",
        "::1 1 2001:db8::1 65535 false 1",
    ),
    (
        "udp ::1 1 Example.ORG 53 h1 1",
        "::1 1 example.org 53 false 1",
    ),
    ("udp ::1 1 a-b_c. 53 h1 1", "::1 1 a-b_c. 53 false 1"),
    (
        "udp ::1 1 192.0.2.256 53 h1 1",
        "::1 1 192.0.2.256 53 false 1",
    ),
    ("udp ::1 1 -a 53 h1 1", "nothing"),
    ("udp ::1 1 a/b 53 h1 1", "nothing"),
    ("udp ::1 1  53 h1 1", "nothing"),
    ("udp ::1 1 * 53 h1 1", "nothing"),
    ("udp ::1 1 [::1] 53 h1 1", "nothing"),
    ("udp localhost 1 a 53 h1 1", "nothing"),
    ("udp 127.0.0.01 1 a 53 h1 1", "nothing"),
    ("udp ::1 0 a 53 h1 1", "nothing"),
    ("udp ::1 65536 a 53 h1 1", "nothing"),
    ("udp ::1 01 a 53 h1 1", "nothing"),
    ("udp ::1 1 a 0 h1 1", "nothing"),
    ("udp ::1 1 a 53 h3 1", "nothing"),
    ("udp ::1 1 a 53 H1 1", "nothing"),
    ("udp ::1 1 a 53 h1 0", "nothing"),
    ("udp ::1 1 a 53 h1 65536", "nothing"),
    ("udp ::1 1 a 53 h1", "nothing"),
    ("udp ::1 1 a 53 h1 1 1", "nothing"),
];
