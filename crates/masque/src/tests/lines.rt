//! Lines that print nothing, and lines that are bad, at each limit.

use super::rows::{TUNNEL, TUNNEL_PRINTS};
use super::{PLAIN, prints, replayed};
use mq_replay::Status;
use std::alloc::{AllocError, Global};
use std::process::Abort;
use std::test::Fail;

/// Scripts that print nothing, one in a row. Each `;` stands for the end of a line.
const GOOD: &str = "\
workers 1;conn 0;
workers 4;conn 3;conn 0;
workers 4;workers 1;conn 0;
conn 0;conn 0;end 1;end 1;
conn 0;room 0 0;room 0 2147483647;room 0 all;
conn 0;failread 0;failwrite 0;
conn 0;fill 0 61 99999 62;
conn 0;text 0  !~\\\\\\r\\n;
failbind;failbind;
failnet;failnet;
packet 1 00;packet 1024 ff;
run 1;
run 1000000;
mtu 1280;mtu 65535;
history 4;history 262144;
pool 198.51.100.0/24;pool 198.51.101.0/24;
pool 198.51.100.0/24;reach 198.51.101.0/24;
reach 2001:db8::/32;pool 198.51.100.0/24;
route 192.0.2.0 192.0.2.9 0;route 192.0.2.11 192.0.2.11 0;
route 0.0.0.0 255.255.255.255 255;
host 192.0.2.1;host 2001:db8::1;host 192.0.2.1;
name a.example 192.0.2.6;name a.example 2001:db8::6;
allow udp * 1 65535;deny udp 192.0.2.6 443 443;
allow ip * *;deny ip 192.0.2.0/24 255;deny ip 192.0.2.0/24 0;
template udp /u/{target_host}/{target_port};
template ip /i/{target}/{ipproto};
# said;;mtu 1280;# said;;conn 0
;;;
";

/// Scripts of which one line is bad, behind its number.
const BAD: &str = "\
3 # said;;step 1;
1 bytes 0 00;conn 0;
1 conn 1;
1 conn net;
2 workers 4;conn 4;
1 workers 0;
1 workers 5;
1 workers 01;
1 end 0;
2 conn 0;end 1;
3 conn 0;end 0;bytes 0 00;
3 conn 0;end 0;end 0 ;
1 room 0 all;
2 conn 0;room 0 2147483648;
2 conn 0;room 0 -1;
1 failread 0;
2 conn 0;failread 1;
1 failwrite 0;
2 conn 0;failwrite 1;
1 dgram 0 61;
1 failport 0;
2 conn 0;failport 0;
1 failbind 0;
1 failnet 0;
1 failnet ;
1 packet;
1 packet 1;
1 packet 1 ;
1 packet 1 0;
1 packet 0 00;
1 packet 1025 00;
1 packet 01 00;
2 conn 0;bytes 0 ;
2 conn 0;bytes 0 0;
2 conn 0;bytes 0 AA;
2 conn 0;bytes 4294967296 00;
2 conn 0;text 0 ;
2 conn 0;text 0 \\t;
2 conn 0;fill 0 61 100000 62;
2 conn 0;fill 0 61 0 62;
1 run 0;
1 run 1000001;
1 run;
1 step 0 0;
1 step 0 1000001;
1 step net 0;
1 step 4;
2 workers 2;step 2;
1 mtu 1279;
1 mtu 65536;
1 history 3;
1 history 262145;
1 pool 0.0.0.0/8;
1 pool 198.51.100.1/24;
2 pool 198.51.100.0/24;pool 198.51.100.9/32;
2 pool 198.51.100.0/24;reach 198.51.100.9/32;
2 reach 198.51.100.9/32;pool 198.51.100.0/24;
1 route 192.0.2.9 192.0.2.0 0;
1 route 192.0.2.0 192.0.2.9 256;
2 route 192.0.2.0 192.0.2.9 0;route 192.0.2.9 192.0.2.9 0;
1 host 192.0.2.1/32;
1 deny udp * 0 1;
1 deny ip * 256;
2 conn 0;mtu 1500;
";

/// The script of a row.
fn script_of(alloc: Global, row: &str) -> Result<Vec<u8>, AllocError> {
    let mut script = Vec::from_slice(alloc, row.as_bytes())?;
    for byte in script.as_mut_slice() {
        if *byte == b';' {
            *byte = b'\n';
        }
    }
    Ok(script)
}

/// The script prints nothing, and no line of it is bad.
fn is_silent(rt: &impl Abort, alloc: Global, script: &[u8]) -> Result<(), Fail> {
    prints(rt, alloc, script, &PLAIN, Status::Done, b"")
}

/// The script prints this line alone, which names a bad one.
fn is_bad(rt: &impl Abort, alloc: Global, script: &[u8], line: &[u8]) -> Result<(), Fail> {
    prints(rt, alloc, script, &PLAIN, Status::BadScript, line)
}

#[test]
fn good_lines_print_nothing(rt: HostRuntime) -> Result<(), Fail> {
    for row in GOOD.lines() {
        let script = script_of(rt.alloc(), row)?;
        is_silent(&rt, rt.alloc(), script.as_slice())?;
    }
    Ok(())
}

/// The line that names a bad one.
fn bad_line(alloc: Global, number: &str) -> Result<Vec<u8>, AllocError> {
    let mut line = Vec::from_slice(alloc, b"bad line ".as_slice())?;
    line.extend_from_slice(number.as_bytes())?;
    line.push(b'\n')?;
    Ok(line)
}

#[test]
fn bad_lines_are_told_by_number(rt: HostRuntime) -> Result<(), Fail> {
    for row in BAD.lines() {
        let Some((number, row)) = row.split_once(' ') else {
            return Err(Fail::from("a row without a number"));
        };
        let script = script_of(rt.alloc(), row)?;
        let want = bad_line(rt.alloc(), number)?;
        is_bad(&rt, rt.alloc(), script.as_slice(), want.as_slice())?;
    }
    Ok(())
}

/// So many settings of one form: these parts, with a number between each two.
fn many(alloc: Global, parts: &[&[u8]], count: u8) -> Result<Vec<u8>, AllocError> {
    let mut script = Vec::new(alloc);
    for number in 0..count {
        let digits = [b'1' + number / 10, b'0' + number % 10];
        let mut between: &[u8] = b"";
        for part in parts {
            script.extend_from_slice(between)?;
            script.extend_from_slice(part)?;
            between = &digits;
        }
    }
    Ok(script)
}

// At most 16 blocks of a kind, 32 routes and 64 hosts.
#[test]
fn settings_of_a_form_are_bounded(rt: HostRuntime) -> Result<(), Fail> {
    let pool: &[&[u8]] = &[b"pool 2001:db8:", b"::/48\n"];
    let reach: &[&[u8]] = &[b"reach 2001:db8:", b"::/48\n"];
    let route: &[&[u8]] = &[b"route 2001:db8:", b"::1 2001:db8:", b"::1 0\n"];
    let host: &[&[u8]] = &[b"host 2001:db8:", b"::1\n"];
    let cases: [(&[&[u8]], u8, &[u8]); 4] = [
        (pool, 16, b"bad line 17\n"),
        (reach, 16, b"bad line 17\n"),
        (route, 32, b"bad line 33\n"),
        (host, 64, b"bad line 65\n"),
    ];
    for &(parts, most, want) in &cases {
        let script = many(rt.alloc(), parts, most)?;
        is_silent(&rt, rt.alloc(), script.as_slice())?;
        let script = many(rt.alloc(), parts, most + 1)?;
        is_bad(&rt, rt.alloc(), script.as_slice(), want)?;
    }
    Ok(())
}

/// A datagram of so many bytes for a tunnel that is open.
fn with_datagram(alloc: Global, length: usize) -> Result<Vec<u8>, AllocError> {
    let mut script = Vec::from_slice(alloc, TUNNEL)?;
    script.extend_from_slice(b"dgram 0 ".as_slice())?;
    for _ in 0..length {
        script.extend_from_slice(b"61".as_slice())?;
    }
    Ok(script)
}

#[test]
fn a_datagram_has_at_most_65527_bytes(rt: HostRuntime) -> Result<(), Fail> {
    for &(length, want, text) in &[
        (1, Status::Done, b"".as_slice()),
        (65_527, Status::Done, b""),
        (65_528, Status::BadScript, b"bad line 4\n"),
    ] {
        let script = with_datagram(rt.alloc(), length)?;
        let (status, out) = replayed(rt.alloc(), script.as_slice(), &PLAIN)?;
        assert!(rt; out.as_slice().starts_with(TUNNEL_PRINTS), "{length} bytes");
        assert!(rt; out.as_slice().ends_with(text), "{length} bytes");
        assert_eq!(rt; status, want);
    }
    Ok(())
}
