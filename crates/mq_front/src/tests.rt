//! What the frames of a client ask for, written as lines.

use crate::data::DataStream;
use crate::http2::Http2;
use crate::{Dues, Finish, Front, Tunnels};
use mq_addr::{Addr, Kind, Prefix};
use mq_machine::{Act, Due, Setup, StreamAct};
use mq_policy::{Policy, Rule};
use mq_talk::{End, Goal};
use mq_target::Template;
use std::alloc::{AllocError, Global};
use std::fmt::{Debug, Write};
use std::process::Abort;
use std::test::Fail;

/// No tunnel is live.
struct NoTunnel;

impl Tunnels for NoTunnel {
    ghost use Rattle.std.specs.Prelude.{[]};

    ghost list = { λ t. [] };

    fn is_on(&self, _: u32) -> bool {
        false
    }
}

/// One tunnel is live, on this stream.
#[derive(Clone, Copy)]
struct OneTunnel {
    stream: u32,
    goal: Goal,
}

impl Tunnels for OneTunnel {
    ghost use Rattle.std.specs.Prelude.{[], ◌∷◌};

    ghost list = { λ t. record { id = 0; stream = t.stream; goal = t.goal; waiting = [] } ∷ [] };

    fn is_on(&self, stream: u32) -> bool {
        self.stream == stream
    }
}

fn setup(alloc: Global) -> Result<Setup, Fail> {
    let Ok(udp) = Template::parse(alloc, Kind::Udp, b"/u/{target_host}/{target_port}") else {
        return Err(Fail::from("no template"));
    };
    Ok(Setup {
        udp,
        ip: Template::well_known(alloc, Kind::Ip)?,
        policy: Policy::new(alloc),
        mtu: 1500,
        pump: 1,
    })
}

/// What was seen is what is wanted.
fn is(rt: &impl Abort, seen: &str, want: &str) {
    assert_eq!(rt; seen, want);
}

/// Adds the line of a stream, with a word and numbers.
fn add_row(text: &mut String, stream: u32, word: &str, numbers: &[u32]) -> Result<(), AllocError> {
    write!(text, "{stream} {word}")?;
    for number in numbers {
        write!(text, " {number}")?;
    }
    text.push_str("\n")
}

/// Adds the line of a stream, with a word and a value.
fn add_value<T: Debug>(
    text: &mut String,
    stream: u32,
    word: &str,
    value: &T,
) -> Result<(), AllocError> {
    write!(text, "{stream} {word} {value:?}\n")
}

/// Adds the line of a stream, with a word, the number of a payload, and its bytes.
fn add_bytes(
    alloc: Global,
    text: &mut String,
    stream: u32,
    word: &str,
    n: u64,
    bytes: &[u8],
) -> Result<(), AllocError> {
    write!(text, "{stream} {word} {n} ")?;
    text.push_str(hex::encode(alloc, bytes)?.as_str())?;
    text.push_str("\n")
}

/// Adds the line of what is asked of a tunnel.
fn add_of_stream(
    alloc: Global,
    text: &mut String,
    stream: u32,
    act: &StreamAct,
) -> Result<(), AllocError> {
    match act {
        StreamAct::Payload { n, payload } => {
            add_bytes(alloc, text, stream, "payload", *n, payload.as_slice())
        }
        StreamAct::Packet { n, packet, .. } => {
            add_bytes(alloc, text, stream, "packet", *n, packet.as_slice())
        }
        StreamAct::Assign { asked } => add_value(text, stream, "assign", &asked.as_slice()),
        StreamAct::Advertise { ranges } => add_value(text, stream, "advertise", &ranges.as_slice()),
        StreamAct::Drop { n, cause } => write!(text, "{stream} drop {n} {cause:?}\n"),
        StreamAct::Close { why } => add_value(text, stream, "close", why),
        _ => add_row(text, stream, "another", &[]),
    }
}

/// Adds the line of what is asked.
fn add_act(alloc: Global, text: &mut String, act: &Act) -> Result<(), AllocError> {
    match act {
        Act::Bind {
            stream,
            goal: Goal::Udp { port, .. },
        } => add_row(text, *stream, "bind", &[u32::from(*port)]),
        Act::Open {
            stream,
            goal: Goal::Ip { area, protocol },
        } => write!(text, "{stream} open {area:?} {protocol:?}\n"),
        Act::Refuse {
            stream,
            status,
            rule,
        } => add_row(text, *stream, "refuse", &[u32::from(*status), *rule]),
        Act::Reset { stream, code } => add_row(text, *stream, "reset", &[*code]),
        Act::OfStream { stream, act } => add_of_stream(alloc, text, *stream, act),
        _ => text.push_str("another\n"),
    }
}

/// Adds the line of what is due.
fn add_due(alloc: Global, text: &mut String, due: &Due) -> Result<(), AllocError> {
    match due {
        Due::Do(act) => add_act(alloc, text, act),
        Due::Spend { stream, size } => add_row(text, *stream, "spend", &[*size]),
        Due::Fault { code } => write!(text, "fault {code}\n"),
    }
}

fn append(alloc: Global, out: &mut Vec<u8>, hexed: &str) -> Result<(), Fail> {
    let Ok(bytes) = hex::decode(alloc, hexed.as_bytes()) else {
        return Err(Fail::from("no hex"));
    };
    out.extend_from_slice(bytes.as_slice())?;
    Ok(())
}

/// The bytes that are given in hex, with spaces between.
fn bytes(alloc: Global, hexed: &str) -> Result<Vec<u8>, Fail> {
    let mut out = Vec::new(alloc);
    for part in hexed.split(' ') {
        append(alloc, &mut out, part)?;
    }
    Ok(out)
}

/// The lines of what is due.
fn lines(alloc: Global, dues: &mut Dues) -> Result<String, Fail> {
    let mut text = String::new(alloc);
    for _ in 0..100 {
        if let Some(due) = dues.pop() {
            add_due(alloc, &mut text, &due)?;
        }
    }
    Ok(text)
}

/// What a piece asks for at a front, by this setup.
fn asked_by(alloc: Global, front: &mut Front, setup: &Setup, piece: &[u8]) -> Result<String, Fail> {
    let mut dues = Dues::new(alloc);
    front.read(alloc, setup, &NoTunnel, piece, &mut dues)?;
    lines(alloc, &mut dues)
}

/// What a piece asks for at a front.
fn asked_of(alloc: Global, front: &mut Front, piece: &[u8]) -> Result<String, Fail> {
    let setup = setup(alloc)?;
    asked_by(alloc, front, &setup, piece)
}

/// What a piece asks for, by this setup.
fn told_by<T: Tunnels>(
    alloc: Global,
    front: &mut Http2,
    setup: &Setup,
    tunnels: &T,
    piece: &[u8],
) -> Result<String, Fail> {
    let mut dues = Dues::new(alloc);
    front.read(alloc, setup, tunnels, piece, &mut dues)?;
    lines(alloc, &mut dues)
}

/// What a piece asks for.
fn told<T: Tunnels>(
    alloc: Global,
    front: &mut Http2,
    tunnels: &T,
    piece: &[u8],
) -> Result<String, Fail> {
    let setup = setup(alloc)?;
    told_by(alloc, front, &setup, tunnels, piece)
}

/// What a piece, given in hex, asks for.
fn read<T: Tunnels>(
    alloc: Global,
    front: &mut Http2,
    tunnels: &T,
    hexed: &str,
) -> Result<String, Fail> {
    let piece = bytes(alloc, hexed)?;
    told(alloc, front, tunnels, piece.as_slice())
}

/// The client's SETTINGS, without one.
const SETTINGS: &str = "000000040000000000";

/// The block of a request for a tunnel to 192.0.2.6, port 443.
const BLOCK: &str =
    "0207434f4e4e4543548704102f752f3139322e302e322e362f34343301017000093a70726f746f636f6c0b636f6e6e6563742d756470";

/// HEADERS of a stream with that block, that end it or don't.
fn request(alloc: Global, stream: u32, ends: bool) -> Result<String, Fail> {
    let flags = if ends { "05" } else { "04" };
    Ok(format!(in alloc; "00003601{flags}0000000{stream}{BLOCK}")?)
}

/// A connection that has read this.
fn after(alloc: Global, hexed: &str) -> Result<Http2, Fail> {
    let mut front = Http2::new(alloc)?;
    read(alloc, &mut front, &NoTunnel, hexed)?;
    Ok(front)
}

/// One that has read the client's SETTINGS and a request on stream 1.
fn asked(alloc: Global) -> Result<Http2, Fail> {
    let first = request(alloc, 1, false)?;
    let hexed = format!(in alloc; "{SETTINGS} {first}")?;
    after(alloc, hexed.as_str())
}

/// Those of streams 1 and 3.
fn two_requests(alloc: Global) -> Result<String, Fail> {
    let first = request(alloc, 1, false)?;
    let second = request(alloc, 3, false)?;
    Ok(format!(in alloc; "{first}{second}")?)
}

/// This, given in hex, asks for that.
fn reads(
    rt: &impl Abort,
    alloc: Global,
    front: &mut Http2,
    hexed: &str,
    want: &str,
) -> Result<(), Fail> {
    let text = read(alloc, front, &NoTunnel, hexed)?;
    is(rt, text.as_str(), want);
    Ok(())
}

/// Two requests come, and capsules of both.
fn read_of_two(rt: &impl Abort, alloc: Global, front: &mut Http2) -> Result<(), Fail> {
    reads(rt, alloc, front, SETTINGS, "")?;
    let both = two_requests(alloc)?;
    reads(rt, alloc, front, both.as_str(), "1 bind 443\n3 bind 443\n")?;
    reads(
        rt,
        alloc,
        front,
        "00000200000000000100030000030000000000030003000000030000000000010061620000020000000000036364",
        "1 spend 2\n3 spend 3\n1 payload 0 6162\n1 spend 3\n3 payload 0 6364\n3 spend 2\n",
    )
}

#[test]
fn capsules_of_two_streams_stay_apart(rt: HostRuntime) -> Result<(), Fail> {
    let mut front = Http2::new(rt.alloc())?;
    read_of_two(&rt, rt.alloc(), &mut front)
}

/// The tunnel of the request on stream 1.
const TUNNEL: OneTunnel = OneTunnel {
    stream: 1,
    goal: Goal::Udp {
        addr: Addr::V4(0),
        port: 443,
    },
};

/// What this asks for behind a request on stream 1, whose tunnel is live.
fn asked_behind(alloc: Global, hexed: &str) -> Result<String, Fail> {
    let mut front = asked(alloc)?;
    read(alloc, &mut front, &TUNNEL, hexed)
}

#[test]
fn what_ends_a_stream(rt: HostRuntime) -> Result<(), Fail> {
    let rows = [
        // the data stream ends, between capsules and inside one
        (
            "000005000100000001000300aabb",
            "1 payload 0 aabb\n1 close End\n1 spend 5\n",
        ),
        (
            "0000040001000000010003aabb",
            "1 close Truncated\n1 spend 4\n",
        ),
        ("000000000100000001", "1 close End\n1 spend 0\n"),
        // a datagram without a Context ID, with the end behind it
        ("0000020001000000010000", "1 close Malformed\n1 spend 2\n"),
        // a reset, with a tunnel
        ("00000403000000000100000008", "1 close Reset\n"),
        // a second header block, with a tunnel
        ("000001010400000001 82", "1 close Malformed\n"),
        // an error of the connection: DATA on a stream that was never begun
        ("000001000000000009aa", "fault 1\n"),
    ];
    for &(hexed, want) in &rows {
        let text = asked_behind(rt.alloc(), hexed)?;
        is(&rt, text.as_str(), want);
    }
    Ok(())
}

/// What this asks for behind the client's SETTINGS.
fn asked_at_first(alloc: Global, hexed: &str) -> Result<String, Fail> {
    let mut front = after(alloc, SETTINGS)?;
    read(alloc, &mut front, &NoTunnel, hexed)
}

#[test]
fn a_request_that_ends_its_side_at_once(rt: HostRuntime) -> Result<(), Fail> {
    let ended = request(rt.alloc(), 1, true)?;
    let text = asked_at_first(rt.alloc(), ended.as_str())?;
    is(&rt, text.as_str(), "1 bind 443\n1 close End\n");
    Ok(())
}

#[test]
fn requests_by_their_meaning(rt: HostRuntime) -> Result<(), Fail> {
    let rows = [
        // GET
        (
            "000011010500000001828684418cf1e3c2e5f23a6ba0ab90f4ff",
            "1 refuse 501 0\n",
        ),
        // CONNECT with another protocol isn't malformed, and isn't served
        (
            "00003201040000000102 07434f4e4e454354 87 04102f752f3139322e302e322e362f343433 010170 00093a70726f746f636f6c 07776562736f636b",
            "1 refuse 501 0\n",
        ),
        // a method alone is malformed, and has no tunnel
        ("00000101040000000182", "1 reset 1\n"),
    ];
    for &(hexed, want) in &rows {
        let text = asked_at_first(rt.alloc(), hexed)?;
        is(&rt, text.as_str(), want);
    }
    Ok(())
}

/// What two pieces ask for, one behind the other.
fn told_of_two(
    alloc: Global,
    front: &mut Http2,
    before: &[u8],
    after: &[u8],
) -> Result<String, Fail> {
    let mut text = told(alloc, front, &NoTunnel, before)?;
    let second = told(alloc, front, &NoTunnel, after)?;
    text.push_str(second.as_str())?;
    Ok(text)
}

/// What they ask for at first, where they are cut here.
fn told_of_cut(alloc: Global, bytes: &[u8], cut: usize) -> Result<String, Fail> {
    let (before, after) = bytes.split_at(cut.min(bytes.len()));
    let mut front = Http2::new(alloc)?;
    told_of_two(alloc, &mut front, before, after)
}

/// The same is asked for by every cutting into two pieces, and the marks of DATA stand once each.
#[test]
fn every_cut_asks_for_the_same(rt: HostRuntime) -> Result<(), Fail> {
    let alloc = rt.alloc();
    let first = request(alloc, 1, false)?;
    let hexed = format!(in alloc; "{SETTINGS}{first}000007000000000001000300aabb2901")?;
    let whole = bytes(alloc, hexed.as_str())?;
    for cut in 0..=whole.len() {
        let text = told_of_cut(alloc, whole.as_slice(), cut)?;
        is(
            &rt,
            text.as_str(),
            "1 bind 443\n1 payload 0 aabb\n1 spend 7\n",
        );
    }
    Ok(())
}

/// The capsules of a tunnel for IP packets: a DATAGRAM with a UDP packet from 192.0.2.1 to 198.51.100.9, an
/// ADDRESS_REQUEST for any address, and a ROUTE_ADVERTISEMENT of 10.0.0.0 to 10.0.0.255 for UDP.
const IP_CAPSULES: &str =
    "001600450000150000000040118e9ac0000201c6336409aa020701040000000020030a040a0000000a0000ff11";

/// What the data stream of a tunnel for IP packets asks for by these bytes.
fn asked_by_data(alloc: Global, piece: &[u8]) -> Result<String, Fail> {
    let goal = Goal::Ip {
        area: None,
        protocol: None,
    };
    let mut dues = Dues::new(alloc);
    DataStream::new(1, goal).take(alloc, 1500, piece, false, &mut dues)?;
    lines(alloc, &mut dues)
}

#[test]
fn items_of_ip_packets_become_acts_in_order(rt: HostRuntime) -> Result<(), Fail> {
    let piece = bytes(rt.alloc(), IP_CAPSULES)?;
    let text = asked_by_data(rt.alloc(), piece.as_slice())?;
    let want = "\
1 packet 0 450000150000000040118e9ac0000201c6336409aa
1 assign [Asked { id: 1, block: Prefix { addr: V4(0), length: 32 } }]
1 advertise [Range { first: V4(167772160), last: V4(167772415), protocol: 17 }]
";
    is(&rt, text.as_str(), want);
    Ok(())
}

/// The client's preface (RFC 9113, section 3.4).
const PREFACE: &[u8; 24] = b"PRI * HTTP/2.0\r\n\r\nSM\r\n\r\n";

/// The SETTINGS that a server owes at first: no more than 100 streams, no header list above 16,384 bytes, and extended CONNECT.
const OWED: &str = "000012040000000000000300000064000600004000000800000001";

/// The preface comes in these two pieces, and then the SETTINGS are owed.
fn preface_comes(rt: &impl Abort, alloc: Global, before: &[u8], after: &[u8]) -> Result<(), Fail> {
    let want = bytes(alloc, OWED)?;
    let mut front = Front::new();
    let first = asked_of(alloc, &mut front, before)?;
    assert!(rt; first.is_empty());
    if !after.is_empty() {
        assert!(rt; front.owed().is_empty());
    }
    let second = asked_of(alloc, &mut front, after)?;
    assert!(rt; second.is_empty());
    assert!(rt; front.owed() == want.as_slice());
    assert!(rt; front.finish() == Finish::Ends(End::Done));
    Ok(())
}

#[test]
fn preface_comes_in_any_two_pieces(rt: HostRuntime) -> Result<(), Fail> {
    for cut in 0..=PREFACE.len() {
        let (before, after) = PREFACE.split_at(cut);
        preface_comes(&rt, rt.alloc(), before, after)?;
    }
    Ok(())
}

/// A head that comes in these two pieces is refused like this.
fn is_refused(
    rt: &impl Abort,
    alloc: Global,
    before: &[u8],
    after: &[u8],
    want: &str,
) -> Result<(), Fail> {
    let mut front = Front::new();
    let first = asked_of(alloc, &mut front, before)?;
    assert!(rt; first.is_empty());
    let second = asked_of(alloc, &mut front, after)?;
    is(rt, second.as_str(), want);
    assert!(rt; front.refusal_end() == Some(End::Refused));
    Ok(())
}

#[test]
fn other_requests_of_http1_are_refused(rt: HostRuntime) -> Result<(), Fail> {
    let rows = [
        // the preface up to its version
        ("PRI * HTTP/1.1\r\n\r\n", "0 refuse 400 0\n"),
        ("GET / HTTP/1.1\r\nHost: a\r\n\r\n", "0 refuse 501 0\n"),
    ];
    for &(head, want) in &rows {
        for cut in 0..head.len() {
            let (before, after) = head.as_bytes().split_at(cut);
            is_refused(&rt, rt.alloc(), before, after, want)?;
        }
    }
    Ok(())
}

/// A rule for all IP packets to the first 24 bits of this address.
fn rule(allow: bool, addr: u32) -> Rule {
    Rule::Ip {
        allow,
        block: Some(Prefix {
            addr: Addr::V4(addr),
            length: 24,
        }),
        protocol: None,
    }
}

/// A setup that denies IP packets to 198.51.100.0/24 by its first rule, and allows those to 192.0.2.0/24 by its second.
fn guarded(alloc: Global) -> Result<Setup, Fail> {
    let mut policy = Policy::new(alloc);
    policy.add_rule(rule(false, 0xc633_6400))?;
    policy.add_rule(rule(true, 0xc000_0200))?;
    Ok(Setup {
        policy,
        ..setup(alloc)?
    })
}

/// The header block of a request for IP packets.
fn ip_block(alloc: Global, path: &str) -> Result<Vec<u8>, Fail> {
    let mut block = bytes(alloc, "0207434f4e4e4543548704")?;
    block.push((path.len() % 127) as u8)?;
    block.extend_from_slice(path.as_bytes())?;
    append(
        alloc,
        &mut block,
        "01017000093a70726f746f636f6c0a636f6e6e6563742d6970",
    )?;
    Ok(block)
}

/// HEADERS of stream 1 with it.
fn ip_request(alloc: Global, path: &str) -> Result<Vec<u8>, Fail> {
    let block = ip_block(alloc, path)?;
    let mut frame = bytes(alloc, "0000")?;
    frame.push((block.len() % 256) as u8)?;
    append(alloc, &mut frame, "010400000001")?;
    frame.extend_from_slice(block.as_slice())?;
    Ok(frame)
}

/// What a request for IP packets asks for over HTTP/1.1.
fn asked_by_http1(alloc: Global, setup: &Setup, path: &str) -> Result<String, Fail> {
    let head = format!(in alloc;
        "GET {path} HTTP/1.1\r\nHost: p\r\nConnection: Upgrade\r\nUpgrade: connect-ip\r\n\r\n"
    )?;
    asked_by(alloc, &mut Front::new(), setup, head.as_bytes())
}

/// What one asks for over HTTP/2.
fn asked_by_http2(alloc: Global, setup: &Setup, path: &str) -> Result<String, Fail> {
    let piece = ip_request(alloc, path)?;
    let mut front = after(alloc, SETTINGS)?;
    told_by(alloc, &mut front, setup, &NoTunnel, piece.as_slice())
}

/// What was seen is this line of this stream.
fn is_row(rt: &impl Abort, seen: &str, stream: &str, want: &str) {
    let line = seen.strip_suffix('\n').unwrap_or("");
    is(rt, line.strip_prefix(stream).unwrap_or(""), want);
}

/// Requests for IP packets over both protocols, by their paths (RFC 9484, section 3).
#[test]
fn requests_for_ip_packets(rt: HostRuntime) -> Result<(), Fail> {
    let alloc = rt.alloc();
    let setup = guarded(alloc)?;
    let rows = [
        (
            "/.well-known/masque/ip/192.0.2.0%2F24/17/",
            "open Some(Prefix { addr: V4(3221225984), length: 24 }) Some(17)",
        ),
        (
            "/.well-known/masque/ip/192.0.2.0%2F25/*/",
            "open Some(Prefix { addr: V4(3221225984), length: 25 }) None",
        ),
        (
            "/.well-known/masque/ip/198.51.100.0%2F24/17/",
            "refuse 403 1",
        ),
        // everything is more than the second rule allows
        ("/.well-known/masque/ip/*/*/", "refuse 403 0"),
        ("/.well-known/masque/ip/a.example/17/", "refuse 502 0"),
        // a bit past the length of its block
        ("/.well-known/masque/ip/192.0.2.1%2F24/17/", "refuse 400 0"),
        // a path of tunnels for UDP
        ("/u/192.0.2.6/443", "refuse 404 0"),
    ];
    for &(path, want) in &rows {
        let text = asked_by_http1(alloc, &setup, path)?;
        is_row(&rt, text.as_str(), "0 ", want);
        let text = asked_by_http2(alloc, &setup, path)?;
        is_row(&rt, text.as_str(), "1 ", want);
    }
    Ok(())
}
