//! IPv6 packets (RFC 8200, section 3).
ghost use Rattle.std.specs.Prelude.{◌≡◌, ◌≤◌, ◌<◌, drop, length, take, MatchOption};
ghost use Rattle.std.specs.Int.{w128, from_be_bytes};
ghost use Rattle.mq_addr.specs.declared.addr.Addr.TheVariants.{V6};
ghost use Rattle.mq_addr.specs.Packet.{header6_of, taken6, view6_of};

use super::address::has_bad_end;
use super::extensions::walk;
use mq_addr::{Addr, Flow, HeaderFault, IpView};

/// The bytes of the fixed header.
const FIXED: u16 = 40;

/// What the headers of an IPv6 packet say, or the first cause for which it isn't taken.
#[tactic(auto, unfolding(mq_addr::specs::Packet::header6_of))]
pub fn check(packet: &[u8]) -> Result<IpView, HeaderFault>
    ensures { result ≡ header6_of packet.now }
{
    if packet.len() < 40 {
        return Err(HeaderFault::Short);
    }
    let view = view(packet);
    if view.length as usize != packet.len() {
        return Err(HeaderFault::Length);
    }
    take(packet, view)
}

/// What the fixed header says.
#[tactic(auto, unfolding(mq_addr::specs::Packet::view6_of))]
fn view(packet: &[u8]) -> IpView
    requires { 40 ≤ length packet.now }
    ensures view { result ≡ view6_of packet.now }
    ensures header { result.header ≡ 40 }
{
    let [_, _, _, _, a, b, next, hop, ..] = packet else {
        unreachable!();
    };
    let (_, source) = packet.split_at(8);
    let (_, target) = packet.split_at(24);
    IpView {
        version: 6,
        flow: Flow {
            source: addr(source),
            target: addr(target),
            protocol: *next,
        },
        hop: *hop,
        header: FIXED,
        length: 40 + u32::from(u16::from_be_bytes([*a, *b])),
    }
}

/// The address at the front.
fn addr(bytes: &[u8]) -> Addr
    requires { 16 ≤ length bytes.now }
    ensures { result ≡ V6 (from_be_bytes w128 (take 16 bytes.now)) }
{
    let [a, b, c, d, e, f, g, h, i, j, k, l, m, n, o, p, ..] = bytes else {
        unreachable!();
    };
    Addr::V6(u128::from_be_bytes([
        *a, *b, *c, *d, *e, *f, *g, *h, *i, *j, *k, *l, *m, *n, *o, *p,
    ]))
}

/// The view of a packet of the length that it says, or the first cause for which it isn't taken.
#[tactic(auto, unfolding(mq_addr::specs::Packet::taken6))]
fn take(packet: &[u8], view: IpView) -> Result<IpView, HeaderFault>
    requires fixed { 40 ≤ length packet.now }
    requires header { view.header ≡ 40 }
    ensures { result ≡ taken6 packet.now view }
{
    if has_bad_end(&view) {
        return Err(HeaderFault::Address);
    }
    let (_, behind) = packet.split_at(40);
    walk(view, behind)
}
