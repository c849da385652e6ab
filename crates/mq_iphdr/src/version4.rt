//! IPv4 packets (RFC 791, section 3.1).
ghost use Rattle.std.specs.Prelude.{◌≡◌, ◌≤◌, ◌<◌, length, MatchOption};
ghost use Rattle.mq_addr.specs.Packet.{header4_of, taken4, view4_of};

use super::address::has_bad_end;
use super::checksum::ones_sum;
use mq_addr::{Addr, Flow, HeaderFault, IpView};

/// What the header of an IPv4 packet says, or the first cause for which it isn't taken.
#[tactic(auto, unfolding(mq_addr::specs::Packet::header4_of))]
pub fn check(packet: &[u8]) -> Result<IpView, HeaderFault>
    ensures { result ≡ header4_of packet.now }
{
    let Some(view) = view(packet) else {
        return Err(HeaderFault::Short);
    };
    if view.length as usize != packet.len() {
        return Err(HeaderFault::Length);
    }
    take(packet, view)
}

/// What the fixed header says, where it is whole.
#[tactic(auto, unfolding(mq_addr::specs::Packet::view4_of))]
fn view(packet: &[u8]) -> Option<IpView>
    ensures { MatchOption result (length packet.now < 20) (λ view. (20 ≤ length packet.now) × (view ≡ view4_of packet.now)) }
{
    match packet {
        [
            first,
            _,
            a,
            b,
            _,
            _,
            _,
            _,
            hop,
            protocol,
            _,
            _,
            c,
            d,
            e,
            f,
            g,
            h,
            i,
            j,
            ..
        ] => Some(IpView {
            version: 4,
            flow: Flow {
                source: Addr::V4(u32::from_be_bytes([*c, *d, *e, *f])),
                target: Addr::V4(u32::from_be_bytes([*g, *h, *i, *j])),
                protocol: *protocol,
            },
            hop: *hop,
            header: u16::from(*first % 16 * 4),
            length: u32::from(u16::from_be_bytes([*a, *b])),
        }),
        _ => None,
    }
}

/// The view of a packet of the length that it says, or the first cause for which it isn't taken.
#[tactic(auto, unfolding(mq_addr::specs::Packet::taken4))]
fn take(packet: &[u8], view: IpView) -> Result<IpView, HeaderFault>
    ensures { result ≡ taken4 packet.now view }
{
    let header = usize::from(view.header);
    if header < 20 || packet.len() < header {
        return Err(HeaderFault::HeaderLength);
    }
    let (front, _) = packet.split_at(header);
    if ones_sum(front) != 0xffff {
        return Err(HeaderFault::Checksum);
    }
    if has_bad_end(&view) {
        return Err(HeaderFault::Address);
    }
    Ok(view)
}
