//! The addresses that no packet may come from or go to.
ghost use Rattle.std.specs.Prelude.{◌≡◌};
ghost use Rattle.mq_addr.specs.Packet.{has_bad_end, is_nowhere};
ghost use Rattle.mq_addr.specs.declared.addr.Addr.TheVariants.{V4};

use mq_addr::{Addr, IpView};

/// Whether the source or the target isn't the address of one host elsewhere.
pub fn has_bad_end(view: &IpView) -> bool
    ensures { result ≡ has_bad_end view.now }
{
    is_nowhere(view.flow.source) || is_nowhere(view.flow.target)
}

#[tactic(auto, unfolding(mq_addr::specs::Packet::is_nowhere))]
fn is_nowhere(addr: Addr) -> bool
    ensures { result ≡ is_nowhere addr }
{
    match addr {
        Addr::V4(bits) => is_nowhere_4(bits),
        Addr::V6(bits) => bits < 2 || bits >> 118 == 0x3fa || bits >> 120 == 0xff,
    }
}

/// This host, loopback, link-local, multicast, broadcast.
#[tactic(auto, unfolding(mq_addr::specs::Packet::is_nowhere))]
fn is_nowhere_4(bits: u32) -> bool
    ensures { result ≡ is_nowhere (V4 bits) }
{
    bits == 0
        || bits >> 24 == 127
        || bits >> 16 == 0xa9fe
        || bits >> 28 == 0xe
        || bits == 0xffff_ffff
}
