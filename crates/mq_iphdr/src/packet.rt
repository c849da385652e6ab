//! Whether a packet is taken.
ghost use Rattle.std.specs.Prelude.{◌≡◌};
ghost use Rattle.mq_addr.specs.Packet.{header_of};

use super::{version4, version6};
use mq_addr::{HeaderFault, IpView};

/// What the headers of a packet say, or the first cause for which it isn't taken.
#[tactic(auto, unfolding(mq_addr::specs::Packet::header_of))]
pub fn check(packet: &[u8]) -> Result<IpView, HeaderFault>
    ensures { result ≡ header_of packet.now }
{
    match packet {
        [] => Err(HeaderFault::Short),
        [first, ..] => match *first / 16 {
            4 => version4::check(packet),
            6 => version6::check(packet),
            _ => Err(HeaderFault::Version),
        },
    }
}
