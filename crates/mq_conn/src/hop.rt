//! A packet goes on with its hop limit lowered (RFC 9484, section 7).
ghost use Rattle.std.specs.Prelude.{◌≡◌};
ghost use Rattle.mq_machine.specs.Words.{onward};

use mq_iphdr::check;
use mq_wire::Bytes;

/// The packet with its hop limit lowered by one, where that is above one.
pub fn lowered(packet: Bytes) -> Option<Bytes>
    ensures { result ≡ onward packet }
{
    let mut bytes = packet.into_vec();
    let Ok(view) = check(bytes.as_slice()) else {
        return None;
    };
    match mq_iphdr::onward(bytes.as_mut_slice(), &view) {
        Ok(()) => Some(Bytes::from_vec(bytes)),
        Err(_) => None,
    }
}
