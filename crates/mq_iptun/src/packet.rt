//! What the payload of a DATAGRAM capsule asks for (RFC 9484, sections 5 and 6).
ghost use Rattle.std.specs.Prelude.{◌≡◌, ◌∷◌, []};
ghost use Rattle.mq_addr.specs.declared.kind.Kind.TheVariants as kind;
ghost use Rattle.mq_machine.specs.Reading.{in_context, payload_act, too_long_act};
ghost use Rattle.mq_iptun.specs.Acts.{MayItem, stream_acts};

use super::asked::ItemAct;
use mq_iphdr::check;
use mq_talk::Cause;
use mq_wire::Bytes;

/// What a packet of at most `mtu` bytes asks for, or a longer one, or what is no packet.
fn packet_act(mtu: u32, n: u64, packet: Bytes) -> ItemAct
    ensures is { stream_acts result ≡ payload_act kind.Ip mtu n packet ∷ [] }
    ensures limits { MayItem result }
{
    match check(packet.as_slice()) {
        Err(_) => ItemAct::Drop {
            n,
            cause: Cause::BadHeader,
        },
        Ok(_) if packet.as_slice().len() > mtu as usize => ItemAct::Drop {
            n,
            cause: Cause::TooLong,
        },
        Ok(view) => ItemAct::Packet {
            n,
            packet,
            flow: view.flow,
        },
    }
}

/// What a payload in this context asks for.
pub fn datagram_act(mtu: u32, n: u64, context: u64, payload: Bytes) -> ItemAct
    ensures is { stream_acts result ≡ in_context context n (payload_act kind.Ip mtu n payload) ∷ [] }
    ensures limits { MayItem result }
{
    if context == 0 {
        packet_act(mtu, n, payload)
    } else {
        ItemAct::Drop {
            n,
            cause: Cause::UnknownContext,
        }
    }
}

/// What a payload in this context asks for that was too long to be kept.
pub fn too_long_act(n: u64, context: u64) -> ItemAct
    ensures is { stream_acts result ≡ in_context context n (too_long_act kind.Ip n) ∷ [] }
    ensures limits { MayItem result }
{
    let cause = if context == 0 {
        Cause::TooLong
    } else {
        Cause::UnknownContext
    };
    ItemAct::Drop { n, cause }
}
