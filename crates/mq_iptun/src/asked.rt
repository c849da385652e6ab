//! What an item asks for, before it is known of which tunnel.
ghost use Rattle.std.specs.Prelude.{◌≡◌};
ghost use Rattle.std.specs.Option.{IfSome, option_to_list};
ghost use Rattle.mq_iptun.specs.Acts.{Does, MayAct, MayDo, MayItem, stream_acts};

use super::act::IpAct;
use mq_addr::{Asked, Flow, Range};
use mq_machine::StreamAct;
use mq_talk::{Call, Cause, Why};
use mq_wire::{Bytes, Seq};

/// What an item of a tunnel for IP packets asks for.
#[derive(Drop)]
pub enum ItemAct {
    Nothing,
    Packet { n: u64, packet: Bytes, flow: Flow },
    Drop { n: u64, cause: Cause },
    Assign { asked: Seq<Asked> },
    Advertise { ranges: Seq<Range> },
    Malformed,
}

impl ItemAct {
    /// What that is among all that data streams ask for.
    pub fn into_stream_act(self) -> Option<StreamAct>
        ensures is { stream_acts self ≡ option_to_list result }
        ensures limits { MayItem self → IfSome result MayAct }
    {
        match self {
            ItemAct::Nothing => None,
            ItemAct::Packet { n, packet, flow } => Some(StreamAct::Packet { n, packet, flow }),
            ItemAct::Drop { n, cause } => Some(StreamAct::Drop { n, cause }),
            ItemAct::Assign { asked } => Some(StreamAct::Assign { asked }),
            ItemAct::Advertise { ranges } => Some(StreamAct::Advertise { ranges }),
            ItemAct::Malformed => Some(StreamAct::Close {
                why: Why::Malformed,
            }),
        }
    }

    /// What that is of this tunnel.
    pub fn into_ip_act(self, tunnel: u32) -> IpAct
        ensures is { Does tunnel result (stream_acts self) }
        ensures limits { MayItem self → MayDo result }
    {
        match self {
            ItemAct::Nothing => IpAct::Nothing,
            ItemAct::Packet { n, packet, flow } => IpAct::Packet { n, packet, flow },
            ItemAct::Drop { n, cause } => IpAct::Dropped { n, cause },
            ItemAct::Assign { asked } => IpAct::Ask(Call::Assign { tunnel, asked }),
            ItemAct::Advertise { ranges } => IpAct::Ask(Call::Advertise { tunnel, ranges }),
            ItemAct::Malformed => IpAct::Malformed,
        }
    }
}
