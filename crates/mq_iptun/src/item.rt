//! What an item of a data stream asks for: one act, or none.
ghost use Rattle.std.specs.Prelude.{◌≡◌, IfOk};
ghost use Rattle.std.specs.Option.{IfSome, option_to_list};
ghost use Rattle.mq_addr.specs.declared.kind.Kind.TheVariants as kind;
ghost use Rattle.mq_machine.specs.Reading.{item_acts};
ghost use Rattle.mq_iptun.specs.Acts.{MayAct, MayItem, stream_acts};

use super::asked::ItemAct;
use super::packet::{datagram_act, too_long_act};
use super::value::value_act;
use mq_capsule::Item;
use mq_machine::StreamAct;
use mq_wire::NoMemory;
use std::alloc::Global;

/// What an item asks for as payload `n` of a tunnel whose packets have at most `mtu` bytes.
pub fn act_of(alloc: Global, mtu: u32, n: u64, item: Item) -> Result<ItemAct, NoMemory>
    ensures is { IfOk result (λ act. stream_acts act ≡ item_acts kind.Ip mtu n item) }
    ensures limits { IfOk result MayItem }
{
    match item {
        Item::Datagram { context, payload } => Ok(datagram_act(mtu, n, context, payload)),
        Item::TooLongDatagram { context, .. } => Ok(too_long_act(n, context)),
        Item::Control { kind, value } => value_act(alloc, kind, value.as_slice()),
        Item::Bad { .. } => Ok(ItemAct::Malformed),
    }
}

/// What an item of the data stream of a tunnel for IP packets asks for, where its payload is number `n` and a packet has
/// at most `mtu` bytes: nothing, or one act, which isn't `Payload` or `Push`. A packet's bytes move.
#[inline(never)]
pub fn item_act(alloc: Global, mtu: u32, n: u64, item: Item) -> Result<Option<StreamAct>, NoMemory>
    ensures is { IfOk result (λ act. item_acts kind.Ip mtu n item ≡ option_to_list act) }
    ensures limits { IfOk result (λ act. IfSome act MayAct) }
{
    let act = act_of(alloc, mtu, n, item)?;
    Ok(act.into_stream_act())
}
