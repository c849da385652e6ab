//! What the items of a data stream ask for.
ghost use Rattle.std.specs.Prelude.{◌≡◌, ◌+◌, ◌++◌, ◌∷◌, [], ℕ, true, IfOk, OnOk, if◌then◌else◌};
ghost use Rattle.std.specs.Option.{IfSome, option_to_list};
ghost use Rattle.mq_addr.specs.declared.kind.Kind.TheVariants as kind;
ghost use Rattle.mq_capsule.specs.declared.item.Item.TheVariants as item;
ghost use Rattle.mq_iptun.specs.Acts.{MayAct};
ghost use Rattle.mq_machine.specs.declared.act.StreamAct.TheVariants as asks;
ghost use Rattle.mq_machine.specs.Reading.{udp_act, in_context, item_acts, is_payload, is_close, on_stream};
ghost use Rattle.mq_front.specs.Items.{PutsItem, PutsUnless, PutsMore, ReadsItems};

use crate::dues::Dues;
use mq_addr::Kind;
use mq_capsule::{Item, Reader, Taken};
use mq_iptun::{item_act, next_number};
use mq_machine::{Act, Due, StreamAct};
use mq_talk::{Cause, Why};
use mq_wire::{Bytes, NoMemory};
use std::alloc::Global;

/// The longest payload of UDP, in bytes (RFC 9298, section 5).
const MAX_UDP: usize = 65_527;

/// The data stream that items come from: its stream, the kind of its tunnel, and how many bytes a packet has at most.
#[derive(Clone, Copy)]
pub struct Carrier {
    pub stream: u32,
    pub kind: Kind,
    pub mtu: u32,
}

/// What a payload of a tunnel for UDP asks for.
fn udp_act(n: u64, payload: Bytes) -> StreamAct
    ensures { result ≡ udp_act n payload }
{
    if payload.as_slice().len() > MAX_UDP {
        StreamAct::Close {
            why: Why::Malformed,
        }
    } else {
        StreamAct::Payload { n, payload }
    }
}

/// What is asked for in this context, where only context 0 is known (RFC 9298, section 4).
fn in_context(context: u64, n: u64, act: StreamAct) -> StreamAct
    ensures { result ≡ in_context context n act }
{
    if context == 0 {
        act
    } else {
        StreamAct::Drop {
            n,
            cause: Cause::UnknownContext,
        }
    }
}

/// What an item of a tunnel for UDP asks for. What isn't a payload is as for IP packets; the reader of a tunnel for UDP
/// tells no control capsule.
fn udp_item_act(alloc: Global, mtu: u32, n: u64, item: Item) -> Result<Option<StreamAct>, NoMemory>
    ensures is { IfOk result (λ act. item_acts kind.Udp mtu n item ≡ option_to_list act) }
    ensures limits { IfOk result (λ act. IfSome act MayAct) }
{
    match item {
        Item::Datagram { context, payload } => {
            Ok(Some(in_context(context, n, udp_act(n, payload))))
        }
        Item::TooLongDatagram { context, .. } => {
            let act = StreamAct::Close {
                why: Why::Malformed,
            };
            Ok(Some(in_context(context, n, act)))
        }
        other => item_act(alloc, mtu, n, other),
    }
}

/// What an item asks for as payload `n`.
fn act_of(
    alloc: Global,
    carrier: Carrier,
    n: u64,
    item: Item,
) -> Result<Option<StreamAct>, NoMemory>
    ensures is { IfOk result (λ act. item_acts carrier.kind carrier.mtu n item ≡ option_to_list act) }
    ensures limits { IfOk result (λ act. IfSome act MayAct) }
{
    match carrier.kind {
        Kind::Udp => udp_item_act(alloc, carrier.mtu, n, item),
        Kind::Ip => item_act(alloc, carrier.mtu, n, item),
    }
}

/// Whether an act closes its tunnel.
fn is_close(act: &StreamAct) -> bool
    ensures { result ≡ is_close act.now }
{
    match act {
        StreamAct::Close { .. } => true,
        _ => false,
    }
}

/// Puts an act of a data stream at the back of the list, and answers whether it closes the tunnel.
fn put_act(stream: u32, act: StreamAct, due: &mut Dues) -> Result<bool, NoMemory>
    ensures { IfOk result (λ closes. (due.new ≡ due.old ++ on_stream stream (act ∷ [])) × (closes ≡ is_close act)) }
{
    let closes = is_close(&act);
    due.push(Due::Do(Act::OfStream { stream, act }))?;
    Ok(closes)
}

/// Asks for the close of a tunnel, at the back of the list.
#[inline(never)]
fn put_close(stream: u32, why: Why, due: &mut Dues) -> Result<(), NoMemory>
    ensures { OnOk result (due.new ≡ due.old ++ on_stream stream (asks.Close why ∷ [])) }
{
    put_act(stream, StreamAct::Close { why }, due)?;
    Ok(())
}

/// Asks for the close of a tunnel, at the back of the list, or for nothing.
pub(crate) fn close_if(closes: bool, stream: u32, why: Why, due: &mut Dues) -> Result<(), NoMemory>
    ensures { OnOk result (due.new ≡ due.old ++ on_stream stream (if closes then asks.Close why ∷ [] else [])) }
{
    if closes {
        return put_close(stream, why, due);
    }
    Ok(())
}

/// Whether a datagram of a tunnel is a payload for its UDP port, as nearly all are.
fn is_for_port(kind: Kind, context: u64, payload: &Bytes) -> bool
    ensures { (mtu n : ℕ) → result ≡ true → item_acts kind mtu n (item.Datagram context payload.now) ≡ asks.Payload n payload.now ∷ [] }
{
    match kind {
        Kind::Udp => context == 0 && payload.as_slice().len() <= MAX_UDP,
        Kind::Ip => false,
    }
}

/// Puts a payload for a port at the back of the list.
fn put_payload(stream: u32, n: u64, payload: Bytes, due: &mut Dues) -> Result<(), NoMemory>
    ensures { OnOk result (due.new ≡ due.old ++ on_stream stream (asks.Payload n payload ∷ [])) }
{
    due.push(Due::Do(Act::OfStream {
        stream,
        act: StreamAct::Payload { n, payload },
    }))
}

/// Puts what an item asks for at the back of the list, as an act that is made first, and answers whether it closes the tunnel.
#[inline(never)]
fn put_by_act(
    alloc: Global,
    carrier: Carrier,
    n: u64,
    item: Item,
    due: &mut Dues,
) -> Result<bool, NoMemory>
    ensures { IfOk result (λ closes. PutsItem carrier n item due.old due.new closes) }
{
    match act_of(alloc, carrier, n, item)? {
        Some(act) => put_act(carrier.stream, act, due),
        None => Ok(false),
    }
}

/// The same for a datagram. A payload for a port is put at once: an act that is made first has the size of the largest, and
/// each move of it costs.
fn put_datagram(
    alloc: Global,
    carrier: Carrier,
    n: u64,
    context: u64,
    payload: Bytes,
    due: &mut Dues,
) -> Result<bool, NoMemory>
    ensures { IfOk result (λ closes. PutsItem carrier n (item.Datagram context payload) due.old due.new closes) }
{
    if is_for_port(carrier.kind, context, &payload) {
        put_payload(carrier.stream, n, payload, due)?;
        return Ok(false);
    }
    put_by_act(alloc, carrier, n, Item::Datagram { context, payload }, due)
}

/// The same for any item: a payload for a port is put at once, all else as an act that is made first.
fn put_item(
    alloc: Global,
    carrier: Carrier,
    n: u64,
    item: Item,
    due: &mut Dues,
) -> Result<bool, NoMemory>
    ensures { IfOk result (λ closes. PutsItem carrier n item due.old due.new closes) }
{
    match item {
        Item::Datagram { context, payload } => {
            put_datagram(alloc, carrier, n, context, payload, due)
        }
        other => put_by_act(alloc, carrier, n, other, due),
    }
}

/// What the items of a data stream asked for so far: the number of its next payload, and whether its tunnel is to close.
#[derive(Clone, Copy)]
pub struct Asked {
    pub n: u64,
    pub closes: bool,
}

/// The same, unless a close was asked for before. Answers whether the tunnel is to close.
fn put_unless(
    alloc: Global,
    carrier: Carrier,
    asked: Asked,
    item: Item,
    due: &mut Dues,
) -> Result<bool, NoMemory>
    ensures { IfOk result (λ closed. PutsUnless asked.closes carrier asked.n item due.old due.new closed) }
{
    if asked.closes {
        Ok(true)
    } else {
        put_item(alloc, carrier, asked.n, item, due)
    }
}

/// The same, and counts a payload.
fn put_next(
    alloc: Global,
    carrier: Carrier,
    asked: Asked,
    item: Item,
    due: &mut Dues,
) -> Result<Asked, NoMemory>
    ensures { IfOk result (λ next. PutsUnless asked.closes carrier asked.n item due.old due.new next.closes × (next.n ≡ asked.n + (if is_payload item then 1 else 0))) }
{
    let n = next_number(asked.n, &item)?;
    let closes = put_unless(alloc, carrier, asked, item, due)?;
    Ok(Asked { n, closes })
}

/// The same, where an item was told.
fn put_told(
    alloc: Global,
    carrier: Carrier,
    asked: Asked,
    told: Option<Item>,
    due: &mut Dues,
) -> Result<Asked, NoMemory>
    ensures { IfOk result (λ next. PutsMore carrier asked told due.old due.new next) }
{
    match told {
        None => Ok(asked),
        Some(item) => put_next(alloc, carrier, asked, item, due),
    }
}

/// Reads a piece of the data stream, and puts what its items ask for at the back of the list, behind a close nothing. `first`
/// is the number of their first payload.
pub fn read_items(
    alloc: Global,
    carrier: Carrier,
    first: u64,
    reader: &mut Reader,
    piece: &[u8],
    due: &mut Dues,
) -> Result<Asked, NoMemory>
    ensures { IfOk result (λ asked. ReadsItems carrier first reader.old reader.new piece.now due.old due.new asked.n asked.closes) }
{
    let mut asked = Asked {
        n: first,
        closes: false,
    };
    let mut left = piece;
    for _ in 0..piece.len() {
        if left.is_empty() {
            return Ok(asked);
        }
        let Taken { item, used } = reader.next(alloc, left)?;
        asked = put_told(alloc, carrier, asked, item, due)?;
        let (_, after) = left.split_at(used);
        left = after;
    }
    Ok(asked)
}
