//! What the capsules of a tunnel bring to its client (RFC 9298, section 5).
ghost use Rattle.std.specs.Prelude.{◌≡◌, ◌++◌, IfOk};
ghost use Rattle.std.specs.List.{list_any};
ghost use Rattle.mq_client.specs.Events.{payload_event, in_context, event_of, events_of, is_last, TellsItem};

use crate::event::{ClientEvent, MALFORMED};
use mq_capsule::Item;
use mq_wire::{Bytes, NoMemory};

/// The longest payload of UDP, in bytes (RFC 9298, section 5).
const MAX_UDP: usize = 65_527;

/// What a payload brings.
fn payload_event(payload: Bytes) -> ClientEvent
    ensures { result ≡ payload_event payload }
{
    if payload.as_slice().len() > MAX_UDP {
        ClientEvent::BadPeer { code: MALFORMED }
    } else {
        ClientEvent::Datagram { payload }
    }
}

/// What is brought in this context, where only context 0 is known (RFC 9298, section 4).
fn in_context(context: u64, event: ClientEvent) -> Option<ClientEvent>
    ensures { result ≡ in_context context event }
{
    if context == 0 { Some(event) } else { None }
}

/// What an item brings.
fn event_of(item: Item) -> Option<ClientEvent>
    ensures { result ≡ event_of item }
{
    match item {
        Item::Datagram { context, payload } => in_context(context, payload_event(payload)),
        Item::TooLongDatagram { context, .. } => {
            in_context(context, ClientEvent::BadPeer { code: MALFORMED })
        }
        Item::Control { .. } => None,
        Item::Bad { .. } => Some(ClientEvent::BadPeer { code: MALFORMED }),
    }
}

/// Tells what an item brings, and answers whether that is the last event.
fn tell_item(item: Item, events: &mut Vec<ClientEvent>) -> Result<bool, NoMemory>
    ensures { IfOk result (λ last. TellsItem item events.old.items events.new.items last) }
{
    match event_of(item) {
        None => Ok(false),
        Some(event) => {
            let last = event.is_last();
            events.push(event)?;
            Ok(last)
        }
    }
}

/// Tells what the items bring, up to the last event, and answers whether that came.
pub fn tell_items(items: Vec<Item>, events: &mut Vec<ClientEvent>) -> Result<bool, NoMemory>
    ensures told { IfOk result (λ _. events.new.items ≡ events.old.items ++ events_of items.items) }
    ensures last { IfOk result (λ last. last ≡ list_any is_last (events_of items.items)) }
{
    for item in items {
        if tell_item(item, events)? {
            return Ok(true);
        }
    }
    Ok(false)
}
