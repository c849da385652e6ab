//! Events that end a tunnel over HTTP/2. Each function answers whether the last event was told.
ghost use Rattle.std.specs.Prelude.{◌≡◌, ◌∷◌, ◌++◌, [], true, IfOk};
ghost use Rattle.mq_client.specs.Frames.{closing};

use crate::event::ClientEvent;
use mq_wire::NoMemory;

/// The proxy's bytes are malformed.
pub fn bad(code: u32, events: &mut Vec<ClientEvent>) -> Result<bool, NoMemory>
    ensures { IfOk result (λ over. (over ≡ true) × (events.new.items ≡ events.old.items ++ ClientEvent.BadPeer code ∷ [])) }
{
    events.push(ClientEvent::BadPeer { code })?;
    Ok(true)
}

/// The proxy refused the tunnel.
pub fn refuse(status: u16, events: &mut Vec<ClientEvent>) -> Result<bool, NoMemory>
    ensures { IfOk result (λ over. (over ≡ true) × (events.new.items ≡ events.old.items ++ ClientEvent.Refused status ∷ [])) }
{
    events.push(ClientEvent::Refused { status })?;
    Ok(true)
}

/// END_STREAM, where it is set.
pub fn close(end: bool, events: &mut Vec<ClientEvent>) -> Result<bool, NoMemory>
    ensures { IfOk result (λ over. (over ≡ end) × (events.new.items ≡ events.old.items ++ closing end)) }
{
    if end {
        events.push(ClientEvent::Closed)?;
    }
    Ok(end)
}
