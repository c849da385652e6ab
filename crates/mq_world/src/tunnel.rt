//! Which tunnels have a port.
ghost use Rattle.std.specs.Prelude.{◌≡◌, true, false, slice_get, Some, Err, IfOk, OnErr};
ghost use Rattle.mq_talk.specs.declared.book.Entry.{Entry as EntryOf};
ghost use Rattle.mq_play.specs.Events.{opens_port};
ghost use Rattle.mq_world.specs.Worlds.{is_udp, opens_udp};
ghost use Rattle.mq_world.specs.declared.stepped.WorldFault.TheVariants as fault;

use crate::stepped::WorldFault;
use mq_talk::{Call, Entry, Goal};

/// Whether a tunnel is for UDP.
fn is_for_udp(goal: &Goal) -> bool
    ensures { result ≡ is_udp goal.now }
{
    match goal {
        Goal::Udp { .. } => true,
        Goal::Ip { .. } => false,
    }
}

/// Whether a call opens a tunnel for UDP.
fn is_open(call: &Call) -> bool
    ensures { result ≡ opens_udp call.now }
{
    match call {
        Call::Open { goal, .. } => is_for_udp(goal),
        Call::Assign { .. } => false,
        Call::Advertise { .. } => false,
        Call::Close { .. } => false,
    }
}

/// The worker that opened this tunnel for UDP.
pub(crate) fn opener_of(history: &[Entry], tunnel: u32) -> Result<usize, WorldFault>
    ensures ok { IfOk result (λ k. (e : EntryOf) × (slice_get history.now tunnel ≡ Some e) × (opens_port (Some e) ≡ true) × (e.actor ≡ k)) }
    ensures err { OnErr result ((opens_port (slice_get history.now tunnel) ≡ false) × (result ≡ Err fault.Missing)) }
{
    let Some(entry) = history.get(tunnel as usize) else {
        return Err(WorldFault::Missing);
    };
    if !is_open(&entry.call) {
        return Err(WorldFault::Missing);
    }
    Ok(entry.actor as usize)
}
