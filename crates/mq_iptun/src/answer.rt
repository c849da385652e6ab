//! The control capsule that tells a client what the book answered (RFC 9484, section 4.7).
ghost use Rattle.std.specs.Prelude.{◌≡◌, IfOk};
ghost use Rattle.mq_capsule.specs.Writing.{capsule_text};
ghost use Rattle.mq_ipcaps.specs.Lists.{AreRoutes};
ghost use Rattle.mq_machine.specs.Words.{assign_value, routes_value};
ghost use Rattle.mq_iptun.specs.Answers.{AreTold, CanTell, told};

use mq_addr::{Given, Range};
use mq_ipcaps::{write_assign, write_routes};
use mq_talk::Reply;
use mq_wire::{Bytes, NoMemory, WireFault};
use std::alloc::Global;

/// The whole ROUTE_ADVERTISEMENT of these ranges (section 4.7.3). `Err` is want of memory.
#[tactic(auto, unfolding(mq_ipcaps::specs::Writing::capsule_text))]
pub fn routes_capsule(alloc: Global, ranges: &[Range]) -> Result<Bytes, NoMemory>
    requires { AreRoutes ranges.now }
    ensures { IfOk result (λ capsule. capsule ≡ capsule_text (record { kind = 3; value = routes_value ranges.now })) }
{
    let mut capsule = Vec::new(alloc);
    write_routes(&mut capsule, ranges)?;
    Ok(Bytes::from_vec(capsule))
}

/// The whole ADDRESS_ASSIGN of these entries (section 4.7.1). `Err` is want of memory.
#[tactic(auto, unfolding(mq_ipcaps::specs::Writing::capsule_text))]
pub fn assign_capsule(alloc: Global, list: &[Given]) -> Result<Bytes, NoMemory>
    requires { AreTold list.now }
    ensures { IfOk result (λ capsule. capsule ≡ capsule_text (record { kind = 1; value = assign_value list.now })) }
{
    let mut capsule = Vec::new(alloc);
    match write_assign(&mut capsule, list) {
        Ok(()) => Ok(Bytes::from_vec(capsule)),
        Err(WireFault::NoMemory) => Err(NoMemory),
        Err(WireFault::TooLarge) => unreachable!(),
    }
}

/// The whole control capsule for a reply to a tunnel for IP packets: the routes of one that opened, the addresses that it
/// holds or is denied, and none for any other.
pub fn control_capsule(alloc: Global, reply: &Reply) -> Result<Option<Bytes>, NoMemory>
    requires { CanTell reply.now }
    ensures { IfOk result (λ capsule. capsule ≡ told reply.now) }
{
    match reply {
        Reply::Opened { routes, .. } => {
            let capsule = routes_capsule(alloc, routes.as_slice())?;
            Ok(Some(capsule))
        }
        Reply::Assigned { list, .. } => {
            let capsule = assign_capsule(alloc, list.as_slice())?;
            Ok(Some(capsule))
        }
        Reply::Accepted { .. } | Reply::Closed | Reply::HistoryFull { .. } => Ok(None),
    }
}
