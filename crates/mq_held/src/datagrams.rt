//! What is received on a port.
ghost use Rattle.std.specs.Prelude.{◌≡◌, ◌≢◌, ℕ, false, length, Some, OnErr, IfSome};
ghost use Rattle.slab.specs.Slab.{get};
ghost use Rattle.mq_ports.specs.Tables.{IsBalanced};
ghost use Rattle.mq_held.specs.Ports.{receive_calls, CameGives, KeepsMost, ReceiveWaits};
ghost use Rattle.mq_held.specs.Ready.{WouldReceive};

use crate::ready::ReceiveReady;
use mq_outside::{PortGot, Ports};
use mq_ports::{Datagrams, PortTable};
use mq_wire::{Bytes, NoMemory};
use std::alloc::Global;

/// What a receive gives: nothing yet, a failure, or a datagram.
#[derive(Drop)]
pub enum Came {
    Waits,
    Failed,
    Datagram(Bytes),
}

/// Receives on a port that has nothing now, which counts that it waits. Takes no memory.
fn wait<P: Ports>(datagrams: &mut Datagrams, key: usize, table: &mut PortTable<P>)
where
    P::P: ReceiveReady,
    requires room { length datagrams.old.room.items ≡ 65535 }
    requires waits { (was : P.P) → get table.old.table key ≡ Some was → WouldReceive (P.P.holds was) false }
    ensures gives { (was : P.P) → get table.old.table key ≡ Some was
        → (now : P.P) × (get table.new.table key ≡ Some now) × ReceiveWaits (receive_calls P.P.holds P.P.past P.P.counts was now) }
    ensures room { length datagrams.new.room.items ≡ 65535 }
    ensures kept { KeepsMost P.P.most table.old.table table.new.table key }
    ensures others { (other : ℕ) → other ≢ key → get table.new.table other ≡ get table.old.table other }
    ensures ports { table.new.ports ≡ table.old.ports }
    ensures balanced { IsBalanced P.P.place (P.past table.old.ports) table.old.table.slots → IsBalanced P.P.place (P.past table.new.ports) table.new.table.slots }
{
    match table.recv(key, datagrams.room.as_mut_slice()) {
        None | Some(PortGot::NotNow) => (),
        Some(PortGot::Failed | PortGot::Datagram(_)) => unreachable!(),
    }
}

/// Receives once on the port under a key. Where there is no spare, memory is taken for one before, and only where the
/// port may give something now, or fail.
pub fn receive<P: Ports>(
    datagrams: &mut Datagrams,
    alloc: Global,
    key: usize,
    table: &mut PortTable<P>,
) -> Result<Came, NoMemory>
where
    P::P: ReceiveReady,
    requires room { length datagrams.old.room.items ≡ 65535 }
    ensures gives { (was : P.P) → get table.old.table key ≡ Some was
        → (now : P.P) × (get table.new.table key ≡ Some now) × CameGives (receive_calls P.P.holds P.P.past P.P.counts was now) result }
    ensures refused { OnErr result (IfSome datagrams.old.spare (λ spare. length spare.items ≢ 65535)) }
    ensures room { length datagrams.new.room.items ≡ 65535 }
    ensures kept { KeepsMost P.P.most table.old.table table.new.table key }
    ensures others { (other : ℕ) → other ≢ key → get table.new.table other ≡ get table.old.table other }
    ensures ports { table.new.ports ≡ table.old.ports }
    ensures balanced { IsBalanced P.P.place (P.past table.old.ports) table.old.table.slots → IsBalanced P.P.place (P.past table.new.ports) table.new.table.slots }
{
    let Some(port) = table.port(key) else {
        return Ok(Came::Waits);
    };
    let would_receive = port.would_receive();
    if !would_receive {
        wait(datagrams, key, table);
        return Ok(Came::Waits);
    }
    let spare = datagrams.take_spare(alloc)?;
    match table.recv(key, datagrams.room.as_mut_slice()) {
        None | Some(PortGot::NotNow) => {
            datagrams.spare = Some(spare);
            Ok(Came::Waits)
        }
        Some(PortGot::Failed) => {
            datagrams.spare = Some(spare);
            Ok(Came::Failed)
        }
        Some(PortGot::Datagram(count)) => {
            let packet = datagrams.keep(alloc, spare, count as usize);
            Ok(Came::Datagram(packet))
        }
    }
}
