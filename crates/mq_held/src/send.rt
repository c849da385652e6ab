//! A payload goes to the port of its tunnel.
ghost use Rattle.std.specs.Prelude.{◌≡◌, ◌≢◌, ◌≤◌, ℕ, List, Some, None, MatchOption};
ghost use Rattle.slab.specs.Slab.{get};
ghost use Rattle.mq_machine.specs.State as machine;
ghost use Rattle.mq_machine.specs.Want.{want_of, Send};
ghost use Rattle.mq_conn.specs.Conns.{IsConn};
ghost use Rattle.mq_ports.specs.Tables.{Changes, IsBalanced};
ghost use Rattle.mq_held.specs.Ports.{PutGives, PutsPast, SendGives, SendsPast, KeepsMost};

use crate::held::Held;
use mq_outside::{PortPut, Ports};
use mq_ports::{MOST_DATAGRAM, PortTable};
use mq_talk::Note;

/// Puts a payload into the port under a key, whose limit no datagram passes, and says how that went. A payload that is longer
/// than the port takes isn't put, and fails. None where the port takes nothing now.
fn put<P: Ports>(
    payload: &[u8],
    limit: u32,
    key: usize,
    table: &mut PortTable<P>,
) -> Option<PortPut>
    ensures gives { limit ≤ 65535 → (was : P.P) → get table.old.table key ≡ Some was
        → (now : P.P) × (get table.new.table key ≡ Some now) × PutGives (record { holds = P.P.holds was; after = P.P.holds now; counts = P.P.counts was; counts_after = P.P.counts now }) limit payload.now result }
    ensures past { (was : P.P) → get table.old.table key ≡ Some was → (now : P.P) × (get table.new.table key ≡ Some now) × PutsPast (P.P.past was) (P.P.past now) payload.now result }
    ensures kept { KeepsMost P.P.most table.old.table table.new.table key }
    ensures others { (other : ℕ) → other ≢ key → get table.new.table other ≡ get table.old.table other }
    ensures ports { table.new.ports ≡ table.old.ports }
    ensures balanced { IsBalanced P.P.place (P.past table.old.ports) table.old.table.slots → IsBalanced P.P.place (P.past table.new.ports) table.new.table.slots }
{
    if payload.len() > limit as usize {
        return Some(PortPut::Failed);
    }
    if payload.len() > MOST_DATAGRAM {
        return None;
    }
    let put = table.send(key, payload)?;
    match put {
        PortPut::NotNow => None,
        PortPut::Sent | PortPut::Failed => Some(put),
    }
}

impl<L> Held<L> {
    /// Sends the payload that it wants to send on the port under a key, whose limit no datagram passes. A payload that is
    /// longer than the port takes isn't sent, and is dropped. None where the port takes nothing now.
    pub fn send<P: Ports>(&mut self, key: usize, table: &mut PortTable<P>) -> Option<Note>
        ensures gives { (s : machine.Conn) → IsConn self.old.conn s → (tunnel n : ℕ) (payload : List ℕ) → want_of s ≡ Send tunnel n payload
            → (was : P.P) → get table.old.table key ≡ Some was → P.P.most was ≤ 65535
            → (now : P.P) × (get table.new.table key ≡ Some now) × SendGives (record { holds = P.P.holds was; after = P.P.holds now; counts = P.P.counts was; counts_after = P.P.counts now })
            (IsConn self.new.conn) (P.P.most was) s payload result }
        ensures past { (s : machine.Conn) → IsConn self.old.conn s → (tunnel n : ℕ) (payload : List ℕ) → want_of s ≡ Send tunnel n payload
            → (was : P.P) → get table.old.table key ≡ Some was → P.P.most was ≤ 65535
            → (now : P.P) × (get table.new.table key ≡ Some now) × SendsPast (P.P.past was) (P.P.past now) result }
        ensures rest { self.new ≡ record self.old { conn = self.new.conn } }
        ensures kept { KeepsMost P.P.most table.old.table table.new.table key }
        ensures others { (other : ℕ) → other ≢ key → get table.new.table other ≡ get table.old.table other }
        ensures ports { table.new.ports ≡ table.old.ports }
        ensures balanced { IsBalanced P.P.place (P.past table.old.ports) table.old.table.slots → IsBalanced P.P.place (P.past table.new.ports) table.new.table.slots }
    {
        let limit = table.limit(key)?;
        let put = put(self.conn.payload(), limit, key, table)?;
        Some(self.conn.sent(put, limit))
    }
}
