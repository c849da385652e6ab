//! A worker ends.
ghost use Rattle.std.specs.Prelude.{◌≡◌, ◌+◌, length};
ghost use Rattle.mq_ports.specs.Tables.{AreAllBack, IsBalanced, IsEmpty};

use crate::actor::Actor;
use mq_outside::Ports;
use mq_ports::PortTable;

/// Hands back each port of a table.
fn retire_all<P: Ports>(table: &mut PortTable<P>)
    ensures empty { IsEmpty table.new.table.slots }
    ensures holds { P.holds table.new.ports ≡ P.holds table.old.ports }
    ensures balanced { IsBalanced P.P.place (P.past table.old.ports) table.old.table.slots → IsBalanced P.P.place (P.past table.new.ports) table.new.table.slots }
{
    for key in 0..table.table.capacity() {
        table.retire(key);
    }
}

impl<L: Drop, P: Ports> Actor<L, P> {
    /// Ends a worker that has no connection and no offered link, and gives back what binds ports. A port that is still bound is
    /// handed back before. Takes no memory.
    pub fn close(self) -> P
        requires { length self.ring.offered.items + length self.ring.conns.items ≡ 0 }
        ensures holds { P.holds result ≡ P.holds self.table.ports }
        ensures back { IsBalanced P.P.place (P.past self.table.ports) self.table.table.slots → AreAllBack (P.past result) }
    {
        let Actor { mut table, .. } = self;
        retire_all(&mut table);
        table.close()
    }
}
