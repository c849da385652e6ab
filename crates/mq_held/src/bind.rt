//! A port is bound for a request.
ghost use Rattle.std.specs.Prelude.{◌≡◌, ◌⊎◌, ◌<◌, ℕ, IfOk, OnOk, OnErr};
ghost use Rattle.slab.specs.Slab.{get};
ghost use Rattle.std.specs.Bool.{MatchBool};
ghost use Rattle.mq_talk.specs.declared.goal.Goal.{Goal};
ghost use Rattle.mq_machine.specs.Acting.{binder};
ghost use Rattle.mq_machine.specs.State as machine;
ghost use Rattle.mq_machine.specs.Want.{want_of, Bind};
ghost use Rattle.mq_conn.specs.Conns.{IsConn};
ghost use Rattle.std.specs.Vec.{vec_len, vec_capacity};
ghost use Rattle.mq_ports.specs.Tables.{IsBalanced};
ghost use Rattle.mq_held.specs.Answers.{BindGives, PortBound, NotBound, NothingBound, KeepsPorts, IsFresh};

use crate::held::Held;
use mq_addr::Addr;
use mq_outside::Ports;
use mq_ports::PortTable;
use mq_talk::{End, Note};
use mq_wire::NoMemory;

impl<L> Held<L> {
    /// Takes the room for one port more and for its seat, and binds a port.
    fn bind_port<P: Ports>(
        &mut self,
        addr: Addr,
        port: u16,
        table: &mut PortTable<P>,
    ) -> Result<bool, NoMemory>
        ensures ok { IfOk result (λ done. MatchBool done
            (PortBound P.P.most P.P.counts addr table.old.table table.new.table self.new.bound (binder P.holds P.faults table.old.ports) (binder P.holds P.faults table.new.ports))
            (NotBound table.old.table table.new.table self.old.bound self.new.bound (binder P.holds P.faults table.old.ports) (binder P.holds P.faults table.new.ports))) }
        ensures conn { self.new.conn ≡ self.old.conn }
        ensures room { OnOk result (vec_len self.new.ports < vec_capacity self.new.ports) }
        ensures seats { self.new.ports.items ≡ self.old.ports.items }
        ensures balanced { IsBalanced P.P.place (P.past table.old.ports) table.old.table.slots → IsBalanced P.P.place (P.past table.new.ports) table.new.table.slots }
        ensures keeps { KeepsPorts table.old.table table.new.table }
        ensures fresh { IsFresh table.old.table self.old.bound self.new.bound }
        ensures refused { OnErr result (NothingBound self.old.bound self.new.bound (binder P.holds P.faults table.old.ports) (binder P.holds P.faults table.new.ports)) }
        ensures link { self.new.link ≡ self.old.link }
        ensures number { self.new.number ≡ self.old.number }
    {
        self.ports.reserve(1)?;
        table.reserve()?;
        match table.bind(&addr, port) {
            Ok(key) => {
                self.bound = Some(key);
                Ok(true)
            }
            Err(_) => Ok(false),
        }
    }

    /// Binds the port that it wants.
    #[inline(never)]
    pub fn bind<P: Ports>(
        &mut self,
        addr: Addr,
        port: u16,
        table: &mut PortTable<P>,
    ) -> Result<Note, NoMemory>
        ensures gives { (s : machine.Conn) → IsConn self.old.conn s → (stream : ℕ) (goal : Goal) → want_of s ≡ Bind stream goal
            → BindGives (IsConn self.new.conn)
            (PortBound P.P.most P.P.counts addr table.old.table table.new.table self.new.bound (binder P.holds P.faults table.old.ports) (binder P.holds P.faults table.new.ports))
            (NotBound table.old.table table.new.table self.old.bound self.new.bound (binder P.holds P.faults table.old.ports) (binder P.holds P.faults table.new.ports)) s result }
        ensures seats { self.new.ports.items ≡ self.old.ports.items }
        ensures room { OnOk result (vec_len self.new.ports < vec_capacity self.new.ports) }
        ensures balanced { IsBalanced P.P.place (P.past table.old.ports) table.old.table.slots → IsBalanced P.P.place (P.past table.new.ports) table.new.table.slots }
        ensures keeps { KeepsPorts table.old.table table.new.table }
        ensures fresh { IsFresh table.old.table self.old.bound self.new.bound }
        ensures refused { OnErr result (NothingBound self.old.bound self.new.bound (binder P.holds P.faults table.old.ports) (binder P.holds P.faults table.new.ports)
            ⊎ (PortBound P.P.most P.P.counts addr table.old.table table.new.table self.new.bound (binder P.holds P.faults table.old.ports) (binder P.holds P.faults table.new.ports)
            ⊎ NotBound table.old.table table.new.table self.old.bound self.new.bound (binder P.holds P.faults table.old.ports) (binder P.holds P.faults table.new.ports))) }
        ensures link { self.new.link ≡ self.old.link }
        ensures number { self.new.number ≡ self.old.number }
    {
        match self.bind_port(addr, port, table) {
            Err(refused) => {
                self.conn.fail(End::NoMemory);
                Err(refused)
            }
            Ok(true) => self.conn.bound(true),
            Ok(false) => self.conn.bound(false),
        }
    }
}
