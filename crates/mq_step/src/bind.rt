//! A connection binds a port.
ghost use Rattle.std.specs.Prelude.{◌≡◌, ◌<◌, ℕ, None, OnOk, OnErr};
ghost use Rattle.std.specs.Vec.{vec_len, vec_capacity};
ghost use Rattle.mq_talk.specs.declared.goal.Goal.{Goal};
ghost use Rattle.mq_machine.specs.Acting.{binder};
ghost use Rattle.mq_machine.specs.State as machine;
ghost use Rattle.mq_machine.specs.Steps.{starved};
ghost use Rattle.mq_machine.specs.Want.{want_of, Bind};
ghost use Rattle.mq_conn.specs.Conns.{IsConn};
ghost use Rattle.mq_ports.specs.Tables.{IsBalanced};
ghost use Rattle.mq_held.specs.Answers.{BindGives, PortBound, NotBound, KeepsPorts};
ghost use Rattle.mq_step.specs.Holds.{KeepsOthers};
ghost use Rattle.mq_step.specs.Wanted.{MayBind};

use mq_addr::Addr;
use mq_held::Held;
use mq_outside::Ports;
use mq_ports::PortTable;
use mq_talk::Note;
use mq_wire::NoMemory;

/// Binds the port that it wants. One that was bound in vain is handed back.
#[inline(never)]
pub fn bind<L, P: Ports>(
    held: &mut Held<L>,
    addr: Addr,
    port: u16,
    table: &mut PortTable<P>,
) -> Result<Note, NoMemory>
    ensures gives { OnOk result ((s : machine.Conn) → IsConn held.old.conn s → (stream : ℕ) (goal : Goal) → want_of s ≡ Bind stream goal
        → BindGives (IsConn held.new.conn)
        (PortBound P.P.most P.P.counts addr table.old.table table.new.table held.new.bound (binder P.holds P.faults table.old.ports) (binder P.holds P.faults table.new.ports))
        (NotBound table.old.table table.new.table held.old.bound held.new.bound (binder P.holds P.faults table.old.ports) (binder P.holds P.faults table.new.ports)) s result) }
    ensures fails { OnErr result (held.new.bound ≡ None) }
    ensures starves { OnErr result ((s : machine.Conn) → IsConn held.old.conn s → (stream : ℕ) (goal : Goal) → want_of s ≡ Bind stream goal → IsConn held.new.conn (starved s)) }
    ensures refused { OnErr result (held.old.bound ≡ None → MayBind (binder P.holds P.faults table.old.ports) (binder P.holds P.faults table.new.ports)) }
    ensures keeps { held.old.bound ≡ None → KeepsPorts table.old.table table.new.table }
    ensures seats { held.new.ports.items ≡ held.old.ports.items }
    ensures room { OnOk result (vec_len held.new.ports < vec_capacity held.new.ports) }
    ensures rest { held.new ≡ record held.old { conn = held.new.conn; ports = held.new.ports; bound = held.new.bound } }
    ensures others { KeepsOthers held.old held.new table.old.table table.new.table }
    ensures balanced { IsBalanced P.P.place (P.past table.old.ports) table.old.table.slots → IsBalanced P.P.place (P.past table.new.ports) table.new.table.slots }
{
    match held.bind(addr, port, table) {
        Ok(note) => Ok(note),
        Err(refused) => {
            held.retire_bound(table);
            Err(refused)
        }
    }
}
