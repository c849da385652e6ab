//! The lock.
ghost use Rattle.std.specs.Prelude.{◌≡◌, [], IfOk};
ghost use Rattle.mq_turn.specs.Passes.{first_pass, IsClosed, IsOf, IsOnly};

use crate::kept::Kept;
use crate::pass::Pass;
use crate::rule::InTurn;
use crate::view::View;
use atomic_table::{Refused, Seat, Table};
use mq_wire::NoMemory;
use std::alloc::Global;
use std::marker::Model;
use std::snapshot::Snapshot;

/// How many words a turn has. The three that are used lie 128 bytes apart, so that they share no cache line.
const WORDS: usize = 33;

/// The next ticket.
pub(crate) const NEXT: usize = 0;

/// The number that is served.
pub(crate) const SERVED: usize = 16;

/// How long the history is.
pub(crate) const LENGTH: usize = 32;

/// The one slot, which has the value where nobody is served.
pub(crate) const SLOT: usize = 0;

/// What one pass knows of a turn, and the slot while it is served.
pub(crate) type TurnSeat<V> = Seat<Option<V>, View<<V as Kept>::Entry, <V as Kept>::Settings>>;

/// A value, which the passes of the turn ask one after another. Threads share it.
#[derive(Drop)]
pub struct Turn<V: Kept> {
    pub(crate) table: Table<Option<V>, View<V::Entry, V::Settings>, Snapshot<V>, InTurn, Global>,
    ghost sized: { (table.shared.table_id.words ≡ 33) × (table.shared.table_id.slots ≡ 1) },
}

impl<V: Kept> Model for Turn<V> {
    ghost use Rattle.mq_turn.specs.Passes.{TurnOf};

    ghost Value = { TurnOf V.Settings };

    ghost view = { λ t. record { id = t.table.shared.table_id; settings = V.settings t.table.shared.key.value } };
}

impl<V: Kept> Turn<V> {
    /// A turn round a value without an entry, and its first pass.
    pub fn new(alloc: Global, value: V) -> Result<(Turn<V>, Pass<V>), NoMemory>
        requires { V.history value ≡ [] }
        ensures settings { IfOk result (λ made. made.0.settings ≡ V.settings value) }
        ensures pass { IfOk result (λ made. made.1 ≡ first_pass made.0) }
    {
        let first = Snapshot::of(&value);
        let mut slots = Vec::new(alloc);
        slots.push(Some(value))?;
        match Table::new(alloc, &[0; WORDS], slots, &first) {
            Ok((table, seat)) => Ok((Turn { table }, Pass { seat })),
            Err(Refused { .. }) => Err(NoMemory),
        }
    }

    /// The value, with the history of all that was asked. It needs a pass that took in all others, and takes no memory.
    pub fn close(self, pass: Pass<V>) -> V
        requires turn { IsOf self pass }
        requires only { IsOnly pass }
        ensures { IsClosed V.settings V.history V.maker V.is_sound self pass result }
    {
        let Turn { table } = self;
        let Pass { seat } = pass;
        let mut closed = table.close_with(seat);
        let slot = closed.take(SLOT);
        closed.free();
        match slot {
            Some(value) => value,
            None => unreachable!(),
        }
    }
}
