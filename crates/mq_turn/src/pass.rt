//! The passes of a turn.
ghost use Rattle.std.specs.Prelude.{◌≡◌, Ok};
ghost use Rattle.mq_turn.specs.Passes.{IsOf, Turned, after_split, split_off, took_in};

use crate::kept::Kept;
use crate::rule::{Joining, Splitting};
use crate::turn::{Turn, TurnSeat};
use mq_wire::NoMemory;
use std::marker::Model;
use std::sync::Wait;

/// With it a thread asks the value of a turn. It has no bytes.
#[derive(Drop)]
pub struct Pass<V: Kept> {
    pub(crate) seat: TurnSeat<V>,
}

impl<V: Kept> Model for Pass<V> {
    ghost use Rattle.std.specs.Prelude.{◌≡◌, []};
    ghost use Rattle.mq_turn.specs.Passes.{PassOf};
    ghost use Rattle.mq_turn.specs.declared.view.Stage.TheVariants.{Idle};

    ghost Value = { PassOf V.Entry V.Settings };

    ghost view = { λ p. record {
      turn = p.seat.table_id;
      settings = p.seat.me.0.settings;
      number = p.seat.me.0.number;
      seen = p.seat.me.0.seen;
      taken_in = p.seat.me.0.taken_in;
      made = p.seat.me.0.made;
    } };

    ghost invariant = { λ p. (p.seat.me.0.stage ≡ Idle) × (p.seat.me.1 ≡ []) };
}

impl<V: Kept> Pass<V> {
    /// Waits for its turn, and asks the value.
    pub fn with_turn<R: Wait>(&mut self, rt: &R, turn: &Turn<V>, ask: V::Ask) -> V::Answer
        requires turn { IsOf turn.now self.old }
        requires own { V.asker ask ≡ self.old.number }
        requires may { V.may_ask turn.now.settings self.old.seen ask }
        ensures { Turned V.maker V.is_sound V.serves turn.now.settings self.old ask result self.new }
    {
        let ticket = turn.draw(rt, &mut self.seat);
        let mut value = turn.take(rt, &mut self.seat, ticket);
        let answer = value.serve(ask);
        turn.bring_back(&mut self.seat, ticket, value);
        answer
    }

    /// Makes the next pass, which has seen what this one has. Only the first pass makes others. Takes no memory.
    pub fn split(&mut self, turn: &Turn<V>) -> Result<Pass<V>, NoMemory>
        requires turn { IsOf turn.now self.old }
        requires first { self.old.number ≡ 0 }
        ensures made { self.new ≡ after_split self.old }
        ensures pass { result ≡ Ok (split_off self.old) }
    {
        Ok(Pass {
            seat: turn.table.shared.split_seat::<Splitting>(&mut self.seat),
        })
    }

    /// Takes in another pass, with what it has seen and all that it took in. Takes no memory.
    pub fn join(&mut self, turn: &Turn<V>, other: Pass<V>)
        requires turn { IsOf turn.now self.old }
        requires other { IsOf turn.now other }
        ensures { self.new ≡ took_in self.old other }
    {
        let Pass { seat } = other;
        turn.table.shared.join_seat::<Joining>(&mut self.seat, seat);
    }
}
