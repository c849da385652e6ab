//! The steps of a call in its turn.
ghost use Rattle.std.specs.Prelude.{◌≡◌, ◌<◌, ◌^◌, [], MatchResult};
ghost use Rattle.std.specs.Bool.{MatchBool};
ghost use Rattle.mq_turn.specs.Calls.{IsAt, IsNow, MayPutBack, Took, waiting, passed};
ghost use Rattle.mq_turn.specs.declared.view.Stage.TheVariants.{Idle, Waiting};

use crate::kept::Kept;
use crate::rule::{Drawing, Looking, PassingOn, Publishing};
use crate::turn::{LENGTH, NEXT, SERVED, SLOT, Turn, TurnSeat};
use std::hint;
use std::sync::Wait;

/// Tickets end here: who finds no other waits for ever.
const LAST: u64 = 1 << 63;

/// How often a pass looks for its number before it sleeps.
const LOOKS: u32 = 64;

impl<V: Kept> Turn<V> {
    /// Draws a ticket.
    pub(crate) fn draw<R: Wait>(&self, rt: &R, seat: &mut TurnSeat<V>) -> u64
        requires turn { IsAt self.now seat.old }
        requires idle { (seat.old.me.0.stage ≡ Idle) × (seat.old.me.1 ≡ []) }
        ensures now { IsNow seat.old seat.new (waiting seat.old.me result) }
        ensures below { result < 2 ^ 63 }
    {
        for _ in rt.forever() {
            let next = self.table.shared.peek(NEXT);
            if next < LAST && self.draws(seat, next) {
                return next;
            }
            hint::spin_loop();
        }
        unreachable!()
    }

    /// Draws this ticket, if it is the next one.
    fn draws(&self, seat: &mut TurnSeat<V>, next: u64) -> bool
        requires turn { IsAt self.now seat.old }
        requires idle { (seat.old.me.0.stage ≡ Idle) × (seat.old.me.1 ≡ []) }
        requires below { next < 2 ^ 63 }
        ensures { MatchBool result (IsNow seat.old seat.new (waiting seat.old.me next)) (IsNow seat.old seat.new seat.old.me) }
    {
        let found = self
            .table
            .shared
            .compare_exchange::<Drawing>(seat, NEXT, next, next + 1);
        found == next
    }

    /// Waits until its number is served, and takes the value out of the slot.
    pub(crate) fn take<R: Wait>(&self, rt: &R, seat: &mut TurnSeat<V>, ticket: u64) -> V
        requires turn { IsAt self.now seat.old }
        requires waits { (seat.old.me.0.stage ≡ Waiting ticket) × (seat.old.me.1 ≡ []) }
        ensures { Took V.settings V.history V.maker V.is_sound seat.old ticket result seat.new }
    {
        let mut looks = 0;
        for _ in rt.forever() {
            match self.look(seat, ticket) {
                Ok(value) => return value,
                Err(served) => {
                    if looks < LOOKS {
                        looks += 1;
                        hint::spin_loop();
                    } else {
                        self.table
                            .shared
                            .park(rt, SERVED, (served % (1 << 32)) as u32);
                    }
                }
            }
        }
        unreachable!()
    }

    /// Looks which number is served, and takes the value out of the slot where that is its ticket.
    fn look(&self, seat: &mut TurnSeat<V>, ticket: u64) -> Result<V, u64>
        requires turn { IsAt self.now seat.old }
        requires waits { (seat.old.me.0.stage ≡ Waiting ticket) × (seat.old.me.1 ≡ []) }
        ensures { MatchResult result (λ value. Took V.settings V.history V.maker V.is_sound seat.old ticket value seat.new)
            (λ _. IsNow seat.old seat.new seat.old.me) }
    {
        let served = self.table.shared.load::<Looking>(seat, SERVED);
        if served != ticket {
            return Err(served);
        }
        match self.table.shared.exchange(seat, SLOT, None) {
            Some(value) => Ok(value),
            None => unreachable!(),
        }
    }

    /// Puts the value back into the slot, publishes how long its history is, and passes the turn on.
    pub(crate) fn bring_back(&self, seat: &mut TurnSeat<V>, ticket: u64, value: V)
        requires turn { IsAt self.now seat.old }
        requires may { MayPutBack V.settings V.history V.maker V.is_sound seat.old ticket value }
        requires below { ticket < 2 ^ 63 }
        ensures { IsNow seat.old seat.new (passed seat.old.me (V.history value)) }
    {
        let length = u64::from(value.entries());
        match self.table.shared.exchange(seat, SLOT, Some(value)) {
            None => {}
            Some(_) => unreachable!(),
        }
        self.table.shared.store::<Publishing>(seat, LENGTH, length);
        self.table
            .shared
            .store::<PassingOn>(seat, SERVED, ticket + 1);
        if self.table.shared.peek(NEXT) > ticket + 1 {
            self.table.shared.wake_all(SERVED);
        }
    }
}
