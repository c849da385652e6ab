//! The rule that a turn's table is under, and what each step of it tells.
use crate::kept::Kept;
use crate::view::View;
use atomic_table::{Join, Play, Split, TableRule};
use std::snapshot::Snapshot;

/// The rule of a turn, by the value that it was made with.
pub struct InTurn;

impl<V: Kept> TableRule<Option<V>, View<V::Entry, V::Settings>, Snapshot<V>> for InTurn {
    ghost use Rattle.mq_turn.specs.Rule.{IsTurn, newcomer};

    ghost holds = { λ k. IsTurn V.settings V.history (V.settings k.value) V.maker V.is_sound };

    ghost first = { λ k. newcomer (V.settings k.value) };
}

/// A pass draws a ticket.
pub struct Drawing;

impl<V: Kept> Play<Option<V>, View<V::Entry, V::Settings>> for Drawing {
    ghost use Rattle.mq_turn.specs.Steps.{Draws};

    ghost then = { Draws };
}

/// A pass looks at the served number, and where that is its ticket it takes the slot.
pub struct Looking;

impl<V: Kept> Play<Option<V>, View<V::Entry, V::Settings>> for Looking {
    ghost use Rattle.mq_turn.specs.Steps.{Looks};

    ghost then = { λ _. Looks V.settings V.history V.maker V.is_sound };
}

/// A pass publishes how long the history is of the value that it has put back into the slot.
pub struct Publishing;

impl<V: Kept> Play<Option<V>, View<V::Entry, V::Settings>> for Publishing {
    ghost use Rattle.mq_turn.specs.Steps.{Publishes};

    ghost then = { λ _ me _ after. Publishes V.history me after };
}

/// A pass gives the slot back, and the next number is served.
pub struct PassingOn;

impl<V: Kept> Play<Option<V>, View<V::Entry, V::Settings>> for PassingOn {
    ghost use Rattle.mq_turn.specs.Steps.{PassesOn};

    ghost then = { λ _ me _ after. PassesOn me after };
}

/// The first pass makes another, which has seen what it has.
pub struct Splitting;

impl<E, S> Split<View<E, S>> for Splitting {
    ghost use Rattle.mq_turn.specs.Steps.{made_more, made_of};

    ghost left = { made_more };

    ghost right = { made_of };
}

/// A pass takes in another.
pub struct Joining;

impl<E, S> Join<View<E, S>> for Joining {
    ghost use Rattle.mq_turn.specs.Steps.{joined, spent};

    ghost both = { joined };

    ghost spent = { spent };
}
