//! The rule that a lane's queue is under, and what each of its passes knows.
use crossbeam_queue::protocol::{Join, Lesson, Outcome, Protocol, Split};
use crossbeam_queue::{Pass, RuledArrayQueue};
use std::collections::LinkedList;

/// What a pass may do, and what it knows of what was put and taken. No value of it is made.
pub struct Hand<T> {
    pub puts: bool,
    pub takes: bool,
    pub put: LinkedList<T>,
    pub taken: LinkedList<T>,
    pub told: LinkedList<T>,
}

/// What was put is what was taken and what waits.
pub struct InOrder;

impl<T> Protocol<T, Hand<T>> for InOrder {
    ghost use Rattle.std.specs.Prelude.{true, []};
    ghost use Rattle.mq_mail.specs.LaneRule.{hand, IsInOrder};

    ghost holds = { IsInOrder };

    ghost first = { hand true true [] [] [] };
}

/// The putter's part and the taker's.
pub struct Roles;

impl<T> Split<Hand<T>> for Roles {
    ghost use Rattle.std.specs.Prelude.{true, false, []};
    ghost use Rattle.mq_mail.specs.LaneRule.{hand};

    ghost left = { λ v. hand true false v.put [] [] };

    ghost right = { λ v. hand false true [] v.taken [] };
}

impl<T> Join<Hand<T>> for Roles {
    ghost use Rattle.std.specs.Prelude.{true, false, []};
    ghost use Rattle.mq_mail.specs.LaneRule.{hand};

    ghost both = { λ v w. hand true true v.put w.taken [] };

    ghost spent = { hand false false [] [] [] };
}

/// What was put so far, told to the taker.
pub struct Tells;

impl<T> Split<Hand<T>> for Tells {
    ghost use Rattle.std.specs.Prelude.{false, []};
    ghost use Rattle.mq_mail.specs.LaneRule.{hand};

    ghost left = { λ v. v };

    ghost right = { λ v. hand false false [] [] v.put };
}

impl<T> Join<Hand<T>> for Tells {
    ghost use Rattle.std.specs.Prelude.{false, []};
    ghost use Rattle.mq_mail.specs.LaneRule.{hand};

    ghost both = { λ v w. hand v.puts v.takes v.put v.taken w.told };

    ghost spent = { hand false false [] [] [] };
}

/// A put, and what the putter learns of a full lane.
pub struct Puts;

impl<T> Outcome<T, Hand<T>> for Puts {
    ghost use Rattle.std.specs.Prelude.{◌≡◌, ◌++◌, ◌∷◌, []};
    ghost use Rattle.mq_mail.specs.LaneRule.{hand};

    ghost then = { λ v x w. w ≡ hand v.puts v.takes (v.put ++ x ∷ []) v.taken v.told };
}

impl<T> Lesson<T, Hand<T>> for Puts {
    ghost use Rattle.std.specs.Prelude.{◌≡◌, ◌++◌, List};

    ghost fact = { λ v items. (taken : List T) × (v.put ≡ taken ++ items) };
}

/// A take, and what the taker learns of an empty lane.
pub struct Takes;

impl<T> Outcome<T, Hand<T>> for Takes {
    ghost use Rattle.std.specs.Prelude.{◌≡◌, ◌++◌, ◌∷◌, []};
    ghost use Rattle.mq_mail.specs.LaneRule.{hand};

    ghost then = { λ v x w. w ≡ hand v.puts v.takes v.put (v.taken ++ x ∷ []) v.told };
}

impl<T> Lesson<T, Hand<T>> for Takes {
    ghost use Rattle.mq_mail.specs.LaneRule.{StartsWith};
    ghost use Rattle.std.specs.Prelude.{◌++◌};

    ghost fact = { λ v items. StartsWith (v.taken ++ items) v.told };
}

/// All that a pass with both parts knows.
pub struct Whole;

impl<T> Lesson<T, Hand<T>> for Whole {
    ghost use Rattle.std.specs.Prelude.{◌≡◌, ◌++◌};

    ghost fact = { λ v items. v.put ≡ v.taken ++ items };
}

/// A take at the close, by the pass with both parts.
pub struct Drains;

impl<T> Outcome<T, Hand<T>> for Drains {
    ghost use Rattle.std.specs.Prelude.{◌≡◌, ◌++◌, ◌∷◌, [], List};
    ghost use Rattle.mq_mail.specs.LaneRule.{hand};

    ghost then = { λ v x w. (w ≡ hand v.puts v.takes v.put (v.taken ++ x ∷ []) v.told)
        × ((rest : List T) × (v.put ≡ v.taken ++ (x ∷ rest))) };
}

impl<T> Lesson<T, Hand<T>> for Drains {
    ghost use Rattle.std.specs.Prelude.{◌≡◌, ◌++◌};

    ghost fact = { λ v items. v.put ≡ v.taken ++ items };
}

/// A lane's queue.
pub type Line<T> = RuledArrayQueue<T, Hand<T>, InOrder>;

/// One part in a lane's queue.
pub type LanePass<T> = Pass<T, Hand<T>>;
