//! The rule that each inbox's queue is under, and what each of its passes knows.
use crossbeam_queue::protocol::{Join, Lesson, Outcome, Protocol, Split};
use crossbeam_queue::{Pass, RuledArrayQueue};
use mq_talk::Parcel;
use std::collections::LinkedList;

/// A parcel in an inbox: which actor pushed it, and its place among what that actor pushed there, from 0.
#[derive(Drop)]
pub struct Letter {
    pub pusher: u32,
    pub place: u64,
    pub parcel: Parcel,
}

/// What a pass may do and what it knows: for which actors it pushes, each with what it has pushed; whether it pops, and
/// then what was popped, and how many actors were made. No value of it is made.
pub struct Part {
    pub owns: LinkedList<(u64, LinkedList<Parcel>)>,
    pub pops: bool,
    pub popped: LinkedList<Letter>,
    pub made: u64,
}

/// What each actor pushed is what was popped of it and what waits of it, in order.
pub struct Delivery;

impl Protocol<Letter, Part> for Delivery {
    ghost use Rattle.mq_mail.specs.InboxRule.{popper, IsDelivered};
    ghost use Rattle.std.specs.Prelude.{[]};

    ghost holds = { IsDelivered };

    ghost first = { popper 0 [] };
}

/// The pass that pops makes one that pushes for the next actor.
pub struct Makes;

impl Split<Part> for Makes {
    ghost use Rattle.std.specs.Prelude.{suc, []};
    ghost use Rattle.mq_mail.specs.InboxRule.{pusher};

    ghost left = { λ v. record v { made = suc v.made } };

    ghost right = { λ v. pusher v.made [] };
}

/// A pass takes in one that pushes, and pushes for its actors too.
pub struct PushesToo;

impl Join<Part> for PushesToo {
    ghost use Rattle.std.specs.Prelude.{◌++◌};
    ghost use Rattle.mq_mail.specs.InboxRule.{idle};

    ghost both = { λ v w. record v { owns = v.owns ++ w.owns } };

    ghost spent = { idle };
}

/// A pass takes in the one that pops, and pops too.
pub struct PopsToo;

impl Join<Part> for PopsToo {
    ghost use Rattle.mq_mail.specs.InboxRule.{idle};

    ghost both = { λ v w. record w { owns = v.owns } };

    ghost spent = { idle };
}

/// A push, and what the pusher learns of a full inbox.
pub struct Pushing;

impl Outcome<Letter, Part> for Pushing {
    ghost use Rattle.std.specs.Prelude.{◌≡◌};
    ghost use Rattle.mq_mail.specs.InboxRule.{adds};

    ghost then = { λ v x w. w ≡ record v { owns = adds v.owns x.parcel } };
}

impl Lesson<Letter, Part> for Pushing {
    ghost use Rattle.mq_mail.specs.InboxRule.{AreAmong};

    ghost fact = { λ v items. AreAmong v.owns items };
}

/// A pop, and what the popper learns of an empty inbox.
pub struct Popping;

impl Outcome<Letter, Part> for Popping {
    ghost use Rattle.std.specs.Prelude.{◌≡◌, ◌++◌, ◌∷◌, []};
    ghost use Rattle.mq_mail.specs.Letters.{IsNext};

    ghost then = { λ v x w. (w ≡ record v { popped = v.popped ++ x ∷ [] }) × IsNext v.popped x };
}

impl Lesson<Letter, Part> for Popping {
    ghost use Rattle.std.specs.Prelude.{◌++◌};
    ghost use Rattle.mq_mail.specs.Letters.{AreNumbered};

    ghost fact = { λ v items. AreNumbered (v.popped ++ items) };
}

/// What the pass that pops learns of all that it pushes for.
pub struct Whole;

impl Lesson<Letter, Part> for Whole {
    ghost use Rattle.mq_mail.specs.InboxRule.{AreAll};
    ghost use Rattle.std.specs.Prelude.{◌++◌};

    ghost fact = { λ v items. AreAll v.owns v.made (v.popped ++ items) };
}

/// An inbox.
pub type Inbox = RuledArrayQueue<Letter, Part, Delivery>;

/// One part in an inbox.
pub type InboxPass = Pass<Letter, Part>;
