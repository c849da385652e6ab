//! What is due, in order.
ghost use Rattle.std.specs.Prelude.{◌≡◌, List, [], ◌∷◌, ◌++◌, ◌==◌, not, filter, length, MatchOption, OnOk};
ghost use Rattle.std.specs.List.{list_any};
ghost use Rattle.mq_machine.specs.Done.{is_on};
ghost use Rattle.mq_machine.specs.Lawful.{is_opening};
ghost use Rattle.mq_machine.specs.declared.act.Due.{Due};
ghost use Rattle.mq_machine.specs.declared.act.Due.TheVariants.{Do};

use mq_machine::{Act, Due};
use mq_wire::NoMemory;
use std::alloc::Global;
use std::collections::VecDeque;
use std::marker::Model;

fn is_act_on(act: &Act, stream: u32) -> bool
    ensures { result ≡ is_on stream (Do act.now) }
{
    match act {
        Act::OfStream { stream: on, .. } => *on == stream,
        _ => false,
    }
}

/// Whether this is asked of the data stream of a stream.
fn is_on(due: &Due, stream: u32) -> bool
    ensures { result ≡ is_on stream due.now }
{
    match due {
        Due::Do(act) => is_act_on(act, stream),
        _ => false,
    }
}

fn is_open(act: &Act) -> bool
    ensures { result ≡ is_opening (Do act.now) }
{
    matches!(act, Act::Open { .. })
}

/// Whether a tunnel is to open by this.
fn is_opening(due: &Due) -> bool
    ensures { result ≡ is_opening due.now }
{
    match due {
        Due::Do(act) => is_open(act),
        _ => false,
    }
}

/// What the bytes of a connection ask for and isn't done.
#[derive(Drop)]
pub struct Dues {
    items: VecDeque<Due>,
}

impl Model for Dues {
    ghost use Rattle.std.specs.Prelude.{List};
    ghost use Rattle.mq_machine.specs.declared.act.Due.{Due};

    ghost Value = { List Due };

    ghost view = { λ s. s.items.items };
}

impl Dues {
    /// A list of nothing.
    pub fn new(alloc: Global) -> Dues
        ensures { result ≡ [] }
    {
        Dues {
            items: VecDeque::new(alloc),
        }
    }

    /// Whether nothing is due.
    pub fn is_empty(&self) -> bool
        ensures { result ≡ (length self.now == 0) }
    {
        self.items.is_empty()
    }

    /// What is due first.
    pub fn first(&self) -> Option<&Due>
        ensures { MatchOption result (self.now ≡ []) (λ d. (rest : List Due) × (self.now ≡ d.now ∷ rest)) }
    {
        self.items.front()
    }

    /// Whether a tunnel is to open.
    pub fn opens(&self) -> bool
        ensures { result ≡ list_any is_opening self.now }
    {
        self.items.iter().any(is_opening)
    }

    /// Takes what is due first.
    pub fn pop(&mut self) -> Option<Due>
        ensures { MatchOption result ((self.old ≡ []) × (self.new ≡ [])) (λ d. self.old ≡ d ∷ self.new) }
    {
        self.items.pop_front()
    }

    /// Puts one more at the back. `Err` is want of memory.
    #[inline(always)]
    pub fn push(&mut self, due: Due) -> Result<(), NoMemory>
        ensures { OnOk result (self.new ≡ self.old ++ due ∷ []) }
    {
        self.items.reserve(1)?;
        self.items.push_back_reserved(due);
        Ok(())
    }

    /// Nothing more is asked of a stream. Marks stay. Takes no memory.
    pub fn forget(&mut self, stream: u32)
        ensures { self.new ≡ filter (λ d. not (is_on stream d)) self.old }
    {
        self.items.retain(|due| !is_on(due, stream));
    }

    /// Nothing is due any more. Takes no memory.
    pub fn clear(&mut self)
        ensures { self.new ≡ [] }
    {
        self.items.clear();
    }
}
