//! Which calls of an object in memory are to fail.
ghost use Rattle.std.specs.Prelude.{◌≡◌, ◌==◌, length};
ghost use Rattle.mq_mem.specs.Calls.{Calls as CallsOf, no_calls, is_listed, called};

use mq_outside::risen;
use mq_wire::Seq;
use std::marker::Model;

/// The numbers of the calls that are to fail, counted from 0, and how many were made.
#[derive(Drop)]
pub struct Calls {
    fails: Seq<u64>,
    made: u64,
}

impl Model for Calls {
    ghost Value = { CallsOf };

    ghost view = { λ c. record { fails = c.fails; made = c.made } };
}

impl Calls {
    pub fn new(fails: Seq<u64>) -> Calls
        ensures { result ≡ no_calls fails }
    {
        Calls { fails, made: 0 }
    }

    /// Whether no call is to fail.
    pub fn lists_none(&self) -> bool
        ensures { result ≡ (length self.now.fails == 0) }
    {
        self.fails.as_slice().is_empty()
    }

    /// Whether the next call is one that is to fail.
    pub fn is_next_failing(&self) -> bool
        ensures { result ≡ is_listed self.now }
    {
        self.fails.as_slice().contains(&self.made)
    }

    /// Counts a call, and tells whether it is one that is to fail.
    pub fn next_fails(&mut self) -> bool
        ensures fails { result ≡ is_listed self.old }
        ensures after { self.new ≡ called self.old }
    {
        let fails = self.fails.as_slice().contains(&self.made);
        self.made = risen(self.made);
        fails
    }
}
