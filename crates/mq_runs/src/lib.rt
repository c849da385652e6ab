//! What is so in every run of the machine, and so in all that a replay prints: laws, each the contract of a function without a
//! body.
//!
//! The definitions stand in specs/, in this reading order: Runs (what a run is), Payloads (by their numbers), Written (what the
//! book says), Pushed (to an inbox), Causes (of drops), Ends, Order, Asking, Inboxes, Queues (of tunnels), and Laws.
#![tactic(auto)]

mod laws;

pub use laws::{
    causes_held, closed_says_the_rest, delivered_as_it_came, delivered_in_order, held_as_it_passed,
    inboxes_lose_none, is_a_run, judged_on_what_was_written, no_two_ends, none_is_passed_over,
    pump_loses_none, pushed_as_it_passed, put_as_it_came, sent_as_pushed, sent_in_order,
    tunnels_lose_none,
};
