//! The book: one history of tunnels and addresses, in which no address has two tunnels.
#![tactic(auto)]

mod assign;
mod book;
mod judge;
mod laws;
mod ledger;
mod setup;
mod tunnel;

pub use book::Book;
pub use laws::{
    begins_legal, each_reply_fits, judged_has_inbox, one_answer, one_owner, one_verdict,
    owned_once, stays_full,
};
pub use mq_talk::Config;
