//! Free blocks of a pool.
#![tactic(auto)]

mod pool;
mod search;

pub use pool::least_free;
