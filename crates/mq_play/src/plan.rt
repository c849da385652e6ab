//! What a proxy is planned to be.

use mq_addr::Addr;
use mq_machine::Setup;
use mq_talk::Config;
use mq_wire::Seq;

/// What settings make: how many workers there are, what each is set up with, what the book may give, and the hosts of the
/// simulated network. `setup.pump` and `book.workers` are `workers` too.
#[derive(Drop)]
pub struct Plan {
    pub workers: u32,
    pub setup: Setup,
    pub book: Config,
    pub hosts: Seq<Addr>,
}
