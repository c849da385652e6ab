//! The inboxes of all actors, and what their close tells of each.
use crate::inbox_rule::Inbox;
use std::marker::Model;

/// How many parcels were pushed into an inbox, were popped of it, and were left at the close.
#[derive(Clone, Copy, Debug, PartialEq, Eq)]
pub struct Tally {
    pub pushed: u64,
    pub popped: u64,
    pub left: u64,
}

/// One inbox for each actor, by its number. Threads share it.
#[derive(Drop)]
pub struct Post {
    pub(crate) inboxes: Vec<Inbox>,
    pub(crate) capacity: u32,
    pub(crate) tallies: Vec<Tally>,
}

impl Model for Post {
    ghost use Rattle.std.specs.Prelude.{◌≡◌, ◌≤◌, map, length, [], vec_len, vec_capacity};
    ghost use Rattle.mq_mail.specs.PostParts.{inbox_id, HaveRoom};
    ghost use Rattle.mq_mail.specs.Posts.{PostOf};

    ghost Value = { PostOf };

    ghost view = { λ p. record { inboxes = map inbox_id p.inboxes.items; capacity = p.capacity } };

    ghost invariant = { λ p. HaveRoom p.capacity p.inboxes.items × (p.tallies.items ≡ [])
        × (vec_len p.tallies ≡ 0) × (length p.inboxes.items ≤ vec_capacity p.tallies) };
}
