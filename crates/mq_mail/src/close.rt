//! The close of a post: of each inbox one pass takes in all others, and then knows what is left.
ghost use Rattle.std.specs.Prelude.{◌≡◌, ◌≤◌, ◌+◌, true, ◌∷◌, ◌++◌, [], List, Some, length, map};
ghost use Rattle.std.specs.Prelude.{slice_get, slice_set, vec_len, vec_capacity};
ghost use Rattle.crossbeam_queue.specs.Fifo.{Held};
ghost use Rattle.crossbeam_queue.specs.Passes.{view as known, IsPassOf};
ghost use Rattle.mq_mail.specs.Closing.{AreFree, TookWays, AddsPopper, TookIn};
ghost use Rattle.mq_mail.specs.InboxRule.{AreAll};
ghost use Rattle.mq_mail.specs.Keys.{id_of};
ghost use Rattle.mq_mail.specs.PostParts.{inbox_id};
ghost use Rattle.mq_mail.specs.Posts.{KeyOf};
ghost use Rattle.mq_mail.specs.Tallies.{AreAllKeys, AreTallied};

use crate::inbox_rule::{Inbox, InboxPass, PopsToo, PushesToo, Whole};
use crate::key::{MailKey, below_most};
use crate::post::{Post, Tally};
use crate::start::first_of;
use mq_wire::Seq;
use std::collections::VecDeque;
use std::sync::Wait;

/// Of each inbox the pass that takes in all others, and how many letters were popped.
#[derive(Drop)]
pub(crate) struct Gathered {
    pub passes: Vec<InboxPass>,
    pub popped: Vec<u64>,
}

impl Post {
    /// How many parcels were pushed to each inbox, were popped and are left, by the inboxes' numbers. It needs the keys
    /// of all actors, by their numbers, and takes no memory.
    pub fn close<R: Wait>(self, rt: &R, keys: Seq<MailKey>) -> Seq<Tally>
        requires { AreAllKeys self.inboxes keys }
        ensures { AreTallied keys result }
    {
        let Post {
            inboxes,
            tallies,
            ..
        } = self;
        let mut keys = VecDeque::from_vec(keys.into_vec());
        match keys.pop_front() {
            None => Seq::from_vec(tallies),
            Some(first) => Seq::from_vec(tally_all(rt, inboxes.as_slice(), first, keys, tallies)),
        }
    }
}

/// Takes in one key after another, and counts then.
fn tally_all<R: Wait>(
    rt: &R,
    inboxes: &[Inbox],
    first: MailKey,
    mut rest: VecDeque<MailKey>,
    tallies: Vec<Tally>,
) -> Vec<Tally>
    requires keys { AreAllKeys (map inbox_id inboxes.now) (first ∷ rest.items) }
    requires empty { (tallies.items ≡ []) × (vec_len tallies ≡ 0) }
    requires memory { length inboxes.now ≤ vec_capacity tallies }
    ensures { AreTallied (first ∷ rest.items) result.items }
{
    let mut gathered = begin(inboxes, first);
    for _ in 0..rest.len() {
        let key = first_of(&mut rest);
        take_in(inboxes, &mut gathered, key);
    }
    tally_each(rt, inboxes, gathered, tallies)
}

/// The passes of the first key, whose list of counts serves for what the actors popped.
fn begin(inboxes: &[Inbox], first: MailKey) -> Gathered
    requires post { first.post ≡ map inbox_id inboxes.now }
    requires actor { first.actor ≡ 0 }
    ensures { TookIn (map inbox_id inboxes.now) (first ∷ []) result }
{
    let MailKey {
        actor,
        ways,
        counts,
        inbox,
        count,
    } = first;
    let mut gathered = Gathered {
        passes: ways,
        popped: counts,
    };
    add_popper(inboxes, &mut gathered, actor, inbox, count);
    gathered
}

/// Takes in the next actor's key.
fn take_in(inboxes: &[Inbox], gathered: &mut Gathered, key: MailKey)
    requires post { key.post ≡ map inbox_id inboxes.now }
    requires ids { map id_of gathered.old.passes.items ≡ map inbox_id inboxes.now }
    requires free { AreFree gathered.old.passes.items }
    requires size { length gathered.old.popped.items ≡ length inboxes.now }
    ensures { (keys : List KeyOf) → length keys ≡ key.actor
        → TookIn (map inbox_id inboxes.now) keys gathered.old
        → TookIn (map inbox_id inboxes.now) (keys ++ key ∷ []) gathered.new }
{
    let MailKey {
        actor,
        ways,
        inbox,
        count,
        ..
    } = key;
    add_ways(inboxes, &mut gathered.passes, VecDeque::from_vec(ways));
    add_popper(inboxes, gathered, actor, inbox, count);
}

/// Takes in a way to each inbox.
fn add_ways(inboxes: &[Inbox], passes: &mut Vec<InboxPass>, mut ways: VecDeque<InboxPass>)
    requires ids { map id_of passes.old.items ≡ map inbox_id inboxes.now }
    requires free { AreFree passes.old.items }
    requires ways { (map id_of ways.items ≡ map inbox_id inboxes.now) × AreFree ways.items }
    ensures { TookWays passes.old.items ways.items passes.new.items }
{
    for i in 0..inboxes.len() {
        let way = first_of(&mut ways);
        inboxes[i].absorb::<PushesToo>(&mut passes[i], way);
    }
}

/// Takes in the pass that pops the actor's own inbox, and notes how many letters it popped.
fn add_popper(inboxes: &[Inbox], gathered: &mut Gathered, actor: u32, popper: InboxPass, count: u64)
    requires ids { map id_of gathered.old.passes.items ≡ map inbox_id inboxes.now }
    requires free { AreFree gathered.old.passes.items }
    requires size { length gathered.old.popped.items ≡ length inboxes.now }
    requires own { slice_get (map inbox_id inboxes.now) actor ≡ Some popper.table_id }
    requires popper { (popper.me.1 ≡ []) × ((known popper).pops ≡ true) }
    ensures passes { AddsPopper actor popper gathered.old.passes.items gathered.new.passes.items }
    ensures popped { gathered.new.popped.items ≡ slice_set gathered.old.popped.items actor count }
{
    let actor = actor as usize;
    inboxes[actor].absorb::<PopsToo>(&mut gathered.passes[actor], popper);
    gathered.popped[actor] = count;
}

/// The tally of each inbox, in memory that was taken before.
fn tally_each<R: Wait>(
    rt: &R,
    inboxes: &[Inbox],
    mut gathered: Gathered,
    mut tallies: Vec<Tally>,
) -> Vec<Tally>
    requires gathered { (keys : List KeyOf) × AreAllKeys (map inbox_id inboxes.now) keys
        × TookIn (map inbox_id inboxes.now) keys gathered }
    requires empty { (tallies.items ≡ []) × (vec_len tallies ≡ 0) }
    requires memory { length inboxes.now ≤ vec_capacity tallies }
    ensures { (keys : List KeyOf) → AreAllKeys (map inbox_id inboxes.now) keys
        → TookIn (map inbox_id inboxes.now) keys gathered → AreTallied keys result.items }
{
    for i in 0..inboxes.len() {
        let tally = tally_of(rt, &inboxes[i], &mut gathered.passes[i], gathered.popped[i]);
        tallies.push_reserved(tally);
    }
    tallies
}

/// What was pushed, popped and left of one inbox, by the pass that took in all others.
fn tally_of<R: Wait>(rt: &R, inbox: &Inbox, pass: &mut InboxPass, popped: u64) -> Tally
    requires pass { IsPassOf inbox.now pass.old }
    requires pops { (known pass.old).pops ≡ true }
    requires popped { popped ≡ length (known pass.old).popped }
    ensures pass { (pass.new.table_id ≡ pass.old.table_id) × (pass.new.me.1 ≡ []) }
    ensures known { known pass.new ≡ known pass.old }
    ensures popped { result.popped ≡ popped }
    ensures pushed { result.pushed ≡ popped + result.left }
    ensures left { Held result.left (λ left.
        AreAll (known pass.old).owns (known pass.old).made ((known pass.old).popped ++ left)) }
{
    let waiting = inbox.len_as::<Whole, R>(rt, pass);
    let popped = below_most(rt, popped);
    let left = below_most(rt, waiting as u64);
    Tally {
        pushed: popped + left,
        popped,
        left,
    }
}
