//! The inboxes of a post and the keys of its actors, made together.
ghost use Rattle.std.specs.Prelude.{◌≡◌, ◌<◌, ◌∷◌, length, map, suc, IfOk, OnOk};
ghost use Rattle.mq_mail.specs.Made.{AreFirsts, AreWaysTo, AreRows, AreLast};
ghost use Rattle.mq_mail.specs.PostParts.{inbox_id, HaveRoom};
ghost use Rattle.mq_mail.specs.Posts.{new_keys};

use crate::inbox_rule::{Inbox, InboxPass, Makes};
use crate::key::MailKey;
use crate::post::Post;
use mq_wire::{NoMemory, Seq};
use std::alloc::Global;
use std::collections::VecDeque;

/// Empty inboxes for so many actors, each with room for so many parcels, and the keys of the actors, by their numbers.
/// All memory that they and their close will ever need is taken here.
pub fn matrix(alloc: Global, actors: u32, capacity: u32) -> Result<(Post, Seq<MailKey>), NoMemory>
    requires { 0 < capacity }
    ensures post { IfOk result (λ made. (length made.0.inboxes ≡ actors) × (made.0.capacity ≡ capacity)) }
    ensures keys { IfOk result (λ made. made.1 ≡ new_keys made.0.inboxes 0 actors) }
{
    let tallies = Vec::with_capacity(alloc, actors as usize)?;
    let (inboxes, mut firsts) = make_inboxes(alloc, actors, capacity)?;
    let all = inboxes.as_slice();
    let rows = make_rows(alloc, all, &mut firsts, actors)?;
    let keys = make_keys(alloc, all, VecDeque::from_vec(firsts), rows, actors)?;
    let post = Post {
        inboxes,
        capacity,
        tallies,
    };
    Ok((post, Seq::from_vec(keys)))
}

/// The inboxes, and of each the pass that pops.
fn make_inboxes(
    alloc: Global,
    actors: u32,
    capacity: u32,
) -> Result<(Vec<Inbox>, Vec<InboxPass>), NoMemory>
    requires { 0 < capacity }
    ensures size { IfOk result (λ made. length made.0.items ≡ actors) }
    ensures room { IfOk result (λ made. HaveRoom capacity made.0.items) }
    ensures firsts { IfOk result (λ made. AreFirsts 0 (map inbox_id made.0.items) made.1.items) }
{
    let mut inboxes = Vec::with_capacity(alloc, actors as usize)?;
    let mut firsts = Vec::with_capacity(alloc, actors as usize)?;
    for _ in 0..actors {
        let (inbox, first) = Inbox::ruled(alloc, capacity as usize)?;
        inboxes.push(inbox)?;
        firsts.push(first)?;
    }
    Ok((inboxes, firsts))
}

/// The next actor's ways to all inboxes.
fn make_ways(
    alloc: Global,
    inboxes: &[Inbox],
    firsts: &mut Vec<InboxPass>,
    actor: u32,
) -> Result<Vec<InboxPass>, NoMemory>
    requires { AreFirsts actor (map inbox_id inboxes.now) firsts.old.items }
    ensures firsts { OnOk result (AreFirsts (suc actor) (map inbox_id inboxes.now) firsts.new.items) }
    ensures ways { IfOk result (λ ways.
        AreWaysTo actor (length (map inbox_id inboxes.now)) (map inbox_id inboxes.now) ways.items) }
{
    let mut ways = Vec::with_capacity(alloc, inboxes.len())?;
    for i in 0..inboxes.len() {
        let way = inboxes[i].another::<Makes>(&mut firsts[i]);
        ways.push(way)?;
    }
    Ok(ways)
}

/// The ways of each actor.
fn make_rows(
    alloc: Global,
    inboxes: &[Inbox],
    firsts: &mut Vec<InboxPass>,
    actors: u32,
) -> Result<VecDeque<Vec<InboxPass>>, NoMemory>
    requires { AreFirsts 0 (map inbox_id inboxes.now) firsts.old.items }
    ensures firsts { OnOk result (AreFirsts actors (map inbox_id inboxes.now) firsts.new.items) }
    ensures rows { IfOk result
        (λ rows. AreRows 0 (map inbox_id inboxes.now) rows.items × (length rows.items ≡ actors)) }
{
    let mut rows = VecDeque::with_capacity(alloc, actors as usize)?;
    for actor in 0..actors {
        let ways = make_ways(alloc, inboxes, firsts, actor)?;
        rows.push_back(ways)?;
    }
    Ok(rows)
}

/// The keys, each of its actor's ways and the pass that pops its inbox.
fn make_keys(
    alloc: Global,
    inboxes: &[Inbox],
    mut firsts: VecDeque<InboxPass>,
    mut rows: VecDeque<Vec<InboxPass>>,
    actors: u32,
) -> Result<Vec<MailKey>, NoMemory>
    requires size { length inboxes.now ≡ actors }
    requires firsts { AreLast actors 0 (map inbox_id inboxes.now) firsts.items × (length firsts.items ≡ actors) }
    requires rows { AreRows 0 (map inbox_id inboxes.now) rows.items × (length rows.items ≡ actors) }
    ensures { IfOk result (λ keys. keys.items ≡ new_keys (map inbox_id inboxes.now) 0 actors) }
{
    let mut keys = Vec::with_capacity(alloc, actors as usize)?;
    for actor in 0..actors {
        let ways = first_of(&mut rows);
        let inbox = first_of(&mut firsts);
        let key = MailKey::new(alloc, inboxes, actor, ways, inbox)?;
        keys.push(key)?;
    }
    Ok(keys)
}

/// Takes the front, where there is one.
pub(crate) fn first_of<T>(queue: &mut VecDeque<T>) -> T
    requires { 0 < length queue.old.items }
    ensures { queue.old.items ≡ result ∷ queue.new.items }
{
    let Some(item) = queue.pop_front() else {
        unreachable!()
    };
    item
}
