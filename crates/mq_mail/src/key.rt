//! An actor's key: with it the actor pushes to each inbox of a post, and pops from its own.
ghost use Rattle.std.specs.Prelude.{◌≡◌, ◌<◌, ◌^◌, ◌++◌, ◌∷◌, [], length, map, slice_get, IfOk, MatchResult};
ghost use Rattle.atomic_table.specs.Seated.{TableId};
ghost use Rattle.crossbeam_queue.specs.Passes.{view as known, IsPassOf, ruled_capacity};
ghost use Rattle.mq_talk.specs.Mails.{IsParcel};
ghost use Rattle.mq_mail.specs.Keys.{pushed_of, count_of};
ghost use Rattle.mq_mail.specs.Posts.{PushesBy, PopsBy, WasFull, new_key};
ghost use Rattle.mq_mail.specs.Made.{AreWaysTo, IsFirst};
ghost use Rattle.mq_mail.specs.PostParts.{inbox_id};

use crate::inbox_rule::{Inbox, InboxPass, Letter, Popping, Pushing};
use crate::post::Post;
use mq_talk::{Parcel, Pushed};
use mq_wire::NoMemory;
use std::alloc::Global;
use std::marker::Model;
use std::sync::Wait;

/// From here on a count waits for ever. The queue of an inbox does so before, after 2^62 pushes.
const MOST: u64 = 1 << 63;

/// The one key of an actor.
#[derive(Drop)]
pub struct MailKey {
    pub(crate) actor: u32,
    pub(crate) ways: Vec<InboxPass>,
    pub(crate) counts: Vec<u64>,
    pub(crate) inbox: InboxPass,
    pub(crate) count: u64,
}

impl Model for MailKey {
    ghost use Rattle.std.specs.Prelude.{map};
    ghost use Rattle.crossbeam_queue.specs.Passes.{view as known};
    ghost use Rattle.mq_mail.specs.Keys.{id_of, pushed_of, IsKey};
    ghost use Rattle.mq_mail.specs.Posts.{KeyOf};

    ghost Value = { KeyOf };

    ghost view = { λ k. record {
      post = map id_of k.ways.items;
      actor = k.actor;
      pushed = map pushed_of k.ways.items;
      popped = (known k.inbox).popped;
    } };

    ghost invariant = { λ k. IsKey k.actor k.ways.items k.counts.items k.inbox k.count };
}

impl MailKey {
    /// A key of an actor's ways and the pass that pops its inbox, with which nothing was done.
    pub(crate) fn new(
        alloc: Global,
        inboxes: &[Inbox],
        actor: u32,
        ways: Vec<InboxPass>,
        inbox: InboxPass,
    ) -> Result<MailKey, NoMemory>
        requires ways { AreWaysTo actor (length (map inbox_id inboxes.now)) (map inbox_id inboxes.now) ways.items }
        requires inbox { (id : TableId) × (slice_get (map inbox_id inboxes.now) actor ≡ Some id)
            × IsFirst (length (map inbox_id inboxes.now)) id inbox }
        ensures { IfOk result (λ key. key ≡ new_key (map inbox_id inboxes.now) actor) }
    {
        let counts = Vec::from_elem(alloc, 0u64, ways.len())?;
        Ok(MailKey {
            actor,
            ways,
            counts,
            inbox,
            count: 0,
        })
    }

    /// Puts a parcel at the back of an actor's inbox, or hands it back where that is full.
    pub fn push<R: Wait>(&mut self, rt: &R, post: &Post, to: u32, parcel: Parcel) -> Pushed
        requires post { self.old.post ≡ post.now.inboxes }
        requires inbox { to < length self.old.post }
        requires parcel { IsParcel parcel }
        ensures { PushesBy post.now.capacity self.old to parcel result self.new }
    {
        let to = to as usize;
        let place = below_most(rt, self.counts[to]);
        let letter = Letter {
            pusher: self.actor,
            place,
            parcel,
        };
        match push_way(rt, &post.inboxes[to], &mut self.ways[to], letter) {
            Ok(()) => {
                self.counts[to] = place + 1;
                Pushed::Taken
            }
            Err(letter) => Pushed::Full(letter.parcel),
        }
    }

    /// Takes the parcel at the front of the actor's own inbox, if it has one.
    pub fn pop<R: Wait>(&mut self, rt: &R, post: &Post) -> Option<Parcel>
        requires { self.old.post ≡ post.now.inboxes }
        ensures { PopsBy self.old result self.new }
    {
        let count = below_most(rt, self.count);
        let inbox = &post.inboxes[self.actor as usize];
        match inbox.pop_as::<Popping, R>(rt, &mut self.inbox) {
            None => None,
            Some(letter) => {
                self.count = count + 1;
                Some(letter.parcel)
            }
        }
    }
}

/// The number itself, where it has a next one.
pub(crate) fn below_most<R: Wait>(rt: &R, number: u64) -> u64
    ensures same { result ≡ number }
    ensures below { result < 2 ^ 63 }
{
    if number >= MOST {
        for _ in rt.forever() {}
        unreachable!()
    }
    number
}

/// Pushes a letter of the pass's one actor.
fn push_way<R: Wait>(
    rt: &R,
    inbox: &Inbox,
    way: &mut InboxPass,
    letter: Letter,
) -> Result<(), Letter>
    requires inbox { IsPassOf inbox.now way.old }
    requires owns { (known way.old).owns ≡ (letter.pusher, pushed_of way.old) ∷ [] }
    requires place { letter.place ≡ count_of way.old }
    requires parcel { IsParcel letter.parcel }
    ensures inbox { (way.new.table_id ≡ way.old.table_id) × (way.new.me.1 ≡ []) }
    ensures owns { MatchResult result
        (λ _. (known way.new).owns ≡ (letter.pusher, pushed_of way.old ++ letter.parcel ∷ []) ∷ [])
        (λ back. (back ≡ letter) × ((known way.new).owns ≡ (known way.old).owns)
        × WasFull (ruled_capacity inbox.now) letter.pusher (pushed_of way.old)) }
{
    inbox.push_as::<Pushing, R>(rt, way, letter)
}
