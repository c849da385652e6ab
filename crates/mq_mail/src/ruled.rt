//! An actor's way to the inboxes of a post that threads share.
ghost use Rattle.std.specs.Prelude.{◌≡◌, ◌<◌, ℕ, length, None};
ghost use Rattle.mq_talk.specs.Mails.{IsParcel, PushGives, PopGives, missed_by};
ghost use Rattle.mq_mail.specs.Posts.{PushesBy, PopsBy};
ghost use Rattle.mq_mail.specs.Ruled.{untold};

use crate::key::{MailKey, below_most};
use crate::post::Post;
use mq_talk::{Mail, Parcel, Pushed};
use std::sync::Wait;

/// A post with inboxes for 256 parcels each, as one actor uses it. Its calls may wait.
#[derive(Drop)]
pub struct RuledMail<'a, R: Wait> {
    rt: &'a R,
    post: &'a Post,
    key: MailKey,
    /// How many parcels came back, each from a full inbox.
    back: u64,
    /// The inbox from which the last of them came.
    back_by: u32,
    /// How many pops gave nothing.
    missed: u64,
    ghost same: { key.post ≡ post.now.inboxes },
    ghost room: { post.now.capacity ≡ 256 },
    ghost own: { key.actor < length key.post },
}

impl Post {
    /// The inboxes as the actor of this key uses them.
    pub fn mail<'a, R: Wait>(&'a self, rt: &'a R, key: MailKey) -> RuledMail<'a, R>
        requires post { key.post ≡ self.now.inboxes }
        requires room { self.now.capacity ≡ 256 }
        requires own { key.actor < length key.post }
        ensures { result.key ≡ key }
    {
        RuledMail {
            rt,
            post: self,
            key,
            back: 0,
            back_by: 0,
            missed: 0,
        }
    }
}

impl<R: Wait> RuledMail<'_, R> {
    /// The key, with all that was pushed and popped.
    pub fn back(self) -> MailKey
        ensures { result ≡ self.entry.key }
    {
        self.key
    }
}

impl<R: Wait> Mail for RuledMail<'_, R> {
    ghost use Rattle.std.specs.Prelude.{length};
    ghost use Rattle.mq_mail.specs.Ruled.{untold};

    ghost actor = { λ m. m.key.actor };

    ghost count = { λ m. length m.key.post };

    ghost boxes = { λ m. untold m.key m.back m.back_by };

    ghost missed = { λ m. m.missed };

    fn push(&mut self, to: u32, parcel: Parcel) -> Pushed
        requires inbox { to < length self.old.key.post }
        requires packet { IsParcel parcel }
        ensures gives { PushGives (length self.old.key.post) (untold self.old.key self.old.back self.old.back_by) to parcel result
            (untold self.new.key self.new.back self.new.back_by) }
        ensures missed { self.new.missed ≡ self.old.missed }
        ensures actor { self.new.key.actor ≡ self.old.key.actor }
        ensures count { length self.new.key.post ≡ length self.old.key.post }
        ensures key { PushesBy 256 self.old.key to parcel result self.new.key }
    {
        let pushed = self.key.push(self.rt, self.post, to, parcel);
        if let Pushed::Full(_) = &pushed {
            self.back = below_most(self.rt, self.back) + 1;
            self.back_by = to;
        }
        pushed
    }

    fn pop(&mut self) -> Option<Parcel>
        ensures gives { PopGives (length self.old.key.post) (untold self.old.key self.old.back self.old.back_by) self.old.key.actor result
            (untold self.new.key self.new.back self.new.back_by) }
        ensures missed { self.new.missed ≡ missed_by result None self.old.missed }
        ensures actor { self.new.key.actor ≡ self.old.key.actor }
        ensures count { length self.new.key.post ≡ length self.old.key.post }
        ensures key { PopsBy self.old.key result self.new.key }
    {
        let popped = self.key.pop(self.rt, self.post);
        if popped.is_none() {
            self.missed = below_most(self.rt, self.missed) + 1;
        }
        popped
    }
}
