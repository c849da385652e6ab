//! The inboxes of a world in memory.
ghost use Rattle.std.specs.Prelude.{◌≡◌, ◌<◌, [], length, Some, IfOk};
ghost use Rattle.mq_talk.specs.Mails.{IsParcel, PushGives, PopGives, box_at};
ghost use Rattle.mq_mem.specs.Mails.{Mail as MailOf, empty_boxes, is_waiting};

use crate::inbox::Inbox;
use mq_talk::{Mail, Parcel, Pushed};
use mq_wire::NoMemory;
use std::alloc::Global;
use std::marker::Model;

/// One inbox for each actor, and the one actor that is served.
#[derive(Drop)]
pub struct PlainMail {
    boxes: Vec<Inbox>,
    actor: u32,
}

impl Model for PlainMail {
    ghost Value = { MailOf };

    ghost view = { λ m. record { boxes = m.boxes.items; actor = m.actor } };

    ghost invariant = { λ m. m.actor < length m.boxes.items };
}

impl PlainMail {
    /// Empty inboxes for so many actors, of which actor 0 is served. All memory that the inboxes will ever need is taken here.
    pub fn new(alloc: Global, actors: u32) -> Result<PlainMail, NoMemory>
        requires { 0 < actors }
        ensures { IfOk result (λ m. m ≡ record { boxes = empty_boxes actors; actor = 0 }) }
    {
        let mut boxes = Vec::with_capacity(alloc, actors as usize)?;
        for _ in 0..actors {
            let inbox = Inbox::new(alloc)?;
            boxes.push(inbox)?;
        }
        Ok(PlainMail { boxes, actor: 0 })
    }

    /// Serves this actor from now on. Takes no memory.
    pub fn turn_to(&mut self, actor: u32)
        requires { actor < length self.old.boxes }
        ensures { self.new ≡ record self.old { actor = actor } }
    {
        self.actor = actor;
    }

    /// Whether a parcel waits in an actor's inbox.
    pub fn waiting(&self, actor: u32) -> bool
        requires { actor < length self.now.boxes }
        ensures { result ≡ is_waiting (box_at self.now.boxes actor) }
    {
        self.boxes[actor as usize].is_waiting()
    }
}

impl Mail for PlainMail {
    ghost use Rattle.std.specs.Prelude.{length};
    ghost use Rattle.mq_mem.specs.Mails.{shown};

    ghost actor = { λ m. m.actor };

    ghost count = { λ m. length m.boxes };

    ghost boxes = { λ m. shown m.boxes };

    ghost missed = { λ m. 0 };

    fn push(&mut self, to: u32, parcel: Parcel) -> Pushed {
        self.boxes[to as usize].push(parcel)
    }

    fn pop(&mut self) -> Option<Parcel> {
        self.boxes[self.actor as usize].pop()
    }
}
