//! What a play says is counted, and none of it is kept.
ghost use Rattle.std.specs.Prelude.{◌≡◌, ◌+◌, ◌++◌, OnOk, OnErr};
ghost use Rattle.mq_top.specs.Tallies.{counts_text, is_starved_note, no_counts, with_note};

use mq_output::Stop;
use mq_replay::Listener;
use mq_script::print_count;
use mq_talk::{End, Note};
use mq_wire::NoMemory;
use std::marker::Model;

/// How many packets passed, were pushed, sent, queued, delivered and dropped.
#[derive(Drop)]
pub struct Tally {
    passed: u64,
    pushed: u64,
    sent: u64,
    queued: u64,
    delivered: u64,
    dropped: u64,
}

impl Model for Tally {
    ghost use Rattle.mq_top.specs.Tallies.{Counts};

    ghost Value = { Counts };

    ghost view = { λ t. record { passed = t.passed; pushed = t.pushed; sent = t.sent; queued = t.queued; delivered = t.delivered; dropped = t.dropped } };
}

/// One more.
fn one_more(count: &mut u64) -> Result<(), NoMemory>
    ensures ok { OnOk result (count.new ≡ count.old + 1) }
    ensures err { OnErr result (count.new ≡ count.old) }
{
    match count.checked_add(1) {
        Some(more) => {
            *count = more;
            Ok(())
        }
        None => Err(NoMemory),
    }
}

/// Whether a connection ended for want of memory.
fn is_starved(note: &Note) -> bool
    ensures { result ≡ is_starved_note note.now }
{
    matches!(
        note,
        Note::Ended {
            why: End::NoMemory,
            ..
        }
    )
}

impl Tally {
    /// Nothing was heard.
    pub fn new() -> Tally
        ensures { result ≡ no_counts }
    {
        Tally {
            passed: 0,
            pushed: 0,
            sent: 0,
            queued: 0,
            delivered: 0,
            dropped: 0,
        }
    }

    /// One note more. A count past 2^64 - 1 is refused.
    fn add(&mut self, note: &Note) -> Result<(), NoMemory>
        ensures ok { OnOk result (self.new ≡ with_note note.now self.old) }
        ensures err { OnErr result (self.new ≡ self.old) }
    {
        match note {
            Note::Passed { .. } => one_more(&mut self.passed),
            Note::PushedNote { .. } => one_more(&mut self.pushed),
            Note::Sent { .. } => one_more(&mut self.sent),
            Note::Queued { .. } => one_more(&mut self.queued),
            Note::Delivered { .. } => one_more(&mut self.delivered),
            Note::Dropped { .. } => one_more(&mut self.dropped),
            _ => Ok(()),
        }
    }

    /// Prints the counts, a line each; an `Err` leaves some of them.
    pub fn print(&self, out: &mut Vec<u8>) -> Result<(), NoMemory>
        ensures { OnOk result (out.new.items ≡ out.old.items ++ counts_text self.now) }
    {
        print_count(out, b"passed", self.passed)?;
        print_count(out, b"pushed", self.pushed)?;
        print_count(out, b"sent", self.sent)?;
        print_count(out, b"queued", self.queued)?;
        print_count(out, b"delivered", self.delivered)?;
        print_count(out, b"dropped", self.dropped)
    }
}

/// A step that is refused memory stops the play, and so does a connection that ends for want of it.
impl Listener for Tally {
    ghost use Rattle.mq_replay.specs.Listening.{IsNoted};
    ghost use Rattle.mq_top.specs.Tallies.{Counted};
    ghost use Rattle.mq_top.specs.Joined.{counted_none, counted_more};

    ghost hears = { Counted };

    ghost may_hear = { IsNoted };

    ghost faults = { λ t. 0 };

    fn note(&mut self, note: &Note) -> Result<(), Stop> {
        if is_starved(note) {
            return Err(Stop::NoMemory);
        }
        self.add(note)?;
        Ok(())
    }

    fn refused(&mut self) -> Result<(), NoMemory> {
        Err(NoMemory)
    }

    fn idle(&mut self, _: u32) -> Result<(), NoMemory> {
        Ok(())
    }

    fn more(&mut self) -> Result<(), NoMemory> {
        Ok(())
    }

    ghost hears_none = { λ x. counted_none x };

    ghost hears_more = { λ x y z text more first next. counted_more x y z text more first next };

    ghost hears_notes = { tt };
}
