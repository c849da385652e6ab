//! A client and its link: what it owes is written, what comes is fed to it, and the payloads that it tells are printed.
ghost use Rattle.std.specs.Prelude.{◌≡◌, ◌<◌, ◌↔◌, ◌⊎◌, ℕ, List, [], length, true, Contains, IfOk, IsTrue};
ghost use Rattle.mq_client.specs.Client.{StandsFor};
ghost use Rattle.mq_client.specs.declared.event.ClientEvent.TheVariants as told;
ghost use Rattle.mq_client.specs.State.{State, begun};
ghost use Rattle.mq_output.specs.Printing.{Prints, StopCounts, Takes};
ghost use Rattle.mq_outside.specs.Outsides.{IsFresh};
ghost use Rattle.mq_udp.specs.Exchanges.{EndCounts, Hears, HearsAll, HearsOne, IsAt, IsFed, IsFlushed, IsQuiet, PrintsOne, RoundsOn, StoppedBy, ended_by};
ghost use Rattle.mq_udp.specs.Moves.{Move};
ghost use Rattle.mq_udp.specs.Talks.{Asking, IsDone};

use crate::outcome::Outcome;
use mq_client::{Client, ClientEvent};
use mq_output::{Output, Stop};
use mq_outside::{Link, LinkGot, LinkPut, Sink};
use mq_script::print_bytes;
use mq_wire::Bytes;
use std::alloc::Global;

/// A client on its link.
#[derive(Drop)]
pub struct Exchange<L> {
    pub client: Client,
    pub link: L,
    /// What it is to send, and how many of these were sent.
    pub payloads: Vec<Bytes>,
    pub sent: usize,
    /// How many payloads are still to come.
    pub left: u32,
    /// The tunnel was opened, so that it may send.
    pub is_open: bool,
}

/// What one round of an exchange came to.
#[derive(Clone, Copy, Debug, PartialEq, Eq)]
pub enum Round {
    /// Bytes came, or were written.
    Moved,
    /// Nothing goes on now.
    Waits,
}

/// What the events of one read say beside the payloads that were printed.
#[derive(Clone, Copy, Debug)]
pub struct Heard {
    /// The tunnel was opened.
    pub opens: bool,
    /// Why the exchange ends, where it does.
    pub end: Option<Outcome>,
}

/// How an exchange ends where a print stopped.
fn stopped(why: Stop) -> Outcome
    ensures { StoppedBy why result }
{
    match why {
        Stop::WriteFault => Outcome::WriteFault,
        _ => Outcome::NoMemory,
    }
}

/// One payload more is printed, while some are left.
fn print_payload<K: Sink>(
    payload: &Bytes,
    left: &mut u32,
    output: &mut Output<'_, K>,
) -> Result<(), Stop>
    ensures prints { (shown : List ℕ) × Prints K.taken output.old output.new shown × PrintsOne payload.now left.old shown result left.new }
    ensures counts { StopCounts (K.faults output.old.sink.now) (K.faults output.new.sink.now) result }
{
    if *left == 0 {
        return Ok(());
    }
    print_bytes(output.owed, payload.as_slice())?;
    *left -= 1;
    output.spill()
}

/// Prints the payload of an event, while some are left, or keeps what else it says.
fn hear_one<K: Sink>(
    event: ClientEvent,
    heard: &mut Heard,
    left: &mut u32,
    output: &mut Output<'_, K>,
) -> Result<(), Stop>
    ensures prints { (shown : List ℕ) × Prints K.taken output.old output.new shown × HearsOne event left.old shown heard.old.end result left.new heard.new.end }
    ensures opens { heard.new.opens ≡ true → (heard.old.opens ≡ true) ⊎ (event ≡ told.Opened) }
    ensures counts { StopCounts (K.faults output.old.sink.now) (K.faults output.new.sink.now) result }
{
    match event {
        ClientEvent::Opened => heard.opens = true,
        ClientEvent::Datagram { payload } => return print_payload(&payload, left, output),
        ClientEvent::Refused { .. } => heard.end = Some(Outcome::Refused),
        ClientEvent::Closed => heard.end = Some(Outcome::Early),
        ClientEvent::BadPeer { .. } => heard.end = Some(Outcome::BadPeer),
    }
    Ok(())
}

/// Prints the payloads of events, while some are left, and tells what the others say.
fn hear_all<K: Sink>(
    events: Vec<ClientEvent>,
    left: &mut u32,
    output: &mut Output<'_, K>,
) -> Result<Heard, Stop>
    ensures prints { (shown : List ℕ) × Prints K.taken output.old output.new shown × HearsAll events.items left.old shown result left.new }
    ensures opens { IfOk result (λ heard. heard.opens ≡ true → Contains events.items told.Opened) }
    ensures counts { StopCounts (K.faults output.old.sink.now) (K.faults output.new.sink.now) result }
{
    let mut heard = Heard {
        opens: false,
        end: None,
    };
    for event in events {
        hear_one(event, &mut heard, left, output)?;
    }
    Ok(heard)
}

/// Prints the payloads of events, and writes them.
fn hear<K: Sink>(
    events: Vec<ClientEvent>,
    left: &mut u32,
    output: &mut Output<'_, K>,
) -> Result<Heard, Outcome>
    requires { output.old.owed.now.items ≡ [] }
    ensures takes { (shown : List ℕ) × Takes K.taken output.old output.new shown × Hears events.items left.old shown result left.new }
    ensures opens { IfOk result (λ heard. heard.opens ≡ true → Contains events.items told.Opened) }
    ensures flushed { IsFlushed output.new.owed.now.items result }
    ensures counts { EndCounts (K.faults output.old.sink.now) (K.faults output.new.sink.now) result }
{
    let heard = match hear_all(events, left, output) {
        Ok(heard) => heard,
        Err(why) => return Err(stopped(why)),
    };
    match output.flush() {
        Ok(()) => Ok(heard),
        Err(_) => Err(Outcome::WriteFault),
    }
}

/// How an exchange ends where an event says that it does.
fn ended(end: Outcome, is_done: bool) -> Outcome
    ensures { result ≡ ended_by end is_done }
{
    match end {
        Outcome::Early if is_done => Outcome::Done,
        _ => end,
    }
}

impl<L: Link> Exchange<L> {
    /// Nothing was done on this link, which was just dialled.
    pub fn new(client: Client, link: L, payloads: Vec<Bytes>, count: u32) -> Exchange<L>
        ensures { (ask : Asking) → StandsFor client (begun ask.h2 ask.path ask.host) → payloads.items ≡ ask.payloads → count ≡ ask.count
            → IsFresh (L.past link) (L.counts link) → IsAt L.past L.counts ask result [] (begun ask.h2 ask.path ask.host) }
    {
        Exchange {
            client,
            link,
            payloads,
            sent: 0,
            left: count,
            is_open: false,
        }
    }

    /// One write of what is owed, if there is something.
    fn write(&mut self) -> Result<Round, Outcome>
        ensures goes { (ask : Asking) (moves : List Move) (s : State) → IsAt L.past L.counts ask self.old moves s → RoundsOn L.past L.counts ask moves [] result self.new }
        ensures quiet { IsQuiet result }
    {
        let owed = self.client.owed();
        if owed.is_empty() {
            return Ok(Round::Waits);
        }
        match self.link.write(owed) {
            LinkPut::Took(count) => {
                self.client.wrote(count);
                Ok(Round::Moved)
            }
            LinkPut::NotNow => Ok(Round::Waits),
            LinkPut::Failed => Err(Outcome::OutsideFault),
        }
    }

    /// The next payload is sent, where the tunnel is open and all that was sent before is written.
    fn send_next(&mut self) -> Result<Round, Outcome>
        ensures goes { (ask : Asking) (moves : List Move) (s : State) → IsAt L.past L.counts ask self.old moves s → RoundsOn L.past L.counts ask moves [] result self.new }
        ensures quiet { IsQuiet result }
    {
        if !self.is_open || !self.client.owed().is_empty() || self.client.waiting() {
            return Ok(Round::Waits);
        }
        let Some(payload) = self.payloads.get(self.sent) else {
            return Ok(Round::Waits);
        };
        match self.client.send(payload.as_slice()) {
            Ok(()) => {
                self.sent += 1;
                Ok(Round::Moved)
            }
            Err(_) => Err(Outcome::NoMemory),
        }
    }

    /// Whether all was sent and written, and as many payloads came as were waited for.
    fn is_done(&self) -> bool
        ensures { (ask : Asking) (moves : List Move) (s : State) → IsAt L.past L.counts ask self.now moves s → IsTrue result ↔ IsDone ask moves s }
    {
        self.left == 0
            && self.sent == self.payloads.len()
            && self.client.owed().is_empty()
            && !self.client.waiting()
    }

    /// A piece of what the proxy sent is taken, and the payloads in it are written to the sink.
    fn take<K: Sink>(
        &mut self,
        alloc: Global,
        piece: &[u8],
        output: &mut Output<'_, K>,
    ) -> Result<(), Outcome>
        requires { output.old.owed.now.items ≡ [] }
        ensures takes { (shown : List ℕ) × Takes K.taken output.old output.new shown
            × ((ask : Asking) (moves : List Move) (s : State) → IsFed L.past L.counts ask self.old moves s piece.now → RoundsOn L.past L.counts ask moves shown result self.new) }
        ensures flushed { IsFlushed output.new.owed.now.items result }
        ensures counts { EndCounts (K.faults output.old.sink.now) (K.faults output.new.sink.now) result }
    {
        let Ok(events) = self.client.feed(alloc, piece) else {
            return Err(Outcome::NoMemory);
        };
        let heard = hear(events.into_vec(), &mut self.left, output)?;
        self.is_open |= heard.opens;
        let is_done = self.is_done();
        match heard.end {
            None => Ok(()),
            Some(end) => Err(ended(end, is_done)),
        }
    }

    /// One read.
    fn read<K: Sink>(
        &mut self,
        alloc: Global,
        buffer: &mut [u8],
        output: &mut Output<'_, K>,
    ) -> Result<Round, Outcome>
        requires room { 0 < length buffer.old }
        requires written { output.old.owed.now.items ≡ [] }
        ensures takes { (shown : List ℕ) × Takes K.taken output.old output.new shown
            × ((ask : Asking) (moves : List Move) (s : State) → IsAt L.past L.counts ask self.old moves s → (IsDone ask moves s → ⊥) → RoundsOn L.past L.counts ask moves shown result self.new) }
        ensures flushed { IsFlushed output.new.owed.now.items result }
        ensures counts { EndCounts (K.faults output.old.sink.now) (K.faults output.new.sink.now) result }
    {
        match self.link.read(buffer) {
            LinkGot::Bytes(count) => {
                let (piece, _) = buffer.split_at(count as usize);
                self.take(alloc, piece, output)?;
                Ok(Round::Moved)
            }
            LinkGot::NotNow => Ok(Round::Waits),
            LinkGot::End => Err(Outcome::Early),
            LinkGot::Failed => Err(Outcome::OutsideFault),
        }
    }

    /// One round: what is owed is written, or the next payload is sent, or the exchange is done, or something is read.
    pub fn round<K: Sink>(
        &mut self,
        alloc: Global,
        buffer: &mut [u8],
        output: &mut Output<'_, K>,
    ) -> Result<Round, Outcome>
        requires room { 0 < length buffer.old }
        requires written { output.old.owed.now.items ≡ [] }
        ensures takes { (shown : List ℕ) × Takes K.taken output.old output.new shown
            × ((ask : Asking) (moves : List Move) (s : State) → IsAt L.past L.counts ask self.old moves s → RoundsOn L.past L.counts ask moves shown result self.new) }
        ensures flushed { IsFlushed output.new.owed.now.items result }
        ensures counts { EndCounts (K.faults output.old.sink.now) (K.faults output.new.sink.now) result }
    {
        if self.write()? == Round::Moved {
            return Ok(Round::Moved);
        }
        if self.send_next()? == Round::Moved {
            return Ok(Round::Moved);
        }
        if self.is_done() {
            return Err(Outcome::Done);
        }
        self.read(alloc, buffer, output)
    }

    /// Its link.
    pub fn into_link(self) -> L
        ensures { result ≡ self.link }
    {
        self.link
    }
}
