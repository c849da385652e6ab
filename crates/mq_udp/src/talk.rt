//! A client dials a proxy, sends what an input spells, and prints what comes back.
ghost use Rattle.std.specs.Prelude.{◌≡◌, ℕ, ◌<◌, ◌≤◌, ◌+◌, List, [], ◌++◌, length};
ghost use Rattle.mq_client.specs.Requests.{AreVisible, target_limit};
ghost use Rattle.mq_client.specs.State.{State};
ghost use Rattle.mq_output.specs.Printing.{Adds, Takes};
ghost use Rattle.mq_outside.specs.Outside.{Gives};
ghost use Rattle.mq_outside.specs.Outsides.{IsSame};
ghost use Rattle.mq_udp.specs.Exchanges.{EndCounts, IsAt, IsFlushed, RoundsOn};
ghost use Rattle.mq_udp.specs.Moves.{Move};
ghost use Rattle.mq_udp.specs.Talks.{Asking, Ends, shown_of};
ghost use Rattle.mq_udp.specs.Udp.{OutcomeCounts, Refuses, SourceCounts, UdpTo, asking, seen_of};

use crate::asked::Asked;
use crate::exchange::{Exchange, Round};
use crate::outcome::Outcome;
use crate::reading::{MOST_READ, Unread, read_input};
use mq_client::Client;
use mq_output::Output;
use mq_outside::{Link, Outside, Sink, Source};
use mq_script::print_bad_line;
use std::alloc::Global;
use std::sync::Wait;

/// Says why an input has no payloads.
fn refuse<K: Sink>(why: Unread, output: &mut Output<'_, K>) -> Outcome
    requires { output.old.owed.now.items ≡ [] }
    ensures refuses { (out : List ℕ) × Takes K.taken output.old output.new out × Refuses why out result }
    ensures counts { OutcomeCounts (K.faults output.old.sink.now) (K.faults output.new.sink.now) result }
{
    let number = match why {
        Unread::Failed => return Outcome::ReadFault,
        Unread::NoMemory => return Outcome::NoMemory,
        Unread::BadLine(number) => number,
    };
    if print_bad_line(output.owed, number).is_err() {
        return Outcome::NoMemory;
    }
    match output.flush() {
        Ok(()) => Outcome::BadInput,
        Err(_) => Outcome::WriteFault,
    }
}

/// One round more, and a rest where nothing goes on now.
fn step<K: Sink, O: Outside>(
    alloc: Global,
    exchange: &mut Exchange<O::L>,
    buffer: &mut [u8],
    outside: &mut O,
    output: &mut Output<'_, K>,
) -> Result<(), Outcome>
where
    <O::L as Link>::Rest: Send,
    requires room { 0 < length buffer.old }
    requires written { output.old.owed.now.items ≡ [] }
    ensures takes { (shown : List ℕ) × Takes K.taken output.old output.new shown
        × ((ask : Asking) (moves : List Move) (s : State) → IsAt O.L.past O.L.counts ask exchange.old moves s → RoundsOn O.L.past O.L.counts ask moves shown result exchange.new) }
    ensures flushed { IsFlushed output.new.owed.now.items result }
    ensures same { IsSame (O.holds outside.old) (O.holds outside.new) (O.past outside.old) (O.past outside.new) (O.faults outside.old) (O.faults outside.new) }
    ensures counts { EndCounts (K.faults output.old.sink.now) (K.faults output.new.sink.now) result }
{
    match exchange.round(alloc, buffer, output)? {
        Round::Moved => Ok(()),
        Round::Waits => {
            outside.rest();
            Ok(())
        }
    }
}

/// The exchange goes on until it ends.
fn talk<R: Wait, K: Sink, O: Outside>(
    rt: &R,
    alloc: Global,
    exchange: &mut Exchange<O::L>,
    outside: &mut O,
    output: &mut Output<'_, K>,
) -> Outcome
where
    <O::L as Link>::Rest: Send,
    requires { output.old.owed.now.items ≡ [] }
    ensures talks { (shown : List ℕ) × Takes K.taken output.old output.new shown
        × ((ask : Asking) (moves : List Move) (s : State) → IsAt O.L.past O.L.counts ask exchange.old moves s
        → Ends ask (O.L.past exchange.new.link) (O.L.counts exchange.new.link).faults (shown_of ask moves ++ shown) result) }
    ensures same { IsSame (O.holds outside.old) (O.holds outside.new) (O.past outside.old) (O.past outside.new) (O.faults outside.old) (O.faults outside.new) }
    ensures counts { OutcomeCounts (K.faults output.old.sink.now) (K.faults output.new.sink.now) result }
{
    let Ok(mut room) = vec![in alloc; 0u8; MOST_READ] else {
        return Outcome::NoMemory;
    };
    let buffer = room.as_mut_slice();
    for _turn in rt.forever() {
        match step(alloc, exchange, buffer, outside, output) {
            Ok(()) => {}
            Err(outcome) => return outcome,
        }
    }
    unreachable!()
}

/// Reads payloads to send, dials the proxy, asks it for a tunnel, sends the payloads through it, and prints so many of those
/// that come back, a line in hex each, or a dash where it is empty. May wait for the proxy.
///
/// The input is read to its end, or its first bad line, before the proxy is dialled. The link is handed back, whatever the
/// outcome.
pub fn udp<R: Wait, S: Source, K: Sink, O: Outside>(
    rt: &R,
    alloc: Global,
    asked: Asked,
    source: &mut S,
    sink: &mut K,
    outside: &mut O,
) -> Outcome
where
    <O::L as Link>::Rest: Send,
    requires size { length asked.path + length asked.host ≤ target_limit }
    requires path_visible { AreVisible asked.path }
    requires host_visible { AreVisible asked.host }
    // What was read, printed and said to the proxy, by the outcome.
    ensures talks { (text : List ℕ) × (out : List ℕ) × Gives (S.left source.old) (S.left source.new) text × Adds (K.taken sink.old) (K.taken sink.new) out
        × UdpTo (asking asked) text (S.left source.new) out (seen_of (O.past outside.old) (O.faults outside.old)) (seen_of (O.past outside.new) (O.faults outside.new)) result }
    // The source's faults rose exactly at ReadFault, and the sink's exactly at WriteFault.
    ensures reading { SourceCounts (S.faults source.old) (S.faults source.new) result }
    ensures writing { OutcomeCounts (K.faults sink.old) (K.faults sink.new) result }
{
    let mut owed = Vec::new(alloc);
    let mut output = Output {
        owed: &mut owed,
        sink,
    };
    let payloads = match read_input(alloc, source) {
        Ok(payloads) => payloads,
        Err(why) => return refuse(why, &mut output),
    };
    let Ok(client) = Client::new(alloc, asked.h2, asked.path, asked.host) else {
        return Outcome::NoMemory;
    };
    let Ok(link) = outside.dial(&asked.addr, asked.port) else {
        return Outcome::OutsideFault;
    };
    let mut exchange = Exchange::new(client, link, payloads, asked.count);
    let outcome = talk(rt, alloc, &mut exchange, outside, &mut output);
    outside.back(true, 0, exchange.into_link().close());
    outcome
}
