//! A script is read to its end, played and printed.
ghost use Rattle.std.specs.Prelude.{◌≡◌, ℕ, ◌<◌, List, [], ◌++◌, length, Option, Some, None, MatchOption};
ghost use Rattle.mq_outside.specs.Outside.{Gives};
ghost use Rattle.mq_output.specs.Printing.{Prints, Takes};
ghost use Rattle.mq_replay.specs.Reading.{IsRead, StopsAt, SaysTo, IsSaid, IsWritten, PlayCounts, StoppedCounts, PlaysTo, FinishesTo, GoesOn};
ghost use Rattle.mq_replay.specs.Replay.{Replayed, Replays, SourceCounts, SinkCounts};

use crate::session::Session;
use crate::status::Status;
use mq_output::{Output, Stop};
use mq_outside::{Got, Sink, Source};
use mq_script::print_bad_line;
use std::alloc::Global;

/// The most bytes that one read asks for.
const MOST_READ: usize = 65_536;

/// Prints that the line behind so many is bad, where that is why the play stopped.
fn say(why: Stop, number: u64, owed: &mut Vec<u8>) -> Status
    ensures says { (shown : List ℕ) × (owed.new.items ≡ owed.old.items ++ shown)
        × ((whole : List ℕ) (text : List ℕ) → StopsAt whole text why number → SaysTo whole (text ++ shown) result) }
    ensures said { IsSaid result }
{
    match why {
        Stop::BadLine if number < u64::MAX => match print_bad_line(owed, number + 1) {
            Ok(()) => Status::BadScript,
            Err(_) => Status::NoMemory,
        },
        _ => Status::NoMemory,
    }
}

/// The play stopped in the line behind so many. What is owed is written, where the sink didn't fail.
fn stop<K: Sink>(why: Stop, number: u64, output: &mut Output<'_, K>) -> Status
    ensures stops { (shown : List ℕ) × Prints K.taken output.old output.new shown
        × ((whole : List ℕ) (text : List ℕ) → StopsAt whole text why number → SaysTo whole (text ++ shown) result) }
    ensures written { IsWritten output.new.owed.now.items result }
    ensures counts { StoppedCounts why (K.faults output.old.sink.now) (K.faults output.new.sink.now) result }
{
    if why == Stop::WriteFault {
        return Status::WriteFault;
    }
    let status = say(why, number, output.owed);
    match output.flush() {
        Ok(()) => status,
        Err(_) => Status::WriteFault,
    }
}

/// More bytes are played, and what they print is written. Answers the status, where the replay ends.
fn play_bytes<K: Sink>(
    alloc: Global,
    session: &mut Session,
    bytes: &[u8],
    output: &mut Output<'_, K>,
) -> Option<Status>
    ensures plays { (out : List ℕ) × Takes K.taken output.old output.new out
        × ((script : List ℕ) (lines : List (List ℕ)) (text : List ℕ) → output.old.owed.now.items ≡ [] → IsRead session.old script lines text
        → PlaysTo (script ++ bytes.now) (text ++ out) output.new.owed.now.items result session.new) }
    ensures counts { MatchOption result (K.faults output.new.sink.now ≡ K.faults output.old.sink.now) (PlayCounts (K.faults output.old.sink.now) (K.faults output.new.sink.now)) }
{
    match session.feed(alloc, bytes, output) {
        Ok(()) => match output.flush() {
            Ok(()) => None,
            Err(_) => Some(Status::WriteFault),
        },
        Err(why) => Some(stop(why, session.number, output)),
    }
}

/// The script is at its end, and what is left of it is played and written.
fn play_end<K: Sink>(alloc: Global, session: &mut Session, output: &mut Output<'_, K>) -> Status
    ensures ends { (out : List ℕ) × Takes K.taken output.old output.new out
        × ((script : List ℕ) (lines : List (List ℕ)) (text : List ℕ) → output.old.owed.now.items ≡ [] → IsRead session.old script lines text
        → FinishesTo script (text ++ out) result) }
    ensures counts { PlayCounts (K.faults output.old.sink.now) (K.faults output.new.sink.now) result }
{
    if let Err(why) = session.finish(alloc, output) {
        return stop(why, session.number, output);
    }
    match output.flush() {
        Ok(()) => Status::Done,
        Err(_) => Status::WriteFault,
    }
}

/// One read of the source, where nothing is owed. Answers the status, where the replay ends.
fn read_more<S: Source, K: Sink>(
    alloc: Global,
    session: &mut Session,
    buffer: &mut [u8],
    source: &mut S,
    output: &mut Output<'_, K>,
) -> Option<Status>
    requires { 0 < length buffer.old }
    ensures reads { (gave : List ℕ) × (out : List ℕ) × Gives (S.left source.old) (S.left source.new) gave × Takes K.taken output.old output.new out
        × ((script : List ℕ) (lines : List (List ℕ)) (text : List ℕ) → output.old.owed.now.items ≡ [] → IsRead session.old script lines text
        → GoesOn (script ++ gave) (text ++ out) output.new.owed.now.items (S.left source.new) result session.new) }
    ensures reading { MatchOption result (S.faults source.new ≡ S.faults source.old) (SourceCounts (S.faults source.old) (S.faults source.new)) }
    ensures writing { MatchOption result (K.faults output.new.sink.now ≡ K.faults output.old.sink.now) (SinkCounts (K.faults output.old.sink.now) (K.faults output.new.sink.now)) }
{
    match source.read(buffer) {
        Got::Bytes(count) => {
            let (bytes, _) = buffer.split_at(count as usize);
            play_bytes(alloc, session, bytes, output)
        }
        Got::End => Some(play_end(alloc, session, output)),
        Got::Failed => Some(Status::ReadFault),
    }
}

/// Reads a script to its end, plays it and prints what happens, where nothing is owed.
fn read_all<S: Source, K: Sink>(alloc: Global, source: &mut S, output: &mut Output<'_, K>) -> Status
    requires { output.old.owed.now.items ≡ [] }
    ensures replays { (script : List ℕ) × (out : List ℕ) × Gives (S.left source.old) (S.left source.new) script × Takes K.taken output.old output.new out
        × ((rest : List ℕ) → S.left source.new ≡ Some rest → Replays script rest out result) }
    ensures reading { SourceCounts (S.faults source.old) (S.faults source.new) result }
    ensures writing { SinkCounts (K.faults output.old.sink.now) (K.faults output.new.sink.now) result }
{
    let Ok(mut room) = vec![in alloc; 0u8; MOST_READ] else {
        return Status::NoMemory;
    };
    let buffer = room.as_mut_slice();
    let mut session = Session::new(alloc);
    for _turn in 0..u64::MAX {
        if let Some(status) = read_more(alloc, &mut session, buffer, source, output) {
            return status;
        }
    }
    Status::NoMemory
}

/// Reads a script to its end, plays it, and prints what happens: one line for each note, and where a line of the script
/// is bad, `bad line` and its number.
///
/// The source is read again only when the play of all whole lines that were read is written. A whole line is at most
/// 200,000 bytes before its newline, and a script at most 2^26 bytes.
pub fn replay<S: Source, K: Sink>(alloc: Global, source: &mut S, sink: &mut K) -> Status
    // What the sink took, by the status, is what the script that the source gave prints.
    ensures replayed { Replayed (S.left source.old) (S.left source.new) (K.taken sink.old) (K.taken sink.new) result }
    // The source's faults rose exactly at status ReadFault, and the sink's exactly at status WriteFault.
    ensures reading { SourceCounts (S.faults source.old) (S.faults source.new) result }
    ensures writing { SinkCounts (K.faults sink.old) (K.faults sink.new) result }
{
    let mut owed = Vec::new(alloc);
    let mut output = Output {
        owed: &mut owed,
        sink,
    };
    read_all(alloc, source, &mut output)
}
