//! What the words of the command line ask for is done.
ghost use Rattle.std.specs.Prelude.{◌≡◌, ◌↔◌, ℕ};
ghost use Rattle.mq_outside.specs.Outsides.{IsSame};
ghost use Rattle.mq_top.specs.Asking.{Asks};
ghost use Rattle.mq_top.specs.Generates.{Generates};
ghost use Rattle.mq_replay.specs.Replay.{Replayed, SourceCounts, SinkCounts, code_of};
ghost use Rattle.mq_top.specs.Soaking.{Soaks};
ghost use Rattle.mq_replay.specs.declared.status.Status.{Status};
ghost use Rattle.mq_udp.specs.Ends.{code_of as code_at};
ghost use Rattle.mq_udp.specs.Udp.{OutcomeCounts, SourceCounts as SourceCountsAt, seen_of};
ghost use Rattle.mq_udp.specs.declared.outcome.Outcome.{Outcome};
ghost use Rattle.mq_words.specs.Words.{AsksFor};
ghost use Rattle.mq_words.specs.declared.command.Command.{Command};
ghost use Rattle.mq_words.specs.declared.command.Command.TheVariants as ask;
ghost use Rattle.mq_words.specs.declared.command.UdpWords.{UdpWords};

use crate::asking::ask;
use crate::generate::print_script;
use crate::soaking::soak;
use mq_outside::{Link, Outside, Sink, Source};
use mq_replay::{Status, replay};
use mq_words::{Command, asks_once, read_words};
use std::alloc::Global;
use std::sync::Wait;

/// The exit status where the words ask for nothing that there is.
pub(crate) const USAGE: u8 = 2;

/// Does what the words say, and answers the exit status.
///
/// The one word `replay` reads a script, plays it and prints what happens. The word `gen`, a seed and a count of packets print
/// a generated script; the word `soak` and these play it and print counts. The word `udp`, a proxy's address and port, a
/// target's host and port, `h1` or `h2` and a count ask the proxy for a tunnel, send the payloads through it that are read as
/// lines in hex, and print as many of those that come back. This word alone dials, and may wait.
pub fn run<R: Wait, S: Source, K: Sink, O: Outside>(
    rt: &R,
    alloc: Global,
    words: &[String],
    source: &mut S,
    sink: &mut K,
    outside: &mut O,
) -> u8
where
    <O::L as Link>::Rest: Send,
    // Status 2 comes exactly where the words ask for nothing that there is, and then nothing is written.
    ensures usage { (result ≡ 2) ↔ ((command : Command) → AsksFor words.now command → ⊥) }
    ensures idle_sink { result ≡ 2 → (K.taken sink.new ≡ K.taken sink.old) × (K.faults sink.new ≡ K.faults sink.old) }

    // Only a replay and a client read, and only a client asks anything of the outside.
    ensures idle_source { (AsksFor words.now ask.Replay → ⊥) → ((asked : UdpWords) → AsksFor words.now (ask.Udp asked) → ⊥)
        → (S.left source.new ≡ S.left source.old) × (S.faults source.new ≡ S.faults source.old) }
    ensures idle_outside { ((asked : UdpWords) → AsksFor words.now (ask.Udp asked) → ⊥)
        → IsSame (O.holds outside.old) (O.holds outside.new) (O.past outside.old) (O.past outside.new) (O.faults outside.old) (O.faults outside.new) }

    // At the word `replay`, what the sink took, by the status, is what the script that the source gave prints. The
    // source's faults rose exactly at status 3, and the sink's exactly at status 4.
    ensures replayed { AsksFor words.now ask.Replay → (status : Status) × (result ≡ code_of status)
        × Replayed (S.left source.old) (S.left source.new) (K.taken sink.old) (K.taken sink.new) status
        × SourceCounts (S.faults source.old) (S.faults source.new) status
        × SinkCounts (K.faults sink.old) (K.faults sink.new) status }

    // At the word `gen`, what the sink took, by the status, is the generated script of the seed and the count, or a front of
    // it. The sink's faults rose exactly at status 4.
    ensures generated { (seed count : ℕ) → AsksFor words.now (ask.Gen seed count)
        → (status : Status) × (result ≡ code_of status)
        × Generates seed count (K.taken sink.old) (K.taken sink.new) status
        × SinkCounts (K.faults sink.old) (K.faults sink.new) status }

    // At the word `soak`, what the sink took, by the status, is the summary of a play of that script. The sink's faults rose
    // exactly at status 4.
    ensures soaked { (seed count : ℕ) → AsksFor words.now (ask.Soak seed count)
        → (status : Status) × (result ≡ code_of status)
        × Soaks seed count (K.taken sink.old) (K.taken sink.new) status
        × SinkCounts (K.faults sink.old) (K.faults sink.new) status }

    // At the word `udp`, what the source gave, the sink took and the proxy was told is, by the status, that of one client. The
    // source's faults rose exactly at status 3, and the sink's exactly at status 4.
    ensures asked { (asked : UdpWords) → AsksFor words.now (ask.Udp asked)
        → (outcome : Outcome) × (result ≡ code_at outcome)
        × Asks asked (S.left source.old) (S.left source.new) (K.taken sink.old) (K.taken sink.new)
        (seen_of (O.past outside.old) (O.faults outside.old)) (seen_of (O.past outside.new) (O.faults outside.new)) outcome
        × SourceCountsAt (S.faults source.old) (S.faults source.new) outcome
        × OutcomeCounts (K.faults sink.old) (K.faults sink.new) outcome }
{
    asks_once();
    match read_words(alloc, words) {
        Ok(Some(Command::Replay)) => replay(alloc, source, sink).code(),
        Ok(Some(Command::Gen { seed, count })) => print_script(alloc, seed, count, sink).code(),
        Ok(Some(Command::Soak { seed, count })) => soak(alloc, seed, count, sink).code(),
        Ok(Some(Command::Udp(words))) => ask(rt, alloc, words, source, sink, outside).code(),
        Ok(None) => USAGE,
        Err(_) => Status::NoMemory.code(),
    }
}
