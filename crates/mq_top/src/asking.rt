//! A client of a proxy, as words ask for it.
ghost use Rattle.mq_top.specs.Asking.{Asks};
ghost use Rattle.mq_udp.specs.Udp.{OutcomeCounts, SourceCounts, seen_of};

use mq_outside::{Link, Outside, Sink, Source};
use mq_target::Target;
use mq_udp::{Asked, Outcome, udp};
use mq_words::UdpWords;
use std::alloc::Global;
use std::sync::Wait;

/// Asks the proxy for the tunnel, sends through it the payloads that the source spells, and prints those that come back. May
/// wait for the proxy.
pub fn ask<R: Wait, S: Source, K: Sink, O: Outside>(
    rt: &R,
    alloc: Global,
    words: UdpWords,
    source: &mut S,
    sink: &mut K,
    outside: &mut O,
) -> Outcome
where
    <O::L as Link>::Rest: Send,
    ensures asks { Asks words (S.left source.old) (S.left source.new) (K.taken sink.old) (K.taken sink.new)
        (seen_of (O.past outside.old) (O.faults outside.old)) (seen_of (O.past outside.new) (O.faults outside.new)) result }
    ensures reading { SourceCounts (S.faults source.old) (S.faults source.new) result }
    ensures writing { OutcomeCounts (K.faults sink.old) (K.faults sink.new) result }
{
    let UdpWords {
        addr,
        port,
        host,
        target_port,
        h2,
        count,
    } = words;
    let target = Target::Udp {
        host,
        port: target_port,
    };
    match Asked::to(alloc, addr, port, h2, &target, u32::from(count)) {
        Ok(asked) => udp(rt, alloc, asked, source, sink, outside),
        Err(_) => Outcome::NoMemory,
    }
}
