//! A script is replayed, from standard input to standard output: `masque replay` alone, with no other word.
#![tactic(auto)]

use mq_replay::{StandardSink, StandardSource, replay};
use std::process::ExitCode;

fn main(rt: HostRuntime) -> ExitCode {
    let mut source = StandardSource::new(rt.stdin());
    let mut sink = StandardSink::new(rt.stdout());
    ExitCode::from(replay(rt.alloc(), &mut source, &mut sink).code())
}
