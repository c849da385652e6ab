//! The program: its words, standard input and standard output.
use crate::command::{USAGE, run};
use mq_mem::MemOutside;
use mq_replay::{StandardSink, StandardSource, Status};
use std::process::ExitCode;
use std::sync::Wait;
use std::{env, io};

/// The words behind the program's name.
fn words(rt: &HostRuntime) -> io::Result<Vec<String>> {
    let mut words = Vec::new(rt.alloc());
    for word in env::args(rt)?.skip(1) {
        words.push(word)?;
    }
    Ok(words)
}

/// The exit status where the words can't be read: a word that isn't UTF-8 makes a faulty command line.
fn unread(fault: &io::Error) -> u8 {
    match fault.kind() {
        io::ErrorKind::OutOfMemory => Status::NoMemory.code(),
        _ => USAGE,
    }
}

/// Does what the words of the command line say, from standard input to standard output, and answers the exit status. A client
/// waits by `waits`; no proxy can be dialled yet.
pub fn program(rt: &HostRuntime, waits: &impl Wait) -> ExitCode {
    let words = match words(rt) {
        Ok(words) => words,
        Err(fault) => return ExitCode::from(unread(&fault)),
    };
    // No proxy can be dialled yet.
    let mut outside = MemOutside::nowhere(rt.alloc());
    let mut source = StandardSource::new(rt.stdin());
    let mut sink = StandardSink::new(rt.stdout());
    ExitCode::from(run(
        waits,
        rt.alloc(),
        words.as_slice(),
        &mut source,
        &mut sink,
        &mut outside,
    ))
}
