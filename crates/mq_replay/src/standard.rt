//! Sources and sinks over readers and writers of std.
ghost use Rattle.std.specs.Prelude.{◌≡◌, None, true, false, IsSome};
ghost use Rattle.mq_replay.specs.Standard.{told};

use mq_outside::{Got, Put, Sink, Source, risen};
use std::io::{Read, Write};

/// The most bytes that one call hands on.
const MOST: usize = 65_536;

/// A source over a reader.
#[derive(Drop)]
pub struct StandardSource<R: Read> {
    reader: R,
    faults: u64,
    tells: bool,
    ghost known: { tells ≡ true → IsSome (R.remaining reader) },
}

impl<R: Read> StandardSource<R> {
    /// A source that reads from this reader, and has not failed. It doesn't tell what is left.
    pub fn new(reader: R) -> Self
        ensures { (result.reader ≡ reader) × (result.faults ≡ 0) × (result.tells ≡ false) }
    {
        StandardSource {
            reader,
            faults: 0,
            tells: false,
        }
    }

    /// The same over a reader that tells what is left, which the source then tells too.
    pub fn telling(reader: R) -> Self
        requires { IsSome (R.remaining reader) }
        ensures { (result.reader ≡ reader) × (result.faults ≡ 0) × (result.tells ≡ true) }
    {
        StandardSource {
            reader,
            faults: 0,
            tells: true,
        }
    }
}

impl<R: Read> Source for StandardSource<R> {
    ghost left = { λ s. told s.tells (R.remaining s.reader) };

    ghost faults = { λ s. s.faults };

    fn read(&mut self, into: &mut [u8]) -> Got {
        let room = into.len().min(MOST);
        match self.reader.read(&mut into[..room]) {
            Ok(0) => Got::End,
            Ok(count) => Got::Bytes(count as u32),
            Err(_) => {
                self.faults = risen(self.faults);
                Got::Failed
            }
        }
    }
}

/// A sink over a writer. A writer that takes nothing has failed.
#[derive(Drop)]
pub struct StandardSink<W: Write> {
    writer: W,
    faults: u64,
    tells: bool,
    ghost known: { tells ≡ true → IsSome (W.contents writer) },
}

impl<W: Write> StandardSink<W> {
    /// A sink that writes to this writer, and has not failed. It doesn't tell what was taken.
    pub fn new(writer: W) -> Self
        ensures { (result.writer ≡ writer) × (result.faults ≡ 0) × (result.tells ≡ false) }
    {
        StandardSink {
            writer,
            faults: 0,
            tells: false,
        }
    }

    /// The same over a writer that tells what it holds, which the sink then tells too.
    pub fn telling(writer: W) -> Self
        requires { IsSome (W.contents writer) }
        ensures { (result.writer ≡ writer) × (result.faults ≡ 0) × (result.tells ≡ true) }
    {
        StandardSink {
            writer,
            faults: 0,
            tells: true,
        }
    }
}

impl<W: Write> Sink for StandardSink<W> {
    ghost taken = { λ s. told s.tells (W.contents s.writer) };

    ghost faults = { λ s. s.faults };

    fn write(&mut self, bytes: &[u8]) -> Put {
        let room = bytes.len().min(MOST);
        match self.writer.write(&bytes[..room]) {
            Ok(0) => {
                self.faults = risen(self.faults);
                Put::Failed
            }
            Ok(count) => Put::Took(count as u32),
            Err(_) => {
                self.faults = risen(self.faults);
                Put::Failed
            }
        }
    }
}
