//! An input is read to its end, or to its first bad line.
ghost use Rattle.std.specs.Prelude.{◌≡◌, ◌<◌, ◌+◌, ℕ, List, [], ◌++◌, length};
ghost use Rattle.mq_outside.specs.Outside.{Gives};
ghost use Rattle.mq_udp.specs.Input.{IsRead};
ghost use Rattle.mq_udp.specs.Inputs.{InputCounts, ReadsAll, ReadsMore, UnreadBy};

use crate::input::Input;
use mq_output::Stop;
use mq_outside::{Got, Source};
use mq_wire::Bytes;
use std::alloc::Global;

/// How many bytes one read of the input, or of the link, asks for.
pub const MOST_READ: usize = 65_536;

/// Why an input has no payloads.
#[derive(Clone, Copy, Debug, PartialEq, Eq)]
pub enum Unread {
    /// The source failed.
    Failed,
    /// The line of this number, counted from 1, is bad.
    BadLine(u64),
    NoMemory,
}

/// Why an input isn't read on.
fn refusal_of(why: Stop, input: &Input) -> Unread
    ensures { UnreadBy why (length input.now.payloads.items + 1) result }
{
    match why {
        Stop::BadLine => Unread::BadLine(input.payloads.len() as u64 + 1),
        _ => Unread::NoMemory,
    }
}

/// One read. Answers whether the input was at its end.
fn read_more<S: Source>(
    alloc: Global,
    input: &mut Input,
    buffer: &mut [u8],
    source: &mut S,
) -> Result<bool, Unread>
    requires { 0 < length buffer.old }
    ensures reads { (gave : List ℕ) × Gives (S.left source.old) (S.left source.new) gave
        × ((text : List ℕ) → IsRead input.old text → ReadsMore (text ++ gave) (S.left source.new) result input.new) }
    ensures counts { InputCounts (S.faults source.old) (S.faults source.new) result }
{
    match source.read(buffer) {
        Got::Bytes(count) => {
            let (bytes, _) = buffer.split_at(count as usize);
            match input.feed(alloc, bytes) {
                Ok(()) => Ok(false),
                Err(why) => Err(refusal_of(why, input)),
            }
        }
        Got::End => match input.finish(alloc) {
            Ok(()) => Ok(true),
            Err(why) => Err(refusal_of(why, input)),
        },
        Got::Failed => Err(Unread::Failed),
    }
}

/// Reads the payloads that all lines of an input spell, or up to the first bad line, and no further.
pub fn read_input<S: Source>(alloc: Global, source: &mut S) -> Result<Vec<Bytes>, Unread>
    ensures reads { (text : List ℕ) × Gives (S.left source.old) (S.left source.new) text × ReadsAll text (S.left source.new) result }
    ensures counts { InputCounts (S.faults source.old) (S.faults source.new) result }
{
    let Ok(mut room) = vec![in alloc; 0u8; MOST_READ] else {
        return Err(Unread::NoMemory);
    };
    let buffer = room.as_mut_slice();
    let mut input = Input::new(alloc);
    for _turn in 0..u64::MAX {
        if read_more(alloc, &mut input, buffer, source)? {
            return Ok(input.payloads);
        }
    }
    Err(Unread::NoMemory)
}
