//! Decoding, four bits a step.
ghost use Rattle.std.specs.Prelude.{◌≡◌, ℕ, ◌<◌, ◌++◌, List};
ghost use Rattle.mq_huff.specs.Answer.{Tells, GivesText, GivesFault};
ghost use Rattle.mq_huff.specs.Code.{bits_of};
ghost use Rattle.mq_huff.specs.Coded.{AreBytes, IsCoded, MeetsEos, IsBadlyPadded};
ghost use Rattle.mq_huff.specs.State.{read_at, Steps};

use crate::fault::HuffFault;
use crate::steps::{Ended, Step, step_at};
use std::alloc::Global;

/// The states below this one are those whose bits are padding: at most seven ones.
const PADDED: u8 = 8;

/// The text whose code these bytes are.
///
/// It refuses with `Eos` where the code of EOS is met whole, and with `Padding` where, without that,
/// the bits after the last symbol are eight or more or have a zero among them.
pub fn decode(alloc: Global, text: &[u8]) -> Result<Vec<u8>, HuffFault>
    ensures tells { Tells text.now result }

    ensures text { (plain : List ℕ) → IsCoded plain text.now → GivesText plain result }
    ensures eos { MeetsEos text.now → GivesFault HuffFault.Eos result }
    ensures padding { IsBadlyPadded text.now → GivesFault HuffFault.Padding result }
{
    walk(alloc, text)
}

/// Goes through the bytes.
fn walk(alloc: Global, text: &[u8]) -> Result<Vec<u8>, HuffFault>
    ensures { Tells text.now result }
{
    // No code is shorter than five bits, so there is room for all symbols.
    let room = (text.len() / 5).saturating_add(1).saturating_mul(8);
    let mut out = Vec::with_capacity(alloc, room)?;
    let mut state = 0;
    for byte in text {
        state = read_byte(&mut out, state, *byte)?;
    }
    if state < PADDED {
        Ok(out)
    } else {
        Err(HuffFault::Padding)
    }
}

/// Goes on from a state with eight more bits.
fn read_byte(out: &mut Vec<u8>, state: u8, byte: u8) -> Result<u8, HuffFault>
    ensures steps { Steps out.old.items out.new.items (read_at state ++ bits_of 8 byte) result }
    ensures bytes { AreBytes out.new.items }
{
    match step(out, state, byte / 16) {
        Ok(middle) => step(out, middle, byte % 16),
        Err(fault) => Err(fault),
    }
}

/// Goes on from a state with four more bits, and puts the symbol whose code ends there at the end.
fn step(out: &mut Vec<u8>, state: u8, four: u8) -> Result<u8, HuffFault>
    requires { four < 16 }
    ensures { Steps out.old.items out.new.items (read_at state ++ bits_of 4 four) result }
{
    let Step { ended, next } = step_at(state, four);
    match ended {
        Ended::Nothing => {}
        Ended::Symbol(symbol) => out.push(symbol)?,
        Ended::EndOfString => return Err(HuffFault::Eos),
    }
    Ok(next)
}
