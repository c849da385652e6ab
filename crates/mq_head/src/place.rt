//! Where the bytes so far end: what a reader knows of them, so that it parses no byte again and again.
ghost use Rattle.std.specs.Prelude.{◌≡◌, true, ℕ, List, IfOk, IfSome};
ghost use Rattle.mq_head.specs.Heads.{IsMore, ends_in_target};
ghost use Rattle.mq_head.specs.Alike.{Alike};
ghost use Rattle.mq_head.specs.Places.{IsPlace, StaysOpen};

use crate::front::is_open;
use crate::line::{ends_in_target, stays_in_target};
use crate::run::Run;
use crate::short::short;
use mq_wire::NoMemory;
use std::alloc::Global;

/// Where bytes end that wait for more.
#[derive(Drop)]
pub enum Place {
    /// Inside the request target.
    InTarget,
    /// Elsewhere. What follows decides the same behind this text, of at most 16 bytes, and more of the run decides
    /// nothing.
    Behind { text: Vec<u8>, run: Run },
}

impl Place {
    /// Where these bytes end.
    pub fn of(alloc: Global, bytes: &[u8]) -> Result<Place, NoMemory>
        ensures { IfOk result (λ place. IsMore bytes.now → IsPlace place bytes.now) }
    {
        if ends_in_target(bytes) {
            return Ok(Place::InTarget);
        }
        let (text, run) = short(alloc, bytes)?;
        Ok(Place::Behind { text, run })
    }

    /// Where the bytes end with this piece, if they end here and the piece decides nothing. None where only all bytes
    /// together can tell.
    pub fn behind(self, alloc: Global, piece: &[u8]) -> Result<Option<Place>, NoMemory>
        ensures { IfOk result (λ next. (bytes : List ℕ) → IsPlace self bytes → IfSome next (StaysOpen bytes piece.now)) }
    {
        match self {
            Place::InTarget => Ok(in_target(piece)),
            Place::Behind { text, run } if run.goes_on(piece) => Ok(Some(Place::Behind {
                text,
                run,
            })),
            Place::Behind { text, .. } => behind_text(alloc, text, piece),
        }
    }
}

/// Inside the request target only a space, a CR or a LF can decide something.
fn in_target(piece: &[u8]) -> Option<Place>
    ensures { (bytes : List ℕ) → ends_in_target bytes ≡ true → IfSome result (StaysOpen bytes piece.now) }
{
    if stays_in_target(piece) {
        Some(Place::InTarget)
    } else {
        None
    }
}

/// What the piece decides behind the text, it decides behind the bytes.
fn behind_text(alloc: Global, mut text: Vec<u8>, piece: &[u8]) -> Result<Option<Place>, NoMemory>
    ensures { IfOk result (λ next. (bytes : List ℕ) → Alike bytes text.items → IfSome next (StaysOpen bytes piece.now)) }
{
    text.extend_from_slice(piece)?;
    if !is_open(alloc, text.as_slice())? {
        return Ok(None);
    }
    let (text, run) = short(alloc, text.as_slice())?;
    Ok(Some(Place::Behind { text, run }))
}
