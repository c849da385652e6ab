//! Lines that ask for steps.
ghost use Rattle.mq_play.specs.declared.word.Word.TheVariants as word;
ghost use Rattle.mq_play.specs.declared.line.Line.TheVariants as Line;
ghost use Rattle.mq_play.specs.Lines.{IsActor, SaysBehind, SaysSteps};
ghost use Rattle.mq_play.specs.Parts.{Means};
ghost use Rattle.mq_script.specs.Reading.{IsParsed};

use crate::fault::LineFault;
use crate::number::{number_in, parse_actor};
use mq_play::Line;
use mq_text::{cut, cut_once};

/// The most steps of a line.
const MOST_STEPS: u32 = 1_000_000;

/// One step of an actor.
fn parse_one(rest: &[u8]) -> Result<Line, LineFault>
    ensures { IsParsed (Means IsActor (λ actor. Line.Steps actor 1) rest.now) result }
{
    match parse_actor(rest) {
        Some(actor) => Ok(Line::Steps { actor, count: 1 }),
        None => Err(LineFault::Syntax),
    }
}

/// The steps of `step A` and `step A N`.
pub fn parse_step(rest: &[u8]) -> Result<Line, LineFault>
    ensures { IsParsed (SaysSteps rest.now) result }
{
    cut_once();
    let Some((actor, count)) = cut(b' ', rest) else {
        return parse_one(rest);
    };
    let Some(actor) = parse_actor(actor) else {
        return Err(LineFault::Syntax);
    };
    let Some(count) = number_in(1, MOST_STEPS, count) else {
        return Err(LineFault::Syntax);
    };
    Ok(Line::Steps { actor, count })
}

/// The steps of `run N`.
pub fn parse_run(rest: &[u8]) -> Result<Line, LineFault>
    ensures { IsParsed (SaysBehind word.Run rest.now) result }
{
    match number_in(1, MOST_STEPS, rest) {
        Some(count) => Ok(Line::Run { count }),
        None => Err(LineFault::Syntax),
    }
}
