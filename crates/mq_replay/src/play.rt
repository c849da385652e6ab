//! A line of a script is played, and what it says is heard.
ghost use Rattle.std.specs.Prelude.{◌≡◌, ◌≤◌, ℕ, List, [], length};
ghost use Rattle.mq_play.specs.declared.line.Line.TheVariants as line;
ghost use Rattle.mq_play.specs.Play as spec;
ghost use Rattle.mq_play.specs.Play.{line_limit};
ghost use Rattle.mq_replay.specs.Listening.{MayBeNone};
ghost use Rattle.mq_replay.specs.Playing.{Answers, LineOrLeft, LineTo, SaidOrLeft, SaidTo};
ghost use Rattle.mq_output.specs.Printing.{IsSilent, StopCounts};
ghost use Rattle.mq_replay.specs.Stages.{IsStage};
ghost use Rattle.mq_replay.specs.Telling.{IsSpoken};

use crate::listener::Listener;
use crate::stage::Stage;
use crate::steps::{number_of, take_steps};
use crate::turns::take_turns;
use mq_machine::Event;
use mq_output::Stop;
use mq_play::Line;
use mq_script::{LineFault, parse_line};
use mq_world::{Stepped, WorldFault};
use std::alloc::Global;

/// A line by which steps are taken.
#[derive(Clone, Copy)]
pub enum StepsLine {
    /// Up to so many of one actor.
    Steps { actor: u32, count: u32 },
    /// Up to so many of all actors in turn.
    Run { count: u32 },
}

/// Whether the play goes on behind what was no step.
fn answer_of(stepped: Result<Stepped, WorldFault>) -> Result<(), Stop>
    ensures answers { Answers stepped result }
    ensures silent { IsSilent result }
{
    match stepped {
        Ok(_) => Ok(()),
        Err(WorldFault::Missing) => Err(Stop::BadLine),
        Err(WorldFault::NoMemory) => Err(Stop::NoMemory),
    }
}

/// Something happens in the world of a stage, which begins here at the latest.
fn happen(alloc: Global, stage: &mut Stage, event: Event) -> Result<(), Stop>
    requires { IsSpoken (line.Happens event) }
    ensures happens { (s : spec.Stage) → IsStage stage.old s → SaidTo MayBeNone s (line.Happens event) [] result stage.new }
    ensures silent { IsSilent result }
{
    stage.open(alloc)?;
    let Stage::Running(world) = stage else {
        unreachable!()
    };
    answer_of(world.step(event))
}

/// An actor takes steps in the world of a stage, which begins here at the latest.
#[inline(never)]
fn run_steps<L: Listener>(
    alloc: Global,
    stage: &mut Stage,
    actor: u32,
    count: u32,
    listener: &mut L,
) -> Result<(), Stop>
    ensures said { (shown : List ℕ) × L.hears listener.old listener.new shown
        × ((s : spec.Stage) → IsStage stage.old s → SaidTo L.may_hear s (line.Steps actor count) shown result stage.new) }
    ensures counts { StopCounts (L.faults listener.old) (L.faults listener.new) result }
{
    stage.open(alloc)?;
    let Stage::Running(world) = stage else {
        unreachable!()
    };
    match number_of(world, actor) {
        Some(number) => take_steps(world, number, actor, count, listener),
        None => Err(Stop::BadLine),
    }
}

/// All actors take steps in the world of a stage, which begins here at the latest.
#[inline(never)]
fn run_turns<L: Listener>(
    alloc: Global,
    stage: &mut Stage,
    count: u32,
    listener: &mut L,
) -> Result<(), Stop>
    ensures said { (shown : List ℕ) × L.hears listener.old listener.new shown
        × ((s : spec.Stage) → IsStage stage.old s → SaidTo L.may_hear s (line.Run count) shown result stage.new) }
    ensures counts { StopCounts (L.faults listener.old) (L.faults listener.new) result }
{
    stage.open(alloc)?;
    let Stage::Running(world) = stage else {
        unreachable!()
    };
    take_turns(world, count, listener)
}

/// Does what a line says, where that is no step; a line of steps is answered.
fn do_said(alloc: Global, stage: &mut Stage, said: Line) -> Result<Option<StepsLine>, Stop>
    requires { IsSpoken said }
    ensures does { (s : spec.Stage) → IsStage stage.old s → SaidOrLeft s said stage.old stage.new result }
    ensures silent { IsSilent result }
{
    match said {
        Line::Blank => Ok(None),
        Line::Setting(setting) => {
            stage.set(setting)?;
            Ok(None)
        }
        Line::Happens(event) => {
            happen(alloc, stage, event)?;
            Ok(None)
        }
        Line::Steps { actor, count } => Ok(Some(StepsLine::Steps { actor, count })),
        Line::Run { count } => Ok(Some(StepsLine::Run { count })),
    }
}

/// The same for a whole line, without its newline. It stands once, whoever listens to the steps.
#[inline(never)]
fn do_line(alloc: Global, stage: &mut Stage, text: &[u8]) -> Result<Option<StepsLine>, Stop>
    requires { length text.now ≤ line_limit }
    ensures does { (s : spec.Stage) → IsStage stage.old s → LineOrLeft s text.now stage.old stage.new result }
    ensures silent { IsSilent result }
{
    match parse_line(alloc, text) {
        Ok(said) => do_said(alloc, stage, said),
        Err(LineFault::Syntax) => Err(Stop::BadLine),
        Err(LineFault::NoMemory) => Err(Stop::NoMemory),
    }
}

/// Does what a whole line says, without its newline.
#[inline(always)]
pub fn play_line<L: Listener>(
    alloc: Global,
    stage: &mut Stage,
    text: &[u8],
    listener: &mut L,
) -> Result<(), Stop>
    requires { length text.now ≤ line_limit }
    ensures line { (shown : List ℕ) × L.hears listener.old listener.new shown
        × ((s : spec.Stage) → IsStage stage.old s → LineTo L.may_hear s text.now shown result stage.new) }
    ensures counts { StopCounts (L.faults listener.old) (L.faults listener.new) result }
{
    match do_line(alloc, stage, text)? {
        None => Ok(()),
        Some(StepsLine::Steps { actor, count }) => run_steps(alloc, stage, actor, count, listener),
        Some(StepsLine::Run { count }) => run_turns(alloc, stage, count, listener),
    }
}
