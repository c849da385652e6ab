//! Laws of the machine's definitions, each the contract of a function without a body.
ghost use Rattle.mq_machine.specs.Lawful.{StaysLawful};
ghost use Rattle.mq_machine.specs.Placing.{StaysPlaced};
ghost use Rattle.mq_machine.specs.Laws.{StarvesOnce, IsToldStep, HasOneSilentTurn, IsSilentOrQuiet, HasOneTurn, HasOneWorkerTurn, IsDoneOnce, IsQuietOrTurn, IsTurnOrQuiet, ReadsOnce, SettlesNothing};

use mq_capsule::is_read_once;
use mq_h2::{is_asked_once, one_read, what_is_told_is_held};
use mq_head::one_answer;
use mq_policy::one_decision;
use mq_target::one_reading;

/// What an answer does to a connection is one thing.
pub fn done_once()
    ensures { IsDoneOnce }
{}

/// Where there are no frames and no mark is in front, the end of an act changes nothing.
pub fn settles_nothing()
    ensures { SettlesNothing }
{}

/// A worker's turn, by one answer of the outside, is one.
pub fn one_worker_turn()
    ensures { HasOneWorkerTurn }
{
    brings_once();
}

/// An actor's turn is one.
pub fn one_turn()
    ensures { HasOneTurn }
{
    brings_once();
}

/// An actor that has a turn isn't quiet.
pub fn turn_or_quiet()
    ensures { IsTurnOrQuiet }
{}

/// An actor that has no turn is quiet.
pub fn quiet_or_turn()
    ensures { IsQuietOrTurn }
{}

/// A step that was refused memory leads to one state, by how far it had come.
pub fn one_silent_turn()
    ensures { HasOneSilentTurn }
{}

/// Its actor isn't quiet.
pub fn silent_or_quiet()
    ensures { IsSilentOrQuiet }
{}

/// Where all is told, a step is the worker's turn, or it had none, or was refused memory at it.
pub fn told_step()
    ensures { IsToldStep }
{}

/// A read brings one thing.
pub fn brings_once()
    ensures { ReadsOnce }
{
    one_answer();
    one_read();
    is_read_once();
    one_reading();
    one_decision();
}

/// A connection is refused memory once at most.
pub fn starves_once()
    ensures { StarvesOnce }
{}

/// What holds of each connection is kept by each of its steps.
pub fn stays_lawful()
    ensures { StaysLawful }
{
    is_asked_once();
    what_is_told_is_held();
}

/// Each packet that a connection is to push has an inbox, and each of its steps keeps that.
pub fn stays_placed()
    ensures { StaysPlaced }
{}
