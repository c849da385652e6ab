//! Steps of one actor.
ghost use Rattle.std.specs.Prelude.{◌≡◌, ℕ, List, []};
ghost use Rattle.mq_machine.specs.State.{State};
ghost use Rattle.mq_machine.specs.Turn.{Actor};
ghost use Rattle.mq_play.specs.Play.{actor_of};
ghost use Rattle.mq_replay.specs.Listening.{HearsTold};
ghost use Rattle.mq_replay.specs.Playing.{IsAt, NumberTo, RunsTo, StepTo};
ghost use Rattle.mq_output.specs.Printing.{StopCounts};
ghost use Rattle.mq_world.specs.Worlds.{IsWorld};

use crate::listener::Listener;
use mq_machine::{silent_or_quiet, turn_or_quiet};
use mq_output::Stop;
use mq_talk::Note;
use mq_world::{Acted, World};

/// The number by which a line names the network.
const NET: u32 = u32::MAX;

/// What an actor did.
#[derive(Clone, Copy, Debug, PartialEq, Eq)]
pub enum Moved {
    /// It took a step, or was refused memory in one.
    Acted,
    /// It has no step.
    Idle,
}

/// The number in the world of the actor that a line names so, where it is one. The network's is the count of workers.
pub fn number_of(world: &World, name: u32) -> Option<u32>
    ensures { (s : State) → IsWorld world.now s → NumberTo s name result }
{
    let count = world.workers();
    if name == NET {
        return Some(count);
    }
    (name < count).then_some(name)
}

/// What a step told is heard. A step that an actor took told something.
fn hear<L: Listener>(told: &Option<Note>, listener: &mut L) -> Result<(), Stop>
    ensures says { HearsTold L.hears listener.old listener.new told.now result }
    ensures counts { StopCounts (L.faults listener.old) (L.faults listener.new) result }
{
    match told {
        Some(note) => listener.note(note),
        None => Ok(()),
    }
}

/// An actor of the world takes a step, and its note is heard, in this room for it.
fn take_told<L: Listener>(
    world: &mut World,
    number: u32,
    told: &mut Option<Note>,
    listener: &mut L,
) -> Result<Moved, Stop>
    ensures step { (shown : List ℕ) × L.hears listener.old listener.new shown
        × ((s : State) (actor : Actor) → IsWorld world.old s → IsAt s number actor → StepTo L.may_hear world.new s actor shown result) }
    ensures counts { StopCounts (L.faults listener.old) (L.faults listener.new) result }
{
    turn_or_quiet();
    silent_or_quiet();
    match world.act(number, told) {
        Ok(Acted::Did) => {
            hear(told, listener)?;
            Ok(Moved::Acted)
        }
        Ok(Acted::Refused) => {
            listener.refused()?;
            Ok(Moved::Acted)
        }
        Ok(Acted::Idle) => Ok(Moved::Idle),
        // No actor has this number.
        Err(_) => Ok(Moved::Idle),
    }
}

/// An actor of the world takes a step, and its note is heard. A step that is refused memory has none.
pub fn take_step<L: Listener>(
    world: &mut World,
    number: u32,
    listener: &mut L,
) -> Result<Moved, Stop>
    ensures step { (shown : List ℕ) × L.hears listener.old listener.new shown
        × ((s : State) (actor : Actor) → IsWorld world.old s → IsAt s number actor → StepTo L.may_hear world.new s actor shown result) }
    ensures counts { StopCounts (L.faults listener.old) (L.faults listener.new) result }
{
    let mut told = None;
    take_told(world, number, &mut told, listener)
}

/// An actor, which a line names so, takes up to so many steps. Where it has none left, that is heard.
pub fn take_steps<L: Listener>(
    world: &mut World,
    number: u32,
    name: u32,
    count: u32,
    listener: &mut L,
) -> Result<(), Stop>
    ensures runs { (shown : List ℕ) × L.hears listener.old listener.new shown
        × ((s : State) → IsWorld world.old s → IsAt s number (actor_of name) → RunsTo L.may_hear world.new s (actor_of name) count shown result) }
    ensures counts { StopCounts (L.faults listener.old) (L.faults listener.new) result }
{
    let mut left = count;
    while left > 0 {
        match take_step(world, number, listener)? {
            Moved::Acted => left -= 1,
            Moved::Idle => {
                listener.idle(name)?;
                return Ok(());
            }
        }
    }
    Ok(())
}
