//! Steps of all actors in turn: the workers by their numbers, then the network, in a ring.
ghost use Rattle.std.specs.Prelude.{◌≡◌, ◌-◌, ◌≤◌, ◌++◌, ℕ, List, [], drop, length, take};
ghost use Rattle.mq_machine.specs.State.{State};
ghost use Rattle.mq_play.specs.Play.{actors_of};
ghost use Rattle.mq_replay.specs.Playing.{FirstTo, GoesTo, workers_from};
ghost use Rattle.mq_output.specs.Printing.{StopCounts};
ghost use Rattle.mq_world.specs.Worlds.{IsWorld};

use crate::listener::Listener;
use crate::steps::{Moved, take_step};
use mq_output::Stop;
use mq_world::World;

/// The first of these workers that has a step takes it. Answers the place behind it.
fn take_worker<L: Listener>(
    world: &mut World,
    from: u32,
    to: u32,
    listener: &mut L,
) -> Result<Option<u32>, Stop>
    ensures first { (shown : List ℕ) × L.hears listener.old listener.new shown
        × ((s : State) → IsWorld world.old s → to ≤ length s.workers → FirstTo L.may_hear world.new s (workers_from from (to - from)) shown result) }
    ensures counts { StopCounts (L.faults listener.old) (L.faults listener.new) result }
{
    let mut number = from;
    while number < to {
        match take_step(world, number, listener)? {
            Moved::Acted => return Ok(Some(number + 1)),
            Moved::Idle => number += 1,
        }
    }
    Ok(None)
}

/// The first actor in the ring from this place on that has a step takes it. Answers the place behind it.
fn take_turn<L: Listener>(world: &mut World, at: u32, listener: &mut L) -> Result<Option<u32>, Stop>
    ensures first { (shown : List ℕ) × L.hears listener.old listener.new shown
        × ((s : State) → IsWorld world.old s → at ≤ length s.workers → FirstTo L.may_hear world.new s (drop at (actors_of s) ++ take at (actors_of s)) shown result) }
    ensures counts { StopCounts (L.faults listener.old) (L.faults listener.new) result }
{
    let count = world.workers();
    if let Some(next) = take_worker(world, at, count, listener)? {
        return Ok(Some(next));
    }
    match take_step(world, count, listener)? {
        Moved::Acted => Ok(Some(0)),
        Moved::Idle => take_worker(world, 0, at, listener),
    }
}

/// All actors take up to so many steps in turn. Where all were taken and some actor has one left, that is heard.
pub fn take_turns<L: Listener>(world: &mut World, count: u32, listener: &mut L) -> Result<(), Stop>
    ensures goes { (shown : List ℕ) × L.hears listener.old listener.new shown
        × ((s : State) → IsWorld world.old s → GoesTo L.may_hear world.new s count shown result) }
    ensures counts { StopCounts (L.faults listener.old) (L.faults listener.new) result }
{
    let mut at = 0;
    let mut left = count;
    while left > 0 {
        match take_turn(world, at, listener)? {
            Some(next) => at = next,
            None => return Ok(()),
        }
        left -= 1;
    }
    if !world.quiet() {
        listener.more()?;
    }
    Ok(())
}
