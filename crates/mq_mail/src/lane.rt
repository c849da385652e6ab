//! A lane from one thread to another: one end puts items in, and the other takes them out.
ghost use Rattle.std.specs.Prelude.{◌≡◌, ◌<◌, ◌≤◌, ◌++◌, ◌∷◌, [], IfOk, MatchOption, vec_capacity, vec_len, true};
ghost use Rattle.crossbeam_queue.specs.Passes.{view as known, IsPassOf, ruled_capacity};
ghost use Rattle.mq_mail.specs.Lanes.{LaneId, room_of, Putter, Taker, Noted, HasWaiting};
ghost use Rattle.mq_mail.specs.LaneRule.{StartsWith};

use crate::lane_rule::{Drains, LanePass, Line, Puts, Roles, Takes, Tells, Whole};
use mq_wire::{NoMemory, Seq};
use std::alloc::Global;
use std::marker::Model;
use std::sync::Wait;

/// Items between two threads, oldest first.
#[derive(Drop)]
pub struct Lane<T> {
    line: Line<T>,
}

impl<T> Model for Lane<T> {
    ghost use Rattle.mq_mail.specs.Lanes.{LaneId};

    ghost Value = { LaneId };

    ghost view = { λ lane. lane.line.table.shared.table_id };
}

/// The end of a lane that puts items in.
#[derive(Drop)]
pub struct LaneIn<T> {
    pass: LanePass<T>,
}

impl<T> Model for LaneIn<T> {
    ghost use Rattle.std.specs.Prelude.{◌≡◌, true, false, []};
    ghost use Rattle.crossbeam_queue.specs.Passes.{view as known};
    ghost use Rattle.mq_mail.specs.Lanes.{Putter};

    ghost Value = { Putter T };

    ghost view = { λ e. record { lane = e.pass.table_id; put = (known e.pass).put } };

    ghost invariant = { λ e. (e.pass.me.1 ≡ []) × ((known e.pass).puts ≡ true) × ((known e.pass).takes ≡ false) };
}

/// The end of a lane that takes items out, with the memory for those that its close gives.
#[derive(Drop)]
pub struct LaneOut<T> {
    pass: LanePass<T>,
    rest: Vec<T>,
}

impl<T> Model for LaneOut<T> {
    ghost use Rattle.std.specs.Prelude.{◌≡◌, ◌≤◌, true, false, [], vec_capacity, vec_len};
    ghost use Rattle.crossbeam_queue.specs.Passes.{view as known};
    ghost use Rattle.mq_mail.specs.Lanes.{Taker};

    ghost Value = { Taker T };

    ghost view = { λ e. record { lane = e.pass.table_id; taken = (known e.pass).taken; told = (known e.pass).told } };

    ghost invariant = { λ e. (e.pass.me.1 ≡ []) × ((known e.pass).puts ≡ false)
        × ((known e.pass).takes ≡ true) × (e.rest.items ≡ []) × (vec_len e.rest ≡ 0)
        × (e.pass.table_id.slots ≤ vec_capacity e.rest) };
}

/// A note of what was put into a lane so far. It has no bytes, and any thread may carry it to the taker.
#[derive(Drop)]
pub struct Note<T> {
    pass: LanePass<T>,
}

impl<T> Model for Note<T> {
    ghost use Rattle.std.specs.Prelude.{◌≡◌, false, []};
    ghost use Rattle.crossbeam_queue.specs.Passes.{view as known};
    ghost use Rattle.mq_mail.specs.Lanes.{Noted};

    ghost Value = { Noted T };

    ghost view = { λ e. record { lane = e.pass.table_id; put = (known e.pass).told } };

    ghost invariant = { λ e. (e.pass.me.1 ≡ []) × ((known e.pass).puts ≡ false) × ((known e.pass).takes ≡ false) };
}

/// An empty lane with room for so many items, and its two ends. All memory that the lane and its close will ever need
/// is taken here.
pub fn make_lane<T: Drop>(
    alloc: Global,
    capacity: u32,
) -> Result<(Lane<T>, LaneIn<T>, LaneOut<T>), NoMemory>
    requires { 0 < capacity }
    ensures room { IfOk result (λ made. room_of made.0 ≡ capacity) }
    ensures into { IfOk result (λ made. made.1 ≡ record { lane = made.0; put = [] }) }
    ensures out { IfOk result (λ made. made.2 ≡ record { lane = made.0; taken = []; told = [] }) }
{
    let rest = Vec::with_capacity(alloc, capacity as usize)?;
    let (line, mut first) = Line::ruled(alloc, capacity as usize)?;
    let second = line.another::<Roles>(&mut first);
    let into = LaneIn { pass: first };
    let out = LaneOut { pass: second, rest };
    Ok((Lane { line }, into, out))
}

impl<T> LaneIn<T> {
    /// Puts an item at the back, or hands it back where the lane is full.
    pub fn put<R: Wait>(&mut self, rt: &R, lane: &Lane<T>, item: T) -> Option<T>
        requires { self.old.lane ≡ lane.now }
        ensures lane { self.new.lane ≡ self.old.lane }
        ensures put { MatchOption result (self.new.put ≡ self.old.put ++ item ∷ [])
            (λ back. (back ≡ item) × (self.new.put ≡ self.old.put) × HasWaiting (room_of lane.now) self.old.put) }
    {
        lane.line.push_as::<Puts, R>(rt, &mut self.pass, item).err()
    }

    /// A note of what was put so far, for the taker.
    pub fn tell(&mut self, lane: &Lane<T>) -> Note<T>
        requires { self.old.lane ≡ lane.now }
        ensures same { self.new ≡ self.old }
        ensures note { result ≡ record { lane = self.old.lane; put = self.old.put } }
    {
        Note {
            pass: lane.line.another::<Tells>(&mut self.pass),
        }
    }
}

impl<T> LaneOut<T> {
    /// Takes the item at the front, if the lane has one. All that the taker was told was put has been taken where it
    /// hasn't.
    pub fn take<R: Wait>(&mut self, rt: &R, lane: &Lane<T>) -> Option<T>
        requires { self.old.lane ≡ lane.now }
        ensures lane { self.new.lane ≡ self.old.lane }
        ensures told { self.new.told ≡ self.old.told }
        ensures taken { MatchOption result ((self.new.taken ≡ self.old.taken) × StartsWith self.old.taken self.old.told)
            (λ item. self.new.taken ≡ self.old.taken ++ item ∷ []) }
    {
        lane.line.pop_as::<Takes, R>(rt, &mut self.pass)
    }

    /// Hears what was put.
    pub fn hear(&mut self, lane: &Lane<T>, note: Note<T>)
        requires taker { self.old.lane ≡ lane.now }
        requires note { note.lane ≡ lane.now }
        ensures { self.new ≡ record self.old { told = note.put } }
    {
        let Note { pass } = note;
        lane.line.absorb::<Tells>(&mut self.pass, pass);
    }
}

impl<T: Drop> Lane<T> {
    /// The items that were put and not taken, in order. Takes no memory.
    pub fn close<R: Wait>(self, rt: &R, into: LaneIn<T>, out: LaneOut<T>) -> Seq<T>
        requires into { into.lane ≡ self }
        requires out { out.lane ≡ self }
        ensures { into.put ≡ out.taken ++ result }
    {
        let LaneIn { mut pass } = into;
        let LaneOut { pass: other, rest } = out;
        self.line.absorb::<Roles>(&mut pass, other);
        Seq::from_vec(drain(rt, &self.line, pass, rest))
    }
}

/// Takes all that waits, by the one pass that is left, into memory that was taken before.
fn drain<T: Drop, R: Wait>(
    rt: &R,
    line: &Line<T>,
    mut pass: LanePass<T>,
    mut rest: Vec<T>,
) -> Vec<T>
    requires line { IsPassOf line.now pass }
    requires parts { ((known pass).puts ≡ true) × ((known pass).takes ≡ true) }
    requires empty { (rest.items ≡ []) × (vec_len rest ≡ 0) }
    requires room { ruled_capacity line.now ≤ vec_capacity rest }
    ensures { (known pass).put ≡ (known pass).taken ++ result.items }
{
    let waiting = line.len_as::<Whole, R>(rt, &mut pass);
    for _ in 0..waiting {
        match line.pop_as::<Drains, R>(rt, &mut pass) {
            Some(item) => rest.push_reserved(item),
            None => unreachable!(),
        }
    }
    rest
}
