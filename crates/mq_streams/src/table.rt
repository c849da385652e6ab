//! The table of the live streams, in the order of their ids, in which one is found by halving.
ghost use Rattle.std.specs.Prelude.{◌≡◌, ◌≢◌, ◌≤◌, ◌<◌, [], All, Any, MatchBool, length, IfOk, MatchOption, vec_capacity, remove, slice_set, false, true, nat_le};
ghost use Rattle.std.specs.List.{HoldsAt, AllWithin};
ghost use Rattle.mq_streams.specs.Rows.{Rise, AreUpTo, CanShift, Opens};

use crate::stream::Stream;
use mq_wire::NoMemory;
use std::alloc::Global;

/// The most streams that may be live.
pub const MAX_LIVE: usize = 100;

/// The consumed bytes from which on a window is given back.
pub const UPDATE_FROM: u32 = 16_384;

/// The live streams, and the highest id that was begun.
#[derive(Debug, Drop)]
pub struct Table {
    pub highest: u32,
    pub rows: Vec<Stream>,
    ghost rising: { Rise rows.items },
    ghost begun: { AreUpTo highest rows.items },
    ghost few: { length rows.items ≤ 100 },
    ghost reserved: { 100 ≤ vec_capacity rows },
}

impl Table {
    pub fn new(alloc: Global) -> Result<Table, NoMemory>
        ensures { IfOk result (λ table. (table.highest ≡ 0) × (table.rows.items ≡ [])) }
    {
        let rows = Vec::with_capacity(alloc, MAX_LIVE)?;
        Ok(Table { highest: 0, rows })
    }

    pub fn is_full(&self) -> bool
        ensures { result ≡ nat_le 100 (length self.now.rows.items) }
    {
        self.rows.len() >= MAX_LIVE
    }

    /// Where the row of a live stream is.
    pub fn place(&self, id: u32) -> Option<usize>
        ensures { MatchOption result (All (λ row. row.id ≢ id) self.now.rows.items)
            (λ at. (at < length self.now.rows.items) × HoldsAt (λ row. row.id ≡ id) self.now.rows.items at) }
    {
        self.rows
            .as_slice()
            .binary_search_by_key(&id, |row| row.id)
            .ok()
    }

    /// The row at a place.
    pub fn row(&self, at: usize) -> Stream
        requires { at < length self.now.rows.items }
        ensures { HoldsAt (λ row. row ≡ result) self.now.rows.items at }
    {
        self.rows[at]
    }

    /// Puts another row of the same stream into its place.
    pub fn put(&mut self, at: usize, row: Stream)
        requires within { at < length self.old.rows.items }
        requires same { HoldsAt (λ old. old.id ≡ row.id) self.old.rows.items at }
        ensures rows { self.new.rows.items ≡ slice_set self.old.rows.items at row }
        ensures highest { self.new.highest ≡ self.old.highest }
    {
        self.rows[at] = row;
    }

    /// Begins a stream, which is live.
    pub fn open(&mut self, id: u32)
        requires above { self.old.highest < id }
        requires has_place { length self.old.rows.items < 100 }
        ensures highest { self.new.highest ≡ id }
        ensures row { Opens self.old.rows.items self.new.rows.items id }
    {
        self.highest = id;
        self.rows.push_reserved(Stream::new(id));
    }

    /// Begins a stream that isn't live.
    pub fn turn_away(&mut self, refused: u32)
        requires { self.old.highest < refused }
        ensures highest { self.new.highest ≡ refused }
        ensures rows { self.new.rows.items ≡ self.old.rows.items }
    {
        self.highest = refused;
    }

    /// Removes the row at a place.
    pub fn remove(&mut self, at: usize)
        requires { at < length self.old.rows.items }
        ensures highest { self.new.highest ≡ self.old.highest }
        ensures rows { self.new.rows.items ≡ remove self.old.rows.items at }
    {
        self.rows.remove(at);
    }

    /// Where the first stream is whose window is to be given back.
    pub fn first_to_update(&self) -> Option<usize>
        ensures { MatchOption result (All (λ row. row.receiving.consumed < 16384) self.now.rows.items)
            (λ at. (at < length self.now.rows.items) × HoldsAt (λ row. 16384 ≤ row.receiving.consumed) self.now.rows.items at
            × AllWithin (λ row. row.receiving.consumed < 16384) self.now.rows.items 0 at) }
    {
        for (at, row) in self.rows.iter().enumerate() {
            if row.receiving.consumed >= UPDATE_FROM {
                return Some(at);
            }
        }
        None
    }

    /// Each send window stays within the largest where this is the initial window.
    pub fn can_shift(&self, value: u32) -> bool
        ensures { MatchBool result (All (λ row. CanShift value row true) self.now.rows.items)
            (Any (λ row. CanShift value row false) self.now.rows.items) }
    {
        for row in self.rows.as_slice() {
            if !row.can_shift(value) {
                return false;
            }
        }
        true
    }
}
