//! The pieces that arrived on a link and weren't read.
ghost use Rattle.std.specs.Prelude.{◌≡◌, ◌<◌, ℕ, List, [], ◌∷◌, ◌++◌, length, OnOk, OnErr, not};
ghost use Rattle.mq_mem.specs.Links.{AllFull, IsInFirst, unread, is_empty as has_none, PiecesRead};

use crate::fitting::fill;
use mq_wire::{Bytes, NoMemory, Seq};
use std::collections::VecDeque;
use std::marker::Model;

/// Pieces, oldest first, and how many bytes of the first were read.
#[derive(Drop)]
pub struct Pieces {
    queue: VecDeque<Bytes>,
    taken: usize,
}

impl Model for Pieces {
    ghost Value = { List (List ℕ) };

    ghost view = { λ p. unread p.queue.items p.taken };

    ghost invariant = { λ p. IsInFirst p.queue.items p.taken × AllFull p.queue.items };
}

impl Pieces {
    /// These pieces, of which none is empty.
    pub fn new(pieces: Seq<Bytes>) -> Pieces
        requires { AllFull pieces }
        ensures { result ≡ pieces }
    {
        Pieces {
            queue: VecDeque::from(pieces.into_vec()),
            taken: 0,
        }
    }

    /// One more piece.
    pub fn push(&mut self, piece: Bytes) -> Result<(), NoMemory>
        requires { 0 < length piece }
        ensures ok { OnOk result (self.new ≡ self.old ++ piece ∷ []) }
        ensures err { OnErr result (self.new ≡ self.old) }
    {
        self.queue.reserve(1)?;
        self.queue.push_back_reserved(piece);
        Ok(())
    }

    /// Whether a piece is there.
    pub fn is_empty(&self) -> bool
        ensures { result ≡ has_none self.now }
    {
        self.queue.is_empty()
    }

    /// Reads bytes of the first piece to the front of a buffer, and answers how many.
    pub fn read(&mut self, into: &mut [u8]) -> Option<u32>
        requires { 0 < length into.old }
        ensures { PiecesRead self.old self.new into.new result }
    {
        let piece = self.queue.front()?;
        let (_, left) = piece.as_slice().split_at(self.taken);
        let count = fill(into, left);
        if left.len() > count as usize {
            self.taken += count as usize;
            return Some(count);
        }
        drop(self.queue.pop_front());
        self.taken = 0;
        Some(count)
    }
}
