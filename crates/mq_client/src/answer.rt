//! The reader of the head of the proxy's answer: any cutting of its bytes into pieces.
ghost use Rattle.std.specs.Prelude.{◌≡◌, ◌++◌, ◌-◌, take, ℕ, List, length, [], IfOk, Ok};
ghost use Rattle.mq_head.specs.Heads.{head_limit};
ghost use Rattle.mq_client.specs.Answers.{IsWaiting, IsAnswer};

use crate::front::decide;
use mq_head::MAX_HEAD;
use mq_wire::NoMemory;
use std::alloc::Global;

/// What the bytes so far answer.
#[derive(Clone, Copy)]
pub enum Answer {
    /// Nothing is decided yet.
    More,
    /// Status 101. So many bytes of the last piece belong to the head.
    Switched { used: usize },
    /// Another status.
    Status { status: u16 },
    /// The head is malformed.
    Bad,
}

/// The bytes of a piece that can belong to a head of which so many came before.
fn within_limit(piece: &[u8], before: usize) -> &[u8]
    ensures { result.now ≡ take (head_limit - before) piece.now }
{
    let (front, _) = piece.split_at(piece.len().min(MAX_HEAD.saturating_sub(before)));
    front
}

/// Reads the head of an answer, in pieces of any length. It keeps at most 8,192 bytes.
#[derive(Drop)]
pub struct AnswerReader {
    kept: Vec<u8>,
}

impl AnswerReader {
    /// A reader at the first byte of the proxy.
    pub fn new(alloc: Global) -> AnswerReader
        ensures { IsWaiting result [] }
    {
        AnswerReader {
            kept: Vec::new(alloc),
        }
    }

    /// The answer of one more piece. After an `Err`, as after an answer other than `More`, the reader is of no use.
    pub fn feed(&mut self, alloc: Global, piece: &[u8]) -> Result<Answer, NoMemory>
        ensures answer { (bytes : List ℕ) → IsWaiting self.old bytes → IfOk result (IsAnswer bytes piece.now) }
        ensures more { (bytes : List ℕ) → IsWaiting self.old bytes → result ≡ Ok Answer.More → IsWaiting self.new (bytes ++ piece.now) }
    {
        let before = self.kept.as_slice().len();
        self.kept.extend_from_slice(within_limit(piece, before))?;
        let answer = decide(alloc, self.kept.as_slice(), before)?;
        Ok(answer)
    }
}
