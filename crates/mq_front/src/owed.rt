//! The bytes that a connection of HTTP/1.1 owes to its link.
ghost use Rattle.std.specs.Prelude.{◌≡◌, ℕ, ◌≤◌, List, [], ◌++◌, length, drop, OnOk, OnErr};
ghost use Rattle.mq_head.specs.Answers.{success_text, refusal_text};

use mq_addr::Kind;
use mq_head::{refusal, success};
use mq_wire::NoMemory;
use std::alloc::Global;
use std::marker::Model;

/// From so many given bytes on, the owed ones move to the front.
const MOST_GIVEN: usize = 65_536;

/// What was put for writing and wasn't given to the link.
#[derive(Drop)]
pub struct Owed {
    bytes: Vec<u8>,
    given: usize,
}

impl Model for Owed {
    ghost use Rattle.std.specs.Prelude.{ℕ, List, drop, length, ◌≤◌};

    ghost Value = { List ℕ };

    ghost view = { λ s. drop s.given s.bytes.items };

    ghost invariant = { λ s. s.given ≤ length s.bytes.items };
}

impl Owed {
    pub fn new(alloc: Global) -> Owed
        ensures { result ≡ [] }
    {
        Owed {
            bytes: Vec::new(alloc),
            given: 0,
        }
    }

    pub fn as_slice(&self) -> &[u8]
        ensures { result.now ≡ self.now }
    {
        let (_, owed) = self.bytes.as_slice().split_at(self.given);
        owed
    }

    /// So many bytes were given to the link.
    pub fn give(&mut self, count: usize)
        requires { count ≤ length self.old }
        ensures { self.new ≡ drop count self.old }
    {
        self.given += count;
        if self.given >= MOST_GIVEN || self.given == self.bytes.len() {
            self.bytes.drain(..self.given);
            self.given = 0;
        }
    }

    /// Puts the answer to a request that is granted (RFC 9298, section 3.3).
    pub fn put_success(&mut self, kind: Kind) -> Result<(), NoMemory>
        ensures ok { OnOk result (self.new ≡ self.old ++ success_text kind) }
        ensures err { OnErr result (self.new ≡ self.old) }
    {
        success(&mut self.bytes, kind)
    }

    /// Puts the answer to a request that is refused.
    pub fn put_refusal(&mut self, status: u16) -> Result<(), NoMemory>
        ensures ok { OnOk result (self.new ≡ self.old ++ refusal_text status) }
        ensures err { OnErr result (self.new ≡ self.old) }
    {
        refusal(&mut self.bytes, status)
    }

    /// Puts these bytes, one slice behind the other.
    pub fn put(&mut self, front: &[u8], rest: &[u8]) -> Result<(), NoMemory>
        ensures ok { OnOk result (self.new ≡ self.old ++ (front.now ++ rest.now)) }
        ensures err { OnErr result (self.new ≡ self.old) }
    {
        self.bytes.reserve(front.len() + rest.len())?;
        self.bytes.extend_from_slice(front)?;
        self.bytes.extend_from_slice(rest)?;
        Ok(())
    }
}
