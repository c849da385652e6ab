//! The payloads that lines of an input spell.
ghost use Rattle.std.specs.Prelude.{◌≡◌, ℕ, List, ◌++◌, ◌∷◌, []};
ghost use Rattle.mq_text.specs.Cut.{Lacks};
ghost use Rattle.mq_udp.specs.Input.{EndsTo, IsRead, LineEnds, ReadsOn};

use mq_output::Stop;
use mq_script::{LineFault, parse_payload};
use mq_text::cut;
use mq_wire::Bytes;
use std::alloc::Global;

/// The most bytes of a line: two digits for each of a payload.
const MOST_LINE: usize = 131_054;

/// The most payloads.
const MOST_PAYLOADS: usize = 1024;

/// The payloads of the lines so far, and the line that was begun.
#[derive(Drop)]
pub struct Input {
    pub begun: Vec<u8>,
    pub payloads: Vec<Bytes>,
}

impl Input {
    /// Nothing was read.
    pub fn new(alloc: Global) -> Input
        ensures { IsRead result [] }
    {
        Input {
            begun: Vec::new(alloc),
            payloads: Vec::new(alloc),
        }
    }

    /// The begun line goes on with these bytes, which have no newline.
    fn keep(&mut self, bytes: &[u8]) -> Result<(), Stop>
        ensures { (text : List ℕ) → Lacks 10 bytes.now → IsRead self.old text → ReadsOn (text ++ bytes.now) result self.new }
    {
        if self.begun.len().saturating_add(bytes.len()) > MOST_LINE {
            return Err(Stop::BadLine);
        }
        if self.begun.extend_from_slice(bytes).is_err() {
            return Err(Stop::NoMemory);
        }
        Ok(())
    }

    /// The begun line is whole.
    fn end_line(&mut self, alloc: Global) -> Result<(), Stop>
        ensures reads { (text : List ℕ) → IsRead self.old text → ReadsOn (text ++ 10 ∷ []) result self.new }
        ensures ends { LineEnds self.old result self.new }
    {
        if self.payloads.len() == MOST_PAYLOADS {
            return Err(Stop::BadLine);
        }
        let payload = match parse_payload(alloc, self.begun.as_slice()) {
            Ok(payload) => payload,
            Err(LineFault::Syntax) => return Err(Stop::BadLine),
            Err(LineFault::NoMemory) => return Err(Stop::NoMemory),
        };
        if self.payloads.push(payload).is_err() {
            return Err(Stop::NoMemory);
        }
        self.begun.clear();
        Ok(())
    }

    /// More bytes of the input.
    pub fn feed(&mut self, alloc: Global, bytes: &[u8]) -> Result<(), Stop>
        ensures { (text : List ℕ) → IsRead self.old text → ReadsOn (text ++ bytes.now) result self.new }
    {
        let mut rest = bytes;
        while let Some((end, behind)) = cut(b'\n', rest) {
            self.keep(end)?;
            self.end_line(alloc)?;
            rest = behind;
        }
        self.keep(rest)
    }

    /// The input is at its end. A last line without a newline is one, unless it is empty.
    pub fn finish(&mut self, alloc: Global) -> Result<(), Stop>
        ensures { (text : List ℕ) → IsRead self.old text → EndsTo text result self.new }
    {
        if self.begun.is_empty() {
            return Ok(());
        }
        self.end_line(alloc)
    }
}
