//! A request for blocks of addresses, entry by entry (RFC 9484, section 4.7.2).
ghost use Rattle.std.specs.Prelude.{◌≡◌, ◌↔◌, ◌++◌, ◌∷◌, [], IsTrue, IfOk};
ghost use Rattle.std.specs.List.{All, Any};
ghost use Rattle.mq_addr.specs.Block.{IsPrefix};
ghost use Rattle.mq_talk.specs.Answers.{IsAsked, denial};
ghost use Rattle.mq_book.specs.Treat.{AreDone, Treats};

use crate::setup::Setup;
use mq_addr::{Asked, Given, Prefix, alone, with_number};
use mq_wire::NoMemory;
use std::alloc::Global;

/// How many blocks a tunnel may hold.
const MOST_HELD: usize = 16;

/// A request as far as it was treated: all blocks that are taken, those that the tunnel holds, and what was denied.
#[derive(Drop)]
pub(crate) struct Treated {
    pub taken: Vec<Prefix>,
    pub held: Vec<Given>,
    pub denied: Vec<Given>,
}

/// Treats the entries of a request in order. Earlier ones count as held.
pub(crate) fn treat(
    alloc: Global,
    setup: &Setup,
    taken: Vec<Prefix>,
    held: Vec<Given>,
    asked: &[Asked],
) -> Result<Treated, NoMemory>
    requires { All IsAsked asked.now }
    ensures { IfOk result (λ t. AreDone setup.now.pool taken.items held.items asked.now t) }
{
    let mut treated = Treated {
        taken,
        held,
        denied: Vec::new(alloc),
    };
    for one in asked {
        treated = treated.with(setup, one)?;
    }
    Ok(treated)
}

impl Treated {
    /// Treats an entry: a Request ID that has a block keeps it; another is denied where the tunnel holds as many as it
    /// may, or where no block may be given.
    fn with(self, setup: &Setup, asked: &Asked) -> Result<Treated, NoMemory>
        requires { IsAsked asked.now }
        ensures { IfOk result (λ new. Treats setup.now.pool asked.now self new) }
    {
        if has_id(self.held.as_slice(), asked.id) {
            return Ok(self);
        }
        if self.held.len() >= MOST_HELD {
            return self.denied(asked);
        }
        match setup.offer(self.taken.as_slice(), asked) {
            Some(block) => self.given(asked.id, block),
            None => self.denied(asked),
        }
    }

    /// The blocks that the tunnel holds.
    pub fn into_held(self) -> Vec<Given>
        ensures { result.items ≡ self.held.items }
    {
        let Treated {
            taken: _,
            held,
            denied: _,
        } = self;
        held
    }

    /// The block is the tunnel's.
    fn given(self, id: u64, block: Prefix) -> Result<Treated, NoMemory>
        ensures taken { IfOk result (λ new. new.taken.items ≡ self.taken.items ++ block ∷ []) }
        ensures held { IfOk result (λ new. new.held.items ≡ self.held.items ++ record { id = id; block = block } ∷ []) }
        ensures denied { IfOk result (λ new. new.denied.items ≡ self.denied.items) }
    {
        let Treated {
            mut taken,
            mut held,
            denied,
        } = self;
        taken.push(block)?;
        held.push(Given { id, block })?;
        Ok(Treated {
            taken,
            held,
            denied,
        })
    }

    /// The entry is denied.
    fn denied(self, asked: &Asked) -> Result<Treated, NoMemory>
        ensures taken { IfOk result (λ new. new.taken.items ≡ self.taken.items) }
        ensures held { IfOk result (λ new. new.held.items ≡ self.held.items) }
        ensures denied { IfOk result (λ new. new.denied.items ≡ self.denied.items ++ denial asked.now ∷ []) }
    {
        let Treated {
            taken,
            held,
            mut denied,
        } = self;
        denied.push(denial(asked))?;
        Ok(Treated {
            taken,
            held,
            denied,
        })
    }
}

/// Whether a Request ID has a block.
fn has_id(held: &[Given], id: u64) -> bool
    ensures { IsTrue result ↔ Any (λ g. g.id ≡ id) held.now }
{
    held.iter().any(|given| given.id == id)
}

/// What is told of an entry that is denied: the all-zero address at its full length.
fn denial(asked: &Asked) -> Given
    ensures { result ≡ denial asked.now }
{
    Given {
        id: asked.id,
        block: alone(with_number(&asked.block.addr, 0)),
    }
}
