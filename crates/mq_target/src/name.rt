//! Names of hosts.
ghost use Rattle.std.specs.Prelude.{◌≡◌, ◌↔◌, IsTrue, IfOk, OnErr, MatchOption, map, nat_eq};
ghost use Rattle.std.specs.Char.{to_ascii_lowercase};
ghost use Rattle.std.specs.Cmp.Lexicographic.{pointwise};
ghost use Rattle.std.specs.Cmp.Rules.{comparing};
ghost use Rattle.std.proofs.Common.{rules};
ghost use Rattle.mq_target.specs.Names.{IsLowercaseName, IsName};

use crate::classes::are_name_bytes;
use mq_wire::{Bytes, NoMemory};
use std::alloc::Global;
use std::marker::Model;

/// The most bytes of a name (RFC 1035, section 3.1: 255 with the lengths of its labels).
const LONGEST_NAME: usize = 253;

/// The name of a host: 1 to 253 letters, digits, `-`, `.` and `_`, in lower case (RFC 9298, section 2).
#[derive(Debug, Drop)]
pub struct Name {
    text: Bytes,
}

impl Model for Name {
    ghost use Rattle.std.specs.Prelude.{ℕ, List};

    ghost Value = { List ℕ };

    ghost use Rattle.mq_target.specs.Names.{IsLowercaseName};

    ghost view = { λ name. name.text };

    ghost invariant = { λ name. IsLowercaseName name.text };
}

impl Name {
    /// The name that a text is, in lower case, where it is one. Memory is asked for only where it is.
    pub fn of(alloc: Global, text: &[u8]) -> Result<Option<Name>, NoMemory>
        ensures err { OnErr result (IsName text.now) }
        ensures ok { IfOk result (λ found. MatchOption found (¬ (IsName text.now))
            (λ name. IsName text.now × (name ≡ map to_ascii_lowercase text.now))) }
    {
        if !is_name(text) {
            return Ok(None);
        }
        let text = lowered(alloc, text)?;
        Ok(Some(Name { text }))
    }

    /// The bytes of the name.
    pub fn as_slice(&self) -> &[u8]
        ensures same { result.now ≡ self.now }
        ensures form { IsLowercaseName result.now }
    {
        self.text.as_slice()
    }
}

impl PartialEq for Name {
    ghost eq = { pointwise nat_eq };

    ghost laws = { Prim.search (comparing, rules) };

    fn eq(&self, other: &Name) -> bool {
        self.text == other.text
    }
}

impl Eq for Name {
    ghost laws = { Prim.search (comparing, rules) };
}

/// Whether a text has the form of a name.
fn is_name(text: &[u8]) -> bool
    ensures { IsTrue result ↔ IsName text.now }
{
    !text.is_empty() && text.len() <= LONGEST_NAME && are_name_bytes(text)
}

/// The bytes in lower case.
fn lowered(alloc: Global, text: &[u8]) -> Result<Bytes, NoMemory>
    ensures { IfOk result (λ low. low ≡ map to_ascii_lowercase text.now) }
{
    let low = text
        .iter()
        .map(|byte| byte.to_ascii_lowercase())
        .collect(alloc)?;
    Ok(Bytes::from_vec(low))
}
