//! What a value is a list of: entries or ranges, read one behind the other.
ghost use Rattle.std.specs.Prelude.{◌≡◌, ◌↔◌, ◌≤◌, ◌++◌, ℕ, List, Option, Result, None, length, take, IsTrue, OnOk, OnErr};
ghost use Rattle.mq_ipcaps.specs.declared.fault.CapsFault.{CapsFault};
ghost use Rattle.mq_ipcaps.specs.Reading.{Reads, Tells, items_of};

use super::fault::CapsFault;
use mq_wire::NoMemory;
use std::alloc::Global;

/// An entry or a range.
pub trait Item: Copy + Drop {
    ghost MOST: { ℕ };

    /// How many of them a value may have.
    const MOST: usize;

    ghost item_at: { Option Self → List ℕ → Result (Self × List ℕ) CapsFault };

    /// The item at the front, behind the one before, and the bytes behind it.
    fn read(before: Option<Self>, bytes: &[u8]) -> Result<(Self, &[u8]), CapsFault>
        ensures { Tells (λ x. (x.0, x.1.now)) result (item_at before bytes.now) };

    ghost IsLarge: { Self → Type 0 };

    /// Whether it has an integer above 2^62 - 1, which can't be written.
    fn is_large(&self) -> bool
        ensures { IsTrue result ↔ IsLarge self.now };

    ghost item_text: { Self → List ℕ };

    /// How many bytes it has.
    fn size(&self) -> u8
        ensures size { result ≡ length (item_text self.now) }
        ensures small { result ≤ 40 };

    /// Writes it at the end; an `Err` leaves a part of it.
    fn write(&self, out: &mut Vec<u8>) -> Result<(), NoMemory>
        requires { ¬ (IsLarge self.now) }
        ensures ok { OnOk result (out.new.items ≡ out.old.items ++ item_text self.now) }
        ensures err { OnErr result (take (length out.old.items) out.new.items ≡ out.old.items) };
}

/// The items that the bytes are.
pub fn items<T: Item>(alloc: Global, bytes: &[u8]) -> Result<Vec<T>, CapsFault>
    ensures { Reads (λ list. list.items) result (items_of T.item_at T.MOST None bytes.now) }
{
    let mut list = Vec::new(alloc);
    let mut before = None;
    let mut rest = bytes;
    while !rest.is_empty() {
        if list.len() >= T::MOST {
            return Err(CapsFault::TooMany);
        }
        let (item, after) = T::read(before, rest)?;
        list.push(item)?;
        before = Some(item);
        rest = after;
    }
    Ok(list)
}
