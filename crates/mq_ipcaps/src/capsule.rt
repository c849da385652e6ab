//! A capsule whose value is a list of items (RFC 9297, section 3.2).
ghost use Rattle.std.specs.Prelude.{◌≡◌, ◌↔◌, ◌^◌, ◌<◌, ◌≤◌, ◌++◌, length, take, IsTrue, OnOk, OnErr};
ghost use Rattle.std.specs.List.{Any, flat_map};
ghost use Rattle.mq_wire.specs.Integer.{spelling_of};
ghost use Rattle.mq_ipcaps.specs.Writing.{capsule_text};

use super::item::Item;
use mq_wire::{NoMemory, write_varint};

/// Whether an item has an integer that can't be written.
pub fn any_large<T: Item>(items: &[T]) -> bool
    ensures { IsTrue result ↔ Any T.IsLarge items.now }
{
    items.iter().any(|item| item.is_large())
}

/// Writes the capsule of this type whose value these items are. An `Err` changes nothing.
pub fn write_capsule<T: Item>(out: &mut Vec<u8>, kind: u8, items: &[T]) -> Result<(), NoMemory>
    requires few { length items.now ≤ 32 }
    requires fit { ¬ (Any T.IsLarge items.now) }
    ensures ok { OnOk result (out.new.items ≡ out.old.items ++ capsule_text kind (flat_map T.item_text items.now)) }
    ensures err { OnErr result (out.new.items ≡ out.old.items) }
{
    let begun = out.len();
    let written = append(out, kind, items);
    if written.is_err() {
        out.truncate(begun);
    }
    written
}

/// The same; an `Err` leaves a part of it.
#[tactic(auto, unfolding(crate::specs::Writing::capsule_text))]
fn append<T: Item>(out: &mut Vec<u8>, kind: u8, items: &[T]) -> Result<(), NoMemory>
    requires few { length items.now ≤ 32 }
    requires fit { ¬ (Any T.IsLarge items.now) }
    ensures ok { OnOk result (out.new.items ≡ out.old.items ++ capsule_text kind (flat_map T.item_text items.now)) }
    ensures err { OnErr result (take (length out.old.items) out.new.items ≡ out.old.items) }
{
    write_integer(out, u64::from(kind))?;
    write_integer(out, u64::from(size(items)))?;
    append_items(out, items)?;
    Ok(())
}

/// Writes items one behind the other; an `Err` leaves some of them.
fn append_items<T: Item>(out: &mut Vec<u8>, items: &[T]) -> Result<(), NoMemory>
    requires { ¬ (Any T.IsLarge items.now) }
    ensures ok { OnOk result (out.new.items ≡ out.old.items ++ flat_map T.item_text items.now) }
    ensures err { OnErr result (take (length out.old.items) out.new.items ≡ out.old.items) }
{
    for item in items {
        item.write(out)?;
    }
    Ok(())
}

/// How many bytes the items have.
fn size<T: Item>(items: &[T]) -> u16
    requires { length items.now ≤ 32 }
    ensures { result ≡ length (flat_map T.item_text items.now) }
{
    let mut size = 0;
    for item in items {
        size += u16::from(item.size());
    }
    size
}

/// Writes an integer in its shortest form. An `Err` changes nothing.
pub fn write_integer(out: &mut Vec<u8>, value: u64) -> Result<(), NoMemory>
    requires { value < 2 ^ 62 }
    ensures ok { OnOk result (out.new.items ≡ out.old.items ++ spelling_of value) }
    ensures err { OnErr result (out.new.items ≡ out.old.items) }
{
    if write_varint(out, value).is_err() {
        return Err(NoMemory);
    }
    Ok(())
}

/// How many bytes the shortest form of an integer has.
#[tactic(auto, unfolding(mq_wire::specs::Integer::spelling_of))]
pub fn integer_size(value: u64) -> u8
    ensures size { result ≡ length (spelling_of value) }
    ensures small { result ≤ 8 }
{
    if value < 0x40 {
        1
    } else if value < 0x4000 {
        2
    } else if value < 0x4000_0000 {
        4
    } else {
        8
    }
}
