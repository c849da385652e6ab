//! The decoder of a connection's field blocks.
ghost use Rattle.std.specs.Prelude.{◌≡◌, ◌≤◌, ◌++◌, List, [], ◌∷◌, OnOk, IfOk};
ghost use Rattle.std.specs.List.{sum_by};
ghost use Rattle.mq_hpack.specs.Block.{Reads};
ghost use Rattle.mq_hpack.specs.Decoder.{new_state, held, Answers};
ghost use Rattle.mq_hpack.specs.Table.{size_of};
ghost use Rattle.mq_hpack.specs.Taking.{IsAllowed, IsGained, IsTaken};
ghost use Rattle.mq_hpack.specs.Text.{Tells};

use crate::fault::HpackFault;
use crate::field::{Field, Text};
use crate::representation::{Representation, read_representation};
use crate::table::{FieldTable, field_size};
use mq_wire::{NoMemory, Seq};
use std::alloc::Global;
use std::marker::Model;

/// The most that the fields of one block may count.
const MOST: u32 = 16384;

/// Few blocks have more fields than this.
const USUAL: usize = 20;

/// Reads the blocks of a connection, one after another. After a fault it is spent, and answers that
/// fault again; want of memory spends it too.
#[derive(Drop)]
pub struct Decoder {
    alloc: Global,
    table: FieldTable,
    spent: Option<HpackFault>,
}

impl Model for Decoder {
    ghost use Rattle.mq_hpack.specs.Decoder.{State};

    ghost Value = { State };

    ghost view = { λ d. record { table = d.table; spent = d.spent } };
}

impl Decoder {
    /// A decoder that has read no block.
    pub fn new(alloc: Global) -> Decoder
        ensures { result ≡ new_state }
    {
        Decoder {
            alloc,
            table: FieldTable::new(alloc),
            spent: None,
        }
    }

    /// The fields of a block.
    pub fn block(&mut self, bytes: &[u8]) -> Result<Seq<Field>, HpackFault>
        ensures answers { Answers self.old self.new bytes.now result }
        ensures bounded { IfOk result (λ fields. sum_by size_of fields ≤ 16384) }
    {
        if let Some(fault) = self.spent {
            return Err(fault);
        }
        match read_block(self.alloc, &mut self.table, bytes) {
            Ok(fields) => Ok(Seq::from_vec(fields)),
            Err(fault) => {
                self.spent = Some(fault);
                Err(fault)
            }
        }
    }

    /// What the fields that are kept between blocks count: their names and values, and 32 for each.
    pub fn held(&self) -> u32
        ensures counted { result ≡ held self.now }
        ensures bounded { result ≤ 4096 }
    {
        self.table.size()
    }
}

/// Reads representations up to the end, or to the first fault.
fn read_block(alloc: Global, table: &mut FieldTable, bytes: &[u8]) -> Result<Vec<Field>, HpackFault>
    ensures { Tells (λ fields. (fields.items, table.new)) (Reads table.old bytes.now) result }
{
    let mut fields = Vec::with_capacity(alloc, USUAL)?;
    let mut total = 0;
    let mut rest = bytes;
    while !rest.is_empty() {
        let (taken, after) = read_representation(alloc, table, total, rest)?;
        total = take_representation(alloc, table, &mut fields, total, taken)?;
        rest = after;
    }
    Ok(fields)
}

/// Does what a representation says, and gives what the fields count then.
fn take_representation(
    alloc: Global,
    table: &mut FieldTable,
    fields: &mut Vec<Field>,
    total: u32,
    taken: Representation,
) -> Result<u32, HpackFault>
    requires { IsAllowed taken }
    ensures { Tells (λ sum. sum) (IsTaken taken table.old table.new fields.old.items fields.new.items total) result }
{
    match taken {
        Representation::SizeUpdate(limit) => {
            table.set_limit(limit);
            Ok(total)
        }
        Representation::Plain(field) => gain(fields, total, field),
        Representation::Stored(field) => {
            let copy = copy_of(alloc, &field)?;
            let total = gain(fields, total, field)?;
            table.store(copy)?;
            Ok(total)
        }
    }
}

/// Puts a field at the end, where the fields then count no more than they may.
fn gain(fields: &mut Vec<Field>, total: u32, field: Field) -> Result<u32, HpackFault>
    ensures counted { Tells (λ sum. sum) (IsGained total field) result }
    ensures put { OnOk result (fields.new.items ≡ fields.old.items ++ field ∷ []) }
{
    let size = u128::from(total) + field_size(&field);
    if size > u128::from(MOST) {
        return Err(HpackFault::TooLarge);
    }
    fields.push(field)?;
    Ok(size as u32)
}

/// Another field like this one.
fn copy_of(alloc: Global, field: &Field) -> Result<Field, NoMemory>
    ensures { IfOk result (λ copy. copy ≡ field.now) }
{
    Ok(Field {
        name: Text::copy_of(alloc, field.name.as_slice())?,
        value: Text::copy_of(alloc, field.value.as_slice())?,
    })
}
