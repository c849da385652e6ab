//! The dynamic table (RFC 7541, sections 2.3 and 4), as a ring of fields.
ghost use Rattle.std.specs.Prelude.{◌≡◌, ◌≤◌, ◌++◌, [], ◌∷◌, OnOk, MatchOption};
ghost use Rattle.std.specs.List.{sum_by};
ghost use Rattle.mq_hpack.specs.Table.{IsFound, field_at, fitting, new_table, size_of, with_field, with_limit};

use crate::field::Field;
use crate::static_table::{COUNT, static_field};
use mq_wire::NoMemory;
use std::alloc::Global;
use std::collections::VecDeque;
use std::marker::Model;

/// The most that the fields of a table may count.
const MOST: u32 = 4096;

/// The dynamic table, the newest field first.
#[derive(Drop)]
pub struct FieldTable {
    limit: u32,
    size: u32,
    fields: VecDeque<Field>,
}

impl Model for FieldTable {
    ghost use Rattle.std.specs.Prelude.{◌≡◌, ◌≤◌};
    ghost use Rattle.std.specs.List.{sum_by};
    ghost use Rattle.mq_hpack.specs.Table.{Table, size_of};

    ghost Value = { Table };

    ghost view = { λ t. record { limit = t.limit; fields = t.fields.items } };

    ghost invariant = { λ t. (t.size ≡ sum_by size_of t.fields.items) × (t.size ≤ t.limit) × (t.limit ≤ 4096) };
}

impl FieldTable {
    pub fn new(alloc: Global) -> FieldTable
        ensures { result ≡ new_table }
    {
        FieldTable {
            limit: MOST,
            size: 0,
            fields: VecDeque::new(alloc),
        }
    }

    /// Sets the most that the fields may count.
    pub fn set_limit(&mut self, limit: u32)
        requires { limit ≤ 4096 }
        ensures { self.new ≡ with_limit limit self.old }
    {
        self.size = evict(&mut self.fields, self.size, limit);
        self.limit = limit;
    }

    /// Puts a field in front, and drops the oldest fields that no longer fit.
    pub fn store(&mut self, field: Field) -> Result<(), NoMemory>
        ensures { OnOk result (self.new ≡ with_field field self.old) }
    {
        let size = field_size(&field);
        if size > u128::from(self.limit) {
            self.fields.clear();
            self.size = 0;
            return Ok(());
        }
        let size = size as u32;
        self.size = evict(&mut self.fields, self.size, self.limit - size);
        self.fields.push_front(field)?;
        self.size += size;
        Ok(())
    }

    /// What the fields count.
    pub fn size(&self) -> u32
        ensures counted { result ≡ sum_by size_of self.now.fields }
        ensures bounded { result ≤ 4096 }
    {
        self.size
    }

    /// The name and value at an index.
    pub fn field(&self, index: u32) -> Option<(&[u8], &[u8])>
        ensures { IsFound (field_at self.now index) result }
    {
        let at = (index as usize).checked_sub(1)?;
        if at < COUNT {
            return Some(static_field(at));
        }
        let field = self.fields.get(at - COUNT)?;
        Some((field.name.as_slice(), field.value.as_slice()))
    }
}

/// What a field counts (RFC 7541, section 4.1).
pub fn field_size(field: &Field) -> u128
    ensures { result ≡ size_of field.now }
{
    field.name.as_slice().len() as u128 + field.value.as_slice().len() as u128 + 32
}

/// Drops the oldest fields until the others count no more than this, and gives what they count.
fn evict(fields: &mut VecDeque<Field>, size: u32, most: u32) -> u32
    requires { size ≡ sum_by size_of fields.old.items }
    ensures kept { fields.new.items ≡ fitting most fields.old.items }
    ensures size { result ≡ sum_by size_of fields.new.items }
    ensures within { result ≤ most }
{
    let mut size = size;
    while size > most {
        let Some(last) = drop_oldest(fields) else {
            return 0;
        };
        size -= field_size(&last) as u32;
    }
    size
}

/// Takes the oldest field out, which is the last.
fn drop_oldest(fields: &mut VecDeque<Field>) -> Option<Field>
    ensures { MatchOption result ((fields.old.items ≡ []) × (fields.new.items ≡ [])) (λ last. fields.old.items ≡ fields.new.items ++ last ∷ []) }
{
    fields.pop_back()
}
