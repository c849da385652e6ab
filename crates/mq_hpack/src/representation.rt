//! The representations of a field block (RFC 7541, section 6).
ghost use Rattle.std.specs.Prelude.{◌≡◌, ℕ, ◌≤◌};
ghost use Rattle.mq_hpack.specs.Representation.{IsRepresentation, IsIndexed, IsSizeUpdate, IsOf, IsLate, Indexes, Updates, Stores, Passes};
ghost use Rattle.mq_hpack.specs.Text.{Tells, Then, IsInteger};

use crate::fault::HpackFault;
use crate::field::{Field, Text};
use crate::integer::read_integer;
use crate::literal::read_literal;
use crate::table::FieldTable;
use std::alloc::Global;

/// What a representation says: a field, a field that the table keeps too, or a new limit of the table (a size update).
#[derive(Drop)]
pub enum Representation {
    Plain(Field),
    Stored(Field),
    SizeUpdate(u32),
}

/// Reads the representation at the front, and the bytes after it, where the fields before it count so much.
pub fn read_representation<'a>(
    alloc: Global,
    table: &FieldTable,
    total: u32,
    bytes: &'a [u8],
) -> Result<(Representation, &'a [u8]), HpackFault>
    ensures { Tells (λ x. (x.0, x.1.now)) (IsRepresentation table.now total bytes.now) result }
{
    match bytes {
        [first, ..] if *first >= 128 => read_indexed(alloc, table, total, bytes),
        [first, ..] if *first >= 64 => read_stored(alloc, table, total, bytes),
        [first, ..] if *first >= 32 => read_size_update(table, total, bytes),
        _ => read_plain(alloc, table, total, bytes),
    }
}

/// Reads a field by its index.
fn read_indexed<'a>(
    alloc: Global,
    table: &FieldTable,
    total: u32,
    bytes: &'a [u8],
) -> Result<(Representation, &'a [u8]), HpackFault>
    ensures { Tells (λ x. (x.0, x.1.now)) (IsOf Indexes table.now total bytes.now) result }
{
    let (index, rest) = read_integer(7, bytes).ok_or(HpackFault::Integer)?;
    let Some((name, value)) = table.field(index) else {
        return Err(HpackFault::Index);
    };
    let field = Field {
        name: Text::copy_of(alloc, name)?,
        value: Text::copy_of(alloc, value)?,
    };
    Ok((Representation::Plain(field), rest))
}

/// Reads a literal field that the table keeps.
fn read_stored<'a>(
    alloc: Global,
    table: &FieldTable,
    total: u32,
    bytes: &'a [u8],
) -> Result<(Representation, &'a [u8]), HpackFault>
    ensures { Tells (λ x. (x.0, x.1.now)) (IsOf Stores table.now total bytes.now) result }
{
    let (field, rest) = read_literal(alloc, table, 6, bytes)?;
    Ok((Representation::Stored(field), rest))
}

/// Reads a literal field that the table doesn't keep.
fn read_plain<'a>(
    alloc: Global,
    table: &FieldTable,
    total: u32,
    bytes: &'a [u8],
) -> Result<(Representation, &'a [u8]), HpackFault>
    ensures { Tells (λ x. (x.0, x.1.now)) (IsOf Passes table.now total bytes.now) result }
{
    let (field, rest) = read_literal(alloc, table, 4, bytes)?;
    Ok((Representation::Plain(field), rest))
}

/// Reads a size update, which stands before all fields.
fn read_size_update<'a>(
    table: &FieldTable,
    total: u32,
    bytes: &'a [u8],
) -> Result<(Representation, &'a [u8]), HpackFault>
    ensures { Tells (λ x. (x.0, x.1.now)) (IsOf Updates table.now total bytes.now) result }
{
    if total > 0 {
        return Err(HpackFault::Update);
    }
    let (limit, rest) = read_integer(5, bytes).ok_or(HpackFault::Integer)?;
    if limit > 4096 {
        return Err(HpackFault::Update);
    }
    Ok((Representation::SizeUpdate(limit), rest))
}
