//! Names and values of literal fields (RFC 7541, section 6.2).
ghost use Rattle.std.specs.Prelude.{◌≡◌, ℕ, ◌≤◌};
ghost use Rattle.mq_hpack.specs.Representation.{IsLiteral, IsName, IsNameAt};
ghost use Rattle.mq_hpack.specs.Text.{Tells};

use crate::fault::HpackFault;
use crate::field::{Field, Text};
use crate::integer::read_integer;
use crate::table::FieldTable;
use crate::text::read_string;
use std::alloc::Global;

/// Reads a literal field, where the index of its name has so many bits, and the bytes after it.
pub fn read_literal<'a>(
    alloc: Global,
    table: &FieldTable,
    prefix: u32,
    bytes: &'a [u8],
) -> Result<(Field, &'a [u8]), HpackFault>
    requires { (1 ≤ prefix) × (prefix ≤ 8) }
    ensures { Tells (λ x. (x.0, x.1.now)) (IsLiteral table.now prefix bytes.now) result }
{
    let (name, rest) = read_name(alloc, table, prefix, bytes)?;
    let (value, rest) = read_string(alloc, rest)?;
    Ok((Field { name, value }, rest))
}

/// Reads the name: by its index, or as a string.
fn read_name<'a>(
    alloc: Global,
    table: &FieldTable,
    prefix: u32,
    bytes: &'a [u8],
) -> Result<(Text, &'a [u8]), HpackFault>
    requires { (1 ≤ prefix) × (prefix ≤ 8) }
    ensures { Tells (λ x. (x.0, x.1.now)) (IsName table.now prefix bytes.now) result }
{
    let (index, after) = read_integer(prefix, bytes).ok_or(HpackFault::Integer)?;
    name_at(alloc, table, index, after)
}

/// The name at an index, or the string at the front where the index is 0.
fn name_at<'a>(
    alloc: Global,
    table: &FieldTable,
    index: u32,
    bytes: &'a [u8],
) -> Result<(Text, &'a [u8]), HpackFault>
    ensures { Tells (λ x. (x.0, x.1.now)) (IsNameAt table.now index bytes.now) result }
{
    if index == 0 {
        return read_string(alloc, bytes);
    }
    match table.field(index) {
        Some((name, _)) => Ok((Text::copy_of(alloc, name)?, bytes)),
        None => Err(HpackFault::Index),
    }
}
