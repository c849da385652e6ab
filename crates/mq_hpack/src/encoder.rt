//! The encoder of a connection's field blocks, which keeps no dynamic table.
ghost use Rattle.std.specs.Prelude.{◌≡◌, ◌<◌, ◌++◌, true, false, Some, None, IfOk, OnOk, OnErr};
ghost use Rattle.mq_hpack.specs.Encoder.{Appends, IsEncoded, IsField, IsWritten};
ghost use Rattle.mq_hpack.specs.Writing.{block_text};

use crate::field::Field;
use crate::laws::is_one_text;
use crate::search::{place_of_field, place_of_name};
use crate::write::{write_integer, write_string};
use mq_wire::{Bytes, NoMemory};
use std::alloc::Global;
use std::marker::Model;

/// The first byte of an indexed field, above its index.
const INDEXED: u8 = 128;

/// The first byte of a literal that isn't kept, above the index of its name.
const LITERAL: u8 = 0;

/// The first byte of a size update, above the limit.
const SIZE_UPDATE: u8 = 32;

/// Writes the blocks of a connection. The first one sets the limit of the other side's table to 0.
#[derive(Drop)]
pub struct Encoder {
    alloc: Global,
    owes_update: bool,
}

impl Model for Encoder {
    ghost use Rattle.std.specs.Prelude.{Bool};

    ghost Value = { Bool };

    ghost view = { λ e. e.owes_update };
}

impl Encoder {
    pub fn new(alloc: Global) -> Encoder
        ensures { result ≡ true }
    {
        Encoder {
            alloc,
            owes_update: true,
        }
    }

    /// A block of these fields. Want of memory changes nothing: the size update is still owed.
    pub fn block(&mut self, fields: &[Field]) -> Result<Bytes, NoMemory>
        ensures block { IfOk result (λ bytes. IsEncoded self.old fields.now bytes) }
        ensures spelled { IfOk result (λ bytes. bytes ≡ block_text self.old fields.now) }
        ensures given { OnOk result (self.new ≡ false) }
        ensures refused { OnErr result (self.new ≡ self.old) }
    {
        let mut out = Vec::new(self.alloc);
        write_block(&mut out, self.owes_update, fields)?;
        self.owes_update = false;
        Ok(Bytes::from_vec(out))
    }
}

/// Writes a block, with the size update in front where it is owed.
fn write_block(out: &mut Vec<u8>, owes_update: bool, fields: &[Field]) -> Result<(), NoMemory>
    ensures encoded { OnOk result (Appends out.old.items out.new.items (IsEncoded owes_update fields.now)) }
    ensures spelled { OnOk result (out.new.items ≡ out.old.items ++ block_text owes_update fields.now) }
{
    if owes_update {
        write_integer(out, SIZE_UPDATE, 5, 0)?;
    }
    for field in fields {
        write_field(out, field)?;
    }
    is_one_text();
    Ok(())
}

/// Writes a field: by its index in the static table, or as a literal.
fn write_field(out: &mut Vec<u8>, field: &Field) -> Result<(), NoMemory>
    ensures { OnOk result (Appends out.old.items out.new.items (IsField field.now)) }
{
    let Some(named) = place_of_name(field.name.as_slice()) else {
        return write_new(out, field);
    };
    match place_of_field(named, field) {
        Some(whole) => write_integer(out, INDEXED, 7, whole as u64 + 1),
        None => write_named(out, named, field),
    }
}

/// Writes a literal whose name is at this place of the static table.
fn write_named(out: &mut Vec<u8>, named: usize, field: &Field) -> Result<(), NoMemory>
    requires { named < 61 }
    ensures { OnOk result (Appends out.old.items out.new.items (IsWritten field.now None (Some named))) }
{
    write_integer(out, LITERAL, 4, named as u64 + 1)?;
    write_string(out, field.value.as_slice())
}

/// Writes a literal with a new name.
fn write_new(out: &mut Vec<u8>, field: &Field) -> Result<(), NoMemory>
    ensures { OnOk result (Appends out.old.items out.new.items (IsWritten field.now None None)) }
{
    write_integer(out, LITERAL, 4, 0)?;
    write_string(out, field.name.as_slice())?;
    write_string(out, field.value.as_slice())?;
    Ok(())
}
