//! The lines of a generated script by which a packet arrives and someone takes steps, by the number that was drawn for them.
ghost use Rattle.std.specs.Prelude.{◌≡◌};
ghost use Rattle.mq_script.specs.Generated.{piece_line, step_line};
ghost use Rattle.mq_script.specs.Words.{Appends};

use crate::packet::{capsule, client};
use crate::part::{append, append_hex, append_number};
use mq_wire::NoMemory;
use std::alloc::Global;

/// Appends the line by which the packet of this number arrives; an `Err` leaves a part of it.
pub fn append_piece(
    alloc: Global,
    out: &mut Vec<u8>,
    drawn: u32,
    number: u32,
) -> Result<(), NoMemory>
    ensures { Appends out.old.items (piece_line drawn number) out.new.items result }
{
    let capsule = capsule(alloc, drawn, number)?;
    append(out, b"bytes ")?;
    append_number(out, u64::from(client(drawn)))?;
    append(out, b" ")?;
    append_hex(out, capsule.as_slice())
}

/// Appends the line by which someone takes two steps; an `Err` leaves a part of it.
#[tactic(auto, unfolding(crate::specs::Generated::step_line))]
pub fn append_step(out: &mut Vec<u8>, drawn: u32) -> Result<(), NoMemory>
    ensures { Appends out.old.items (step_line drawn) out.new.items result }
{
    match drawn / 160 % 3 {
        0 => append(out, b"step 0 2"),
        1 => append(out, b"step 1 2"),
        _ => append(out, b"step net 2"),
    }
}
