//! Writing capsules (RFC 9297, section 3.2).
ghost use Rattle.std.specs.Prelude.{◌≡◌, ◌+◌, ◌^◌, ◌<◌, ◌≤◌, ◌++◌, ◌⊎◌, ◌↔◌, length, take, Err, OnOk, OnErr};
ghost use Rattle.std.specs.Vec.{vec_len};
ghost use Rattle.mq_capsule.specs.Writing.{capsule_text, datagram};

use mq_wire::{WireFault, write_varint};

/// One more than the largest integer that can be written (RFC 9000, section 16).
const LIMIT: u64 = 0x4000_0000_0000_0000;

/// Writes a DATAGRAM capsule of Context ID 0 with this payload at the end. `TooLarge` is a payload of 2^62 - 1
/// bytes or more. An `Err` changes nothing.
pub fn write_datagram(out: &mut Vec<u8>, payload: &[u8]) -> Result<(), WireFault>
    ensures ok { OnOk result (out.new.items ≡ out.old.items ++ capsule_text (datagram payload.now)) }
    ensures err { OnErr result (out.new.items ≡ out.old.items) }
    ensures too_large { (result ≡ Err WireFault.TooLarge) ↔ (2 ^ 62 ≤ length payload.now + 1) }
{
    if payload.len() as u64 >= LIMIT - 1 {
        return Err(WireFault::TooLarge);
    }
    write(out, 0, &[0], payload)
}

/// Writes a capsule of this type and value at the end. `TooLarge` is a type or a length above 2^62 - 1. An `Err`
/// changes nothing.
pub fn write_control(out: &mut Vec<u8>, kind: u64, value: &[u8]) -> Result<(), WireFault>
    ensures ok { OnOk result (out.new.items ≡ out.old.items
        ++ capsule_text (record { kind = kind; value = value.now })) }
    ensures err { OnErr result (out.new.items ≡ out.old.items) }
    ensures too_large { (result ≡ Err WireFault.TooLarge) ↔ ((2 ^ 62 ≤ kind) ⊎ (2 ^ 62 ≤ length value.now)) }
{
    if kind >= LIMIT || value.len() as u64 >= LIMIT {
        return Err(WireFault::TooLarge);
    }
    write(out, kind, &[], value)
}

/// Writes a capsule whose value is a front and what stands behind it.
fn write(out: &mut Vec<u8>, kind: u64, front: &[u8], behind: &[u8]) -> Result<(), WireFault>
    requires kind { kind < 2 ^ 62 }
    requires size { length front.now + length behind.now < 2 ^ 62 }
    ensures ok { OnOk result (out.new.items ≡ out.old.items
        ++ capsule_text (record { kind = kind; value = front.now ++ behind.now })) }
    ensures err { OnErr result (out.new.items ≡ out.old.items) }
    ensures fits { ¬ (result ≡ Err WireFault.TooLarge) }
{
    let begun = out.len();
    let written = append(out, kind, front, behind);
    if written.is_err() {
        out.truncate(begun);
    }
    written
}

/// The same; an `Err` leaves a part of it.
fn append(out: &mut Vec<u8>, kind: u64, front: &[u8], behind: &[u8]) -> Result<(), WireFault>
    requires kind { kind < 2 ^ 62 }
    requires size { length front.now + length behind.now < 2 ^ 62 }
    ensures ok { OnOk result (out.new.items ≡ out.old.items
        ++ capsule_text (record { kind = kind; value = front.now ++ behind.now })) }
    ensures err { OnErr result (take (vec_len out.old) out.new.items ≡ out.old.items) }
    ensures fits { ¬ (result ≡ Err WireFault.TooLarge) }
{
    write_varint(out, kind)?;
    write_varint(out, (front.len() + behind.len()) as u64)?;
    out.extend_from_slice(front)?;
    out.extend_from_slice(behind)?;
    Ok(())
}
