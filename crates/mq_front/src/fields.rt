//! The fields of answers (RFC 9113, section 8.3.2, and RFC 9297, section 3.4).
ghost use Rattle.std.specs.Prelude.{◌≡◌, ◌∷◌, [], IfOk};
ghost use Rattle.mq_machine.specs.Http2.{status_field, capsule_field};

use itoa::Buffer;
use mq_hpack::{Field, Text};
use mq_wire::NoMemory;
use std::alloc::Global;

/// The status of a response.
fn status_field(alloc: Global, status: u16) -> Result<Field, NoMemory>
    ensures { IfOk result (λ field. field ≡ status_field status) }
{
    let mut digits = Buffer::new();
    Ok(Field {
        name: Text::copy_of(alloc, b":status")?,
        value: Text::copy_of(alloc, digits.format(status).as_bytes())?,
    })
}

/// It says that the data stream is one of capsules.
fn capsule_field(alloc: Global) -> Result<Field, NoMemory>
    ensures { IfOk result (λ field. field ≡ capsule_field) }
{
    Ok(Field {
        name: Text::copy_of(alloc, b"capsule-protocol")?,
        value: Text::copy_of(alloc, b"?1")?,
    })
}

/// The fields of the answer to a request that is granted.
pub fn grant_fields(alloc: Global) -> Result<Vec<Field>, NoMemory>
    ensures { IfOk result (λ fields. fields.items ≡ status_field 200 ∷ capsule_field ∷ []) }
{
    let mut fields = Vec::with_capacity(alloc, 2)?;
    fields.push(status_field(alloc, 200)?)?;
    fields.push(capsule_field(alloc)?)?;
    Ok(fields)
}

/// The fields of the answer to a request that is refused.
pub fn refusal_fields(alloc: Global, status: u16) -> Result<Vec<Field>, NoMemory>
    ensures { IfOk result (λ fields. fields.items ≡ status_field status ∷ []) }
{
    let mut fields = Vec::with_capacity(alloc, 1)?;
    fields.push(status_field(alloc, status)?)?;
    Ok(fields)
}
