//! Values as a path holds them: all but the unreserved bytes are escaped (RFC 3986, sections 2.1 and 2.3).
ghost use Rattle.std.specs.Prelude.{◌≡◌, ◌++◌, OnOk};
ghost use Rattle.mq_target.specs.Expansion.{escaped, escaped_byte};

use crate::classes::is_unreserved;
use mq_wire::NoMemory;
use percent_encoding::percent_encode_byte;

/// Puts a text with its escapes at the end.
pub fn escape_onto(out: &mut Vec<u8>, text: &[u8]) -> Result<(), NoMemory>
    ensures { OnOk result (out.new.items ≡ out.old.items ++ escaped text.now) }
{
    for byte in text {
        escape_byte(out, *byte)?;
    }
    Ok(())
}

/// Puts one byte or its escape at the end.
fn escape_byte(out: &mut Vec<u8>, byte: u8) -> Result<(), NoMemory>
    ensures { OnOk result (out.new.items ≡ out.old.items ++ escaped_byte byte) }
{
    if is_unreserved(byte) {
        out.push(byte)?;
    } else {
        out.extend_from_slice(percent_encode_byte(byte).as_bytes())?;
    }
    Ok(())
}
