//! DATA frames of the bytes of capsules (RFC 9113, sections 4.2 and 6.1).
ghost use Rattle.std.specs.Prelude.{◌≡◌, ◌++◌, take, OnOk, OnErr, vec_len};
ghost use Rattle.mq_client.specs.Sending.{data_frames};

use crate::parts::STREAM;
use mq_frame::write_data;
use mq_wire::NoMemory;

/// The largest contents of a frame. The proxy may allow larger ones, which aren't used.
const MAX_FRAME: usize = 16_384;

/// Writes DATA frames with these bytes at the end. An `Err` leaves some of them behind what stood there.
pub fn write_parts(out: &mut Vec<u8>, bytes: &[u8]) -> Result<(), NoMemory>
    ensures ok { OnOk result (out.new.items ≡ out.old.items ++ data_frames bytes.now) }
    ensures err { OnErr result (take (vec_len out.old) out.new.items ≡ out.old.items) }
{
    let mut rest = bytes;
    for _ in 0..bytes.len() {
        if rest.is_empty() {
            return Ok(());
        }
        let (part, after) = rest.split_at(MAX_FRAME.min(rest.len()));
        write_data(out, STREAM, part, &[], false)?;
        rest = after;
    }
    Ok(())
}
