//! The first lines of a generated script.
ghost use Rattle.std.specs.Prelude.{◌≡◌, ◌<◌, ◌++◌, [], slice_index_or};
ghost use Rattle.mq_script.specs.Generated.{opening_lines, request};
ghost use Rattle.mq_script.specs.Words.{Appends};

use crate::part::append;
use mq_wire::NoMemory;

/// How many they are.
pub const OPENING: u8 = 17;

/// Appends the line of a request, behind its first two words.
fn append_request(out: &mut Vec<u8>, words: &[u8]) -> Result<(), NoMemory>
    ensures { Appends out.old.items (words.now ++ request) out.new.items result }
{
    append(out, words)?;
    append(
        out,
        b" GET /.well-known/masque/ip/*/*/ HTTP/1.1\\r\\nHost: p\\r\\nConnection: Upgrade\\r\\nUpgrade: connect-ip\\r\\n\\r\\n",
    )
}

/// Appends the line of this number, counted from 0; an `Err` leaves a part of it.
#[tactic(auto, unfolding(crate::specs::Generated::opening_lines))]
pub fn append_opening(out: &mut Vec<u8>, number: u8) -> Result<(), NoMemory>
    requires { number < OPENING }
    ensures { Appends out.old.items (slice_index_or opening_lines number []) out.new.items result }
{
    match number {
        0 => append(out, b"workers 2"),
        1 => append(out, b"pool 10.0.0.0/16"),
        2 => append(out, b"route 0.0.0.0 255.255.255.255 0"),
        3 => append(out, b"host 203.0.113.5"),
        4 | 6 => append(out, b"conn 0"),
        5 | 7 => append(out, b"conn 1"),
        8 => append_request(out, b"text 0"),
        9 => append(out, b"bytes 0 020701040a00000020"),
        10 => append_request(out, b"text 1"),
        11 => append(out, b"bytes 1 020701040a00000120"),
        12 => append_request(out, b"text 2"),
        13 => append(out, b"bytes 2 020701040a00000220"),
        14 => append_request(out, b"text 3"),
        15 => append(out, b"bytes 3 020701040a00000320"),
        _ => append(out, b"run 1000"),
    }
}
