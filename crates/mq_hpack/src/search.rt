//! Where the static table has a field, or its name.
//!
//! The length of a name, with its first and last byte, tells the names of the table apart, so that one name is
//! compared. The fields that share a name stand next to one another.
ghost use Rattle.std.specs.Prelude.{◌≡◌, ◌<◌, Some, IfSome};
ghost use Rattle.mq_hpack.specs.Encoder.{IsLeast};
ghost use Rattle.mq_hpack.specs.Slot.{slot};

use crate::field::Field;
use crate::static_table::{COUNT, static_field};

/// The least place of this name, from 0 on.
pub fn place_of_name(name: &[u8]) -> Option<usize>
    ensures least { IsLeast (λ g. g.name ≡ name.now) result }
    ensures within { IfSome result (λ at. at < 61) }
{
    let at = usize::from(PLACES[slot_of(name)]);
    if static_field(at).0 == name {
        Some(at)
    } else {
        None
    }
}

/// The least place of this field, from 0 on, where the least place of its name is known.
pub fn place_of_field(from: usize, field: &Field) -> Option<usize>
    requires { IsLeast (λ g. g.name ≡ field.now.name) (Some from) }
    ensures least { IsLeast (λ g. g ≡ field.now) result }
    ensures within { IfSome result (λ at. at < 61) }
{
    let name = field.name.as_slice();
    let value = field.value.as_slice();
    for at in from..COUNT {
        let there = static_field(at);
        if there.0 != name {
            return None;
        }
        if there.1 == value {
            return Some(at);
        }
    }
    None
}

/// The slot of a name. No two names of the static table have the same.
fn slot_of(name: &[u8]) -> usize
    ensures same { result ≡ slot name.now }
    ensures within { result < 256 }
{
    if name.is_empty() {
        return 0;
    }
    let first = usize::from(name[0]);
    let last = usize::from(name[name.len() - 1]);
    (name.len() + first * 10 + last * 4) % 256
}

/// The least place of the name that has this slot. Where none has it, any place serves, since its name is compared.
#[rattlefmt::skip]
static PLACES: [u8; 256] = [
    0, 0, 0, 0, 0, 0, 47, 0, 0, 0, 0, 0, 0, 49, 0, 0,
    0, 0, 0, 0, 0, 0, 0, 7, 0, 0, 46, 51, 54, 0, 0, 0,
    0, 0, 0, 59, 0, 0, 0, 0, 0, 0, 0, 48, 0, 0, 0, 0,
    0, 0, 0, 0, 0, 56, 0, 0, 0, 0, 0, 0, 0, 0, 0, 0,
    0, 0, 0, 50, 0, 0, 0, 52, 0, 0, 60, 0, 53, 0, 0, 0,
    0, 0, 0, 0, 0, 0, 0, 0, 0, 0, 0, 0, 0, 0, 0, 0,
    0, 20, 0, 0, 0, 0, 0, 0, 0, 0, 0, 0, 57, 16, 0, 0,
    0, 0, 0, 0, 0, 15, 0, 0, 31, 0, 0, 55, 0, 0, 30, 29,
    32, 0, 26, 0, 58, 0, 0, 0, 0, 0, 25, 0, 27, 0, 0, 22,
    0, 0, 33, 0, 0, 0, 0, 0, 0, 0, 0, 23, 0, 19, 0, 0,
    18, 0, 0, 17, 0, 0, 28, 0, 14, 24, 0, 21, 0, 0, 0, 0,
    0, 0, 0, 0, 36, 0, 41, 0, 0, 0, 0, 0, 0, 0, 0, 39,
    0, 42, 38, 0, 0, 35, 0, 40, 34, 0, 0, 0, 0, 0, 0, 0,
    0, 0, 0, 0, 0, 43, 0, 0, 0, 0, 0, 1, 0, 0, 0, 5,
    0, 0, 0, 0, 37, 0, 0, 0, 44, 3, 0, 0, 0, 0, 0, 0,
    0, 0, 0, 0, 0, 0, 0, 0, 45, 0, 0, 0, 0, 0, 0, 0,
];
