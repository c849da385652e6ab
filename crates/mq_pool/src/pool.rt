//! The least free block of a pool.
ghost use Rattle.std.specs.Prelude.{◌≡◌, ◌≤◌};
ghost use Rattle.mq_addr.specs.Block.{width, bits_of};
ghost use Rattle.mq_addr.specs.Cover.{IsLeast, IsLeastFree};
ghost use Rattle.mq_pool.specs.Search.{IsFormat, IsHere, earlier};

use crate::search::first_spare;
use mq_addr::{Prefix, number, version_of, within_by_bits};

/// The free block of this version and length that starts first: it lies in a block of the pool, and has no address of a
/// taken one. The blocks of the pool need not be apart. This looks through the taken blocks once for each that is in the
/// way, and not at every block of the pool.
pub fn least_free(pool: &[Prefix], taken: &[Prefix], version: u8, length: u8) -> Option<Prefix>
    requires { IsFormat version length }
    ensures { IsLeastFree pool.now taken.now version length result }
{
    let mut best = None;
    for whole in pool {
        best = earlier(best, first_in(whole, taken, version, length));
    }
    best
}

/// The first free block of this version and length in one block of the pool.
fn first_in(whole: &Prefix, taken: &[Prefix], version: u8, length: u8) -> Option<Prefix>
    requires { IsFormat version length }
    ensures { IsLeast (λ block. IsHere whole.now taken.now version length block) result }
{
    within_by_bits();
    if version_of(&whole.addr) == version {
        first_spare(whole, taken, length)
    } else {
        None
    }
}

/// Of two finds the one that starts first.
fn earlier(a: Option<Prefix>, b: Option<Prefix>) -> Option<Prefix>
    ensures { result ≡ earlier a b }
{
    match (a, b) {
        (Some(first), Some(second)) if number(&first.addr) <= number(&second.addr) => Some(first),
        (Some(first), None) => Some(first),
        _ => b,
    }
}
