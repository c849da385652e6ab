//! How a call of the outside went.

ghost use Rattle.std.specs.Prelude.{◌≡◌, ◌<◌};

/// How a call of the outside went: what was called waits, or there was nothing to call; it failed; or something was done, whose
/// note is in the caller's `told`.
#[derive(Clone, Copy, Debug, PartialEq, Eq)]
pub enum Went {
    Waits,
    Failed,
    Did,
}

/// So many bytes, as a size.
pub(crate) fn size_of(count: u32) -> usize
    ensures size { result ≡ count }
    ensures small { count < 4294967296 }
{
    count as usize
}
