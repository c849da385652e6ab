//! The bytes that are still to be written.
ghost use Rattle.std.specs.Prelude.{◌≤◌, ◌+◌, vec_len};

/// Bytes for writing, of which the first were written. Those go once they are half of all, so that writing moves no byte
/// more often than once for each byte that was written.
#[derive(Drop)]
pub struct Owed {
    pub bytes: Vec<u8>,
    pub written: usize,
    ghost half: { written + written ≤ vec_len bytes },
}
