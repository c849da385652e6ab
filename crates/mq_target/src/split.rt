//! A path cut into the values of a template's variables.
ghost use Rattle.std.specs.Prelude.{◌≡◌, ◌++◌, ℕ, List, MatchOption, false, true, length, take, drop, ◌≤◌};
ghost use Rattle.std.specs.List.{list_all};
ghost use Rattle.mq_target.specs.Classes.{begins, is_value_byte};
ghost use Rattle.mq_target.specs.Matching.{IsValue, SplitsAt};

use crate::classes::is_value_byte;

/// The two values, where the path is these literals with values between them, each as long as it can be. Goes once over
/// the path.
pub fn split<'a>(
    before: &[u8],
    between: &[u8],
    after: &[u8],
    path: &'a [u8],
) -> Option<(&'a [u8], &'a [u8])>
    ensures { MatchOption result
        ((first second : List ℕ) → ¬ (SplitsAt before.now between.now after.now path.now first second))
        (λ found. SplitsAt before.now between.now after.now path.now found.0.now found.1.now) }
{
    let rest = match behind(before, path) {
        None => return None,
        Some(rest) => rest,
    };
    let (first, rest) = match value_at(rest) {
        None => return None,
        Some(parts) => parts,
    };
    let rest = match behind(between, rest) {
        None => return None,
        Some(rest) => rest,
    };
    let (second, rest) = match value_at(rest) {
        None => return None,
        Some(parts) => parts,
    };
    if rest == after {
        Some((first, second))
    } else {
        None
    }
}

/// What stands behind a front.
fn behind<'a>(front: &[u8], text: &'a [u8]) -> Option<&'a [u8]>
    ensures { MatchOption result ((rest : List ℕ) → ¬ (text.now ≡ front.now ++ rest)) (λ rest. text.now ≡ front.now ++ rest.now) }
{
    text.strip_prefix(front)
}

/// The value at the front, which is as long as it can be, and what stands behind it.
fn value_at(text: &[u8]) -> Option<(&[u8], &[u8])>
    ensures { MatchOption result (begins is_value_byte text.now ≡ false)
        (λ found. (text.now ≡ found.0.now ++ found.1.now) × IsValue found.0.now × (begins is_value_byte found.1.now ≡ false)) }
{
    let end = value_len(text);
    if end == 0 {
        return None;
    }
    Some(text.split_at(end))
}

/// How many bytes of values stand at the front.
fn value_len(text: &[u8]) -> usize
    ensures within { result ≤ length text.now }
    ensures all { list_all is_value_byte (take result text.now) ≡ true }
    ensures longest { begins is_value_byte (drop result text.now) ≡ false }
{
    let mut len = 0;
    for byte in text {
        if !is_value_byte(*byte) {
            break;
        }
        len += 1;
    }
    len
}
