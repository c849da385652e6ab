//! How long a text is in the code.
ghost use Rattle.std.specs.Prelude.{◌≡◌, ℕ, ◌+◌, ◌/◌, ◌^◌, ◌<◌, List, length};
ghost use Rattle.mq_huff.specs.Coded.{IsCoded, joined};

use crate::codes::code_at;

/// The number of bytes that `encode` writes for this text.
pub fn encoded_len(text: &[u8]) -> u64
    requires { length text.now < 2 ^ 62 }
    ensures len { result ≡ (length (joined text.now) + 7) / 8 }
    ensures coded { (coded : List ℕ) → IsCoded text.now coded → result ≡ length coded }
{
    let mut bits: u128 = 0;
    for byte in text {
        bits += u128::from(code_at(*byte).size);
    }
    ((bits + 7) / 8) as u64
}
