//! Integers (RFC 7541, section 5.1).
ghost use Rattle.std.specs.Prelude.{◌≡◌, ◌≤◌, option_map};
ghost use Rattle.mq_hpack.specs.Integer.{further, integer_of};

/// Reads the integer at the front, whose first bits are the lowest ones of the first byte, and the bytes
/// after it. None where it is above 2^32 - 1, has more than five further bytes, or isn't whole.
pub fn read_integer(prefix: u32, bytes: &[u8]) -> Option<(u32, &[u8])>
    requires { (1 ≤ prefix) × (prefix ≤ 8) }
    ensures { option_map (λ x. (x.0, x.1.now)) result ≡ integer_of prefix bytes.now }
{
    let (first, rest) = bytes.split_first()?;
    let full = (1u64 << prefix) - 1;
    let low = u64::from(*first) % (1 << prefix);
    if low < full {
        return Some((low as u32, rest));
    }
    read_further(full, rest)
}

/// Goes on behind a first byte whose bits are all ones.
fn read_further(full: u64, bytes: &[u8]) -> Option<(u32, &[u8])>
    requires { full ≤ 255 }
    ensures { option_map (λ x. (x.0, x.1.now)) result ≡ further 5 1 full bytes.now }
{
    let mut number = full;
    let mut worth: u64 = 1;
    let mut rest = bytes;
    for _ in 0u32..5 {
        let (byte, after) = rest.split_first()?;
        if *byte < 128 {
            let whole = u32::try_from(number + u64::from(*byte) * worth).ok()?;
            return Some((whole, after));
        }
        number += (u64::from(*byte) - 128) * worth;
        worth *= 128;
        rest = after;
    }
    None
}
