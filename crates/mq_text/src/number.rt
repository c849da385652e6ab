//! Decimal numbers without a sign or leading zeros.
ghost use Rattle.std.specs.Prelude.{◌≡◌, ◌≢◌, ℕ, ◌<◌, ◌≤◌, ◌^◌, List, length, get_or, IsTrue, IfSome, ◌↔◌};
ghost use Rattle.std.specs.Str.Parse.{IsNumeral, digits_value};
ghost use Rattle.mq_text.specs.Number.{Spells, IsReadAlone};

/// Whether a text begins as a number does: with a digit, and with a zero only where that is all of it.
fn begins_number(text: &[u8]) -> bool
    ensures digit { IsTrue result → (48 ≤ get_or text.now 0 0) × (get_or text.now 0 0 ≤ 57) × (0 < length text.now) }
    ensures zero { IsTrue result → get_or text.now 0 0 ≡ 48 → length text.now ≡ 1 }
    ensures other { (n : ℕ) → n < 2 ^ 64 → Spells text.now n → IsTrue result }
{
    match text {
        [] => false,
        [only] => *only >= b'0' && *only <= b'9',
        [first, _, ..] => *first > b'0' && *first <= b'9',
    }
}

/// Whether a text begins with a sign.
fn begins_plus(text: &[u8]) -> bool
    ensures { IsTrue result ↔ (get_or text.now 0 0 ≡ 43) }
{
    match text {
        [] => false,
        [first, ..] => *first == b'+',
    }
}

/// The number that one or more decimal digits tell, which may begin with zeros; None where it is 2^64 or more.
pub fn parse_digits(text: &[u8]) -> Option<u64>
    ensures some { IfSome result (λ n. IsNumeral 10 text.now × (n ≡ digits_value 10 text.now) × (n < 2 ^ 64)) }
    ensures none { IsNumeral 10 text.now → digits_value 10 text.now < 2 ^ 64 → result ≡ Some (digits_value 10 text.now) }
{
    if begins_plus(text) {
        return None;
    }
    match str::from_utf8(text) {
        Ok(text) => text.parse::<u64>().ok(),
        Err(_) => None,
    }
}

/// The number that digits spell, where they begin as a number does.
fn parse_spelled(text: &[u8]) -> Option<u64>
    ensures some { IfSome result (λ n. 48 ≤ get_or text.now 0 0 → (get_or text.now 0 0 ≡ 48 → length text.now ≡ 1) → Spells text.now n) }
    ensures none { (n : ℕ) → n < 2 ^ 64 → Spells text.now n → result ≡ Some n }
{
    match parse_digits(text) {
        Some(number) => Some(number),
        None => None,
    }
}

/// The number, up to a limit, that a text spells in decimal.
pub fn parse_number(limit: u64, text: &[u8]) -> Option<u64>
    ensures some { IfSome result (λ n. (n ≤ limit) × Spells text.now n) }
    ensures none { (n : ℕ) → n ≤ limit → Spells text.now n → result ≡ Some n }
{
    if !begins_number(text) {
        return None;
    }
    match parse_spelled(text) {
        Some(number) if number <= limit => Some(number),
        _ => None,
    }
}

/// A text spells at most one number below 2^64.
pub fn reads_one()
    ensures { IsReadAlone }
{}
