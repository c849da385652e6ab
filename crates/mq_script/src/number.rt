//! Numbers in lines.
ghost use Rattle.mq_play.specs.Lines.{IsActor, most_room};
ghost use Rattle.mq_play.specs.Parts.{IsName, IsNumber, IsNumberOr};
ghost use Rattle.mq_script.specs.Reading.{IsFound};
ghost use Rattle.std.specs.Prelude.{◌≡◌, ◌+◌, ◌∷◌, [], ℕ, ◌<◌, ◌≤◌, Some, IfSome, codes};
ghost use Rattle.mq_text.specs.Number.{Spells};

use crate::hex_piece::single;
use mq_text::{parse_number, reads_one};

/// The number that stands for the network.
pub const NET: u32 = u32::MAX;

/// The highest number of a worker.
pub const LAST_WORKER: u32 = 3;

/// The most bytes that a link is said to take.
const MOST_ROOM: u32 = 2_147_483_647;

/// What a decimal digit counts.
fn digit_of(digit: u8) -> Option<u64>
    ensures { IfSome result (λ n. (n < 10) × (digit ≡ n + 48)) }
{
    if digit < b'0' || digit > b'9' {
        return None;
    }
    Some(u64::from(digit - b'0'))
}

/// Both bytes, where there are just two.
fn both(bytes: &[u8]) -> Option<(u8, u8)>
    ensures { IfSome result (λ p. bytes.now ≡ p.0 ∷ p.1 ∷ []) }
{
    match bytes {
        [first, second] => Some((*first, *second)),
        _ => None,
    }
}

/// The number that a text of one digit spells.
fn parse_digit(text: &[u8]) -> Option<u64>
    ensures { IfSome result (λ n. (n < 10) × Spells text.now n) }
{
    let digit = single(text)?;
    digit_of(digit)
}

/// The number that a text of two digits spells.
fn parse_two(text: &[u8]) -> Option<u64>
    ensures { IfSome result (λ n. (n < 100) × Spells text.now n) }
{
    let (first, second) = both(text)?;
    let tens = digit_of(first)?;
    let ones = digit_of(second)?;
    if tens == 0 {
        return None;
    }
    Some(10 * tens + ones)
}

/// The number that a text of one digit or two spells.
fn parse_short(text: &[u8]) -> Option<u64>
    ensures { IfSome result (λ n. (n < 100) × Spells text.now n) }
{
    match parse_digit(text) {
        Some(number) => Some(number),
        None => parse_two(text),
    }
}

/// The number, up to a limit, that a text spells in decimal. Most have one digit or two, which need no more.
fn number_up_to(limit: u64, text: &[u8]) -> Option<u64>
    ensures some { IfSome result (λ n. (n ≤ limit) × Spells text.now n) }
    ensures none { (n : ℕ) → n ≤ limit → Spells text.now n → result ≡ Some n }
{
    let Some(number) = parse_short(text) else {
        return parse_number(limit, text);
    };
    reads_one();
    if number > limit {
        return None;
    }
    Some(number)
}

/// The number within these limits that a text spells in decimal.
pub fn number_in(low: u32, high: u32, text: &[u8]) -> Option<u32>
    ensures { IsFound (IsNumber low high text.now) result }
{
    let number = number_up_to(u64::from(high), text)?;
    if number < u64::from(low) {
        return None;
    }
    Some(number as u32)
}

/// The number of a link, or of a tunnel.
pub fn parse_name(text: &[u8]) -> Option<u32>
    ensures { IsFound (IsName text.now) result }
{
    number_in(0, u32::MAX, text)
}

/// A worker's number, or the network's.
pub fn parse_actor(text: &[u8]) -> Option<u32>
    ensures { IsFound (IsActor text.now) result }
{
    match text {
        b"net" => Some(NET),
        _ => number_in(0, LAST_WORKER, text),
    }
}

/// How many bytes a link takes, where that is bounded.
pub fn parse_room(text: &[u8]) -> Option<Option<u32>>
    ensures { IsFound (IsNumberOr (codes "all") most_room text.now) result }
{
    match text {
        b"all" => Some(None),
        _ => Some(Some(number_in(0, MOST_ROOM, text)?)),
    }
}
