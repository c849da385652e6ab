//! Addresses and prefixes as texts (RFC 5952, section 4, without dotted parts in IPv6).
ghost use Rattle.std.specs.Prelude.{◌≡◌, ◌<◌, ◌≤◌, ◌+◌, ◌-◌, ◌*◌, ◌++◌, length, decimal};
ghost use Rattle.std.specs.Char.{digit_char};
ghost use Rattle.std.specs.Str.{IsAscii};
ghost use Rattle.std.specs.Net.Text.{groups_text, hex, ipv4_text, leading_zero_digits, longest_zero_run, hex_groups_text};
ghost use Rattle.mq_addr.specs.Printed.{IsReadAgain, addr_text_of, prefix_text_of};

use crate::{Addr, Prefix, Text};
use std::net::Ipv6Addr;

/// An address as four decimals, or as groups of hex digits in lower case with `::` for the first longest run of two or
/// more zero groups. An IPv4-mapped address is printed like every other.
#[tactic(auto, unfolding(crate::specs::Printed::addr_text_of, std::specs::Net::Addr::IsIpv6OfBits))]
pub fn addr_text(addr: &Addr) -> Text
    ensures value { result ≡ addr_text_of addr.now }
    ensures short { length result ≤ 39 }
{
    let mut text = Text::new();
    match *addr {
        Addr::V4(bits) => push_ipv4(&mut text, bits.to_be_bytes()),
        Addr::V6(bits) => push_ipv6(&mut text, Ipv6Addr::from_bits(bits).segments()),
    }
    text
}

/// An address, `/` and its prefix length, also where the length is the full one.
#[tactic(auto, unfolding(crate::specs::Printed::prefix_text_of))]
pub fn prefix_text(block: &Prefix) -> Text
    ensures { result ≡ prefix_text_of block.now }
{
    let mut text = addr_text(&block.addr);
    text.push(b'/');
    push_decimal(&mut text, block.length);
    text
}

/// What is printed of an address or a prefix is read again as that.
pub fn printed_again()
    ensures { IsReadAgain }
{}

/// Four decimals with dots between them.
fn push_ipv4(text: &mut Text, octets: [u8; 4])
    requires { length text.old ≤ 28 }
    ensures value { text.new ≡ text.old ++ ipv4_text octets }
    ensures short { length text.new ≤ length text.old + 15 }
{
    let [a, b, c, d] = octets;
    push_decimal(text, a);
    text.push(b'.');
    push_decimal(text, b);
    text.push(b'.');
    push_decimal(text, c);
    text.push(b'.');
    push_decimal(text, d);
}

/// A number in decimal.
fn push_decimal(text: &mut Text, n: u8)
    requires { length text.old ≤ 40 }
    ensures value { text.new ≡ text.old ++ decimal n }
    ensures short { length text.new ≤ length text.old + 3 }
{
    match n {
        100.. => text.append(&[b'0' + n / 100, b'0' + n / 10 % 10, b'0' + n % 10]),
        10.. => text.append(&[b'0' + n / 10, b'0' + n % 10]),
        _ => text.push(b'0' + n),
    }
}

/// Eight groups, the first longest run of zeros as `::` where it has two groups or more.
#[tactic(auto, unfolding(std::specs::Net::Text::hex_groups_text))]
fn push_ipv6(text: &mut Text, segments: [u16; 8])
    requires { length text.old ≤ 4 }
    ensures value { text.new ≡ text.old ++ hex_groups_text segments }
    ensures short { length text.new ≤ length text.old + 39 }
{
    let segments = &segments[..];
    let (start, count) = longest_zero_run(segments);
    if count > 1 {
        let (head, rest) = segments.split_at(start);
        let (_, tail) = rest.split_at(count);
        push_groups(text, head);
        text.append(b"::");
        push_groups(text, tail);
    } else {
        push_groups(text, segments);
    }
}

/// Groups with colons between them.
fn push_groups(text: &mut Text, groups: &[u16])
    requires { length text.old + 5 * length groups.now ≤ 44 }
    ensures value { text.new ≡ text.old ++ groups_text groups.now }
    ensures short { length text.new ≤ length text.old + (5 * length groups.now - 1) }
{
    if let [first, rest @ ..] = groups {
        push_hex(text, *first);
        for group in rest {
            text.push(b':');
            push_hex(text, *group);
        }
    }
}

/// A group in lower-case hex, without leading zeros.
#[tactic(auto, unfolding(std::specs::Net::Text::hex))]
fn push_hex(text: &mut Text, group: u16)
    requires { length text.old ≤ 39 }
    ensures value { text.new ≡ text.old ++ hex group }
    ensures short { length text.new ≤ length text.old + 4 }
{
    let digits = [
        hex_digit(group / 0x1000),
        hex_digit(group / 0x100 % 16),
        hex_digit(group / 0x10 % 16),
        hex_digit(group % 16),
    ];
    let (_, shown) = digits.split_at(leading_zeros(group));
    text.append(shown);
}

/// How many of a group's four hex digits are zeros before the first other, the last digit apart.
fn leading_zeros(group: u16) -> usize
    ensures value { result ≡ leading_zero_digits group }
    ensures small { result < 4 }
{
    match group {
        0x1000.. => 0,
        0x100.. => 1,
        0x10.. => 2,
        _ => 3,
    }
}

/// A digit in lower case.
fn hex_digit(digit: u16) -> u8
    requires { digit < 16 }
    ensures value { result ≡ digit_char digit }
    ensures ascii { result < 128 }
{
    if digit < 10 {
        b'0' + digit as u8
    } else {
        b'a' + (digit - 10) as u8
    }
}

/// The start and the length of the longest run of zeros, and of two such runs the first.
fn longest_zero_run(groups: &[u16]) -> (usize, usize)
    ensures value { result ≡ longest_zero_run groups.now }
    ensures within { result.0 + result.1 ≤ length groups.now }
{
    let mut start = groups.len();
    let mut longest = 0;
    let mut run = 0;
    for i in (0..groups.len()).rev() {
        run = if groups[i] == 0 { run + 1 } else { 0 };
        if run >= longest {
            start = i;
            longest = run;
        }
    }
    (start, longest)
}
