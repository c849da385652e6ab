//! What the words of the command line ask for.
ghost use Rattle.std.specs.Prelude.{◌≡◌, ℕ, ◌<◌, Bool, [], get_or, length, map, IfOk, OnErr, MatchOption};
ghost use Rattle.mq_target.specs.declared.target.Host.{Host};
ghost use Rattle.mq_words.specs.declared.command.Command.{Command};
ghost use Rattle.mq_words.specs.declared.words.Numbers.{Numbers};
ghost use Rattle.mq_words.specs.Reading.{AreNumbers, IsAsked, IsCount, IsHostWord, IsScript, IsSeed, IsShortText};
ghost use Rattle.mq_words.specs.Words.{AskOnce, AsksFor, begins_with_dash, version_text};

use crate::command::{Command, UdpWords};
use crate::parser::{asked_is_told, told_words};
use mq_addr::{Addr, one_addr, parse_addr};
use mq_target::{Host, host_of, one_host};
use mq_text::parse_number;
use mq_wire::NoMemory;
use std::alloc::Global;
use std::convert::AsStr;

/// The most packets of a generated script.
const MOST_COUNT: u64 = 50_000;

/// The seed of a generated script.
fn seed_of(text: &[u8]) -> Option<u64>
    ensures { MatchOption result ((n : ℕ) → ¬ (IsSeed text.now n)) (λ n. IsSeed text.now n) }
{
    parse_number(u64::MAX, text)
}

/// How many packets a generated script has.
fn count_of(text: &[u8]) -> Option<u32>
    ensures { MatchOption result ((n : ℕ) → ¬ (IsCount text.now n)) (λ n. IsCount text.now n) }
{
    match parse_number(MOST_COUNT, text) {
        Some(count) if count > 0 => Some(count as u32),
        _ => None,
    }
}

/// A port, or another number from 1 to 65,535.
fn short_of(text: &[u8]) -> Option<u16>
    ensures { MatchOption result ((n : ℕ) → ¬ (IsShortText text.now n)) (λ n. IsShortText text.now n) }
{
    match parse_number(65_535, text) {
        Some(number) if number > 0 => Some(number as u16),
        _ => None,
    }
}

/// Whether the version of HTTP is 2, and else 1.1.
fn version_of(text: &[u8]) -> Option<bool>
    ensures { MatchOption result ((h2 : Bool) → ¬ (text.now ≡ version_text h2)) (λ h2. text.now ≡ version_text h2) }
{
    match text {
        [b'h', b'1'] => Some(false),
        [b'h', b'2'] => Some(true),
        _ => None,
    }
}

fn begins_with_dash(text: &[u8]) -> bool
    ensures { result ≡ begins_with_dash text.now }
{
    match text {
        [] => false,
        [first, ..] => *first == b'-',
    }
}

/// The host of a target. Memory is asked for only where the text is a name.
fn target_of(alloc: Global, text: &[u8]) -> Result<Option<Host>, NoMemory>
    ensures err { OnErr result ((host : Host) × IsHostWord text.now host) }
    ensures ok { IfOk result (λ found. MatchOption found ((host : Host) → ¬ (IsHostWord text.now host)) (λ host. IsHostWord text.now host)) }
{
    if begins_with_dash(text) {
        return Ok(None);
    }
    host_of(alloc, text)
}

/// The word at a place.
fn word<S: AsStr>(words: &[S], at: usize) -> &[u8]
    requires { at < length words.now }
    ensures { result.now ≡ get_or (map S.text words.now) at [] }
{
    words[at].as_str().as_bytes()
}

/// What three words ask for.
fn script_of<S: AsStr>(words: &[S]) -> Option<Command>
    requires { length words.now ≡ 3 }
    ensures { MatchOption result ((command : Command) → ¬ (IsScript (map S.text words.now) command)) (λ command. IsScript (map S.text words.now) command) }
{
    let seed = seed_of(word(words, 1))?;
    let count = count_of(word(words, 2))?;
    let name = word(words, 0);
    if name == b"gen".as_slice() {
        return Some(Command::Gen { seed, count });
    }
    if name == b"soak".as_slice() {
        return Some(Command::Soak { seed, count });
    }
    None
}

/// What words say of a tunnel beside the target's host.
#[derive(Clone, Copy)]
pub struct Numbers {
    addr: Addr,
    port: u16,
    target_port: u16,
    h2: bool,
    count: u16,
}

/// What seven words say of a tunnel beside the target's host.
fn numbers_of<S: AsStr>(words: &[S]) -> Option<Numbers>
    requires { length words.now ≡ 7 }
    ensures { MatchOption result ((n : Numbers) → ¬ (AreNumbers (map S.text words.now) n)) (λ n. AreNumbers (map S.text words.now) n) }
{
    if word(words, 0) != b"udp".as_slice() {
        return None;
    }
    let Ok(addr) = parse_addr(word(words, 1)) else {
        return None;
    };
    let port = short_of(word(words, 2))?;
    let target_port = short_of(word(words, 4))?;
    let h2 = version_of(word(words, 5))?;
    let count = short_of(word(words, 6))?;
    Some(Numbers {
        addr,
        port,
        target_port,
        h2,
        count,
    })
}

/// What seven words ask for.
fn udp_of<S: AsStr>(alloc: Global, words: &[S]) -> Result<Option<Command>, NoMemory>
    requires { length words.now ≡ 7 }
    ensures err { OnErr result ((command : Command) × IsAsked (map S.text words.now) command) }
    ensures ok { IfOk result (λ found. MatchOption found ((command : Command) → ¬ (IsAsked (map S.text words.now) command)) (λ command. IsAsked (map S.text words.now) command)) }
{
    let Some(numbers) = numbers_of(words) else {
        return Ok(None);
    };
    let Some(host) = target_of(alloc, word(words, 3))? else {
        return Ok(None);
    };
    let Numbers {
        addr,
        port,
        target_port,
        h2,
        count,
    } = numbers;
    Ok(Some(Command::Udp(UdpWords {
        addr,
        port,
        host,
        target_port,
        h2,
        count,
    })))
}

/// What the table says that words ask for.
fn found_in<S: AsStr>(alloc: Global, words: &[S]) -> Result<Option<Command>, NoMemory>
    ensures err { OnErr result ((command : Command) × IsAsked (map S.text words.now) command) }
    ensures ok { IfOk result (λ found. MatchOption found ((command : Command) → ¬ (IsAsked (map S.text words.now) command)) (λ command. IsAsked (map S.text words.now) command)) }
{
    match words.len() {
        1 if word(words, 0) == b"replay".as_slice() => Ok(Some(Command::Replay)),
        3 => Ok(script_of(words)),
        7 => udp_of(alloc, words),
        _ => Ok(None),
    }
}

/// What these words ask for; `None` exactly where there is nothing that they ask for. Want of memory comes only where there is.
pub fn read_words(alloc: Global, words: &[String]) -> Result<Option<Command>, NoMemory>
    ensures err { OnErr result ((command : Command) × AsksFor words.now command) }
    ensures ok { IfOk result (λ found. MatchOption found ((command : Command) → ¬ (AsksFor words.now command)) (λ command. AsksFor words.now command)) }
{
    asked_is_told();
    // The table decides, and what is read is what clap tells.
    let Some(_) = found_in(alloc, words)? else {
        return Ok(None);
    };
    let told = told_words(alloc, words)?;
    found_in(alloc, told.as_slice())
}

/// Words ask for one thing at most.
pub fn asks_once()
    ensures { AskOnce }
{
    one_addr();
    one_host();
}
