//! Short texts in place of the first bytes of a head: what follows decides the same behind both.
ghost use Rattle.std.specs.Prelude.{◌≡◌, ◌++◌, take, option_map, IfOk};
ghost use Rattle.mq_head.specs.Short.{has, behind, last_line, behind_target, word_run, short_line, line_run, short, run_of};

use crate::line::skip_line_bytes;
use crate::run::Run;
use mq_wire::NoMemory;
use std::alloc::Global;

fn has(byte: u8, bytes: &[u8]) -> bool
    ensures { result ≡ has byte bytes.now }
{
    bytes.iter().any(|b| *b == byte)
}

/// The bytes behind the first such byte.
fn behind(byte: u8, mut bytes: &[u8]) -> Option<&[u8]>
    ensures { option_map (λ p. p.now) result ≡ behind byte bytes.now }
{
    while let [first, rest @ ..] = bytes {
        if *first == byte {
            return Some(rest);
        }
        bytes = rest;
    }
    None
}

/// The bytes behind the last LF.
fn last_line(mut bytes: &[u8]) -> &[u8]
    ensures { result.now ≡ last_line bytes.now }
{
    while let Some(rest) = behind(b'\n', bytes) {
        bytes = rest;
    }
    bytes
}

/// The bytes behind the second space.
fn behind_target(line: &[u8]) -> Option<&[u8]>
    ensures { option_map (λ p. p.now) result ≡ behind_target line.now }
{
    match behind(b' ', line) {
        Some(target) => behind(b' ', target),
        None => None,
    }
}

fn first_byte(line: &[u8]) -> &[u8]
    ensures { result.now ≡ take 1 line.now }
{
    let (first, _) = line.split_at(line.len().min(1));
    first
}

/// The run of an unfinished line that has no colon.
fn word_run(line: &[u8]) -> Run
    ensures { result ≡ word_run line.now }
{
    match line {
        [] => Run::Ended,
        [b'\r', ..] => Run::Ended,
        [_, ..] => Run::Token,
    }
}

/// What stands for an unfinished field line, and its run.
#[tactic(auto, unfolding(crate::specs::Short::short_line))]
fn short_line(line: &[u8]) -> (&[u8], Run)
    ensures text { result.0.now ≡ short_line line.now }
    ensures run { result.1 ≡ line_run line.now }
{
    if !has(b':', line) {
        (first_byte(line), word_run(line))
    } else if has(b'\r', line) {
        (b"A:\r", Run::Ended)
    } else {
        (b"A:", Run::Value)
    }
}

fn joined(alloc: Global, front: &[u8], rest: &[u8]) -> Result<Vec<u8>, NoMemory>
    ensures { IfOk result (λ text. text.items ≡ front.now ++ rest.now) }
{
    let mut text = Vec::from_slice(alloc, front)?;
    text.extend_from_slice(rest)?;
    Ok(text)
}

/// A text of at most 16 bytes that stands for bytes that can become a head and don't end inside the request target, and
/// the run at their end.
#[tactic(auto, unfolding(crate::specs::Short::short))]
pub fn short(alloc: Global, bytes: &[u8]) -> Result<(Vec<u8>, Run), NoMemory>
    ensures text { IfOk result (λ r. r.0.items ≡ short bytes.now) }
    ensures run { IfOk result (λ r. r.1 ≡ run_of bytes.now) }
{
    let Some(version) = behind_target(skip_line_bytes(bytes)) else {
        let line = last_line(bytes);
        let text = joined(alloc, b"", first_byte(line))?;
        return Ok((text, word_run(line)));
    };
    let Some(section) = behind(b'\n', version) else {
        let text = joined(alloc, b"A / ", version)?;
        return Ok((text, Run::Ended));
    };
    let (line, run) = short_line(last_line(section));
    let text = joined(alloc, b"A / HTTP/1.1\n", line)?;
    Ok((text, run))
}
