//! The lines of a script.
ghost use Rattle.std.specs.Prelude.{◌≡◌, ◌⊎◌, ◌↔◌, IfOk, IsTrue};
ghost use Rattle.mq_play.specs.declared.line.Line.{Line};
ghost use Rattle.mq_play.specs.declared.word.Word.TheVariants as word;
ghost use Rattle.mq_play.specs.Lines.{IsAlone, IsBlank, IsWord, Says, SaysBehind, SaysNothing};
ghost use Rattle.mq_play.specs.Parts.{Parted};
ghost use Rattle.mq_script.specs.Reading.{IsFound, IsParsed};

use crate::fault::LineFault;
use crate::happen::{
    parse_bytes, parse_conn, parse_dgram, parse_end, parse_fail_port, parse_fail_read,
    parse_fail_write, parse_fill, parse_link_room, parse_packets, parse_said,
};
use crate::setting::parse_setting;
use crate::steps::{parse_run, parse_step};
use crate::word::parse_word;
use mq_machine::Event;
use mq_play::{Line, Setting, SettingWord, Word, one_saying};
use mq_text::{cut, cut_once};
use std::alloc::Global;

/// Whether a line is empty or a comment.
fn is_blank(line: &[u8]) -> bool
    ensures { IsTrue result ↔ IsBlank line.now }
{
    match line {
        [] => true,
        [first, ..] => *first == b'#',
    }
}

/// What a line orders that is one word.
fn parse_alone(line: &[u8]) -> Option<Event>
    ensures { IsFound (IsAlone line.now) result }
{
    match line {
        b"failbind" => Some(Event::FailBind),
        b"failnet" => Some(Event::FailNet),
        _ => None,
    }
}

/// The setting that stands behind its first word and a space.
#[inline(never)]
fn parse_setting_line(alloc: Global, first: SettingWord, rest: &[u8]) -> Result<Line, LineFault>
    ensures { IsParsed (SaysBehind (word.Setting first) rest.now) result }
{
    let setting = parse_setting(alloc, first, rest)?;
    let boxed = Setting::new(alloc, setting)?;
    Ok(Line::Setting(boxed))
}

/// What stands behind a word and a space.
fn parse_behind(alloc: Global, word: Word, rest: &[u8]) -> Result<Line, LineFault>
    ensures { IsParsed (SaysBehind word rest.now) result }
{
    match word {
        Word::Setting(word) => parse_setting_line(alloc, word, rest),
        Word::Conn => parse_conn(rest),
        Word::Bytes => parse_bytes(alloc, rest),
        Word::Text => parse_said(alloc, rest),
        Word::Fill => parse_fill(alloc, rest),
        Word::End => parse_end(rest),
        Word::Room => parse_link_room(rest),
        Word::FailRead => parse_fail_read(rest),
        Word::FailWrite => parse_fail_write(rest),
        Word::Dgram => parse_dgram(alloc, rest),
        Word::FailPort => parse_fail_port(rest),
        Word::Packet => parse_packets(alloc, rest),
        Word::Step => parse_step(rest),
        Word::Run => parse_run(rest),
    }
}

/// A line that begins with a word and a space.
fn parse_words(alloc: Global, line: &[u8]) -> Result<Line, LineFault>
    ensures { IsParsed (Parted IsWord SaysBehind line.now) result }
{
    cut_once();
    let Some((text, rest)) = cut(b' ', line) else {
        return Err(LineFault::Syntax);
    };
    let Some(word) = parse_word(text) else {
        return Err(LineFault::Syntax);
    };
    parse_behind(alloc, word, rest)
}

/// What a line, without its newline, says. The limit on a line's length is the caller's to keep.
pub fn parse_line(alloc: Global, line: &[u8]) -> Result<Line, LineFault>
    ensures ok { IfOk result (Says line.now) }
    ensures syntax { result ≡ Err LineFault.Syntax → SaysNothing line.now }
    ensures found { (said : Line) → Says line.now said → (result ≡ Ok said) ⊎ (result ≡ Err LineFault.NoMemory) }
{
    one_saying();
    if is_blank(line) {
        return Ok(Line::Blank);
    }
    if let Some(event) = parse_alone(line) {
        return Ok(Line::Happens(event));
    }
    parse_words(alloc, line)
}
