//! Settings that tell the address of a name.
ghost use Rattle.mq_play.specs.declared.word.SettingWord.TheVariants as word;
ghost use Rattle.mq_play.specs.Settings.{IsNamed, SaysSetting};
ghost use Rattle.mq_script.specs.Reading.{IsParsed};

use crate::fault::LineFault;
use mq_addr::{one_addr, parse_addr};
use mq_play::SettingLine;
use mq_target::Name;
use mq_text::{cut, cut_once};
use std::alloc::Global;

/// The name that a text is, in lower case.
fn parse_host_name(alloc: Global, text: &[u8]) -> Result<Name, LineFault>
    ensures { IsParsed (IsNamed text.now) result }
{
    match Name::of(alloc, text)? {
        Some(name) => Ok(name),
        None => Err(LineFault::Syntax),
    }
}

/// What stands behind `name`: a name, which is taken in lower case, and its address.
pub fn parse_name_setting(alloc: Global, rest: &[u8]) -> Result<SettingLine, LineFault>
    ensures { IsParsed (SaysSetting word.Name rest.now) result }
{
    cut_once();
    one_addr();
    let Some((said, text)) = cut(b' ', rest) else {
        return Err(LineFault::Syntax);
    };
    let name = parse_host_name(alloc, said)?;
    match parse_addr(text) {
        Ok(addr) => Ok(SettingLine::Name { name, addr }),
        Err(_) => Err(LineFault::Syntax),
    }
}
