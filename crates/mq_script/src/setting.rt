//! The lines of a script that tell settings.
ghost use Rattle.mq_play.specs.declared.word.SettingWord.TheVariants as word;
ghost use Rattle.mq_play.specs.Settings.{SaysSetting};
ghost use Rattle.mq_script.specs.Reading.{IsParsed};

use crate::block_setting::{parse_host, parse_pool, parse_reach, parse_route};
use crate::fault::LineFault;
use crate::name_setting::parse_name_setting;
use crate::number::number_in;
use crate::rule_setting::parse_rule;
use crate::template_setting::parse_template;
use mq_play::{SettingLine, SettingWord};
use std::alloc::Global;

/// The count of `workers N`, 1 to 4.
fn parse_workers(rest: &[u8]) -> Result<SettingLine, LineFault>
    ensures { IsParsed (SaysSetting word.Workers rest.now) result }
{
    match number_in(1, 4, rest) {
        Some(count) => Ok(SettingLine::Workers(count)),
        None => Err(LineFault::Syntax),
    }
}

/// The size of `mtu N`, from the least that IPv6 has (RFC 8200, section 5) on.
fn parse_mtu(rest: &[u8]) -> Result<SettingLine, LineFault>
    ensures { IsParsed (SaysSetting word.Mtu rest.now) result }
{
    match number_in(1_280, 65_535, rest) {
        Some(size) => Ok(SettingLine::Mtu(size)),
        None => Err(LineFault::Syntax),
    }
}

/// The size of `history N`.
fn parse_history(rest: &[u8]) -> Result<SettingLine, LineFault>
    ensures { IsParsed (SaysSetting word.History rest.now) result }
{
    match number_in(4, 262_144, rest) {
        Some(size) => Ok(SettingLine::History(size)),
        None => Err(LineFault::Syntax),
    }
}

/// The setting whose word is this one.
#[inline(never)]
pub fn parse_setting(
    alloc: Global,
    word: SettingWord,
    rest: &[u8],
) -> Result<SettingLine, LineFault>
    ensures { IsParsed (SaysSetting word rest.now) result }
{
    match word {
        SettingWord::Workers => parse_workers(rest),
        SettingWord::Template => parse_template(alloc, rest),
        SettingWord::Name => parse_name_setting(alloc, rest),
        SettingWord::Allow => parse_rule(true, rest),
        SettingWord::Deny => parse_rule(false, rest),
        SettingWord::Pool => parse_pool(rest),
        SettingWord::Reach => parse_reach(rest),
        SettingWord::Route => parse_route(rest),
        SettingWord::Host => parse_host(rest),
        SettingWord::Mtu => parse_mtu(rest),
        SettingWord::History => parse_history(rest),
    }
}
