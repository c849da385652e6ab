//! Settings that tell blocks, ranges and hosts.
ghost use Rattle.mq_addr.specs.declared.range.Range.{Range};
ghost use Rattle.mq_addr.specs.Addr.{IsAddrText};
ghost use Rattle.mq_play.specs.declared.word.SettingWord.TheVariants as word;
ghost use Rattle.mq_play.specs.Parts.{IsNumber, Means, Parted};
ghost use Rattle.mq_play.specs.Settings.{IsRoute, IsShare, SaysSetting};
ghost use Rattle.mq_script.specs.Reading.{IsFound, IsParsed};
ghost use Rattle.std.specs.Prelude.{◌↔◌, IsTrue};
ghost use Rattle.mq_talk.specs.Config.{HasNoZero};

use crate::fault::LineFault;
use crate::number::number_in;
use mq_addr::{
    Addr, Prefix, Range, addr_bytes, contains, is_range, one_addr, one_prefix, parse_addr,
    parse_prefix,
};
use mq_play::SettingLine;
use mq_text::{cut, cut_once};

/// The prefix without the all-zero address that a text writes.
fn parse_share(text: &[u8]) -> Option<Prefix>
    ensures { IsFound (IsShare text.now) result }
{
    one_prefix();
    let Ok(block) = parse_prefix(text) else {
        return None;
    };
    if has_no_zero(&block) {
        Some(block)
    } else {
        None
    }
}

/// Whether a block has the all-zero address of neither version.
fn has_no_zero(block: &Prefix) -> bool
    ensures { IsTrue result ↔ HasNoZero block.now }
{
    !contains(block, &Addr::V4(0)) && !contains(block, &Addr::V6(0))
}

/// The block of `pool PREFIX`.
pub fn parse_pool(rest: &[u8]) -> Result<SettingLine, LineFault>
    ensures { IsParsed (SaysSetting word.Pool rest.now) result }
{
    match parse_share(rest) {
        Some(block) => Ok(SettingLine::Pool(block)),
        None => Err(LineFault::Syntax),
    }
}

/// The block of `reach PREFIX`.
pub fn parse_reach(rest: &[u8]) -> Result<SettingLine, LineFault>
    ensures { IsParsed (SaysSetting word.Reach rest.now) result }
{
    match parse_share(rest) {
        Some(block) => Ok(SettingLine::Reach(block)),
        None => Err(LineFault::Syntax),
    }
}

/// The address of `host ADDR`.
pub fn parse_host(rest: &[u8]) -> Result<SettingLine, LineFault>
    ensures { IsParsed (SaysSetting word.Host rest.now) result }
{
    match parse_addr(rest) {
        Ok(addr) => Ok(SettingLine::Host(addr)),
        Err(_) => Err(LineFault::Syntax),
    }
}

/// The last address of a range, and its protocol.
fn parse_range_from(first: Addr, text: &[u8]) -> Option<Range>
    ensures { IsFound (Parted IsAddrText (λ last. Means (IsNumber 0 255) (λ protocol. record { first = first; last = last; protocol = protocol })) text.now) result }
{
    cut_once();
    addr_bytes();
    one_addr();
    let Some((last, protocol)) = cut(b' ', text) else {
        return None;
    };
    let Ok(last) = parse_addr(last) else {
        return None;
    };
    let Some(protocol) = number_in(0, 255, protocol) else {
        return None;
    };
    Some(Range {
        first,
        last,
        protocol: protocol as u8,
    })
}

/// A range that is none, or has its ends in order and of one version.
fn parse_range(text: &[u8]) -> Option<Range>
    ensures { IsFound (IsRoute text.now) result }
{
    cut_once();
    addr_bytes();
    one_addr();
    let Some((first, behind)) = cut(b' ', text) else {
        return None;
    };
    let Ok(first) = parse_addr(first) else {
        return None;
    };
    let Some(range) = parse_range_from(first, behind) else {
        return None;
    };
    if is_range(&range) { Some(range) } else { None }
}

/// The range of `route FIRST LAST PROTO`.
pub fn parse_route(rest: &[u8]) -> Result<SettingLine, LineFault>
    ensures { IsParsed (SaysSetting word.Route rest.now) result }
{
    match parse_range(rest) {
        Some(range) => Ok(SettingLine::Route(range)),
        None => Err(LineFault::Syntax),
    }
}
