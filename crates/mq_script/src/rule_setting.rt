//! Settings that tell a rule.
ghost use Rattle.mq_addr.specs.declared.kind.Kind.TheVariants as kind;
ghost use Rattle.mq_play.specs.Parts.{IsNumberOr, Parted};
ghost use Rattle.mq_play.specs.Settings.{IsBlock, IsKind, SaysRule};
ghost use Rattle.mq_script.specs.Reading.{IsFound, IsParsed};
ghost use Rattle.std.specs.Prelude.{◌≡◌, ◌↔◌, IsTrue, codes};

use crate::fault::LineFault;
use crate::number::number_in;
use crate::word::parse_kind;
use mq_addr::{Kind, Prefix, addr_bytes, one_prefix, parse_prefix};
use mq_play::SettingLine;
use mq_policy::Rule;
use mq_text::{cut, cut_once};

/// The highest port.
const LAST_PORT: u32 = 65_535;

/// The highest number of a protocol.
const LAST_PROTOCOL: u32 = 255;

/// Whether a text is `*`.
fn is_all(text: &[u8]) -> bool
    ensures { IsTrue result ↔ (text.now ≡ codes "*") }
{
    matches!(text, [b'*'])
}

/// The prefix that a text writes, or `*` for all addresses.
fn parse_block(text: &[u8]) -> Option<Option<Prefix>>
    ensures { IsFound (IsBlock text.now) result }
{
    one_prefix();
    if is_all(text) {
        return Some(None);
    }
    match parse_prefix(text) {
        Ok(block) => Some(Some(block)),
        Err(_) => None,
    }
}

/// The number of a protocol, or `*` for all of them.
fn parse_protocol(text: &[u8]) -> Option<Option<u8>>
    ensures { IsFound (IsNumberOr (codes "*") 255 text.now) result }
{
    match text {
        b"*" => Some(None),
        _ => Some(Some(number_in(0, LAST_PROTOCOL, text)? as u8)),
    }
}

/// The ports of a rule for this block: both from 1 to 65,535, and the first not above the last.
fn parse_ports(allow: bool, block: Option<Prefix>, text: &[u8]) -> Result<SettingLine, LineFault>
    ensures { IsParsed (SaysRule allow kind.Udp block text.now) result }
{
    cut_once();
    let Some((first, last)) = cut(b' ', text) else {
        return Err(LineFault::Syntax);
    };
    let Some(low) = number_in(1, LAST_PORT, first) else {
        return Err(LineFault::Syntax);
    };
    let Some(high) = number_in(low, LAST_PORT, last) else {
        return Err(LineFault::Syntax);
    };
    Ok(SettingLine::Rule(Rule::Udp {
        allow,
        block,
        low: low as u16,
        high: high as u16,
    }))
}

/// What stands behind the block of a rule.
fn parse_scope(
    allow: bool,
    kind: Kind,
    block: Option<Prefix>,
    text: &[u8],
) -> Result<SettingLine, LineFault>
    ensures { IsParsed (SaysRule allow kind block text.now) result }
{
    match kind {
        Kind::Udp => parse_ports(allow, block, text),
        Kind::Ip => match parse_protocol(text) {
            Some(protocol) => Ok(SettingLine::Rule(Rule::Ip {
                allow,
                block,
                protocol,
            })),
            None => Err(LineFault::Syntax),
        },
    }
}

/// The block of a rule of this kind, and what stands behind it.
fn parse_rule_of(allow: bool, kind: Kind, rest: &[u8]) -> Result<SettingLine, LineFault>
    ensures { IsParsed (Parted IsBlock (SaysRule allow kind) rest.now) result }
{
    cut_once();
    addr_bytes();
    one_prefix();
    let Some((text, behind)) = cut(b' ', rest) else {
        return Err(LineFault::Syntax);
    };
    let Some(block) = parse_block(text) else {
        return Err(LineFault::Syntax);
    };
    parse_scope(allow, kind, block, behind)
}

/// What stands behind `allow` or `deny`: `udp`, a block and two ports, or `ip`, a block and a protocol.
pub fn parse_rule(allow: bool, rest: &[u8]) -> Result<SettingLine, LineFault>
    ensures { IsParsed (Parted IsKind (λ kind. Parted IsBlock (SaysRule allow kind)) rest.now) result }
{
    cut_once();
    let Some((text, behind)) = cut(b' ', rest) else {
        return Err(LineFault::Syntax);
    };
    let Some(kind) = parse_kind(text) else {
        return Err(LineFault::Syntax);
    };
    parse_rule_of(allow, kind, behind)
}
