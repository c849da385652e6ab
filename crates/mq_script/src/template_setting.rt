//! Settings that tell a template.
ghost use Rattle.mq_play.specs.declared.word.SettingWord.TheVariants as word;
ghost use Rattle.mq_play.specs.Settings.{IsTemplateOf, SaysSetting};
ghost use Rattle.mq_script.specs.Reading.{IsParsed};

use crate::fault::LineFault;
use crate::word::parse_kind;
use mq_addr::Kind;
use mq_play::SettingLine;
use mq_target::{Template, TemplateFault};
use mq_text::{cut, cut_once};
use std::alloc::Global;

/// The template of this kind that a text is.
fn parse_template_of(alloc: Global, kind: Kind, text: &[u8]) -> Result<Template, LineFault>
    ensures { IsParsed (IsTemplateOf kind text.now) result }
{
    match Template::parse(alloc, kind, text) {
        Ok(template) => Ok(template),
        Err(TemplateFault::NoMemory) => Err(LineFault::NoMemory),
        Err(TemplateFault::Syntax) => Err(LineFault::Syntax),
        Err(TemplateFault::Variables) => Err(LineFault::Syntax),
    }
}

/// What stands behind `template`: a kind, and the text of a template of that kind.
pub fn parse_template(alloc: Global, rest: &[u8]) -> Result<SettingLine, LineFault>
    ensures { IsParsed (SaysSetting word.Template rest.now) result }
{
    cut_once();
    let Some((text, behind)) = cut(b' ', rest) else {
        return Err(LineFault::Syntax);
    };
    let Some(kind) = parse_kind(text) else {
        return Err(LineFault::Syntax);
    };
    let template = parse_template_of(alloc, kind, behind)?;
    Ok(SettingLine::Template { kind, template })
}
