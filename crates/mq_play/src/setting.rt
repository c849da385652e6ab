//! A setting on the heap.
ghost use Rattle.std.specs.Prelude.{◌≡◌, IfOk};
ghost use Rattle.mq_play.specs.declared.line.SettingLine.{SettingLine};

use crate::line::SettingLine;
use mq_wire::NoMemory;
use std::alloc::Global;
use std::marker::Model;

/// A setting on the heap, since it has much more room than what other lines say. Contracts see the setting.
#[derive(Drop)]
pub struct Setting {
    line: Box<SettingLine>,
}

impl Model for Setting {
    ghost use Rattle.mq_play.specs.declared.line.SettingLine.{SettingLine};

    ghost Value = { SettingLine };

    ghost view = { λ setting. setting.line.value };
}

impl Setting {
    /// Puts it there.
    pub fn new(alloc: Global, line: SettingLine) -> Result<Setting, NoMemory>
        ensures { IfOk result (λ setting. setting ≡ line) }
    {
        let line = Box::new(alloc, line)?;
        Ok(Setting { line })
    }

    /// Takes it from there.
    pub fn into_line(self) -> SettingLine
        ensures { result ≡ self }
    {
        let Setting { line } = self;
        Box::into_inner(line)
    }
}
