//! Settings that the first lines of a script told.
ghost use Rattle.std.specs.Prelude.{◌≡◌, ◌≢◌, Ok, true, List, [], IfOk};
ghost use Rattle.mq_play.specs.declared.line.Line.TheVariants as said;
ghost use Rattle.mq_play.specs.declared.line.SettingLine.{SettingLine};
ghost use Rattle.mq_play.specs.Settings.{IsPlan, plan_of};
ghost use Rattle.mq_script.specs.Settings.{Adds, IsSettings};
ghost use Rattle.mq_replay.specs.Telling.{IsSpoken};

use mq_play::{Plan, SettingLine, makes_a_plan};
use mq_script::Settings;
use mq_wire::NoMemory;
use std::alloc::Global;
use std::marker::Model;

/// Settings that lines told, each of which may stand behind those before it.
#[derive(Drop)]
pub struct Told {
    settings: Settings,
}

impl Model for Told {
    ghost use Rattle.mq_script.specs.Settings.{Made, made_code};
    ghost use Rattle.mq_replay.specs.Telling.{AreTold};

    ghost Value = { Made };

    ghost coded = { made_code };

    ghost view = { λ t. t.settings };

    ghost invariant = { λ t. AreTold t.settings };
}

impl Told {
    /// No line was read. Takes no memory.
    pub fn new(alloc: Global) -> Told
        ensures { IsSettings result [] }
    {
        Told {
            settings: Settings::new(alloc),
        }
    }

    /// A line tells one more. False, and nothing changes, exactly where it may not stand behind the others. `NoMemory` changes
    /// nothing.
    pub fn add(&mut self, line: SettingLine) -> Result<bool, NoMemory>
        requires { IsSpoken (said.Setting line) }
        ensures adds { (lines : List SettingLine) → IsSettings self.old lines → Adds self.old lines line result self.new }
    {
        self.settings.add(line)
    }

    /// The plan that the settings make, which is one that a proxy may have.
    pub fn plan(self) -> Result<Plan, NoMemory>
        ensures of_lines { IfOk result (λ plan. (lines : List SettingLine) → IsSettings self lines → plan ≡ plan_of lines) }
        ensures is_plan { IfOk result IsPlan }
    {
        makes_a_plan();
        self.settings.plan()
    }
}
