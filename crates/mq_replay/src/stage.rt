//! How far a script has come: its settings, and the world, once a line was none.
ghost use Rattle.std.specs.Prelude.{[], List, IfOk, OnOk};
ghost use Rattle.mq_play.specs.declared.line.Line.TheVariants as said;
ghost use Rattle.mq_play.specs.declared.line.SettingLine.{SettingLine};
ghost use Rattle.mq_play.specs.Events.{state_of};
ghost use Rattle.mq_play.specs.Play as spec;
ghost use Rattle.mq_play.specs.Settings.{plan_of};
ghost use Rattle.mq_script.specs.Settings.{IsSettings};
ghost use Rattle.mq_replay.specs.Listening.{MayBeNone};
ghost use Rattle.mq_replay.specs.Playing.{SaidTo};
ghost use Rattle.mq_output.specs.Printing.{IsSilent};
ghost use Rattle.mq_replay.specs.Stages.{IsRunning, IsStage};
ghost use Rattle.mq_replay.specs.Telling.{IsSpoken};
ghost use Rattle.mq_world.specs.Worlds.{IsWorld};

use crate::told::Told;
use mq_output::Stop;
use mq_play::Setting;
use mq_wire::NoMemory;
use mq_world::World;
use std::alloc::Global;
use std::mem;

/// How far a script has come.
#[derive(Drop)]
pub enum Stage {
    /// All lines so far are settings, or blank.
    Settings(Told),
    /// The world began with the first line that is neither.
    Running(World),
    /// It was to begin, and memory ran out.
    Spent,
}

/// The world of settings.
fn begin(alloc: Global, told: Told) -> Result<World, NoMemory>
    ensures { IfOk result (λ world. (lines : List SettingLine) → IsSettings told lines → IsWorld world (state_of (plan_of lines))) }
{
    World::new(alloc, told.plan()?)
}

impl Stage {
    /// Nothing was said yet.
    pub fn new(alloc: Global) -> Stage
        ensures { IsStage result spec.opening }
    {
        Stage::Settings(Told::new(alloc))
    }

    /// One more setting. Behind a line that is none it is bad, and so it is where it may not stand behind those before it.
    pub fn set(&mut self, line: Setting) -> Result<(), Stop>
        requires { IsSpoken (said.Setting line) }
        ensures sets { (s : spec.Stage) → IsStage self.old s → SaidTo MayBeNone s (said.Setting line) [] result self.new }
        ensures silent { IsSilent result }
    {
        match self {
            Stage::Settings(told) => match told.add(line.into_line()) {
                Ok(true) => Ok(()),
                Ok(false) => Err(Stop::BadLine),
                Err(_) => Err(Stop::NoMemory),
            },
            Stage::Running(_) => Err(Stop::BadLine),
            Stage::Spent => Err(Stop::NoMemory),
        }
    }

    /// A line that is no setting comes: the world has begun from now on. Behind `NoMemory` it never begins.
    pub fn open(&mut self, alloc: Global) -> Result<(), NoMemory>
        ensures opens { (s : spec.Stage) → IsStage self.old s → OnOk result (IsStage self.new (spec.Running (spec.opened s))) }
        ensures running { OnOk result (IsRunning self.new) }
    {
        if let Stage::Running(_) = self {
            return Ok(());
        }
        self.begin_world(alloc)
    }

    /// The same, where the world hasn't begun. It is a function of its own, since it has room for a world, and so costs each
    /// line something where it is entered.
    fn begin_world(&mut self, alloc: Global) -> Result<(), NoMemory>
        ensures opens { (s : spec.Stage) → IsStage self.old s → OnOk result (IsStage self.new (spec.Running (spec.opened s))) }
        ensures running { OnOk result (IsRunning self.new) }
    {
        let Stage::Settings(told) = mem::replace(self, Stage::Spent) else {
            return Err(NoMemory);
        };
        *self = Stage::Running(begin(alloc, told)?);
        Ok(())
    }
}
