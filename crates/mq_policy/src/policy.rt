//! The policy of a proxy.
ghost use Rattle.std.specs.Prelude.{◌≡◌, ◌-◌, ◌<◌, ◌^◌, ◌∷◌, ◌++◌, [], length, OnOk, OnErr, IfOk};
ghost use Rattle.std.specs.FinMap as map;
ghost use Rattle.mq_policy.specs.Decisions.{Decides};

use crate::matching::decide_goal;
use crate::names::Names;
use crate::{Decision, Rule};
use mq_addr::Addr;
use mq_target::{Name, Target};
use mq_wire::NoMemory;
use std::alloc::Global;
use std::marker::Model;

/// Names with their addresses, and rules in order.
#[derive(Drop)]
pub struct Policy {
    names: Names,
    rules: Vec<Rule>,
}

impl Model for Policy {
    ghost use Rattle.std.specs.Prelude.{length, ◌<◌, ◌^◌};
    ghost use Rattle.mq_policy.specs.Tables.{Tables, tables_code};

    ghost Value = { Tables };

    ghost coded = { tables_code };

    ghost view = { λ policy. record { names = policy.names; rules = policy.rules.items } };

    ghost invariant = { λ policy. length policy.rules.items < 2 ^ 32 };
}

impl Policy {
    /// No names and no rules, so that every target without a name is allowed. This takes no memory.
    pub fn new(alloc: Global) -> Policy
        ensures { result ≡ record { names = map.empty; rules = [] } }
    {
        Policy {
            names: Names::new(alloc),
            rules: Vec::new(alloc),
        }
    }

    /// Gives a name its address, in place of the one that it had. `NoMemory` changes nothing.
    pub fn add_name(&mut self, alloc: Global, name: &Name, addr: Addr) -> Result<(), NoMemory>
        ensures ok { OnOk result (self.new ≡ record self.old { names = map.insert self.old.names name.now addr }) }
        ensures err { OnErr result (self.new ≡ self.old) }
    {
        self.names.set(alloc, name, addr)
    }

    /// Puts a rule behind the others. Its number is the count of the rules with it. `NoMemory` changes nothing.
    pub fn add_rule(&mut self, rule: Rule) -> Result<(), NoMemory>
        requires { length self.old.rules < 2 ^ 32 - 1 }
        ensures ok { OnOk result (self.new ≡ record self.old { rules = self.old.rules ++ rule ∷ [] }) }
        ensures err { OnErr result (self.new ≡ self.old) }
    {
        self.rules.push(rule)?;
        Ok(())
    }

    /// What becomes of a request for this target: a name that isn't in the table is unknown, whatever the rules are;
    /// else the first rule that matches decides. Where none matches, the target is denied, but for a policy without
    /// rules, which allows it. This takes no memory.
    pub fn decide(&self, target: &Target) -> Decision
        ensures { Decides self.now target.now result }
    {
        match self.names.goal_of(target) {
            Some(goal) => decide_goal(self.rules.as_slice(), goal),
            None => Decision::UnknownName,
        }
    }

    /// An equal policy.
    pub fn copy(&self) -> Result<Policy, NoMemory>
        ensures { IfOk result (λ copy. copy ≡ self.now) }
    {
        Ok(Policy {
            names: self.names.copy()?,
            rules: self.rules.clone()?,
        })
    }
}
