//! What holds of every policy and every target.
ghost use Rattle.mq_policy.specs.Decisions.{HasOneDecision};

/// A policy decides in one way on a target.
pub fn one_decision()
    ensures { HasOneDecision }
{}
