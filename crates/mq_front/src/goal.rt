//! What the goal of a request decides: the kind of its tunnel, what its data stream tells, and what is asked for first.
ghost use Rattle.std.specs.Prelude.{◌≡◌};
ghost use Rattle.mq_machine.specs.Reading.{goal_act, has_values};
ghost use Rattle.mq_machine.specs.State.{kind_of};

use mq_addr::Kind;
use mq_machine::Act;
use mq_talk::Goal;

/// The kind of a tunnel that leads there.
pub fn kind_of(goal: Goal) -> Kind
    ensures { result ≡ kind_of goal }
{
    match goal {
        Goal::Udp { .. } => Kind::Udp,
        Goal::Ip { .. } => Kind::Ip,
    }
}

/// Whether its data stream tells control capsules (RFC 9484, section 4.7).
pub fn has_values(goal: Goal) -> bool
    ensures { result ≡ has_values goal }
{
    match goal {
        Goal::Udp { .. } => false,
        Goal::Ip { .. } => true,
    }
}

/// What a request that leads there asks for: for UDP a port is bound first, and a tunnel for IP packets opens at once.
pub fn goal_act(stream: u32, goal: Goal) -> Act
    ensures { result ≡ goal_act stream goal }
{
    match goal {
        Goal::Udp { .. } => Act::Bind { stream, goal },
        Goal::Ip { .. } => Act::Open { stream, goal },
    }
}
