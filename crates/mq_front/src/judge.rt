//! What the path of a request means: where its tunnel leads, or a refusal (RFC 9298, section 3; RFC 9484, section 3).
ghost use Rattle.std.specs.Prelude.{◌≡◌, IfOk};
ghost use Rattle.mq_machine.specs.Reading.{PathMeans, decided, template_of};
ghost use Rattle.mq_front.specs.Meanings.{meaning_of};

use mq_addr::Kind;
use mq_machine::Setup;
use mq_policy::Decision;
use mq_talk::Goal;
use mq_target::{Matched, Template};
use mq_wire::NoMemory;
use std::alloc::Global;

/// What a request means.
#[derive(Clone, Copy, Debug, PartialEq, Eq)]
pub enum Verdict {
    /// A tunnel that leads there.
    Leads(Goal),
    /// A refusal with this status, at 403 by the rule of this number; else `rule` is 0.
    Refused { status: u16, rule: u32 },
}

/// A name that isn't known is a bad gateway, and what the policy denies is forbidden.
fn decided(decision: Decision) -> Verdict
    ensures { meaning_of result ≡ decided decision }
{
    match decision {
        Decision::Go(goal) => Verdict::Leads(goal),
        Decision::Denied(rule) => Verdict::Refused { status: 403, rule },
        Decision::UnknownName => Verdict::Refused {
            status: 502,
            rule: 0,
        },
    }
}

/// The template of the requests for tunnels of this kind.
fn template_of(setup: &Setup, kind: Kind) -> &Template
    ensures { result.now ≡ template_of setup.now kind }
{
    match kind {
        Kind::Udp => &setup.udp,
        Kind::Ip => &setup.ip,
    }
}

/// What the path of a request means.
pub fn judge_path(
    alloc: Global,
    setup: &Setup,
    kind: Kind,
    path: &[u8],
) -> Result<Verdict, NoMemory>
    ensures { IfOk result (λ verdict. PathMeans setup.now kind path.now (meaning_of verdict)) }
{
    match template_of(setup, kind).matches(alloc, path)? {
        Matched::No => Ok(Verdict::Refused {
            status: 404,
            rule: 0,
        }),
        Matched::Bad => Ok(Verdict::Refused {
            status: 400,
            rule: 0,
        }),
        Matched::Yes(target) => Ok(decided(setup.policy.decide(&target))),
    }
}
