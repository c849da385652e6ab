//! What the first bytes of a capsule decide: its type, its length and, in a DATAGRAM, the Context ID.
ghost use Rattle.std.specs.Prelude.{◌≡◌, ◌≤◌, length, take, IfSome};
ghost use Rattle.mq_capsule.specs.Fronts.{front_of, front_by, payload_front, payload_plan, other_plan};
ghost use Rattle.mq_capsule.specs.Items.{is_control};

use super::head::Head;
use super::item::CapsuleFault;
use mq_wire::{Varint, read_varint};

/// The type of a DATAGRAM (RFC 9297, section 3.5).
const DATAGRAM: u64 = 0;
/// The longest payload of a DATAGRAM that is kept.
const MAX_PAYLOAD: u64 = 65_535;
/// The longest value of a control capsule.
const MAX_CONTROL: u64 = 65_536;

/// What comes of the bytes behind the front.
#[derive(Clone, Copy)]
pub enum Plan {
    /// So many bytes are kept.
    Keep { what: Kept, length: u64 },
    /// So many bytes are read past.
    Skip { what: Skipped, length: u64 },
    /// Nothing is read any more.
    Stop { fault: CapsuleFault },
}

/// A capsule that is told with its bytes.
#[derive(Clone, Copy)]
pub enum Kept {
    Payload { context: u64 },
    Control { kind: u64 },
}

/// A capsule whose bytes aren't kept.
#[derive(Clone, Copy)]
pub enum Skipped {
    /// A payload that is too long.
    Payload { context: u64, length: u64 },
    /// A type that is passed over, of which nothing is told.
    Other,
}

/// The first bytes of a capsule.
#[derive(Clone, Copy)]
pub struct Front {
    pub plan: Plan,
    /// How many they are.
    pub used: usize,
}

impl Front {
    /// The front of a capsule, where it is whole.
    #[tactic(auto, unfolding(crate::specs::Fronts::front_of))]
    pub fn of(control: bool, bytes: &[u8]) -> Option<Front>
        ensures is { result ≡ front_of control bytes.now }
        ensures within { IfSome result (λ f. f.used ≤ length bytes.now) }
    {
        let head = Head::of(bytes)?;
        let (_, behind) = bytes.split_at(head.used);
        let front = front_by(control, head, behind)?;
        Some(Front {
            plan: front.plan,
            used: head.used + front.used,
        })
    }
}

/// What belongs to the front behind a head, where it is whole.
fn front_by(control: bool, head: Head, behind: &[u8]) -> Option<Front>
    ensures is { result ≡ front_by control head behind.now }
    ensures within { IfSome result (λ f. f.used ≤ length behind.now) }
{
    if head.kind == DATAGRAM {
        payload_front(head.length, behind)
    } else {
        Some(Front {
            plan: other_plan(control, head),
            used: 0,
        })
    }
}

/// The Context ID, where it is whole, or where the value is and has none.
fn payload_front(size: u64, behind: &[u8]) -> Option<Front>
    ensures is { result ≡ payload_front size (take size behind.now) }
    ensures within { IfSome result (λ f. f.used ≤ length behind.now) }
{
    let (value, _) = behind.split_at(size.min(behind.len() as u64) as usize);
    match read_varint(value) {
        Varint::Got {
            value: context,
            used,
        } => Some(Front {
            plan: payload_plan(context, size - u64::from(used)),
            used: usize::from(used),
        }),
        Varint::Short => {
            if (value.len() as u64) < size {
                None
            } else {
                Some(Front {
                    plan: Plan::Stop {
                        fault: CapsuleFault::NoContext,
                    },
                    used: value.len(),
                })
            }
        }
    }
}

/// What comes of a payload of so many bytes.
fn payload_plan(context: u64, length: u64) -> Plan
    ensures { result ≡ payload_plan context length }
{
    if length > MAX_PAYLOAD {
        Plan::Skip {
            what: Skipped::Payload { context, length },
            length,
        }
    } else {
        Plan::Keep {
            what: Kept::Payload { context },
            length,
        }
    }
}

/// What comes of the value of a capsule that is no DATAGRAM.
fn other_plan(control: bool, head: Head) -> Plan
    ensures { result ≡ other_plan control head }
{
    if !control || !is_control(head.kind) {
        Plan::Skip {
            what: Skipped::Other,
            length: head.length,
        }
    } else if head.length > MAX_CONTROL {
        Plan::Stop {
            fault: CapsuleFault::TooLong,
        }
    } else {
        Plan::Keep {
            what: Kept::Control { kind: head.kind },
            length: head.length,
        }
    }
}

/// ADDRESS_ASSIGN, ADDRESS_REQUEST and ROUTE_ADVERTISEMENT (RFC 9484, section 4.7).
fn is_control(kind: u64) -> bool
    ensures { result ≡ is_control kind }
{
    1 <= kind && kind <= 3
}
