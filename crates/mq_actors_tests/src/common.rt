//! What tests of several crates make.

ghost use Rattle.std.specs.Prelude.{◌≡◌, ◌<◌, ◌∷◌, [], length, IfOk};

use mq_addr::Kind;
use mq_machine::Setup;
use mq_policy::Policy;
use mq_target::Template;
use mq_wire::{Bytes, NoMemory, Seq};
use std::alloc::Global;
use std::collections::VecDeque;

/// The bytes of a text.
pub(crate) fn bytes(alloc: Global, text: &[u8]) -> Result<Bytes, NoMemory>
    ensures { IfOk result (λ b. b ≡ text.now) }
{
    let list = Vec::from_slice(alloc, text)?;
    Ok(Bytes::from_vec(list))
}

/// A list without an element.
pub(crate) fn nothing<T: Drop>(alloc: Global) -> Seq<T>
    ensures { result ≡ [] }
{
    Seq::from_vec(Vec::new(alloc))
}

/// The well-known templates and a policy that allows every target, beside one worker.
pub(crate) fn setup(alloc: Global) -> Result<Setup, NoMemory>
    ensures { IfOk result (λ s. s.pump ≡ 1) }
{
    Ok(Setup {
        udp: Template::well_known(alloc, Kind::Udp)?,
        ip: Template::well_known(alloc, Kind::Ip)?,
        policy: Policy::new(alloc),
        mtu: 1500,
        pump: 1,
    })
}

/// Takes the front of a queue.
pub(crate) fn first_of<T>(queue: &mut VecDeque<T>) -> T
    requires { 0 < length queue.old.items }
    ensures { queue.old.items ≡ result ∷ queue.new.items }
{
    let Some(item) = queue.pop_front() else {
        unreachable!()
    };
    item
}
