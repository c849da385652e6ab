//! What a worker is set up with.
ghost use Rattle.std.specs.Prelude.{◌≡◌, IfOk};

use mq_policy::Policy;
use mq_target::Template;
use mq_wire::NoMemory;
use std::alloc::Global;

/// What a worker is set up with.
#[derive(Drop)]
pub struct Setup {
    /// The template of tunnels for UDP (RFC 9298, section 2).
    pub udp: Template,
    /// The template of tunnels for IP packets (RFC 9484, section 3).
    pub ip: Template,
    /// What its clients may reach.
    pub policy: Policy,
    /// The most bytes of an IP packet, from 1,280 on.
    pub mtu: u32,
    /// The number of the pump, which is the count of workers.
    pub pump: u32,
}

impl Setup {
    /// An equal setup, for another worker.
    pub fn copy(&self, alloc: Global) -> Result<Setup, NoMemory>
        ensures { IfOk result (λ setup. setup ≡ self.now) }
    {
        Ok(Setup {
            udp: self.udp.copy(alloc)?,
            ip: self.ip.copy(alloc)?,
            policy: self.policy.copy()?,
            mtu: self.mtu,
            pump: self.pump,
        })
    }
}
