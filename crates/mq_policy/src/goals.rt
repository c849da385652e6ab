//! Where the target of a request leads, with its name looked up.
ghost use Rattle.std.specs.Prelude.{◌≡◌};
ghost use Rattle.mq_policy.specs.Goals.{addr_of, area_of, goal_of};

use crate::names::Names;
use mq_addr::{Addr, Prefix, alone};
use mq_talk::Goal;
use mq_target::{Area, Host, Target};

impl Names {
    /// Where a target leads, if its name is known.
    pub fn goal_of(&self, target: &Target) -> Option<Goal>
        ensures { result ≡ goal_of self.now target.now }
    {
        match target {
            Target::Udp { host, port } => {
                let addr = self.addr_of(host)?;
                Some(Goal::Udp { addr, port: *port })
            }
            Target::Ip { area, protocol } => {
                let area = self.area_of(area)?;
                Some(Goal::Ip {
                    area,
                    protocol: *protocol,
                })
            }
        }
    }

    /// The address of a host, if its name is known.
    fn addr_of(&self, host: &Host) -> Option<Addr>
        ensures { result ≡ addr_of self.now host.now }
    {
        match host {
            Host::Address(addr) => Some(*addr),
            Host::Name(name) => self.get(name),
        }
    }

    /// The block of an area, if its name is known. All addresses have no block.
    fn area_of(&self, area: &Area) -> Option<Option<Prefix>>
        ensures { result ≡ area_of self.now area.now }
    {
        match area {
            Area::All => Some(None),
            Area::Block(block) => Some(Some(*block)),
            Area::Name(name) => {
                let addr = self.get(name)?;
                Some(Some(alone(addr)))
            }
        }
    }
}
