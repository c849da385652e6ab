//! What a path asks for.
ghost use Rattle.mq_target.specs.Laws.{AreaFits, HostFits, ProtocolFits, TargetFits};

use crate::name::Name;
use mq_addr::{Addr, Prefix, has_its_size};

/// Where UDP payloads go: an address, or a name in lower case (RFC 9298, section 2).
#[derive(Debug, PartialEq, Eq, Drop)]
pub enum Host {
    Address(Addr),
    Name(Name),
}

/// Where IP packets may go: everywhere, a block, or a name in lower case (RFC 9484, section 3).
#[derive(Debug, PartialEq, Eq, Drop)]
pub enum Area {
    All,
    Block(Prefix),
    Name(Name),
}

/// What a tunnel is asked for. No protocol stands for all of them.
#[derive(Debug, PartialEq, Eq, Drop)]
pub enum Target {
    Udp { host: Host, port: u16 },
    Ip { area: Area, protocol: Option<u8> },
}

/// What a path is to a template: no path of it, one with values that aren't well-formed, or the path of a target.
#[derive(Debug, PartialEq, Eq, Drop)]
pub enum Matched {
    No,
    Bad,
    Yes(Target),
}

/// The numbers of a host have their types' sizes, and so on for all numbers of a target.
fn host_has_its_sizes(host: &Host)
    ensures { HostFits host.now }
{
    match host {
        Host::Address(addr) => has_its_size(addr),
        Host::Name(_) => {}
    }
}

fn area_has_its_sizes(area: &Area)
    ensures { AreaFits area.now }
{
    match area {
        Area::Block(block) => has_its_size(&block.addr),
        Area::All | Area::Name(_) => {}
    }
}

fn protocol_has_its_size(protocol: &Option<u8>)
    ensures { ProtocolFits protocol.now }
{
    if let Some(number) = protocol {
        let _number = *number;
    }
}

pub fn has_its_sizes(target: &Target)
    ensures { TargetFits target.now }
{
    match target {
        Target::Udp { host, port } => {
            let _port = *port;
            host_has_its_sizes(host);
        }
        Target::Ip { area, protocol } => {
            protocol_has_its_size(protocol);
            area_has_its_sizes(area);
        }
    }
}
