//! What words ask for.

use mq_addr::Addr;
use mq_target::Host;

/// A client of a proxy, and what it asks for.
#[derive(Debug, Drop)]
pub struct UdpWords {
    /// Where the proxy is.
    pub addr: Addr,
    pub port: u16,
    /// Where the payloads are to go.
    pub host: Host,
    pub target_port: u16,
    /// Whether the proxy is asked over HTTP/2, and else over HTTP/1.1.
    pub h2: bool,
    /// How many payloads are waited for.
    pub count: u16,
}

/// What words ask for.
#[derive(Debug, Drop)]
pub enum Command {
    /// A script is read and played.
    Replay,
    /// The script of a seed with so many packets is printed.
    Gen { seed: u64, count: u32 },
    /// That script is played, and what happens is counted.
    Soak { seed: u64, count: u32 },
    /// Payloads are read, sent through a tunnel for UDP, and those that come back are printed.
    Udp(UdpWords),
}
