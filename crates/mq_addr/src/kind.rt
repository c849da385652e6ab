//! The two kinds of tunnel.

/// What a tunnel carries: UDP payloads (RFC 9298) or IP packets (RFC 9484).
#[derive(Clone, Copy, Debug, PartialEq, Eq)]
pub enum Kind {
    Udp,
    Ip,
}
