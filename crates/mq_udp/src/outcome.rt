//! How a client's talk with a proxy ends.
ghost use Rattle.std.specs.Prelude.{◌≡◌};
ghost use Rattle.mq_udp.specs.Ends.{code_of};

/// How a client's talk with a proxy ends.
#[derive(Clone, Copy, Debug, PartialEq, Eq)]
pub enum Outcome {
    /// All payloads were sent and written, and as many came as were waited for.
    Done,
    /// The source failed.
    ReadFault,
    /// The sink failed.
    WriteFault,
    /// A line of the input is bad. That was printed.
    BadInput,
    /// The proxy couldn't be dialled, or its link failed.
    OutsideFault,
    NoMemory,
    /// The link or the tunnel ended before all was sent, written and received.
    Early,
    /// The proxy refused the tunnel.
    Refused,
    /// What the proxy sent is malformed.
    BadPeer,
}

impl Outcome {
    /// The exit status of a program that ends so.
    pub fn code(self) -> u8
        ensures { result ≡ code_of self }
    {
        match self {
            Outcome::Done => 0,
            Outcome::ReadFault => 3,
            Outcome::WriteFault => 4,
            Outcome::BadInput => 5,
            Outcome::OutsideFault => 6,
            Outcome::NoMemory => 7,
            Outcome::Early => 8,
            Outcome::Refused => 9,
            Outcome::BadPeer => 10,
        }
    }
}
