//! Runs: bytes of which any number may come next and decide nothing.
ghost use Rattle.std.specs.Prelude.{◌≡◌};
ghost use Rattle.mq_head.specs.Alike.{is_in_run};

use httparse::{is_header_value, is_token};

/// The run in which bytes end (RFC 9110, sections 5.1, 5.5 and 9.1).
#[derive(Clone, Copy)]
pub enum Run {
    /// None, or it is over.
    Ended,
    /// A method or the name of a field, begun: bytes of tokens.
    Token,
    /// The value of a field: bytes of values.
    Value,
}

impl Run {
    /// Whether the run goes on with these bytes.
    pub fn goes_on(self, piece: &[u8]) -> bool
        ensures { result ≡ is_in_run self piece.now }
    {
        match self {
            Run::Ended => false,
            Run::Token => is_token(piece),
            Run::Value => is_header_value(piece),
        }
    }
}
