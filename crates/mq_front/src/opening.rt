//! The first bytes of a connection: the preface of HTTP/2, or those of HTTP/1.1 (RFC 9113, section 3.4).
ghost use Rattle.std.specs.Prelude.{◌<◌};
ghost use Rattle.mq_machine.specs.Reading.{preface};
ghost use Rattle.mq_front.specs.Openings.{Opens};

/// The client's preface.
pub const PREFACE: &[u8; 24] = b"PRI * HTTP/2.0\r\n\r\nSM\r\n\r\n";

/// What a piece comes to behind a part of the preface.
pub enum Opening<'a> {
    /// So many bytes of the preface in all, and no others.
    Part(usize),
    /// The whole preface, with these bytes of frames behind it.
    Whole(&'a [u8]),
    /// No preface.
    Other,
}

/// What a piece comes to behind so many bytes of the preface.
pub fn opening_behind(count: usize, piece: &[u8]) -> Opening<'_>
    ensures { count < 24 → Opens count piece.now result }
{
    let (read, awaited) = PREFACE.split_at(count.min(PREFACE.len()));
    let (front, rest) = piece.split_at(piece.len().min(awaited.len()));
    let (begun, _) = awaited.split_at(front.len().min(awaited.len()));
    if front != begun {
        return Opening::Other;
    }
    if front.len() < awaited.len() {
        return Opening::Part(read.len() + front.len());
    }
    Opening::Whole(rest)
}
