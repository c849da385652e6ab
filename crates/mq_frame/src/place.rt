//! What came before a frame, as far as it decides what may follow (RFC 9113, sections 3.4 and 6.10).
ghost use Rattle.std.specs.Prelude.{◌≡◌, ◌||◌};
ghost use Rattle.mq_frame.specs.Table.{isnt_first, breaks_block, is_push, lacks_stream, has_stream, is_misplaced};
ghost use Rattle.mq_frame.specs.Stream.{next_place, is_ended};

use super::codes::ACK;
use super::frame::Frame;
use super::header::Header;
use super::kind::Kind;

/// A place between frames.
#[derive(Clone, Copy)]
pub enum Place {
    /// Before the first frame.
    First,
    /// Behind a frame, and in no header block.
    Between,
    /// Inside the header block of this stream.
    Block { stream: u32 },
    /// Behind a connection error.
    Ended,
}

impl Place {
    /// The place behind this frame.
    pub fn behind(frame: &Frame) -> Place
        ensures { result ≡ next_place frame.now }
    {
        match frame {
            Frame::Headers { stream, whole, .. } | Frame::Continuation { stream, whole, .. } => {
                if *whole {
                    Place::Between
                } else {
                    Place::Block { stream: *stream }
                }
            }
            Frame::Fault { .. } => Place::Ended,
            _ => Place::Between,
        }
    }

    /// Whether no frame follows.
    pub fn is_ended(self) -> bool
        ensures { result ≡ is_ended self }
    {
        matches!(self, Place::Ended)
    }

    /// Whether a frame with this header isn't allowed here, whatever its contents.
    pub fn refuses(self, header: Header) -> bool
        ensures { result ≡ is_misplaced self header }
    {
        self.wants_settings(header)
            || self.breaks_block(header)
            || matches!(header.kind, Kind::Push)
            || lacks_stream(header)
            || has_stream(header)
    }

    /// The first frame is SETTINGS without ACK.
    fn wants_settings(self, header: Header) -> bool
        ensures { result ≡ isnt_first self header }
    {
        match self {
            Place::First => !matches!(header.kind, Kind::Settings) || header.has(ACK),
            _ => false,
        }
    }

    /// A header block goes on with CONTINUATION on its stream, and nothing else does so.
    fn breaks_block(self, header: Header) -> bool
        ensures { result ≡ breaks_block self header }
    {
        let goes_on = matches!(header.kind, Kind::Continuation);
        match self {
            Place::Block { stream } => !goes_on || header.stream != stream,
            _ => goes_on,
        }
    }
}

fn lacks_stream(header: Header) -> bool
    ensures { result ≡ lacks_stream header.kind header.stream }
{
    match header.kind {
        Kind::Data | Kind::Headers | Kind::Priority | Kind::Reset | Kind::Continuation => {
            header.stream == 0
        }
        _ => false,
    }
}

fn has_stream(header: Header) -> bool
    ensures { result ≡ has_stream header.kind header.stream }
{
    match header.kind {
        Kind::Settings | Kind::Ping | Kind::GoAway => header.stream != 0,
        _ => false,
    }
}
