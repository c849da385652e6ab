//! Laws of the definitions that the reader and the writer go by. The functions do nothing.
ghost use Rattle.mq_frame.specs.Laws.{IsReadable, IsReadOnce, StaysRead, EndsAtFault, NothingIsRead};
ghost use Rattle.mq_frame.specs.Told.{StaysBounded, FitsFields, Alternates};
ghost use Rattle.mq_frame.specs.Writing.{IsAsLong, IsReadBack, AreReadBack};

/// All bytes are frames, then a rest or an error.
pub fn is_readable()
    ensures { IsReadable }
{}

/// In one way only.
pub fn is_read_once()
    ensures { IsReadOnce }
{}

/// The frames of the first bytes are the first frames, whatever follows.
pub fn stays_read()
    ensures { StaysRead }
{}

/// An error is the last.
pub fn ends_at_fault()
    ensures { EndsAtFault }
{}

/// What `write_frame` wrote is read as that frame at each place that allows it, whatever follows.
pub fn is_read_back()
    ensures { IsReadBack }
{}

/// What is written of a frame is nine bytes and its contents.
pub fn is_as_long()
    ensures { IsAsLong }
{}

/// Streams, ids, growths, contents and errors of the frames that are read are within their bounds.
pub fn stays_bounded()
    ensures { StaysBounded }
{}

/// Codes, settings and PINGs of the frames that are read fit the fields that they are written in.
pub fn fits_fields()
    ensures { FitsFields }
{}

/// SETTINGS comes first, and behind a frame whose header block goes on only CONTINUATION of its stream, or an error.
pub fn alternates()
    ensures { Alternates }
{}

/// No bytes are no frames.
pub fn nothing_is_read()
    ensures { NothingIsRead }
{}

/// What `write_frame` wrote of a list of frames, one behind the other, is read as that list.
pub fn are_read_back()
    ensures { AreReadBack }
{}
