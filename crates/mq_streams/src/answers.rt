//! What the calls on streams and windows answer.

/// What becomes of a stream that the client begins (RFC 9113, sections 5.1.1 and 5.1.2).
#[derive(Clone, Copy, Debug, PartialEq, Eq)]
pub enum Began {
    /// It is live.
    Live,
    /// It is one more than may be live: its id is used up, and it is closed.
    Refused,
    /// Its id isn't above the highest that was begun.
    Old,
    /// Its id is even, which a client may not begin.
    BadId,
}

/// What becomes of a DATA frame (RFC 9113, sections 5.1 and 6.9).
#[derive(Clone, Copy, Debug, PartialEq, Eq)]
pub enum Counted {
    /// It counts in the windows of its stream and of the connection.
    Yes,
    /// Its stream takes no DATA any more: it counts for the connection alone, and as consumed there.
    Ignored,
    /// Its stream was never begun.
    Idle,
    /// It passes the connection's window.
    OverConnection,
    /// It passes its stream's window: it counts for the connection alone, and as consumed there.
    OverStream,
}

/// What becomes of a WINDOW_UPDATE frame (RFC 9113, section 6.9).
#[derive(Clone, Copy, Debug, PartialEq, Eq)]
pub enum Granted {
    /// The window has grown.
    Taken,
    /// Its stream isn't live any more.
    Ignored,
    /// Its stream was never begun.
    Idle,
    /// It grants nothing, which is an error.
    Zero,
    /// The window would pass 2,147,483,647 bytes.
    Over,
}

/// A window would pass 2,147,483,647 bytes.
#[derive(Clone, Copy, Debug, PartialEq, Eq)]
pub struct Over;
