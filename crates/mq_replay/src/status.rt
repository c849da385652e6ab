//! How a replay ends.
ghost use Rattle.std.specs.Prelude.{◌≡◌};
ghost use Rattle.mq_replay.specs.Replay.{code_of};

/// How a replay ends.
#[derive(Clone, Copy, Debug, PartialEq, Eq)]
pub enum Status {
    /// The script was read to its end, and each line was played.
    Done,
    /// The source failed.
    ReadFault,
    /// The sink failed.
    WriteFault,
    /// A line is bad. That was printed behind what the lines before it print.
    BadScript,
    NoMemory,
}

impl Status {
    /// The exit status of a program that ends so.
    pub fn code(self) -> u8
        ensures { result ≡ code_of self }
    {
        match self {
            Status::Done => 0,
            Status::ReadFault => 3,
            Status::WriteFault => 4,
            Status::BadScript => 5,
            Status::NoMemory => 7,
        }
    }
}
