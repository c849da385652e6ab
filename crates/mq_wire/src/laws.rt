//! Laws of variable-length integers (RFC 9000, section 16).
ghost use Rattle.mq_wire.specs.Integer.{IsReadAgain};
ghost use Rattle.mq_wire.specs.Laws.{IsShortest, StandsAlone};

/// What `write_varint` wrote, `read_varint` reads, whatever follows.
pub fn read_again()
    ensures { IsReadAgain }
{}

/// The spelling that `write_varint` writes is the shortest.
pub fn writes_shortest()
    ensures { IsShortest }
{}

/// An integer is decided by its own bytes, whatever follows them.
pub fn stands_alone()
    ensures { StandsAlone }
{}
