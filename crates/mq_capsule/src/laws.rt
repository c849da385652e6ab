//! Laws of the definitions that the reader and the writers go by. The functions do nothing.
ghost use Rattle.mq_capsule.specs.Spelling.{AreSpelled};
ghost use Rattle.mq_capsule.specs.Laws.{HasCapsules, HasThemOnce, GoesOn, SaysNothing};
ghost use Rattle.mq_capsule.specs.Laws.{IsReadable, IsReadOnce, StaysRead, SaysOn, IsWithinLimits, EndsAtBad};
ghost use Rattle.mq_capsule.specs.Writing.{IsWrittenBack, SaysPayload, SaysValue};

use mq_wire::read_again;

/// The capsules of bytes are those that they spell, up to a rest that doesn't begin with one.
pub fn are_spelled()
    ensures { AreSpelled }
{}

/// All bytes are capsules and a rest at whose front no capsule is whole.
pub fn has_capsules()
    ensures { HasCapsules }
{}

/// Bytes are capsules and a rest in one way only.
pub fn has_them_once()
    ensures { HasThemOnce }
{}

/// The capsules of later bytes stand behind those of the first.
pub fn goes_on()
    ensures { GoesOn }
{}

/// No bytes are no capsules, and say nothing.
pub fn says_nothing()
    ensures { SaysNothing }
{}

/// All bytes say some items.
pub fn is_readable()
    ensures { IsReadable }
{}

/// Bytes say one list of items.
pub fn is_read_once()
    ensures { IsReadOnce }
{}

/// What the first bytes say stays said, whatever follows.
pub fn stays_read()
    ensures { StaysRead }
{}

/// What the rest says with later bytes stands behind what the capsules said, where the stream isn't malformed.
pub fn says_on()
    ensures { SaysOn }
{}

/// Each item keeps to the limits.
pub fn is_within_limits()
    ensures { IsWithinLimits }
{}

/// A `Bad` is the last.
pub fn ends_at_bad()
    ensures { EndsAtBad }
{}

/// What the writers wrote is read as that capsule, whatever follows.
pub fn is_written_back()
    ensures { IsWrittenBack }
{
    read_again();
}

/// What `write_datagram` wrote says that payload, where it isn't too long.
pub fn says_payload()
    ensures { SaysPayload }
{}

/// What `write_control` wrote with a type of 1 to 3 says that value, where it isn't too long.
pub fn says_value()
    ensures { SaysValue }
{}
