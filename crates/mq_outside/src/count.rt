//! Counts of waits and faults. One that is at its type's end stays there.
ghost use Rattle.std.specs.Prelude.{◌≡◌};
ghost use Rattle.mq_outside.specs.Counts.{risen as risen_of, risen_by as risen_of_by, Rises};

/// The count after so many more.
pub const fn risen_by(count: u64, more: u64) -> u64
    ensures { result ≡ risen_of_by more count }
{
    count.saturating_add(more)
}

/// The count after one more.
pub const fn risen(count: u64) -> u64
    ensures { result ≡ risen_of count }
{
    risen_by(count, 1)
}

/// A count that rose is higher, or stands at its type's end.
pub fn rises()
    ensures { Rises }
{}
