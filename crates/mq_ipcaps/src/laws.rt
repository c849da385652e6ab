//! Laws of the values: what is written is read back, and what is read is written again.
ghost use Rattle.mq_ipcaps.specs.Laws.{AreRoutesReadBack, AreRoutesWrittenAgain, IsAssignReadBack, IsAssignWrittenAgain, IsRequestReadBack, IsRequestWrittenAgain};

use mq_wire::read_again;

/// Each list that can be written is what its bytes are read as.
pub fn is_read_back()
    ensures request { IsRequestReadBack }
    ensures assign { IsAssignReadBack }
    ensures routes { AreRoutesReadBack }
{
    read_again();
}

/// Each list that is read can be written, as the same bytes up to the spelling of integers.
pub fn is_written_again()
    ensures request { IsRequestWrittenAgain }
    ensures assign { IsAssignWrittenAgain }
    ensures routes { AreRoutesWrittenAgain }
{}
