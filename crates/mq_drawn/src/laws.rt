//! A generated script has no bad line. The function does nothing.
ghost use Rattle.mq_drawn.specs.Laws.{HasNoBadLine};

use mq_addr::printed_again;
use mq_play::one_saying;

/// Where the lines of a generated script before one were played, and no step was refused memory, that one is good and within
/// the limit of a line.
pub fn no_line_is_bad()
    ensures { HasNoBadLine }
{
    one_saying();
    printed_again();
}
