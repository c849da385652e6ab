//! A line says one thing. The function does nothing.
ghost use Rattle.mq_play.specs.Sayings.{HasOneSaying};

use mq_addr::{addr_bytes, one_addr, one_prefix};
use mq_text::cut_once;

/// A line says at most one thing.
pub fn one_saying()
    ensures { HasOneSaying }
{
    cut_once();
    addr_bytes();
    one_addr();
    one_prefix();
}
