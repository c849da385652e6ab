//! What holds of every template and every path.
ghost use Rattle.mq_target.specs.Laws.{AreEscaped, HasOneHost, HasOneReading, HasOneTemplate, IsReadAgain};

use mq_addr::{addr_bytes, one_addr, one_prefix, printed_again};
use mq_text::cut_once;

/// A path is one thing to a template, and no other.
pub fn one_reading()
    ensures { HasOneReading }
{
    addr_bytes();
    one_addr();
    one_prefix();
}

/// A text is at most one host.
pub fn one_host()
    ensures { HasOneHost }
{
    one_addr();
}

/// A value is put into a path as unreserved bytes and escapes, at most three bytes for each of its own.
pub fn values_are_escaped()
    ensures { AreEscaped }
{}

/// The path of a target is read as that target, by any template in which a delimiter follows each variable behind which
/// something follows, as in each that a text is.
pub fn expanded_again()
    ensures { IsReadAgain }
{
    addr_bytes();
    printed_again();
}

/// A text is at most one template, whatever its kind.
pub fn one_template()
    ensures { HasOneTemplate }
{
    cut_once();
}
