//! Laws of the definitions that the decoder and the encoder go by. The functions do nothing.
ghost use Rattle.mq_hpack.specs.Length.{IsNoLonger};
ghost use Rattle.mq_hpack.specs.Outcome.{IsReadable};
ghost use Rattle.mq_hpack.specs.Writing.{IsWrittenSo, IsWrittenOnce};
ghost use Rattle.mq_hpack.specs.OneReading.{HasOneReading};
ghost use Rattle.mq_hpack.specs.ReadBack.{IsReadBack, IsReadTooLarge};

use mq_huff::{an_answer, one_answer, one_coding, one_reading, the_code};

/// From a table, a block comes to its fields and the table after them, or to its first fault: to one of these,
/// and to no other fields, table or fault. So what `Decoder::block` gives or refuses, but for want of memory, is
/// settled by the blocks so far.
pub fn has_one_reading()
    ensures { HasOneReading }
{
    one_reading();
    one_answer();
}

/// What `Encoder::block` gave is read as those fields, where they count no more than they may.
pub fn is_read_back()
    ensures { IsReadBack }
{}

/// Where they count more, it is read as too large.
pub fn is_read_too_large()
    ensures { IsReadTooLarge }
{}

/// From each table, a block comes to its fields and the table after them, or to a fault.
pub fn is_readable()
    ensures { IsReadable }
{
    an_answer();
}

/// A block that `Encoder::block` gives has no more bytes than its fields count, and one more.
pub fn is_no_longer()
    ensures { IsNoLonger }
{}

/// What `Encoder::block` gives is one list of bytes, by a function, `block_text`: that list is what an encoder writes by
/// its representations, and no other is.
pub fn is_one_text()
    ensures so { IsWrittenSo }
    ensures once { IsWrittenOnce }
{
    one_coding();
    the_code();
}
