//! What holds of the answers to all bytes of a connection, however they are cut into pieces.
ghost use Rattle.std.specs.Prelude.{ℕ, List};
ghost use Rattle.mq_head.specs.Reader.{IsHeadOf, IsBegun};
ghost use Rattle.mq_head.specs.Laws.{OneAnswer, UpgradeStays, RefusalStays, HeadWaits, HeadStands};

use crate::reader::HeadReader;

/// A reader that goes on was fed nothing yet, or waits for more.
pub fn reader_waits(_reader: &HeadReader)
    ensures { (bytes : List ℕ) → IsHeadOf _reader.now bytes → IsBegun bytes }
{}

/// Bytes have one answer.
pub fn one_answer()
    ensures { OneAnswer }
{}

/// A tunnel that is asked for stays asked for, whatever follows.
pub fn upgrade_stays()
    ensures { UpgradeStays }
{}

/// What is refused stays refused with its status, or waits for the end of a request target and then is.
pub fn refusal_stays()
    ensures { RefusalStays }
{}

/// Before the last byte of a head nothing is decided.
pub fn head_waits()
    ensures { HeadWaits }
{}

/// With its last byte a head stands at the front, whatever follows.
pub fn head_stands()
    ensures { HeadStands }
{}
