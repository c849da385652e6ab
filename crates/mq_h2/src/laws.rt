//! Laws of the definitions that the core goes by. The functions do nothing.
ghost use Rattle.mq_h2.specs.Laws.{IsOneRead, HasOutcome, SendsWithin, IsTold, PutsWholeFrames, ReadsBack, ReadsApart, IsAskedOnce, KeepsAsked, WindowsHold};

use mq_frame::{are_read_back, fits_fields, is_read_once, is_readable, stays_bounded, stays_read};
use mq_hpack::has_one_reading;
use mq_streams::consumed_within_what_came;

/// What a read gives, and where it leads, is one.
pub fn one_read()
    ensures { IsOneRead }
{
    has_one_reading();
    is_read_once();
}

/// Each read of each state comes to something.
pub fn each_read_has_an_outcome()
    ensures { HasOutcome }
{
    is_readable();
    stays_read();
    mq_hpack::is_readable();
}

/// DATA that is put is within both of its windows, and fits a frame.
pub fn data_is_within_its_windows()
    ensures { SendsWithin }
{}

/// Whatever was read and done, all DATA that came and was sent was within its windows, and no window grew past the largest.
pub fn no_window_is_passed()
    ensures { WindowsHold }
{
    mq_streams::no_window_is_passed();
}

/// The DATA that a read tells is that which arrived in it and isn't consumed.
pub fn what_is_told_is_held()
    ensures { IsTold }
{}

/// What a read or an act puts for writing is whole frames.
pub fn what_is_put_is_whole_frames()
    ensures { PutsWholeFrames }
{}

/// A read tells at most one request of a stream, only where it may still come, and no act changes whether it may.
pub fn is_asked_once()
    ensures reads { IsAskedOnce }
    ensures acts { KeepsAsked }
{}

/// What a read does and puts is the same whatever was put for writing before.
pub fn reads_stand_apart()
    ensures { ReadsApart }
{}

/// Whatever was read and done, all that was put for writing is read back as the frames that it was put as.
pub fn what_is_owed_is_read_back()
    ensures { ReadsBack }
{
    are_read_back();
    stays_bounded();
    fits_fields();
    consumed_within_what_came();
}
