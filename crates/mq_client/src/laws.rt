//! What holds of all bytes of a proxy, and of all reads. The functions do nothing.
ghost use Rattle.mq_client.specs.Framed.{IsAlwaysFramed};
ghost use Rattle.mq_client.specs.Telling.{IsAlwaysTold};
ghost use Rattle.mq_client.specs.Laws.{ToldOnce, NothingFollows, IsOneRead, TellsNoMore, ReadsInPieces, SendsWithin, SendsAll, IsAlwaysSent};

use mq_capsule::{is_read_once, is_readable, says_nothing, stays_read};
use mq_frame::nothing_is_read;
use mq_hpack::has_one_reading;

/// Bytes bring one list of events over HTTP/1.1; over HTTP/2 each read does, with what was sent before it.
pub fn told_once()
    ensures bytes { ToldOnce }
    ensures reads { IsOneRead }
{
    is_read_once();
    has_one_reading();
    mq_frame::is_read_once();
}

/// Behind the last event no event comes.
pub fn nothing_follows()
    ensures bytes { NothingFollows }
    ensures reads { TellsNoMore }
{
    is_readable();
    stays_read();
    is_read_once();
}

/// Pieces of any length bring what they bring as one.
pub fn reads_in_any_cutting()
    ensures { ReadsInPieces }
{
    mq_frame::is_read_once();
}

/// What is framed is within both windows, and all that is: in an open tunnel bytes wait for a window alone.
pub fn data_is_within_its_windows()
    ensures within { SendsWithin }
    ensures all { SendsAll }
    ensures always { IsAlwaysSent }
{}

/// Over HTTP/2, what is put is the preface and whole frames, whose DATA are the capsules of the payloads that were sent, but for
/// the bytes that wait.
pub fn what_is_put_is_framed()
    ensures { IsAlwaysFramed }
{}

/// Over HTTP/2, what is told is what the proxy's data stream brings, which is the contents of its DATA frames.
pub fn what_is_told_is_the_data_stream()
    ensures { IsAlwaysTold }
{
    is_read_once();
    says_nothing();
    mq_frame::is_readable();
    nothing_is_read();
    mq_frame::is_read_once();
}
