//! Laws of runs, each the contract of a function without a body.
ghost use Rattle.mq_runs.specs.Laws.{CausesHeld, ClosedSaysTheRest, DeliveredAsItCame, DeliveredInOrder, HeldAsItPassed, InboxesLoseNone, IsARun, JudgedOnWhatWasWritten, NoTwoEnds, NoneIsPassedOver, PumpLosesNone, PushedAsItPassed, PutAsItCame, SentAsPushed, SentInOrder, TunnelsLoseNone};

use mq_capsule::{is_read_once, is_readable, is_within_limits, says_nothing};
use mq_machine::stays_lawful;

/// What lines print is what a run prints.
pub fn is_a_run()
    ensures { IsARun }
{}

/// What a note says that the book answered is what the history says.
pub fn judged_on_what_was_written()
    ensures { JudgedOnWhatWasWritten }
{
    is_within_limits();
}

/// The cause that is named where a packet is dropped is so.
pub fn causes_held()
    ensures { CausesHeld }
{
    is_within_limits();
}

/// No payload has two ends.
pub fn no_two_ends()
    ensures { NoTwoEnds }
{
    stays_lawful();
    is_readable();
    is_read_once();
}

/// A tunnel delivers the payloads of one origin by rising numbers.
pub fn delivered_in_order()
    ensures { DeliveredInOrder }
{
    stays_lawful();
    is_readable();
    is_read_once();
}

/// The payloads of one origin are sent by rising numbers.
pub fn sent_in_order()
    ensures { SentInOrder }
{
    stays_lawful();
    is_readable();
    is_read_once();
}

/// What a worker sends to a port is a payload of its tunnel, whole.
pub fn put_as_it_came()
    ensures { PutAsItCame }
{
    is_within_limits();
}

/// What a tunnel delivers passed, was pushed to it and came to wait there, or its port gave it.
pub fn delivered_as_it_came()
    ensures { DeliveredAsItCame }
{
    is_within_limits();
    stays_lawful();
    is_readable();
    is_read_once();
}

/// What the pump sends passed, and was pushed then, and is unchanged.
pub fn sent_as_pushed()
    ensures { SentAsPushed }
{
    is_within_limits();
    stays_lawful();
    is_readable();
    is_read_once();
}

/// What the pump holds for pushing is a packet that the network gave, and passed.
pub fn held_as_it_passed()
    ensures { HeldAsItPassed }
{
    is_within_limits();
    stays_lawful();
    is_readable();
    is_read_once();
}

/// What a tunnel has to push passed, to its place.
pub fn pushed_as_it_passed()
    ensures { PushedAsItPassed }
{
    is_within_limits();
    stays_lawful();
    is_readable();
    is_read_once();
}

/// No payload that was read of a live tunnel is passed over.
pub fn none_is_passed_over()
    ensures { NoneIsPassedOver }
{
    is_within_limits();
    stays_lawful();
    is_readable();
    is_read_once();
    says_nothing();
}

/// No inbox loses a packet, or lets one overtake another.
pub fn inboxes_lose_none()
    ensures { InboxesLoseNone }
{
    is_within_limits();
    stays_lawful();
    is_readable();
    is_read_once();
}

/// The pump loses no packet that the network gave and that passed.
pub fn pump_loses_none()
    ensures { PumpLosesNone }
{}

/// No live tunnel loses a packet, or lets one overtake another.
pub fn tunnels_lose_none()
    ensures { TunnelsLoseNone }
{
    is_within_limits();
    stays_lawful();
    is_readable();
    is_read_once();
}

/// A tunnel that closes says how many of the packets that came to wait there it didn't deliver: the last of them.
pub fn closed_says_the_rest()
    ensures { ClosedSaysTheRest }
{
    is_within_limits();
    stays_lawful();
    is_readable();
    is_read_once();
}
