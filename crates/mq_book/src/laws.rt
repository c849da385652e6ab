//! What holds of every history, and of every legal one. The functions do nothing.
ghost use Rattle.mq_book.specs.Laws.{BeginsLegal, EachReplyFits, HasOneAnswer, HasOneOwner, HasOneVerdict, IsOwnedOnce, JudgedHasInbox, StaysFull};

/// A reply is of a kind that its call may get.
pub fn each_reply_fits()
    ensures { EachReplyFits }
{}

/// A history and a call determine the answer.
pub fn one_answer()
    ensures { HasOneAnswer }
{}

/// What a legal history begins with is legal.
pub fn begins_legal()
    ensures { BeginsLegal }
{}

/// A history that has no place for so many entries has none later.
pub fn stays_full()
    ensures { StaysFull }
{}

/// On a legal history no address lies in blocks or accepted ranges of two live tunnels.
pub fn one_owner()
    ensures { HasOneOwner }
{}

/// On a legal history no address is owned by two live tunnels, whatever the protocols.
pub fn owned_once()
    ensures { IsOwnedOnce }
{}

/// A legal history determines the verdict on a packet.
pub fn one_verdict()
    ensures { HasOneVerdict }
{}

/// On a legal history a packet that may pass goes to an inbox that there is.
pub fn judged_has_inbox()
    ensures { JudgedHasInbox }
{}
