//! Laws of plays, each the contract of a function without a body.
ghost use Rattle.mq_play.specs.Laws.{AreAlike, HasOneBadLine, HasOneBadPlay, HasOnePlay, HasOnePlaySoFar, IsALine, IsAlwaysOne, IsCutInLines, IsCutOn, IsGoodOrBad, IsPartFront, IsPartFrontOfBad, IsPrintedOnce, IsSoFarFront, IsSoFarFrontOfBad, IsTold, MakesAPlan};

use crate::sayings::one_saying;
use mq_addr::{addr_bytes, one_prefix, printed_again};
use mq_book::one_answer;
use mq_machine::{one_silent_turn, one_turn, silent_or_quiet, turn_or_quiet};
use mq_text::cut_once;

/// Plays in which no step was refused memory are alike.
pub fn are_alike()
    ensures { AreAlike }
{}

/// The settings with which lines begin make a plan that a proxy may have.
pub fn makes_a_plan()
    ensures { MakesAPlan }
{}

/// In a state that lines lead to, the book says one thing.
pub fn always_one()
    ensures { IsAlwaysOne }
{
    one_answer();
}

/// A script is cut into lines in one way.
pub fn cut_in_lines()
    ensures { IsCutInLines }
{}

/// Behind whole lines a script is cut on.
pub fn cut_on()
    ensures { IsCutOn }
{}

/// A script of good lines prints one text and leads to one state, where the same of its steps were refused memory.
pub fn one_play()
    ensures { HasOnePlay }
{
    one_turn();
    one_silent_turn();
    turn_or_quiet();
    silent_or_quiet();
    one_answer();
    one_saying();
}

/// So do the whole lines of what was read of a script.
pub fn one_play_so_far()
    ensures { HasOnePlaySoFar }
{
    one_turn();
    one_silent_turn();
    turn_or_quiet();
    silent_or_quiet();
    one_answer();
    one_saying();
}

/// So does a script with a bad line.
pub fn one_bad_play()
    ensures { HasOneBadPlay }
{
    one_turn();
    one_silent_turn();
    turn_or_quiet();
    silent_or_quiet();
    one_answer();
    one_saying();
}

/// Its first bad line is one.
pub fn one_bad_line()
    ensures { HasOneBadLine }
{
    one_turn();
    one_silent_turn();
    turn_or_quiet();
    silent_or_quiet();
    one_answer();
    one_saying();
}

/// No script is played to its end and has a bad line too.
pub fn good_or_bad()
    ensures { IsGoodOrBad }
{
    one_turn();
    one_silent_turn();
    turn_or_quiet();
    silent_or_quiet();
    one_answer();
    one_saying();
}

/// What was printed when a play stopped is a front of what the whole script prints.
pub fn part_is_front()
    ensures { IsPartFront }
{
    one_turn();
    one_silent_turn();
    turn_or_quiet();
    silent_or_quiet();
    one_answer();
    one_saying();
}

/// The same of a script with a bad line.
pub fn part_is_front_of_bad()
    ensures { IsPartFrontOfBad }
{
    one_turn();
    one_silent_turn();
    turn_or_quiet();
    silent_or_quiet();
    one_answer();
    one_saying();
}

/// What the whole lines of a script's front print is a front of what the script prints.
pub fn so_far_is_front()
    ensures { IsSoFarFront }
{
    one_turn();
    one_silent_turn();
    turn_or_quiet();
    silent_or_quiet();
    one_answer();
    one_saying();
}

/// The same of a script with a bad line.
pub fn so_far_is_front_of_bad()
    ensures { IsSoFarFrontOfBad }
{
    one_turn();
    one_silent_turn();
    turn_or_quiet();
    silent_or_quiet();
    one_answer();
    one_saying();
}

/// A printed line is a line: it has no newline inside.
pub fn note_is_a_line()
    ensures { IsALine }
{
    addr_bytes();
    printed_again();
}

/// A printed line determines its note, but for the actor of a place, which is that of the book's entry that opened the tunnel.
pub fn note_told()
    ensures { IsTold }
{
    cut_once();
    addr_bytes();
    one_prefix();
    printed_again();
}

/// A text is cut into printed lines in one way.
pub fn printed_once()
    ensures { IsPrintedOnce }
{
    cut_once();
    addr_bytes();
    one_prefix();
    printed_again();
}
