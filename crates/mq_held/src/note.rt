//! The note of what was done.
ghost use Rattle.std.specs.Prelude.{◌≡◌, Some};

use mq_talk::Note;

/// Puts the note of what was done into `told`.
#[inline(always)]
pub fn put_note(told: &mut Option<Note>, note: Note)
    ensures { told.new ≡ Some note }
{
    *told = Some(note);
}
