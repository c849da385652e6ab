//! A capsule that waits is framed.
ghost use Rattle.std.specs.Prelude.{◌≡◌};
ghost use Rattle.mq_machine.specs.State as machine;
ghost use Rattle.mq_conn.specs.Conns.{IsConn};
ghost use Rattle.mq_held.specs.Frames.{FrameGives};
ghost use Rattle.mq_held.specs.Notes.{HasNote, note_with};

use crate::held::Held;
use crate::note::put_note;
use mq_talk::Note;
use mq_wire::NoMemory;

impl<L> Held<L> {
    /// Frames the capsule whose turn it is, where one can be framed, and puts the note of that into `told`.
    pub fn frame(&mut self, told: &mut Option<Note>) -> Result<bool, NoMemory>
        ensures gives { (s : machine.Conn) → IsConn self.old.conn s → FrameGives (IsConn self.new.conn) s (note_with result told.new) }
        ensures told { HasNote result told.new }
        ensures rest { self.new ≡ record self.old { conn = self.new.conn } }
    {
        if !self.conn.can_frame() {
            return Ok(false);
        }
        match self.conn.frame() {
            Ok(note) => {
                put_note(told, note);
                Ok(true)
            }
            Err(refused) => Err(refused),
        }
    }
}
