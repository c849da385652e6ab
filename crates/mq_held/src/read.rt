//! The link is read.
ghost use Rattle.std.specs.Prelude.{◌≡◌, length};
ghost use Rattle.mq_machine.specs.State as machine;
ghost use Rattle.mq_conn.specs.Conns.{IsConn};
ghost use Rattle.mq_held.specs.Links.{calls_of, ReadGives};
ghost use Rattle.mq_held.specs.Notes.{went_with};

use crate::held::Held;
use crate::note::put_note;
use crate::went::{Went, size_of};
use mq_machine::Setup;
use mq_outside::{Link, LinkGot};
use mq_talk::{End, Note};
use mq_wire::NoMemory;

impl<L: Link> Held<L> {
    /// Reads once, where it can take bytes, to the front of a buffer of 16,384 bytes. The note of what was done is put into
    /// `told`.
    pub fn read(
        &mut self,
        setup: &Setup,
        buffer: &mut [u8],
        told: &mut Option<Note>,
    ) -> Result<Went, NoMemory>
        requires { length buffer.old ≡ 16384 }
        ensures gives { (s : machine.Conn) → IsConn self.old.conn s → s.number ≡ self.old.number
            → ReadGives setup.now (calls_of L.holds L.past L.counts self.old.link self.new.link) (IsConn self.new.conn) s (went_with result told.new) }
        ensures rest { self.new ≡ record self.old { conn = self.new.conn; link = self.new.link } }
        ensures size { length buffer.new ≡ length buffer.old }
    {
        if !self.conn.can_read() {
            return Ok(Went::Waits);
        }
        match self.link.read(buffer) {
            LinkGot::NotNow => Ok(Went::Waits),
            LinkGot::Failed => {
                self.conn.fail(End::Link);
                Ok(Went::Failed)
            }
            LinkGot::End => {
                self.conn.finish();
                put_note(told, Note::Finished { conn: self.number });
                Ok(Went::Did)
            }
            LinkGot::Bytes(count) => {
                let (piece, _) = buffer.split_at(size_of(count));
                match self.conn.feed(setup, piece) {
                    Err(refused) => Err(refused),
                    Ok(()) => {
                        let conn = self.number;
                        put_note(told, Note::Took { conn, count });
                        Ok(Went::Did)
                    }
                }
            }
        }
    }
}
