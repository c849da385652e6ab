//! What becomes of bytes that wait to be framed (RFC 9113, section 6.9).
ghost use Rattle.std.specs.Prelude.{◌≡◌, OnOk, OnErr};
ghost use Rattle.mq_client.specs.Sending.{sends, sends_open};
ghost use Rattle.mq_client.specs.Session.{Session};
ghost use Rattle.mq_client.specs.Talking.{Goes};

use crate::parts::{Parts, STREAM};
use crate::stage::Stage;
use mq_wire::NoMemory;

impl Parts {
    /// Frames as many of the bytes that wait as both windows allow. An `Err` changes nothing.
    fn send_allowed(&mut self) -> Result<(), NoMemory>
        ensures ok { (s : Session) → Goes self.old s → OnOk result (Goes self.new (sends s)) }
        ensures err { OnErr result (self.new ≡ self.old) }
    {
        let waiting = self.waits.as_slice();
        let count = waiting.len().min(self.streams.room(STREAM) as usize);
        let (front, _) = waiting.split_at(count);
        self.owed.put_data(front)?;
        self.streams.take_room(STREAM, count as u32);
        self.waits.take(count);
        Ok(())
    }

    /// The same in an opened tunnel, and else nothing. An `Err` changes nothing.
    pub fn send_waiting(&mut self) -> Result<(), NoMemory>
        ensures ok { (s : Session) → Goes self.old s → OnOk result (Goes self.new (sends_open s)) }
        ensures err { OnErr result (self.new ≡ self.old) }
    {
        match &self.stage {
            Stage::Greeting(_) | Stage::Asked => Ok(()),
            Stage::Open(_) => self.send_allowed(),
        }
    }
}
