//! Room for the next tunnel that opens, which is taken before the book is asked.
ghost use Rattle.mq_conn.specs.Rooms.{MakesRoom, Prepares};

use crate::conn::Conn;
use crate::queue::Queue;
use mq_wire::NoMemory;

impl Conn {
    /// Takes the memory that the next tunnel needs as it opens, where that isn't there.
    pub(crate) fn make_room(&mut self) -> Result<(), NoMemory>
        ensures { MakesRoom self.old self.new result }
    {
        if self.spare.is_none() {
            self.spare = Some(Queue::new(self.alloc)?);
        }
        self.tunnels.reserve(1)?;
        Ok(())
    }

    /// The same, where one is to open by what is due.
    pub(crate) fn prepare(&mut self) -> Result<(), NoMemory>
        ensures { Prepares self.old self.new result }
    {
        if self.due.opens() {
            return self.make_room();
        }
        Ok(())
    }
}
