//! The data stream of a request that may open: its capsules, in pieces of any length (RFC 9297, section 3).
ghost use Rattle.std.specs.Prelude.{◌≡◌, ◌&&◌, not, [], OnOk};
ghost use Rattle.mq_front.specs.Data.{IsStream, Takes, EndsAs};

use crate::dues::Dues;
use crate::goal::{has_values, kind_of};
use crate::items::{Carrier, close_if, read_items};
use mq_addr::Kind;
use mq_capsule::Reader;
use mq_talk::{Goal, Why};
use mq_wire::NoMemory;
use std::alloc::Global;

/// The data stream of a tunnel of this kind, on stream `id` of its connection: its reader, and the number of its next
/// payload.
#[derive(Drop)]
pub struct DataStream {
    pub id: u32,
    pub kind: Kind,
    pub reader: Reader,
    pub n: u64,
}

/// Whether the end of a data stream is asked for, whose bytes ask for a close before that or don't.
fn is_last(ends: bool, closes: bool) -> bool
    ensures { result ≡ (ends && not closes) }
{
    ends && !closes
}

impl DataStream {
    /// The data stream of a tunnel that leads there, of which nothing was read.
    pub fn new(id: u32, goal: Goal) -> DataStream
        ensures { IsStream result (record { id = id; goal = goal; bytes = [] }) }
    {
        DataStream {
            id,
            kind: kind_of(goal),
            reader: Reader::new(has_values(goal)),
            n: 0,
        }
    }

    /// Why the end of the data stream closes its tunnel: inside a capsule, or between two.
    pub fn end(&self) -> Why
        ensures { EndsAs self.now result }
    {
        if self.reader.begun() {
            Why::Truncated
        } else {
            Why::End
        }
    }

    /// Takes more bytes, with which the data stream ends or doesn't, and puts what they ask for at the back of the list.
    /// A packet has at most `mtu` bytes. After an `Err` the data stream is of no use.
    pub fn take(
        &mut self,
        alloc: Global,
        mtu: u32,
        bytes: &[u8],
        ends: bool,
        due: &mut Dues,
    ) -> Result<(), NoMemory>
        ensures { OnOk result (Takes mtu self.old bytes.now ends due.old due.new self.new) }
    {
        let carrier = Carrier {
            stream: self.id,
            kind: self.kind,
            mtu,
        };
        let asked = read_items(alloc, carrier, self.n, &mut self.reader, bytes, due)?;
        self.n = asked.n;
        close_if(is_last(ends, asked.closes), self.id, self.end(), due)
    }
}
