//! A client over HTTP/1.1: what it reads, and what it owes.
ghost use Rattle.std.specs.Prelude.{◌≡◌, ◌≤◌, length, IfOk, OnErr, IsErr};
ghost use Rattle.mq_client.specs.Exchange.{Exchange, exchange_begun, exchange_fed, exchange_wrote, exchange_owed};
ghost use Rattle.mq_client.specs.Standing.{IsHttp1};

use crate::event::ClientEvent;
use crate::queue::Queue;
use crate::reading::Reading;
use crate::request::write_request;
use mq_wire::{NoMemory, Seq};
use std::alloc::Global;
use std::mem::replace;

#[derive(Drop)]
pub struct Http1 {
    pub reading: Reading,
    pub owed: Queue,
}

impl Http1 {
    /// Owes the request with this path and query, to this host.
    pub fn new(alloc: Global, path: &[u8], host: &[u8]) -> Result<Http1, NoMemory>
        ensures { IfOk result (λ one. IsHttp1 one (exchange_begun path.now host.now)) }
    {
        let mut request = Vec::new(alloc);
        write_request(&mut request, path, host)?;
        Ok(Http1 {
            reading: Reading::new(alloc),
            owed: Queue::of(request),
        })
    }

    /// Reads one more piece, and gives what it brings. After an `Err` nothing is read any more.
    pub fn feed(&mut self, alloc: Global, piece: &[u8]) -> Result<Seq<ClientEvent>, NoMemory>
        ensures stands { (s : Exchange) → IsHttp1 self.old s → IfOk result (λ events. IsHttp1 self.new (exchange_fed s piece.now events)) }
        ensures err { OnErr result (self.new.reading ≡ Reading.Spent) }
        ensures spent { self.old.reading ≡ Reading.Spent → IsErr result }
    {
        let mut events = Vec::new(alloc);
        let reading = replace(&mut self.reading, Reading::Spent);
        self.reading = reading.read(alloc, piece, &mut events)?;
        Ok(Seq::from_vec(events))
    }

    /// So many of the owed bytes were written.
    pub fn wrote(&mut self, count: u32)
        ensures { (s : Exchange) → IsHttp1 self.old s → count ≤ length (exchange_owed s) → IsHttp1 self.new (exchange_wrote s count) }
    {
        let owed = self.owed.as_slice().len();
        self.owed.take(owed.min(count as usize));
    }
}
