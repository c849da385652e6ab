//! A connection, with its link and the ports of its tunnels.
ghost use Rattle.std.specs.Prelude.{◌≡◌, [], None};

use mq_conn::Conn;
use std::alloc::Global;

/// The port of a live tunnel: under this key it stands in the table of ports. So many datagrams were received on it.
#[derive(Clone, Copy, Debug)]
pub struct PortSeat {
    pub tunnel: u32,
    pub key: usize,
    pub received: u64,
}

/// An accepted connection.
#[derive(Drop)]
pub struct Held<L> {
    pub number: u32,
    pub conn: Conn,
    pub link: L,
    /// The ports of its UDP tunnels, as they opened.
    pub ports: Vec<PortSeat>,
    /// The key of a port that is bound, whose tunnel didn't open yet.
    pub bound: Option<usize>,
}

impl<L> Held<L> {
    /// A connection of which nothing was read, with its number, on its link. Takes no memory.
    pub fn new(alloc: Global, number: u32, conn: Conn, link: L) -> Held<L>
        ensures number { result.number ≡ number }
        ensures conn { result.conn ≡ conn }
        ensures link { result.link ≡ link }
        ensures ports { result.ports.items ≡ [] }
        ensures bound { result.bound ≡ None }
    {
        Held {
            number,
            conn,
            link,
            ports: Vec::new(alloc),
            bound: None,
        }
    }
}
