//! One connection: its state, and what ends it.
ghost use Rattle.std.specs.Prelude.{◌≡◌, None, Some, MatchOption, IfOk};
ghost use Rattle.mq_machine.specs.Settle.{is_given_up};
ghost use Rattle.mq_machine.specs.State as machine;
ghost use Rattle.mq_machine.specs.State.{new_conn};
ghost use Rattle.mq_machine.specs.Steps.{failed, starved};
ghost use Rattle.mq_conn.specs.Conns.{IsConn, GivesUp, find_on, tunnel_is};

use crate::queue::Queue;
use mq_front::{Dues, Front};
use mq_talk::{End, Goal, Place, Why};
use mq_wire::{Bytes, NoMemory};
use std::alloc::Global;

/// A live tunnel, and what waits in it.
#[derive(Drop)]
pub struct Tunnel {
    pub id: u32,
    pub stream: u32,
    pub goal: Goal,
    pub waiting: Queue,
}

/// An act that comes before all that is due.
#[derive(Drop)]
pub enum First {
    /// A tunnel is to open.
    Open {
        stream: u32,
        goal: Goal,
    },
    /// The tunnel of a stream is to close.
    Close {
        stream: u32,
        why: Why,
    },
    /// Packet `n` of the tunnel of a stream was judged, and is to be pushed. Its bytes are moved out for that.
    Push {
        stream: u32,
        n: u64,
        to: Place,
        packet: Bytes,
    },
}

/// One connection.
#[derive(Drop)]
pub struct Conn {
    pub(crate) alloc: Global,
    pub(crate) number: u32,
    pub(crate) actor: u32,
    /// How far its bytes were read, and what it owes; nothing where it was given up.
    pub(crate) front: Option<Front>,
    /// What is due, of which one act may stand in front.
    pub(crate) first: Option<First>,
    pub(crate) due: Dues,
    pub(crate) finished: bool,
    pub(crate) ending: Option<End>,
    /// Its live tunnels, as they opened.
    pub(crate) tunnels: Vec<Tunnel>,
    /// What will wait in the next tunnel that opens.
    pub(crate) spare: Option<Queue>,
    /// The number of the pump, by the setup of its reads.
    pub(crate) pump: u32,
    /// The number from which the search for the next tunnel to frame begins.
    pub(crate) next_tunnel: u64,
}

/// Whether what is owed is given up at the end.
pub fn gives_up(why: Option<End>) -> bool
    ensures { result ≡ is_given_up why }
{
    match why {
        Some(End::Link) => true,
        Some(End::NoMemory) => true,
        _ => false,
    }
}

impl Conn {
    /// Connection number `id` of an actor, of which nothing was read.
    pub fn new(alloc: Global, id: u32, actor: u32) -> Result<Conn, NoMemory>
        ensures { IfOk result (λ c. IsConn c (new_conn id actor)) }
    {
        Ok(Conn {
            alloc,
            number: id,
            actor,
            front: Some(Front::new()),
            first: None,
            due: Dues::new(alloc),
            finished: false,
            ending: None,
            tunnels: Vec::new(alloc),
            spare: None,
            pump: 0,
            next_tunnel: 0,
        })
    }

    /// What is due and owed is given up, nothing more is read, and it is ending. `why` is `Link` or `NoMemory`.
    pub(crate) fn give_up(&mut self, why: End)
        ensures { GivesUp self.old why self.new }
    {
        self.front = None;
        self.first = None;
        self.due.clear();
        self.ending = Some(why);
    }

    /// The link failed, or memory was refused: what is due is given up. `why` is `Link` or `NoMemory`.
    pub fn fail(&mut self, why: End)
        ensures link { (s : machine.Conn) → IsConn self.old s → why ≡ End.Link → IsConn self.new (failed s) }
        ensures memory { (s : machine.Conn) → IsConn self.old s → why ≡ End.NoMemory → IsConn self.new (starved s) }
    {
        self.give_up(why);
    }

    /// It was refused memory.
    pub(crate) fn starve(&mut self)
        ensures { GivesUp self.old End.NoMemory self.new }
    {
        self.give_up(End::NoMemory);
    }

    /// The live tunnel of a stream.
    pub(crate) fn on(&self, stream: u32) -> Option<&Tunnel>
        ensures { MatchOption result (find_on self.now stream ≡ None) (λ t. find_on self.now stream ≡ Some (tunnel_is t.now)) }
    {
        for tunnel in &self.tunnels {
            if tunnel.stream == stream {
                return Some(tunnel);
            }
        }
        None
    }
}
