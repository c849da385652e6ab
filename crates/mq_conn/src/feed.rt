//! A connection is fed bytes, and told that they end.
ghost use Rattle.std.specs.Prelude.{◌≡◌, ◌≢◌, ◌==◌, [], Bool, true, find, is_ok, OnOk, OnErr};
ghost use Rattle.std.specs.Option.{is_some};
ghost use Rattle.mq_machine.specs.Cores.{Feeds};
ghost use Rattle.mq_machine.specs.State as machine;
ghost use Rattle.mq_machine.specs.Reading.{EndsThere};
ghost use Rattle.mq_machine.specs.Steps as steps;
ghost use Rattle.mq_conn.specs.Conns.{IsConn, Leaves, Refuses, Starves, tunnels_of};
ghost use Rattle.mq_conn.specs.Frames.{LinkEnds};
ghost use Rattle.mq_conn.specs.Rooms.{ReadsPiece};

use crate::conn::{Conn, First, Tunnel};
use mq_front::{Finish, Tunnels};
use mq_h2::{is_asked_once, what_is_told_is_held};
use mq_machine::Setup;
use mq_wire::NoMemory;

/// Whether one of these tunnels is on this stream.
fn is_on(tunnels: &[Tunnel], stream: u32) -> bool
    ensures { result ≡ is_some (find (λ (t : machine.Tunnel). t.stream == stream) (tunnels_of tunnels.now)) }
{
    for tunnel in tunnels {
        if tunnel.stream == stream {
            return true;
        }
    }
    false
}

/// The live tunnels of a connection.
#[derive(Drop)]
struct Live<'a> {
    tunnels: &'a [Tunnel],
}

impl<'a> Tunnels for Live<'a> {
    ghost use Rattle.mq_conn.specs.Conns.{tunnels_of};

    ghost list = { λ s. tunnels_of s.tunnels.now };

    fn is_on(&self, stream: u32) -> bool {
        is_on(self.tunnels, stream)
    }
}

impl Conn {
    /// Takes the bytes of one read, and judges its requests by the setup of the proxy, which is the same at each read. A
    /// connection that is refused memory is ending.
    pub fn feed(&mut self, setup: &Setup, piece: &[u8]) -> Result<(), NoMemory>
        ensures takes { piece.now ≢ [] → Feeds (IsConn self.old) (IsConn self.new) (Starves self.old self.new) setup.now piece.now (is_ok result) }
        ensures pump { OnOk result (self.new.pump ≡ setup.now.pump) }
        ensures spent { Refuses self.old (is_ok result) }
    {
        match self.try_feed(setup, piece) {
            Ok(()) => {
                self.pump = setup.pump;
                Ok(())
            }
            Err(refused) => {
                self.starve();
                Err(refused)
            }
        }
    }

    fn try_feed(&mut self, setup: &Setup, piece: &[u8]) -> Result<(), NoMemory>
        ensures takes { OnOk result (Feeds (IsConn self.old) (IsConn self.new) ⊥ setup.now piece.now true) }
        ensures keeps { OnErr result (Leaves self.old self.new) }
        ensures spent { Refuses self.old (is_ok result) }
    {
        is_asked_once();
        what_is_told_is_held();
        self.read(setup, piece)?;
        self.prepare()?;
        self.settle();
        Ok(())
    }

    /// The bytes of one read, before the end of the act.
    fn read(&mut self, setup: &Setup, piece: &[u8]) -> Result<(), NoMemory>
        ensures reads { ReadsPiece self.old self.new setup.now piece.now result }
        ensures spent { Refuses self.old (is_ok result) }
    {
        let Some(front) = &mut self.front else {
            return Err(NoMemory);
        };
        let live = Live {
            tunnels: self.tunnels.as_slice(),
        };
        front.read(self.alloc, setup, &live, piece, &mut self.due)
    }

    /// The link has ended.
    pub fn finish(&mut self)
        ensures { (s : machine.Conn) → IsConn self.old s → steps.can_read s ≡ true → (inside : Bool) × EndsThere s inside × IsConn self.new (steps.finished s inside).1 }
    {
        self.end();
        self.settle();
    }

    fn end(&mut self)
        ensures { LinkEnds self.old self.new }
    {
        self.finished = true;
        if let Some(front) = &self.front {
            match front.finish() {
                Finish::Closes(why) => self.first = Some(First::Close { stream: 0, why }),
                Finish::Ends(end) => self.ending = Some(end),
            }
        }
    }
}
