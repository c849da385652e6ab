//! A client and the proxy, through lists of bytes, over both protocols.

ghost use Rattle.std.specs.Prelude.{◌≤◌, length, IfOk};
ghost use Rattle.mq_client.specs.Requests.{AreVisible, target_limit};
ghost use Rattle.mq_play.specs.Settings.{IsPlan};
ghost use Rattle.mq_world.specs.Worlds.{IsServed};

use mq_client::{Client, ClientEvent};
use mq_machine::Event;
use mq_play::{Plan, makes_a_plan};
use mq_script::Settings;
use mq_talk::Note;
use mq_wire::{Bytes, NoMemory};
use mq_world::{Stepped, World};
use std::alloc::Global;
use std::process::Abort;
use std::test::Fail;

/// A client, the proxy, and the payloads that came to the target and to the client.
#[derive(Drop)]
struct Meeting {
    client: Client,
    world: World,
    is_open: bool,
    at_target: Vec<Bytes>,
    at_client: Vec<Bytes>,
}

fn client(alloc: Global, h2: bool) -> Result<Client, NoMemory> {
    let path = Vec::from_slice(alloc, b"/.well-known/masque/udp/192.0.2.6/443/")?;
    let host = Vec::from_slice(alloc, b"127.0.0.1:8080")?;
    Client::new(alloc, h2, Bytes::from_vec(path), Bytes::from_vec(host))
}

/// What an event comes to.
fn happens(world: &mut World, event: Event) -> Result<Stepped, Fail>
    requires { IsServed event }
{
    match world.step(event) {
        Ok(stepped) => Ok(stepped),
        Err(_) => Err(Fail::from("it can't happen")),
    }
}

/// The plan of a proxy of which nothing was set.
fn unset(alloc: Global) -> Result<Plan, NoMemory>
    ensures { IfOk result IsPlan }
{
    makes_a_plan();
    Settings::new(alloc).plan()
}

/// A client on a new link to a proxy of which nothing was set.
fn make_meeting(alloc: Global, h2: bool) -> Result<Meeting, Fail> {
    let mut world = World::new(alloc, unset(alloc)?)?;
    happens(&mut world, Event::Conn { actor: 0 })?;
    Ok(Meeting {
        client: client(alloc, h2)?,
        world,
        is_open: false,
        at_target: Vec::new(alloc),
        at_client: Vec::new(alloc),
    })
}

/// The payload of this number.
fn payload(alloc: Global, number: u32) -> Result<Bytes, NoMemory>
    ensures { IfOk result (λ bytes. length bytes ≤ 65527) }
{
    let mut bytes = Vec::from_slice(alloc, number.to_be_bytes().as_slice())?;
    for _ in 0..number % 50 {
        if bytes.len() < 100 {
            bytes.push(b'a')?;
        }
    }
    bytes.truncate(100);
    Ok(Bytes::from_vec(bytes))
}

impl Meeting {
    fn told(&mut self, event: ClientEvent) -> Result<(), Fail> {
        match event {
            ClientEvent::Opened => {
                self.is_open = true;
                Ok(())
            }
            ClientEvent::Datagram { payload } => Ok(self.at_client.push(payload)?),
            _ => Err(Fail::from("the tunnel ends")),
        }
    }

    fn hear(&mut self, alloc: Global, bytes: &[u8]) -> Result<(), Fail> {
        for event in self.client.feed(alloc, bytes)?.into_vec() {
            self.told(event)?;
        }
        Ok(())
    }

    /// What the client owes arrives at the proxy. Answers whether it owed something.
    fn write(&mut self, alloc: Global) -> Result<bool, Fail> {
        let owed = self.client.owed();
        if owed.is_empty() {
            return Ok(false);
        }
        let count = u32::try_from(owed.len())?;
        let bytes = Bytes::from_vec(Vec::from_slice(alloc, owed)?);
        self.client.wrote(count);
        happens(&mut self.world, Event::Piece { conn: 0, bytes })?;
        Ok(true)
    }

    /// What the proxy writes arrives at the client, and what it sends at the target.
    fn goes_out(&mut self, alloc: Global, note: &Note) -> Result<(), Fail> {
        match note {
            Note::Wrote { bytes, .. } => self.hear(alloc, bytes.as_slice()),
            Note::Sent { packet, .. } => {
                let packet = Vec::from_slice(alloc, packet.as_slice())?;
                Ok(self.at_target.push(Bytes::from_vec(packet))?)
            }
            _ => Ok(()),
        }
    }

    /// The proxy's worker takes a step. Answers whether it had one.
    fn step(&mut self, alloc: Global) -> Result<bool, Fail> {
        match happens(&mut self.world, Event::Step { actor: 0 })? {
            Stepped::Did(note) => {
                self.goes_out(alloc, &note)?;
                Ok(true)
            }
            Stepped::Idle => Ok(false),
            Stepped::Done | Stepped::Refused => Err(Fail::from("it isn't taken")),
        }
    }

    /// Both go on until neither has anything to do.
    fn go_on(&mut self, alloc: Global) -> Result<(), Fail> {
        for _ in 0..100 {
            let wrote = self.write(alloc)?;
            if !self.step(alloc)? && !wrote {
                return Ok(());
            }
        }
        Err(Fail::from("they go on and on"))
    }

    /// A payload goes each way.
    fn exchange(&mut self, alloc: Global, number: u32) -> Result<(), Fail> {
        self.client.send(payload(alloc, number)?.as_slice())?;
        let bytes = payload(alloc, number.wrapping_add(7))?;
        happens(&mut self.world, Event::Datagram { tunnel: 0, bytes })?;
        self.go_on(alloc)
    }
}

/// They are the payloads from this number on.
fn are_payloads(rt: &impl Abort, alloc: Global, seen: &[Bytes], first: u32) -> Result<(), Fail> {
    let mut number = first;
    for payload_seen in seen {
        let sent = payload(alloc, number)?;
        assert_eq!(rt; payload_seen.as_slice(), sent.as_slice());
        number = number.wrapping_add(1);
    }
    Ok(())
}

fn meet(rt: &impl Abort, alloc: Global, both: &mut Meeting) -> Result<(), Fail> {
    both.go_on(alloc)?;
    assert!(rt; both.is_open);
    for number in 0..1000 {
        both.exchange(alloc, number)?;
    }
    assert_eq!(rt; both.at_target.len(), 1000);
    assert_eq!(rt; both.at_client.len(), 1000);
    are_payloads(rt, alloc, both.at_target.as_slice(), 0)?;
    are_payloads(rt, alloc, both.at_client.as_slice(), 7)
}

#[test]
fn a_thousand_payloads_go_each_way(rt: HostRuntime) -> Result<(), Fail> {
    for &h2 in &[false, true] {
        let mut both = make_meeting(rt.alloc(), h2)?;
        meet(&rt, rt.alloc(), &mut both)?;
    }
    Ok(())
}
