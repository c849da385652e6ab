//! What the book answered to a tunnel for IP packets: which addresses it holds, and whether it may lead where it says.
ghost use Rattle.std.specs.Prelude.{◌≡◌, IfSome, is_ok};
ghost use Rattle.mq_iptun.specs.Answers.{AreTold};
ghost use Rattle.mq_machine.specs.declared.act.Act.TheVariants as asks;
ghost use Rattle.mq_machine.specs.declared.act.StreamAct.{StreamAct as AsksOf};
ghost use Rattle.mq_machine.specs.declared.act.Due.TheVariants.{Do};
ghost use Rattle.mq_talk.specs.declared.book.Reply.TheVariants as reply;
ghost use Rattle.mq_conn.specs.Conns.{Hears, Refuses};
ghost use Rattle.mq_conn.specs.Values.{AssignsOn, IsAdvertise, IsAssign, WaitsAt};

use crate::conn::Conn;
use crate::frame::place_of;
use mq_addr::Given;
use mq_iptun::assign_capsule;
use mq_machine::{Act, Due, StreamAct};
use mq_talk::Note;
use mq_wire::{Bytes, NoMemory, Seq};

fn assigns_stream(stream: u32, act: &StreamAct) -> Option<u32>
    ensures { IfSome result (λ id. (id ≡ stream) × IsAssign act.now) }
{
    match act {
        StreamAct::Assign { .. } => Some(stream),
        _ => None,
    }
}

fn assigns_act(act: &Act) -> Option<u32>
    ensures { IfSome result (λ id. (a : AsksOf) × (act.now ≡ asks.OfStream id a) × IsAssign a) }
{
    match act {
        Act::OfStream { stream, act } => assigns_stream(*stream, act),
        _ => None,
    }
}

/// The stream whose tunnel asks for addresses.
fn assigns(due: &Due) -> Option<u32>
    ensures { IfSome result (λ id. (a : AsksOf) × (due.now ≡ Do (asks.OfStream id a)) × IsAssign a) }
{
    match due {
        Due::Do(act) => assigns_act(act),
        _ => None,
    }
}

fn advertises_stream(stream: u32, act: &StreamAct) -> Option<u32>
    ensures { IfSome result (λ id. (id ≡ stream) × IsAdvertise act.now) }
{
    match act {
        StreamAct::Advertise { .. } => Some(stream),
        _ => None,
    }
}

fn advertises_act(act: &Act) -> Option<u32>
    ensures { IfSome result (λ id. (a : AsksOf) × (act.now ≡ asks.OfStream id a) × IsAdvertise a) }
{
    match act {
        Act::OfStream { stream, act } => advertises_stream(*stream, act),
        _ => None,
    }
}

/// The stream whose tunnel says where it leads.
fn advertises(due: &Due) -> Option<u32>
    ensures { IfSome result (λ id. (a : AsksOf) × (due.now ≡ Do (asks.OfStream id a)) × IsAdvertise a) }
{
    match due {
        Due::Do(act) => advertises_act(act),
        _ => None,
    }
}

impl Conn {
    /// A control value waits last in the tunnel at this place.
    pub(crate) fn wait_at(&mut self, place: usize, capsule: Bytes) -> Result<(), NoMemory>
        ensures { WaitsAt self.old self.new place capsule result }
    {
        match self.tunnels.get_mut(place) {
            None => Err(NoMemory),
            Some(tunnel) => tunnel.waiting.push_value(capsule),
        }
    }

    /// The addresses that the tunnel of a stream holds, and those that it is denied, wait in it.
    fn assign(&mut self, stream: u32, list: Seq<Given>, at: u32) -> Result<Note, NoMemory>
        requires { AreTold list }
        ensures { AssignsOn self.old self.new stream list at result }
    {
        let Some(id) = self.live(stream) else {
            return Err(NoMemory);
        };
        let Some(place) = place_of(self.tunnels.as_slice(), id) else {
            return Err(NoMemory);
        };
        let capsule = assign_capsule(self.alloc, list.as_slice())?;
        self.wait_at(place, capsule)?;
        Ok(Note::Assigned {
            tunnel: id,
            at,
            list,
        })
    }

    /// The book assigned addresses.
    pub(crate) fn assigned(&mut self, list: Seq<Given>, at: u32) -> Result<Note, NoMemory>
        requires { AreTold list }
        ensures hears { Hears self.old self.new (reply.Assigned list at) result }
        ensures spent { Refuses self.old (is_ok result) }
    {
        let Some(due) = self.take() else {
            return Err(NoMemory);
        };
        let Some(stream) = assigns(&due) else {
            return Err(NoMemory);
        };
        let note = self.assign(stream, list, at)?;
        self.settle();
        Ok(note)
    }

    /// The book said whether its tunnel may lead where it says.
    pub(crate) fn accepted(&mut self, yes: bool, at: u32) -> Result<Note, NoMemory>
        ensures hears { Hears self.old self.new (reply.Accepted yes at) result }
        ensures spent { Refuses self.old (is_ok result) }
    {
        let Some(due) = self.take() else {
            return Err(NoMemory);
        };
        let Some(stream) = advertises(&due) else {
            return Err(NoMemory);
        };
        let Some(tunnel) = self.live(stream) else {
            return Err(NoMemory);
        };
        self.settle();
        Ok(Note::Advertised { tunnel, at, yes })
    }
}
