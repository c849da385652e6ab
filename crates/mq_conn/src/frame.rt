//! What comes to a tunnel, and the capsules that it is framed in.
ghost use Rattle.std.specs.Prelude.{◌≡◌, ℕ, ◌+◌, ◌<◌, ◌≤◌, ◌||◌, min, not, nat_le, nat_lt, ◌^◌, ◌-◌, List, length, filter, sum_by, slice_get, Some, None, IfOk, OnErr, MatchBool, MatchOption, true, is_ok, is_some};
ghost use Rattle.mq_capsule.specs.Writing.{capsule_text, datagram};
ghost use Rattle.mq_machine.specs.Cores.{Frames};
ghost use Rattle.mq_machine.specs.State as machine;
ghost use Rattle.mq_machine.specs.State.{is_packet, kind_of};
ghost use Rattle.mq_machine.specs.Steps as steps;
ghost use Rattle.mq_machine.specs.Want.{want_of, may_wait};
ghost use Rattle.mq_conn.specs.Conns.{IsConn, Leaves, Refuses, Starves, tunnel_is};
ghost use Rattle.mq_talk.specs.declared.place.Cause.TheVariants as cause;
ghost use Rattle.mq_conn.specs.Frames.{AnyCanFrame, ComesInAt, Delivers, GoesOnAt, QueuesAt, IsNext, IsPlaceOf, HasNone, PutsFirst, TookFirst, TookOf};
ghost use Rattle.mq_conn.specs.Queues.{size_of, what_of, behind as waits_behind};
ghost use Rattle.mq_conn.specs.declared.conn.Tunnel.{Tunnel};

use crate::capsule::{behind, capsule_size};
use crate::conn::{Conn, First, Tunnel};
use crate::hop::lowered;
use crate::queue::{MOST_PACKETS, Queue, Queued};
use mq_addr::Kind;
use mq_front::kind_of;
use mq_talk::{Cause, From, Note, Why};
use mq_wire::{Bytes, NoMemory};

/// The bytes of whole capsules that may wait in a connection.
const MOST_WAITING: usize = 1_048_576;

/// How many bytes the capsules have that wait in these tunnels.
fn waiting_in(tunnels: &[Tunnel]) -> usize
    ensures { result ≡ min (sum_by (λ (t : Tunnel). size_of t.waiting) tunnels.now) (2 ^ 64 - 1) }
{
    let mut sum = 0usize;
    for tunnel in tunnels {
        sum = sum.saturating_add(tunnel.waiting.size());
    }
    sum
}

/// The number behind this one.
fn next_number(id: u32) -> u64
    ensures { result ≡ id + 1 }
{
    u64::from(id) + 1
}

/// The place of the tunnel of this number.
pub(crate) fn place_of(tunnels: &[Tunnel], id: u32) -> Option<usize>
    ensures { MatchOption result (HasNone tunnels.now id) (λ place. (t : Tunnel) × IsPlaceOf tunnels.now id place t) }
{
    for place in 0..tunnels.len() {
        if tunnels[place].id == id {
            return Some(place);
        }
    }
    None
}

/// The note of a capsule of tunnel `to` that was framed to its end. That of a control value is told.
fn whole(to: u32, last: Queued) -> Note
    ensures { (t : machine.Tunnel) → t.id ≡ to → (framed : ℕ) → result ≡ steps.whole_note t (waits_behind framed last) (what_of last) }
{
    match last {
        Queued::Packet {
            from,
            n,
            packet,
            ..
        } => Note::Delivered {
            from,
            n,
            to,
            packet,
        },
        Queued::Value { capsule } => Note::Control {
            tunnel: to,
            capsule,
        },
    }
}

/// So many bytes of what waits first in the tunnel of this number were framed.
fn took_of(waiting: &mut Queue, id: u32, count: usize) -> Option<Note>
    ensures { TookOf waiting.old waiting.new id count result }
{
    let Some(left) = waiting.left() else {
        return None;
    };
    if left > count {
        waiting.advance(count);
        return Some(Note::Part {
            tunnel: id,
            count: count as u32,
        });
    }
    match waiting.pop() {
        None => None,
        Some(last) => Some(whole(id, last)),
    }
}

/// The note of a packet whose tunnel is gone.
fn gone(from: From, n: u64) -> Note
    ensures { result ≡ Note.Dropped from n cause.Gone }
{
    Note::Dropped {
        from,
        n,
        cause: Cause::Gone,
    }
}

impl Conn {
    /// The port of its tunnel failed: the tunnel is to close, before all that is due. It waits for its client, or for a port.
    pub fn shut(&mut self, tunnel: u32)
        ensures { (s : machine.Conn) → IsConn self.old s → (t : machine.Tunnel) → machine.tunnel_of s tunnel ≡ Some t → may_wait (want_of s) ≡ true → IsConn self.new (steps.port_failed s t) }
    {
        if let Some(place) = place_of(self.tunnels.as_slice(), tunnel) {
            let stream = self.tunnels[place].stream;
            self.first = Some(First::Close {
                stream,
                why: Why::Port,
            });
        }
    }

    /// Whether a payload of this length may wait in the tunnel at this place.
    fn has_room(&self, place: usize, payload: usize) -> bool
        ensures is { (t : Tunnel) → slice_get self.now.tunnels.items place ≡ Some t → (packet : List ℕ) → payload ≡ length packet
            → result ≡ not (nat_le 64 (length (filter is_packet t.waiting)) || nat_lt 1048576 (sum_by (λ (u : Tunnel). size_of u.waiting) self.now.tunnels.items + length (capsule_text (datagram packet)))) }
        ensures short { result ≡ true → payload ≤ 1048576 }
        ensures there { result ≡ true → place < length self.now.tunnels.items }
    {
        match self.tunnels.get(place) {
            None => false,
            Some(tunnel) => {
                if tunnel.waiting.len() >= MOST_PACKETS {
                    return false;
                }
                if payload > MOST_WAITING {
                    return false;
                }
                let waiting = waiting_in(self.tunnels.as_slice());
                if waiting > MOST_WAITING {
                    return false;
                }
                waiting + capsule_size(payload) <= MOST_WAITING
            }
        }
    }

    /// A packet comes to the tunnel at this place, whose number is `tunnel`: it waits there, unless too much does.
    fn queue(&mut self, place: usize, tunnel: u32, from: From, n: u64, packet: Bytes) -> Note
        ensures { QueuesAt self.old self.new place tunnel from n packet result }
    {
        if !self.has_room(place, packet.as_slice().len()) {
            self.settle();
            return Note::Dropped {
                from,
                n,
                cause: Cause::QueueFull,
            };
        }
        self.tunnels[place].waiting.push(from, n, packet);
        self.settle();
        Note::Queued {
            from,
            n,
            to: tunnel,
        }
    }

    /// A packet that may go on comes to the tunnel at this place, with its hop limit lowered.
    fn go_on(&mut self, place: usize, tunnel: u32, from: From, n: u64, packet: Bytes) -> Note
        ensures { GoesOnAt self.old self.new place tunnel from n packet result }
    {
        match lowered(packet) {
            None => Note::Dropped {
                from,
                n,
                cause: Cause::HopLimit,
            },
            Some(packet) => self.queue(place, tunnel, from, n, packet),
        }
    }

    /// Whether the tunnel at this place is one for IP packets.
    fn is_for_ip(&self, place: usize) -> bool
        ensures { (t : Tunnel) → slice_get self.now.tunnels.items place ≡ Some t → MatchBool result (kind_of t.goal ≡ Kind.Ip) (kind_of t.goal ≡ Kind.Udp) }
    {
        let Some(tunnel) = self.tunnels.get(place) else {
            return false;
        };
        match kind_of(tunnel.goal) {
            Kind::Udp => false,
            Kind::Ip => true,
        }
    }

    /// A packet of an inbox comes to the tunnel at this place: it goes on there, where that is one for IP packets.
    fn come_in(&mut self, place: usize, tunnel: u32, from: From, n: u64, packet: Bytes) -> Note
        ensures { ComesInAt self.old self.new place tunnel from n packet result }
    {
        if self.is_for_ip(place) {
            return self.go_on(place, tunnel, from, n, packet);
        }
        gone(from, n)
    }

    /// Whether a tunnel of this number is live. Takes no memory.
    pub fn is_live(&self, tunnel: u32) -> bool
        ensures { (s : machine.Conn) → IsConn self.now s → result ≡ is_some (machine.tunnel_of s tunnel) }
    {
        place_of(self.tunnels.as_slice(), tunnel).is_some()
    }

    /// A packet came to tunnel `tunnel`, which may have closed on the way. A datagram of its port waits there. So does a packet
    /// of at most 65,535 bytes that came through an inbox, with its hop limit lowered (RFC 9484, section 7), where the tunnel is
    /// one for IP packets. Where too much waits, it is dropped.
    pub fn deliver(&mut self, from: From, n: u64, tunnel: u32, packet: Bytes) -> Note
        ensures { Delivers self.old self.new from n tunnel packet result }
    {
        let Some(place) = place_of(self.tunnels.as_slice(), tunnel) else {
            return gone(from, n);
        };
        match from {
            From::Port(_) => self.queue(place, tunnel, from, n, packet),
            From::Tunnel(_) | From::Net => self.come_in(place, tunnel, from, n, packet),
        }
    }

    /// Whether a part of what waits in the tunnel at this place can be framed now.
    fn can_frame_at(&self, place: usize) -> bool
        ensures { (s : machine.Conn) → IsConn self.now s → s.ending ≡ None → (t : Tunnel) → slice_get self.now.tunnels.items place ≡ Some t → result ≡ steps.can_frame s (tunnel_is t) }
    {
        let Some(tunnel) = self.tunnels.get(place) else {
            return false;
        };
        let Some(left) = tunnel.waiting.left() else {
            return false;
        };
        match &self.front {
            None => false,
            Some(front) => front.room(tunnel.stream, left) > 0,
        }
    }

    /// The place of the first tunnel that can be framed, of those whose numbers begin at `next_tunnel`, or of the others.
    fn next_of(&self, late: bool) -> Option<usize>
        ensures { IsNext self.now late result }
    {
        for place in 0..self.tunnels.len() {
            let is_late = u64::from(self.tunnels[place].id) >= self.next_tunnel;
            if is_late == late && self.can_frame_at(place) {
                return Some(place);
            }
        }
        None
    }

    /// The place of the tunnel whose turn it is to be framed.
    fn next_framed(&self) -> Option<usize>
        ensures { (s : machine.Conn) → IsConn self.now s → MatchOption result (steps.next_framed s ≡ None) (λ place. (t : Tunnel) × (slice_get self.now.tunnels.items place ≡ Some t) × (steps.next_framed s ≡ Some (tunnel_is t))) }
    {
        if !self.can_go_on() {
            return None;
        }
        match self.next_of(true) {
            Some(place) => Some(place),
            None => self.next_of(false),
        }
    }

    /// Whether one of its tunnels can be framed.
    fn can_frame_any(&self) -> bool
        ensures { AnyCanFrame self.now result }
    {
        for place in 0..self.tunnels.len() {
            if self.can_frame_at(place) {
                return true;
            }
        }
        false
    }

    /// Whether a capsule can be framed now, or a part of one.
    pub fn can_frame(&self) -> bool
        ensures { (s : machine.Conn) → IsConn self.now s → result ≡ is_some (steps.framed s) }
    {
        self.can_frame_any() && self.can_go_on()
    }

    /// Frames the capsule whose turn it is, or as much of it as there is room for.
    #[inline(never)]
    pub fn frame(&mut self) -> Result<Note, NoMemory>
        ensures frames { Frames (IsConn self.old) (IsConn self.new) (Starves self.old self.new) result }
        ensures spent { Refuses self.old (is_ok result) }
    {
        match self.try_frame() {
            Ok(note) => Ok(note),
            Err(refused) => {
                self.starve();
                Err(refused)
            }
        }
    }

    /// Puts as much of what waits first in the tunnel at this place as there is room for, and answers how many bytes.
    fn put_first(&mut self, place: usize) -> Result<usize, NoMemory>
        ensures { PutsFirst self.old self.new place result }
    {
        let Some(tunnel) = self.tunnels.get(place) else {
            return Err(NoMemory);
        };
        let Some(first) = tunnel.waiting.first() else {
            return Err(NoMemory);
        };
        let Some(front) = &mut self.front else {
            return Err(NoMemory);
        };
        let (begin, rest) = first.parts();
        let (begin, rest) = behind(begin, rest, tunnel.waiting.framed());
        front.frame(tunnel.stream, begin, rest)
    }

    /// So many bytes of what waits first in the tunnel at this place were framed.
    fn took(&mut self, place: usize, count: usize) -> Option<Note>
        ensures { TookFirst self.old self.new place count result }
    {
        let Some(tunnel) = self.tunnels.get_mut(place) else {
            return None;
        };
        self.next_tunnel = next_number(tunnel.id);
        took_of(&mut tunnel.waiting, tunnel.id, count)
    }

    fn try_frame(&mut self) -> Result<Note, NoMemory>
        ensures framed { IfOk result (λ note. (s : machine.Conn) → IsConn self.old s → (t : machine.Conn) × IsConn self.new t × (steps.framed s ≡ Some (note, t))) }
        ensures keeps { OnErr result (Leaves self.old self.new) }
        ensures spent { Refuses self.old (is_ok result) }
    {
        let Some(place) = self.next_framed() else {
            return Err(NoMemory);
        };
        let count = self.put_first(place)?;
        match self.took(place, count) {
            None => unreachable!(),
            Some(note) => {
                self.settle();
                Ok(note)
            }
        }
    }
}
