//! The front end of a connection: how far its bytes were read, and what it owes to its link.
ghost use Rattle.std.specs.Prelude.{◌≡◌, ◌==◌, ◌++◌, ◌≤◌, if◌then◌else◌, not, ℕ, List, [], drop, filter, length, OnOk, IfOk};
ghost use Rattle.mq_machine.specs.Done.{success, refusal};
ghost use Rattle.mq_machine.specs.Settle.{spending, updating};
ghost use Rattle.mq_machine.specs.State as machine;
ghost use Rattle.mq_machine.specs.State.{Stream, Tunnel};
ghost use Rattle.mq_machine.specs.Steps.{frame_size};
ghost use Rattle.mq_front.specs.Parts.{IsInHead, ReadsOther, ReadsBehind};
ghost use Rattle.mq_front.specs.Fronts.{IsFront, HasPut, Puts, Reads, Closed, Frames, CanSpend, Finishes};

use crate::dues::Dues;
use crate::event::Tunnels;
use crate::finish::Finish;
use crate::http1::{Http1, behind_head, end_of};
use crate::http2::Http2;
use crate::opening::{Opening, PREFACE, opening_behind};
use mq_addr::Kind;
use mq_h2::reads_stand_apart;
use mq_head::HeadReader;
use mq_machine::Setup;
use mq_talk::{End, Why};
use mq_wire::NoMemory;
use std::alloc::Global;

/// How far the bytes of a connection were read.
#[derive(Drop)]
pub enum Front {
    /// So many bytes of the preface of HTTP/2 came, and no others (RFC 9113, section 3.4).
    Preface(usize),
    /// A part of a head of HTTP/1.1 came.
    Head(HeadReader),
    /// HTTP/1.1, behind its head.
    Http1(Http1),
    /// HTTP/2, behind its preface.
    Http2(Http2),
}

/// The bytes of a connection that are no preface, of which the first so many were those of a part of it.
fn read_other(
    alloc: Global,
    setup: &Setup,
    count: usize,
    piece: &[u8],
    due: &mut Dues,
) -> Result<Front, NoMemory>
    ensures { IfOk result (λ new. ReadsOther setup.now count piece.now due.old due.new new) }
{
    let (begun, _) = PREFACE.split_at(count.min(PREFACE.len()));
    let mut bytes = Vec::with_capacity(alloc, begun.len() + piece.len())?;
    bytes.extend_from_slice(begun)?;
    bytes.extend_from_slice(piece)?;
    let mut reader = HeadReader::new();
    let step = reader.feed(alloc, bytes.as_slice())?;
    match behind_head(alloc, setup, step, bytes.as_slice(), due)? {
        Some(one) => Ok(Front::Http1(one)),
        None => Ok(Front::Head(reader)),
    }
}

/// What a piece leads to behind so many bytes of the preface.
#[inline(never)]
fn read_first<T: Tunnels>(
    alloc: Global,
    setup: &Setup,
    tunnels: &T,
    count: usize,
    piece: &[u8],
    due: &mut Dues,
) -> Result<Front, NoMemory>
    ensures { IfOk result (λ new. ReadsBehind setup.now (T.list tunnels.now) count piece.now due.old due.new new) }
{
    match opening_behind(count, piece) {
        Opening::Part(more) => Ok(Front::Preface(more)),
        Opening::Whole(frames) => {
            reads_stand_apart();
            let mut many = Http2::new(alloc)?;
            many.read(alloc, setup, tunnels, frames, due)?;
            Ok(Front::Http2(many))
        }
        Opening::Other => read_other(alloc, setup, count, piece, due),
    }
}

/// How a link ends that brought so many bytes of the preface, and no others.
fn end_at(count: usize) -> End
    ensures { result ≡ (if count == 0 then End.Done else End.Truncated) }
{
    if count == 0 {
        End::Done
    } else {
        End::Truncated
    }
}

impl Front {
    /// Nothing was read.
    pub fn new() -> Front
        ensures { IsFront result (machine.Head []) [] [] }
    {
        Front::Preface(0)
    }

    /// The bytes that are owed to the link.
    pub fn owed(&self) -> &[u8]
        ensures { (f : machine.Front) (streams : List Stream) (owed : List ℕ) → IsFront self.now f streams owed → result.now ≡ owed }
    {
        match self {
            Front::Preface(_) | Front::Head(_) => &[],
            Front::Http1(one) => one.owed.as_slice(),
            Front::Http2(many) => many.h2.owed(),
        }
    }

    /// So many of them were given to the link.
    pub fn wrote(&mut self, count: u32)
        ensures { (f : machine.Front) (streams : List Stream) (owed : List ℕ) → IsFront self.old f streams owed → count ≤ length owed → IsFront self.new f streams (drop count owed) }
    {
        match self {
            Front::Preface(_) | Front::Head(_) => {}
            Front::Http1(one) => one.wrote(count),
            Front::Http2(many) => many.h2.wrote(count),
        }
    }

    /// Reads a piece behind so many bytes of the preface, and becomes what it leads to.
    #[inline(never)]
    fn read_preface<T: Tunnels>(
        &mut self,
        alloc: Global,
        setup: &Setup,
        tunnels: &T,
        count: usize,
        piece: &[u8],
        due: &mut Dues,
    ) -> Result<(), NoMemory>
        ensures { OnOk result (ReadsBehind setup.now (T.list tunnels.now) count piece.now due.old due.new self.new) }
    {
        *self = read_first(alloc, setup, tunnels, count, piece, due)?;
        Ok(())
    }

    /// Reads a piece behind a part of a head.
    #[inline(never)]
    fn read_head(
        &mut self,
        alloc: Global,
        setup: &Setup,
        piece: &[u8],
        due: &mut Dues,
    ) -> Result<(), NoMemory>
        requires { IsInHead self.old }
        ensures { OnOk result ((ts : List Tunnel) → Reads setup.now ts piece.now due.old due.new self.old self.new) }
    {
        match self {
            Front::Head(reader) => {
                let step = reader.feed(alloc, piece)?;
                if let Some(one) = behind_head(alloc, setup, step, piece, due)? {
                    *self = Front::Http1(one);
                }
                Ok(())
            }
            Front::Preface(_) => unreachable!(),
            Front::Http1(_) => unreachable!(),
            Front::Http2(_) => unreachable!(),
        }
    }

    /// Takes the bytes of one read, and puts what they ask for at the back of the list: requests, judged by the setup
    /// of the proxy, and the capsules of their data streams. After an `Err` it is of no use.
    pub fn read<T: Tunnels>(
        &mut self,
        alloc: Global,
        setup: &Setup,
        tunnels: &T,
        piece: &[u8],
        due: &mut Dues,
    ) -> Result<(), NoMemory>
        ensures { OnOk result (Reads setup.now (T.list tunnels.now) piece.now due.old due.new self.old self.new) }
    {
        match self {
            Front::Preface(count) => {
                let count = *count;
                self.read_preface(alloc, setup, tunnels, count, piece, due)
            }
            Front::Head(_) => self.read_head(alloc, setup, piece, due),
            Front::Http1(one) => one.read(alloc, setup.mtu, piece, due),
            Front::Http2(many) => {
                reads_stand_apart();
                many.read(alloc, setup, tunnels, piece, due)
            }
        }
    }

    /// Puts the answer to a request that is granted.
    pub fn grant(&mut self, alloc: Global, stream: u32, kind: Kind) -> Result<(), NoMemory>
        ensures { (f : machine.Front) (streams : List Stream) (owed : List ℕ) → IsFront self.old f streams owed → Puts self.new result f (success f stream kind) streams owed }
    {
        match self {
            Front::Preface(_) | Front::Head(_) => Ok(()),
            Front::Http1(one) => one.owed.put_success(kind),
            Front::Http2(many) => many.grant(alloc, stream),
        }
    }

    /// Puts the answer to a request that is refused. Over HTTP/1.1 its connection ends with it.
    pub fn refuse(&mut self, alloc: Global, stream: u32, status: u16) -> Result<(), NoMemory>
        ensures { (f : machine.Front) (streams : List Stream) (owed : List ℕ) → IsFront self.old f streams owed → Puts self.new result f (refusal f stream status) streams owed }
    {
        match self {
            Front::Preface(_) | Front::Head(_) => Ok(()),
            Front::Http1(one) => one.owed.put_refusal(status),
            Front::Http2(many) => many.refuse(alloc, stream, status),
        }
    }

    /// Why the connection ends with a refusal, if it does.
    pub fn refusal_end(&self) -> Option<End>
        ensures { (f : machine.Front) (streams : List Stream) (owed : List ℕ) → IsFront self.now f streams owed → (stream status : ℕ) → result ≡ (refusal f stream status).ending }
    {
        match self {
            Front::Http1(_) => Some(End::Refused),
            _ => None,
        }
    }

    /// Puts what the stream of a closed tunnel gets, of whose first capsule a part was framed or wasn't, and answers why its
    /// connection ends with it, if it does. Takes no memory.
    pub fn close(&mut self, stream: u32, begun: bool, why: Why) -> Option<End>
        ensures { (f : machine.Front) (streams : List Stream) (owed : List ℕ) → IsFront self.old f streams owed → Closed self.new f stream begun why result streams owed }
    {
        match self {
            Front::Preface(_) | Front::Head(_) => None,
            Front::Http1(_) => end_of(why),
            Front::Http2(many) => {
                many.close(stream, begun, why);
                None
            }
        }
    }

    /// How many of so many bytes of a capsule may be framed now on this stream.
    pub fn room(&self, stream: u32, size: usize) -> usize
        ensures { (f : machine.Front) (streams : List Stream) (owed : List ℕ) → IsFront self.now f streams owed → result ≡ frame_size f stream size }
    {
        match self {
            Front::Preface(_) | Front::Head(_) => 0,
            Front::Http1(_) => size,
            Front::Http2(many) => many.h2.data_room(stream, size) as usize,
        }
    }

    /// Frames as many of the bytes of `front` and then of `rest` as may be framed now, and answers how many.
    pub fn frame(&mut self, stream: u32, front: &[u8], rest: &[u8]) -> Result<usize, NoMemory>
        ensures { (f : machine.Front) (streams : List Stream) (owed : List ℕ) → IsFront self.old f streams owed → Frames self.new result f stream (front.now ++ rest.now) streams owed }
    {
        match self {
            Front::Preface(_) | Front::Head(_) => Ok(0),
            Front::Http1(one) => {
                one.owed.put(front, rest)?;
                Ok(front.len() + rest.len())
            }
            Front::Http2(many) => {
                let count = many.h2.send_parts(stream, front, rest)?;
                Ok(count as usize)
            }
        }
    }

    /// So many bytes of the DATA of a stream are consumed (RFC 9113, section 6.9).
    pub fn spend(&mut self, stream: u32, size: u32)
        ensures { (f : machine.Front) (streams : List Stream) (owed : List ℕ) → IsFront self.old f streams owed → CanSpend f stream size → IsFront self.new (spending f stream size) streams owed }
    {
        match self {
            Front::Http2(many) => many.h2.consumed(stream, size),
            _ => {}
        }
    }

    /// The end of an act: in HTTP/2, where nothing is owed, the next WINDOW_UPDATE is put that is due. Takes no memory.
    pub fn update(&mut self)
        ensures { (f : machine.Front) (streams : List Stream) (owed : List ℕ) → IsFront self.old f streams owed → HasPut self.new (updating f owed) streams owed }
    {
        match self {
            Front::Http2(many) => many.end_act(),
            _ => {}
        }
    }

    /// Nothing more is asked for by this data stream. Takes no memory.
    pub fn forget(&mut self, stream: u32)
        ensures { (f : machine.Front) (streams : List Stream) (owed : List ℕ) → IsFront self.old f streams owed → IsFront self.new f (filter (λ (s : Stream). not (s.id == stream)) streams) owed }
    {
        match self {
            Front::Preface(_) | Front::Head(_) => {}
            Front::Http1(one) => one.forget(stream),
            Front::Http2(many) => many.forget(stream),
        }
    }

    /// What the end of the link does.
    pub fn finish(&self) -> Finish
        ensures { (f : machine.Front) (streams : List Stream) (owed : List ℕ) → IsFront self.now f streams owed → Finishes f streams result }
    {
        match self {
            Front::Preface(count) => Finish::Ends(end_at(*count)),
            Front::Head(_) => Finish::Ends(End::Truncated),
            Front::Http1(one) => Finish::Closes(one.end()),
            Front::Http2(many) => Finish::Ends(if many.h2.begun() {
                End::Truncated
            } else {
                End::Done
            }),
        }
    }
}
