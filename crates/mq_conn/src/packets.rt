//! Packets of tunnels for IP packets: each is judged by the book, and goes to an inbox where that lets it pass.
ghost use Rattle.std.specs.Prelude.{◌≡◌, ◌≢◌, ℕ, List, MatchOption};
ghost use Rattle.mq_machine.specs.declared.act.Act.TheVariants as asks;
ghost use Rattle.mq_machine.specs.declared.act.StreamAct.TheVariants as asked;
ghost use Rattle.mq_machine.specs.declared.act.Due.TheVariants.{Do};
ghost use Rattle.mq_machine.specs.Want.{Judged as WasJudged};
ghost use Rattle.mq_addr.specs.declared.range.Flow.{Flow};
ghost use Rattle.mq_conn.specs.Conns.{Does, GivesParcel, TellsPush};
ghost use Rattle.mq_conn.specs.Packets.{JudgesNote, LendsPush, TakesPush, pushed_note};
ghost use Rattle.mq_conn.specs.Wants.{is_taken};

use crate::conn::{Conn, First};
use mq_machine::{Act, Due, StreamAct};
use mq_talk::{Cause, From, Judged, Note, Origin, Parcel, Place, Pushed, Verdict};
use mq_wire::Bytes;

/// A packet that is to be judged.
#[derive(Drop)]
struct Judging {
    stream: u32,
    n: u64,
    packet: Bytes,
}

fn packet_of_stream(stream: u32, act: StreamAct) -> Option<Judging>
    ensures { MatchOption result ((n : ℕ) (packet : List ℕ) (flow : Flow) → act ≢ asked.Packet n packet flow) (λ p. (flow : Flow) × (p.stream ≡ stream) × (act ≡ asked.Packet p.n p.packet flow)) }
{
    match act {
        StreamAct::Packet { n, packet, .. } => Some(Judging { stream, n, packet }),
        _ => None,
    }
}

fn packet_of_act(act: Act) -> Option<Judging>
    ensures { MatchOption result ((id n : ℕ) (packet : List ℕ) (flow : Flow) → act ≢ asks.OfStream id (asked.Packet n packet flow)) (λ p. (flow : Flow) × (act ≡ asks.OfStream p.stream (asked.Packet p.n p.packet flow))) }
{
    match act {
        Act::OfStream { stream, act } => packet_of_stream(stream, act),
        _ => None,
    }
}

fn packet_of(due: Due) -> Option<Judging>
    ensures { MatchOption result ((id n : ℕ) (packet : List ℕ) (flow : Flow) → due ≢ Do (asks.OfStream id (asked.Packet n packet flow))) (λ p. (flow : Flow) × (due ≡ Do (asks.OfStream p.stream (asked.Packet p.n p.packet flow)))) }
{
    match due {
        Due::Do(act) => packet_of_act(act),
        _ => None,
    }
}

/// A packet that is to be pushed, but for its bytes.
#[derive(Clone, Copy)]
struct Pushing {
    stream: u32,
    n: u64,
    to: Place,
}

/// The note of what became of a push of packet `n` of tunnel `id`.
fn pushed_note(id: u32, n: u64, to: Place, pushed: &Pushed) -> Note
    ensures { result ≡ pushed_note id n to (is_taken pushed.now) }
{
    let from = From::Tunnel(id);
    match pushed {
        Pushed::Taken => Note::PushedNote { from, n, to },
        Pushed::Full(_) => Note::Dropped {
            from,
            n,
            cause: Cause::InboxFull,
        },
    }
}

impl Conn {
    /// What follows a verdict on packet `n` of the tunnel `id` of a stream.
    fn judge(&mut self, id: u32, judging: Judging, judged: Judged) -> Note
        ensures { JudgesNote self.old self.new id judging judged result }
    {
        let Judging { stream, n, packet } = judging;
        let from = From::Tunnel(id);
        match judged.verdict {
            Verdict::Pass(to) => {
                self.first = Some(First::Push {
                    stream,
                    n,
                    to,
                    packet,
                });
                Note::Passed {
                    from,
                    n,
                    at: judged.at,
                    to,
                }
            }
            Verdict::Source => Note::Dropped {
                from,
                n,
                cause: Cause::Source,
            },
            Verdict::NoRoute => Note::Dropped {
                from,
                n,
                cause: Cause::NoRoute,
            },
        }
    }

    /// The book's verdict on its packet.
    pub fn judged(&mut self, judged: Judged) -> Note
        ensures { Does self.old self.new (WasJudged judged.verdict judged.at) result }
    {
        let Some(due) = self.take() else {
            return self.none();
        };
        let Some(judging) = packet_of(due) else {
            return self.none();
        };
        let Some(id) = self.live(judging.stream) else {
            return self.none();
        };
        let note = self.judge(id, judging, judged);
        self.settle();
        note
    }

    /// Moves the bytes out of the push that stands in front.
    fn lend(&mut self) -> Option<(Pushing, Bytes)>
        ensures { LendsPush self.old self.new result }
    {
        match self.first.take() {
            Some(
                First::Push {
                    stream,
                    n,
                    to,
                    packet,
                },
            ) => {
                let empty = Bytes::from_vec(Vec::new(self.alloc));
                self.first = Some(First::Push {
                    stream,
                    n,
                    to,
                    packet: empty,
                });
                Some((Pushing { stream, n, to }, packet))
            }
            first => {
                self.first = first;
                None
            }
        }
    }

    /// A parcel of nothing.
    fn no_parcel(&self) -> Parcel {
        Parcel {
            from: Origin::Net,
            n: 0,
            to: Place::Net,
            packet: Bytes::from_vec(Vec::new(self.alloc)),
        }
    }

    /// The parcel that is to go to an inbox. Its packet is moved out, and what became of it is told by `pushed`.
    pub fn parcel(&mut self) -> Parcel
        ensures { GivesParcel self.old self.new result }
    {
        let Some((pushing, packet)) = self.lend() else {
            return self.no_parcel();
        };
        match self.live(pushing.stream) {
            None => self.no_parcel(),
            Some(id) => Parcel {
                from: Origin::Tunnel(id),
                n: pushing.n,
                to: pushing.to,
                packet,
            },
        }
    }

    /// Takes the push that stands in front.
    fn take_push(&mut self) -> Option<Pushing>
        ensures { TakesPush self.old self.new result }
    {
        match self.first.take() {
            Some(First::Push { stream, n, to, .. }) => Some(Pushing { stream, n, to }),
            first => {
                self.first = first;
                None
            }
        }
    }

    /// The parcel that `parcel` gave was pushed. A full inbox hands it back, and it is dropped.
    pub fn pushed(&mut self, pushed: Pushed) -> Note
        ensures { TellsPush self.old self.new (is_taken pushed) result }
    {
        let Some(pushing) = self.take_push() else {
            return self.none();
        };
        let Some(id) = self.live(pushing.stream) else {
            return self.none();
        };
        let note = pushed_note(id, pushing.n, pushing.to, &pushed);
        self.settle();
        note
    }
}
