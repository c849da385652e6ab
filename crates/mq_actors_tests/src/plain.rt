//! A worker whose office refuses memory to one call, and one over the inboxes that threads share.

ghost use Rattle.std.specs.Prelude.{◌≡◌, ◌≢◌, ◌+◌, false, [], ◌∷◌, ◌++◌, All, IfOk, OnOk, List, length};
ghost use Rattle.mq_talk.specs.Mails.{Boxes};
ghost use Rattle.mq_talk.specs.Offices.{IsSound, Seen};
ghost use Rattle.mq_machine.specs.State as machine;
ghost use Rattle.mq_machine.specs.Acting.{Outside, Known};
ghost use Rattle.mq_mem.specs.Offices.{seen_of};
ghost use Rattle.mq_actor.specs.Ended.{numbers_in};
ghost use Rattle.mq_actor.specs.Holds.{IsWorker};
ghost use Rattle.mq_actor.specs.Steps.{sight};
ghost use Rattle.mq_mail.specs.Posts.{new_key};
ghost use Rattle.mq_plain.specs.Served.{Serves, words};

use crate::common::{first_of, nothing, setup};
use mq_book::Config;
use mq_mail::{MailKey, Post, matrix};
use mq_mem::{PlainMail, PlainOffice, RefusingOffice};
use mq_plain::{Plain, PlainPorts, offer, piece};
use mq_talk::{End, Mail, Note};
use mq_wire::{Bytes, NoMemory};
use std::alloc::Global;
use std::collections::VecDeque;
use std::sync::Wait;
use std::test::Fail;

/// A request for a tunnel to 192.0.2.6, port 443 (RFC 9298, section 3.2).
const REQUEST: &[u8] =
    b"GET https://example.org/.well-known/masque/udp/192.0.2.6/443/ HTTP/1.1\r\nHost: example.org\r\nConnection: Upgrade\r\nUpgrade: connect-udp\r\nCapsule-Protocol: ?1\r\n\r\n";

/// What the steps of a worker with two links give, seat by seat in its ring: its links, then each connection.
const SERVED: [&str; 10] = [
    "accepted", "took", "accepted", "ported", "took", "opened", "ported", "wrote", "opened",
    "wrote",
];

/// The same where the first connection is refused memory at its open. Such a step has no note, and isn't the one behind which the
/// ring goes on.
const FIRST_STARVED: [&str; 10] = [
    "accepted",
    "took",
    "accepted",
    "ported",
    "took",
    "no memory",
    "ended for want of memory",
    "ported",
    "opened",
    "wrote",
];

/// The same where the second is.
const SECOND_STARVED: [&str; 10] = [
    "accepted",
    "took",
    "accepted",
    "ported",
    "took",
    "opened",
    "ported",
    "wrote",
    "no memory",
    "ended for want of memory",
];

/// A link is offered to the worker, as the next, and the request arrives on it.
fn ask(alloc: Global, worker: &mut Plain, number: u32) -> Result<(), NoMemory>
    requires { All (λ other. other ≢ number) (numbers_in worker.old.ring) }
    ensures { OnOk result ((links : List machine.Told) (seen : Seen) (boxes : Boxes) (w : machine.Worker) → number ≡ length links → Serves links seen boxes 0 worker.old w
        → (t : machine.Worker) × Serves (links ++ record { worker = 0; is_ended = false } ∷ []) seen boxes 0 worker.new t) }
{
    let request = Bytes::copy_of(alloc, REQUEST)?;
    offer(alloc, worker, number)?;
    piece(worker, number, request)?;
    Ok(())
}

/// The only worker, to which two links were offered on which the request arrived.
fn asked(alloc: Global) -> Result<Plain, NoMemory>
    ensures { IfOk result (λ worker. (seen : Seen) (boxes : Boxes) → seen.config.workers ≡ 1 → seen.entries ≡ [] → length boxes ≡ 2
        → (links : List machine.Told) × (w : machine.Worker) × Serves links seen boxes 0 worker w) }
{
    let mut worker = Plain::new(alloc, 0, setup(alloc)?, PlainPorts::new(alloc)?)?;
    ask(alloc, &mut worker, 0)?;
    ask(alloc, &mut worker, 1)?;
    Ok(worker)
}

/// The office of one worker, whose call of this number is refused memory. Its book is empty.
fn office(alloc: Global, refused: u64) -> Result<RefusingOffice, NoMemory>
    ensures config { IfOk result (λ o. o.office.book.config.workers ≡ 1) }
    ensures empty { IfOk result (λ o. o.office.book.history ≡ []) }
    ensures actor { IfOk result (λ o. o.office.actor ≡ 0) }
    ensures sound { IfOk result (λ o. IsSound (seen_of o.office)) }
{
    let config = Config {
        pool: nothing(alloc),
        reach: nothing(alloc),
        routes: nothing(alloc),
        history: 8,
        workers: 1,
    };
    Ok(RefusingOffice::new(PlainOffice::of(alloc, config)?, refused))
}

/// What a step gave, in a word. None where it gave no note.
fn word(step: &Result<Option<Note>, NoMemory>) -> Option<&'static str> {
    match step {
        Ok(None) => None,
        Err(NoMemory) => Some("no memory"),
        Ok(Some(Note::Accepted { .. })) => Some("accepted"),
        Ok(Some(Note::Took { .. })) => Some("took"),
        Ok(Some(Note::Ported { .. })) => Some("ported"),
        Ok(Some(Note::Opened { .. })) => Some("opened"),
        Ok(Some(Note::Wrote { .. })) => Some("wrote"),
        Ok(
            Some(
                Note::Ended {
                    why: End::NoMemory,
                    ..
                },
            ),
        ) => Some("ended for want of memory"),
        Ok(Some(_)) => Some("another note"),
    }
}

/// A worker takes steps until one gives no note, twenty at most. Answers what they gave.
fn steps<M: Mail>(
    alloc: Global,
    worker: &mut Plain,
    office: &mut RefusingOffice,
    mail: &mut M,
) -> Result<Vec<&'static str>, NoMemory>
    requires known { (o : Outside) × (w : machine.Worker) × IsWorker words.most worker.old.table.table worker.old.ring w × Known (sight o (seen_of office.old.office) (M.boxes mail.old)) w }
    requires sound { IsSound (seen_of office.old.office) }
    requires office { office.old.office.actor ≡ worker.old.ring.id }
    requires mail { M.actor mail.old ≡ worker.old.ring.id }
    requires inboxes { M.count mail.old ≡ worker.old.ring.setup.pump + 1 }
{
    let mut gave = Vec::new(alloc);
    for _ in 0..20 {
        let Some(word) = word(&worker.step(office, mail)) else {
            break;
        };
        gave.push(word)?;
    }
    Ok(gave)
}

/// What the steps of the only worker gave over an office that heard no call yet.
fn played(alloc: Global, office: &mut RefusingOffice) -> Result<Vec<&'static str>, NoMemory>
    requires config { office.old.office.book.config.workers ≡ 1 }
    requires empty { office.old.office.book.history ≡ [] }
    requires actor { office.old.office.actor ≡ 0 }
    requires sound { IsSound (seen_of office.old.office) }
{
    let mut worker = asked(alloc)?;
    let mut mail = PlainMail::new(alloc, 2)?;
    steps(alloc, &mut worker, office, &mut mail)
}

/// Inboxes that threads share, the only worker's and the pump's, and the worker's key.
fn shared(alloc: Global) -> Result<(Post, MailKey), NoMemory>
    ensures post { IfOk result (λ made. (length made.0.inboxes ≡ 2) × (made.0.capacity ≡ 256)) }
    ensures key { IfOk result (λ made. made.1 ≡ new_key made.0.inboxes 0) }
{
    let (post, keys) = matrix(alloc, 2, 256)?;
    let mut keys = VecDeque::from_vec(keys.into_vec());
    let key = first_of(&mut keys);
    Ok((post, key))
}

/// What the steps of the only worker gave over the inboxes that threads share, where no call is refused memory.
fn played_shared<R: Wait>(rt: &R, alloc: Global) -> Result<Vec<&'static str>, NoMemory> {
    let mut worker = asked(alloc)?;
    let mut office = office(alloc, 2)?;
    let (post, key) = shared(alloc)?;
    let mut mail = post.mail(rt, key);
    steps(alloc, &mut worker, &mut office, &mut mail)
}

// A connection whose open is refused memory ends, and leaves no entry behind.
#[test]
fn an_open_that_is_refused_memory_ends_its_connection(rt: HostRuntime) -> Result<(), Fail> {
    let rows = [
        (0, FIRST_STARVED, 1),
        (1, SECOND_STARVED, 1),
        (2, SERVED, 2),
    ];
    for &(refused, want, entries) in &rows {
        let mut office = office(rt.alloc(), refused)?;
        let gave = played(rt.alloc(), &mut office)?;
        assert!(rt; gave.as_slice() == want.as_slice(), "call {refused}");
        assert_eq!(rt; office.book().count(), entries);
        assert_eq!(rt; office.made(), 2);
    }
    Ok(())
}

// The inboxes that threads share serve a worker as the plain ones do.
#[test]
fn a_worker_serves_over_shared_inboxes(rt: HostRuntime) -> Result<(), Fail> {
    let gave = played_shared(&rt, rt.alloc())?;
    assert_eq!(rt; gave.as_slice(), SERVED.as_slice());
    Ok(())
}
