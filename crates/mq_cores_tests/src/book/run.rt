//! Rows of a table as calls of a book.
ghost use Rattle.std.specs.Prelude.{◌≡◌, IfOk};

use crate::book::config::is_config;
use crate::book::may::may_call;
use crate::book::read::{asked_of, blocks_of, first_word, givens_of};
use crate::common::{area_of, cut, protocol_of, range_of, ranges_of};
use mq_addr::{Addr, Flow};
use mq_book::{Book, Config};
use mq_talk::{Call, Goal, Origin, Place, Reply, Verdict};
use mq_wire::Seq;
use std::alloc::Global;
use std::test::Fail;

/// The first of some rows whose answer isn't the wanted one.
pub fn first_wrong<'a>(alloc: Global, rows: &[&'a str]) -> Result<Option<&'a str>, Fail> {
    let mut book = book_of(alloc, "|||0")?;
    first_wrong_of(alloc, &mut book, rows)
}

/// The same, by a book that rows may replace by another.
fn first_wrong_of<'a>(
    alloc: Global,
    book: &mut Book,
    rows: &[&'a str],
) -> Result<Option<&'a str>, Fail>
    requires { book.old.config.workers ≡ 2 }
{
    for row in rows {
        if !takes(alloc, book, row)? {
            return Ok(Some(*row));
        }
    }
    Ok(None)
}

/// Whether a row is answered as it says. One of another book always is.
fn takes(alloc: Global, book: &mut Book, row: &str) -> Result<bool, Fail>
    requires { book.old.config.workers ≡ 2 }
    ensures { book.new.config.workers ≡ 2 }
{
    let (verb, rest) = cut(row)?;
    if verb == "new" {
        *book = book_of(alloc, rest)?;
        return Ok(true);
    }
    is_right(alloc, book, verb, rest)
}

/// A configuration for two workers: the blocks of pool and reach, the routes, and the places of the history.
pub fn config_of(alloc: Global, row: &str) -> Result<Config, Fail>
    ensures { IfOk result (λ config. config.workers ≡ 2) }
{
    let (pool, rest) = cut(row)?;
    let (reach, rest) = cut(rest)?;
    let (routes, history) = cut(rest)?;
    Ok(Config {
        pool: Seq::from_vec(blocks_of(alloc, pool)?),
        reach: Seq::from_vec(blocks_of(alloc, reach)?),
        routes: Seq::from_vec(ranges_of(alloc, routes)?),
        history: history.parse::<u32>()?,
        workers: 2,
    })
}

/// A book of a configuration that may be one.
fn book_of(alloc: Global, row: &str) -> Result<Book, Fail>
    ensures { IfOk result (λ book. book.config.workers ≡ 2) }
{
    let config = config_of(alloc, row)?;
    if !is_config(alloc, &config)? {
        return Err(Fail::new("a book has a configuration that may be one"));
    }
    let book = Book::new(alloc, config)?;
    Ok(book)
}

/// Whether the book answers the call of a row as the row says.
fn is_right(alloc: Global, book: &mut Book, verb: &str, rest: &str) -> Result<bool, Fail>
    requires { book.old.config.workers ≡ 2 }
    ensures { book.new.config.workers ≡ 2 }
{
    let (subject, rest) = cut(rest)?;
    let (words, wanted) = cut(rest)?;
    if verb == "judge" {
        return is_judged(book, subject, words, wanted);
    }
    let (actor, verb) = first_word(verb);
    let actor = actor.parse::<u32>()?;
    let call = call_of(alloc, actor, verb, subject, words)?;
    is_answered(alloc, book, actor, call, wanted)
}

/// The call of a row.
fn call_of(
    alloc: Global,
    actor: u32,
    verb: &str,
    subject: &str,
    words: &str,
) -> Result<Call, Fail> {
    match verb {
        "open" => Ok(open(
            actor,
            Goal::Ip {
                area: area_of(subject)?,
                protocol: protocol_of(words)?,
            },
        )),
        "udp" => Ok(open(
            actor,
            Goal::Udp {
                addr: Addr::V4(0xc000_0201),
                port: 53,
            },
        )),
        "assign" => Ok(Call::Assign {
            tunnel: subject.parse::<u32>()?,
            asked: Seq::from_vec(asked_of(alloc, words)?),
        }),
        "advertise" => Ok(Call::Advertise {
            tunnel: subject.parse::<u32>()?,
            ranges: Seq::from_vec(ranges_of(alloc, words)?),
        }),
        "close" => Ok(Call::Close {
            tunnel: subject.parse::<u32>()?,
        }),
        _ => Err(Fail::new("a row has a call")),
    }
}

/// A tunnel opens on a connection, for a worker.
fn open(actor: u32, goal: Goal) -> Call {
    Call::Open {
        conn: 0,
        stream: 1,
        actor,
        goal,
    }
}

/// Whether the book answers a call so. What may not be called isn't.
fn is_answered(
    alloc: Global,
    book: &mut Book,
    actor: u32,
    call: Call,
    wanted: &str,
) -> Result<bool, Fail>
    requires { book.old.config.workers ≡ 2 }
    ensures { book.new.config.workers ≡ 2 }
{
    if !may_call(book, actor, &call) {
        return Ok(wanted == "may not");
    }
    let reply = book.call(alloc, actor, call)?;
    is_reply(alloc, &reply, wanted)
}

/// Whether a text tells a reply.
fn is_reply(alloc: Global, reply: &Reply, wanted: &str) -> Result<bool, Fail> {
    let (word, rest) = first_word(wanted);
    match (word, reply) {
        ("opened", Reply::Opened { tunnel, routes }) => {
            let (number, words) = first_word(rest);
            Ok(
                number.parse::<u32>() == Ok(*tunnel)
                    && ranges_of(alloc, words)?.as_slice() == routes.as_slice(),
            )
        }
        ("full", Reply::HistoryFull { entries, live }) => {
            let (count, tunnels) = first_word(rest);
            Ok(count.parse::<u32>() == Ok(*entries) && tunnels.parse::<u32>() == Ok(*live))
        }
        ("assigned", Reply::Assigned { list, at }) => {
            let (place, words) = first_word(rest);
            Ok(
                place.parse::<u32>() == Ok(*at)
                    && givens_of(alloc, words)?.as_slice() == list.as_slice(),
            )
        }
        ("yes", Reply::Accepted { yes: true, at }) => Ok(rest.parse::<u32>() == Ok(*at)),
        ("no", Reply::Accepted { yes: false, at }) => Ok(rest.parse::<u32>() == Ok(*at)),
        ("closed", Reply::Closed) => Ok(true),
        _ => Ok(false),
    }
}

/// Whether the book judges a packet so: from its origin, with its source, target and protocol.
fn is_judged(book: &Book, origin: &str, words: &str, wanted: &str) -> Result<bool, Fail> {
    let ends = range_of(words)?;
    let flow = Flow {
        source: ends.first,
        target: ends.last,
        protocol: ends.protocol,
    };
    let origin = if origin == "net" {
        Origin::Net
    } else {
        Origin::Tunnel(origin.parse::<u32>()?)
    };
    let verdict = book.judge(origin, &flow);
    Ok(verdict == verdict_of(wanted)?)
}

/// The verdict of a text: a cause, the network, or a tunnel and its worker.
fn verdict_of(text: &str) -> Result<Verdict, Fail> {
    match text {
        "source" => Ok(Verdict::Source),
        "no route" => Ok(Verdict::NoRoute),
        "net" => Ok(Verdict::Pass(Place::Net)),
        _ => {
            let (tunnel, actor) = first_word(text);
            Ok(Verdict::Pass(Place::Tunnel {
                tunnel: tunnel.parse::<u32>()?,
                actor: actor.parse::<u32>()?,
            }))
        }
    }
}
