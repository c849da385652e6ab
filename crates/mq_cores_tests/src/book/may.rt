//! Which calls a worker may make.
ghost use Rattle.std.specs.Prelude.{◌≡◌, ◌↔◌, ◌≤◌, IsTrue, length};
ghost use Rattle.std.specs.List.{All};
ghost use Rattle.mq_addr.specs.Block.{IsPrefix};
ghost use Rattle.mq_talk.specs.Answers.{IsAsked, IsMine, MayCall};

use mq_addr::{Asked, Prefix, first_of, free_bits, full_length, number};
use mq_book::Book;
use mq_route::is_ordered;
use mq_talk::Call;

/// Whether a worker of two may make a call.
pub fn may_call(book: &Book, actor: u32, call: &Call) -> bool
    requires { book.now.config.workers ≡ 2 }
    ensures { IsTrue result ↔ MayCall book.now.config book.now.history actor call.now }
{
    match call {
        Call::Open {
            conn: _,
            stream: _,
            actor: named,
            goal: _,
        } => actor < 2 && *named == actor,
        Call::Assign { tunnel, asked } => {
            actor < 2 && is_mine(book, actor, *tunnel) && are_asked(asked.as_slice())
        }
        Call::Advertise { tunnel, ranges } => {
            actor < 2
                && is_mine(book, actor, *tunnel)
                && ranges.as_slice().len() <= 32
                && is_ordered(ranges.as_slice())
        }
        Call::Close { tunnel } => actor < 2 && is_mine(book, actor, *tunnel),
    }
}

/// Whether a tunnel is live and this worker opened it.
fn is_mine(book: &Book, actor: u32, tunnel: u32) -> bool
    ensures { IsTrue result ↔ IsMine book.now.history actor tunnel }
{
    let history = book.history();
    book.live(tunnel)
        && (tunnel as usize) < history.len()
        && history[tunnel as usize].actor == actor
}

/// Whether a request may have these entries.
fn are_asked(asked: &[Asked]) -> bool
    ensures { IsTrue result ↔ ((1 ≤ length asked.now) × (length asked.now ≤ 16) × All IsAsked asked.now) }
{
    !asked.is_empty() && asked.len() <= 16 && asked.iter().all(is_asked)
}

/// Whether a request may have this entry.
fn is_asked(asked: &Asked) -> bool
    ensures { IsTrue result ↔ IsAsked asked.now }
{
    asked.id >= 1 && asked.id < 1 << 62 && is_prefix(&asked.block)
}

/// Whether a length fits the version, and no bit past it is set.
fn is_prefix(block: &Prefix) -> bool
    ensures { IsTrue result ↔ IsPrefix block.now }
{
    let bits = number(&block.addr);
    block.length <= full_length(&block.addr) && first_of(bits, free_bits(block)) == bits
}
