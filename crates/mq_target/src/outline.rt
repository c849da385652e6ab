//! The two variables of a template's text, and what stands around them.
ghost use Rattle.std.specs.Prelude.{◌≡◌, ◌↔◌, ℕ, List, IsTrue, MatchOption};
ghost use Rattle.mq_target.specs.declared.shape.Order.{Order};
ghost use Rattle.mq_text.specs.Cut.{IsCut};
ghost use Rattle.mq_target.specs.Outlines.{IsOutline, IsPairEnd, IsPairFound, IsPlainEnd, IsPlainFound};
ghost use Rattle.mq_target.specs.Template.{AreAround, IsStart, NoTemplate, detail_name, first_name, second_name, target_name};

use crate::classes::{are_literals, begins_with_slash, is_delimited, is_ended};
use crate::form::pair_of;
use crate::shape::Order;
use mq_addr::Kind;
use mq_text::{cut, cut_once};

/// Literals around two variables, or literals before a last pair.
#[derive(Clone, Copy)]
pub enum Outline<'a> {
    Plain {
        order: Order,
        before: &'a [u8],
        between: &'a [u8],
        after: &'a [u8],
    },
    Pair {
        order: Order,
        front: &'a [u8],
    },
}

/// The parts of the template that a text is.
pub fn outline_of(kind: Kind, text: &[u8]) -> Option<Outline<'_>>
    ensures { MatchOption result (NoTemplate kind text.now) (λ found. IsOutline kind text.now found) }
{
    cut_once();
    match cut(b'{', text) {
        None => None,
        Some((before, behind)) => match cut(b'}', behind) {
            None => None,
            Some((inner, rest)) => outline_at(kind, before, inner, rest),
        },
    }
}

/// The parts of a template, by the text before, between and behind its first braces.
fn outline_at<'a>(kind: Kind, before: &'a [u8], inner: &[u8], rest: &'a [u8]) -> Option<Outline<'a>>
    ensures { (text behind : List ℕ) → IsCut 123 text before.now behind → IsCut 125 behind inner.now rest.now
        → MatchOption result (NoTemplate kind text) (λ found. IsOutline kind text found) }
{
    cut_once();
    if !is_start(before) {
        return None;
    }
    match pair_of(inner) {
        Some(pair) => pair_outline(kind, before, pair, rest),
        None => plain_outline(kind, before, inner, rest),
    }
}

/// Whether a template may begin so.
fn is_start(text: &[u8]) -> bool
    ensures { IsTrue result ↔ IsStart text.now }
{
    begins_with_slash(text) && are_literals(text)
}

/// The parts of a template that ends in a pair.
fn pair_outline<'a>(kind: Kind, front: &'a [u8], pair: &[u8], rest: &[u8]) -> Option<Outline<'a>>
    ensures { MatchOption result
        ((order : Order) → ¬ (IsPairEnd kind order pair.now rest.now))
        (λ found. IsPairFound kind front.now pair.now rest.now found) }
{
    cut_once();
    if !rest.is_empty() {
        return None;
    }
    match cut(b',', pair) {
        None => None,
        Some((first, second)) => match order_of(kind, first, second) {
            None => None,
            Some(order) => Some(Outline::Pair { order, front }),
        },
    }
}

/// The parts of a template with two variables in braces of their own.
fn plain_outline<'a>(
    kind: Kind,
    before: &'a [u8],
    first: &[u8],
    rest: &'a [u8],
) -> Option<Outline<'a>>
    ensures { MatchOption result
        ((order : Order) (between after : List ℕ) → ¬ (IsPlainEnd kind order first.now between after rest.now))
        (λ found. IsPlainFound kind before.now first.now rest.now found) }
{
    cut_once();
    match cut(b'{', rest) {
        None => None,
        Some((between, behind)) => match cut(b'}', behind) {
            None => None,
            Some((second, after)) => match order_around(kind, first, second, between, after) {
                None => None,
                Some(order) => Some(Outline::Plain {
                    order,
                    before,
                    between,
                    after,
                }),
            },
        },
    }
}

/// The order of the variables, where the literals around them are such.
fn order_around(
    kind: Kind,
    first: &[u8],
    second: &[u8],
    between: &[u8],
    after: &[u8],
) -> Option<Order>
    ensures { MatchOption result
        ((order : Order) → (first.now ≡ first_name kind order) → (second.now ≡ second_name kind order)
        → ¬ (AreAround between.now after.now))
        (λ order. (first.now ≡ first_name kind order) × (second.now ≡ second_name kind order) × AreAround between.now after.now) }
{
    if are_around(between, after) {
        order_of(kind, first, second)
    } else {
        None
    }
}

/// Whether texts may stand between and behind the variables.
fn are_around(between: &[u8], after: &[u8]) -> bool
    ensures { IsTrue result ↔ AreAround between.now after.now }
{
    is_delimited(between) && are_literals(between) && is_ended(after) && are_literals(after)
}

/// The order in which names stand for the two variables of a kind.
fn order_of(kind: Kind, first: &[u8], second: &[u8]) -> Option<Order>
    ensures { MatchOption result
        ((order : Order) → (first.now ≡ first_name kind order) → ¬ (second.now ≡ second_name kind order))
        (λ order. (first.now ≡ first_name kind order) × (second.now ≡ second_name kind order)) }
{
    if is_target(kind, first) && is_detail(kind, second) {
        Some(Order::TargetFirst)
    } else if is_detail(kind, first) && is_target(kind, second) {
        Some(Order::TargetLast)
    } else {
        None
    }
}

fn is_target(kind: Kind, name: &[u8]) -> bool
    ensures { IsTrue result ↔ (name.now ≡ target_name kind) }
{
    name == target_name(kind)
}

fn is_detail(kind: Kind, name: &[u8]) -> bool
    ensures { IsTrue result ↔ (name.now ≡ detail_name kind) }
{
    name == detail_name(kind)
}

/// The name of the variable that says where to.
#[tactic(auto, unfolding(crate::specs::Template::target_name))]
fn target_name(kind: Kind) -> &'static [u8]
    ensures { result.now ≡ target_name kind }
{
    match kind {
        Kind::Udp => b"target_host".as_slice(),
        Kind::Ip => b"target".as_slice(),
    }
}

/// The name of the variable for the port or the protocol.
#[tactic(auto, unfolding(crate::specs::Template::detail_name))]
fn detail_name(kind: Kind) -> &'static [u8]
    ensures { result.now ≡ detail_name kind }
{
    match kind {
        Kind::Udp => b"target_port".as_slice(),
        Kind::Ip => b"ipproto".as_slice(),
    }
}

/// The name of the first variable.
pub fn first_name(kind: Kind, order: Order) -> &'static [u8]
    ensures { result.now ≡ first_name kind order }
{
    match order {
        Order::TargetFirst => target_name(kind),
        Order::TargetLast => detail_name(kind),
    }
}

/// The name of the second variable.
pub fn second_name(kind: Kind, order: Order) -> &'static [u8]
    ensures { result.now ≡ second_name kind order }
{
    match order {
        Order::TargetFirst => detail_name(kind),
        Order::TargetLast => target_name(kind),
    }
}
