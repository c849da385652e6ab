//! A range met with what a request asks for.
ghost use Rattle.std.specs.Prelude.{◌≡◌, ◌↔◌, OnSome, IsTrue};
ghost use Rattle.mq_addr.specs.Block.{SameVersion};
ghost use Rattle.mq_addr.specs.Ranges.{IsRange, met};
ghost use Rattle.mq_route.specs.Puts.{IsClip, IsPart, lower, higher};

use mq_addr::{Addr, Prefix, Range, number, span_of};

/// The part of a range that a request is for: the addresses of the area, or all, and the protocol, or all.
pub(crate) fn clip(range: &Range, area: &Option<Prefix>, asked: Option<u8>) -> Option<Range>
    requires { IsRange range.now }
    ensures { IsClip range.now area.now asked result }
{
    let protocol = met(asked, range.protocol)?;
    match area {
        None => Some(Range { protocol, ..*range }),
        Some(block) => common(range, &span_of(block, protocol)),
    }
}

/// The protocol of the part: a range for all is for the asked protocol, and one for another protocol falls away.
fn met(asked: Option<u8>, own: u8) -> Option<u8>
    ensures { result ≡ met asked own }
{
    match asked {
        None => Some(own),
        Some(asked) if own == 0 || own == asked => Some(asked),
        Some(_) => None,
    }
}

/// The addresses that two ranges have in common, with the protocol of the second.
fn common(a: &Range, b: &Range) -> Option<Range>
    requires first { IsRange a.now }
    requires second { IsRange b.now }
    ensures { IsPart a.now b.now result }
{
    let part = Range {
        first: higher(a.first, b.first),
        last: lower(a.last, b.last),
        protocol: b.protocol,
    };
    if same_version(&a.first, &b.first) && number(&part.first) <= number(&part.last) {
        Some(part)
    } else {
        None
    }
}

fn same_version(a: &Addr, b: &Addr) -> bool
    ensures { IsTrue result ↔ SameVersion a.now b.now }
{
    matches!(
        (a, b),
        (Addr::V4(_), Addr::V4(_)) | (Addr::V6(_), Addr::V6(_))
    )
}

/// The lower of two addresses.
pub(crate) fn lower(a: Addr, b: Addr) -> Addr
    ensures { result ≡ lower a b }
{
    if number(&a) <= number(&b) { a } else { b }
}

/// The higher of two addresses.
pub(crate) fn higher(a: Addr, b: Addr) -> Addr
    ensures { result ≡ higher a b }
{
    if number(&a) <= number(&b) { b } else { a }
}
