//! Three keys are joined in every order. Whichever is left closes the desk, and the book has what all three asked.
ghost use Rattle.std.specs.Prelude.{◌≡◌, [], IfOk};
ghost use Rattle.mq_turn.specs.Passes.{IsOf, IsOnly, first_pass, took_in};

use super::opens;
use super::tunnels::desk_of;
use crate::{Desk, DeskKey};
use mq_book::Book;
use mq_wire::NoMemory;
use std::process::Abort;
use std::sync::Wait;
use std::test::*;

/// The keys of three actors, each of which opened a tunnel, the last one first.
fn three_open<R: Wait>(
    rt: &R,
    desk: &Desk,
    key: DeskKey,
) -> Result<(DeskKey, DeskKey, DeskKey), NoMemory>
    requires workers { desk.now.settings.workers ≡ 3 }
    requires key { key ≡ first_pass desk.now }
    ensures desk { IfOk result (λ keys. IsOf desk.now keys.0 × IsOf desk.now keys.1 × IsOf desk.now keys.2) }
    ensures numbers { IfOk result (λ keys. (keys.0.number ≡ 0) × (keys.1.number ≡ 1) × (keys.2.number ≡ 2)) }
    ensures made { IfOk result (λ keys. (keys.0.made ≡ 3) × (keys.1.made ≡ 0) × (keys.2.made ≡ 0)) }
    ensures taken_in { IfOk result (λ keys. (keys.0.taken_in ≡ []) × (keys.1.taken_in ≡ []) × (keys.2.taken_in ≡ [])) }
{
    let mut first = desk.sit(rt, key);
    let mut second = desk.sit(rt, first.split(1)?);
    let mut third = desk.sit(rt, first.split(2)?);
    opens(&mut third, 2)?;
    opens(&mut second, 1)?;
    opens(&mut first, 0)?;
    Ok((first.rise(), second.rise(), third.rise()))
}

/// A key that took in another.
fn joined<R: Wait>(rt: &R, desk: &Desk, key: DeskKey, other: DeskKey) -> DeskKey
    requires key { IsOf desk.now key }
    requires other { IsOf desk.now other }
    ensures { result ≡ took_in key other }
{
    let mut pass = desk.sit(rt, key);
    pass.join(other);
    pass.rise()
}

/// Whether the book has the tunnels of all three, as they opened.
fn has_all(book: &Book) -> bool {
    let [third, second, first] = book.history() else {
        return false;
    };
    third.actor == 2
        && second.actor == 1
        && first.actor == 0
        && book.live(0)
        && book.live(1)
        && book.live(2)
}

/// A key takes in one, and then the other.
fn one_after_other<R: Wait>(rt: &R, desk: Desk, key: DeskKey, one: DeskKey, other: DeskKey) -> bool
    requires desk { IsOf desk key × IsOf desk one × IsOf desk other }
    requires only { IsOnly (took_in (took_in key one) other) }
{
    let key = joined(rt, &desk, key, one);
    let key = joined(rt, &desk, key, other);
    has_all(&desk.close(key))
}

/// A key takes in one that took in the other.
fn one_with_other<R: Wait>(rt: &R, desk: Desk, key: DeskKey, one: DeskKey, other: DeskKey) -> bool
    requires desk { IsOf desk key × IsOf desk one × IsOf desk other }
    requires only { IsOnly (took_in key (took_in one other)) }
{
    let one = joined(rt, &desk, one, other);
    let key = joined(rt, &desk, key, one);
    has_all(&desk.close(key))
}

#[test]
fn the_first_is_left(rt: HostRuntime) -> Result<(), Fail> {
    let (desk, key) = desk_of(rt.alloc(), 3)?;
    let (first, second, third) = three_open(&rt, &desk, key)?;
    assert!(rt; one_after_other(&rt, desk, first, second, third));
    let (desk, key) = desk_of(rt.alloc(), 3)?;
    let (first, second, third) = three_open(&rt, &desk, key)?;
    assert!(rt; one_after_other(&rt, desk, first, third, second));
    let (desk, key) = desk_of(rt.alloc(), 3)?;
    let (first, second, third) = three_open(&rt, &desk, key)?;
    assert!(rt; one_with_other(&rt, desk, first, second, third));
    let (desk, key) = desk_of(rt.alloc(), 3)?;
    let (first, second, third) = three_open(&rt, &desk, key)?;
    assert!(rt; one_with_other(&rt, desk, first, third, second));
    Ok(())
}

#[test]
fn the_second_is_left(rt: HostRuntime) -> Result<(), Fail> {
    let (desk, key) = desk_of(rt.alloc(), 3)?;
    let (first, second, third) = three_open(&rt, &desk, key)?;
    assert!(rt; one_after_other(&rt, desk, second, first, third));
    let (desk, key) = desk_of(rt.alloc(), 3)?;
    let (first, second, third) = three_open(&rt, &desk, key)?;
    assert!(rt; one_after_other(&rt, desk, second, third, first));
    let (desk, key) = desk_of(rt.alloc(), 3)?;
    let (first, second, third) = three_open(&rt, &desk, key)?;
    assert!(rt; one_with_other(&rt, desk, second, first, third));
    let (desk, key) = desk_of(rt.alloc(), 3)?;
    let (first, second, third) = three_open(&rt, &desk, key)?;
    assert!(rt; one_with_other(&rt, desk, second, third, first));
    Ok(())
}

#[test]
fn the_third_is_left(rt: HostRuntime) -> Result<(), Fail> {
    let (desk, key) = desk_of(rt.alloc(), 3)?;
    let (first, second, third) = three_open(&rt, &desk, key)?;
    assert!(rt; one_after_other(&rt, desk, third, first, second));
    let (desk, key) = desk_of(rt.alloc(), 3)?;
    let (first, second, third) = three_open(&rt, &desk, key)?;
    assert!(rt; one_after_other(&rt, desk, third, second, first));
    let (desk, key) = desk_of(rt.alloc(), 3)?;
    let (first, second, third) = three_open(&rt, &desk, key)?;
    assert!(rt; one_with_other(&rt, desk, third, first, second));
    let (desk, key) = desk_of(rt.alloc(), 3)?;
    let (first, second, third) = three_open(&rt, &desk, key)?;
    assert!(rt; one_with_other(&rt, desk, third, second, first));
    Ok(())
}
