//! A list of who added to it, as several passes of a turn ask it.
ghost use Rattle.std.specs.Prelude.{◌≡◌, ◌≤◌, [], length};

use mq_turn::{Kept, Turn};
use mq_wire::NoMemory;
use std::alloc::Global;
use std::sync::Wait;
use std::test::Fail;

/// Who added, one after another. One ask is refused, as for want of memory.
#[derive(Drop)]
struct Names {
    names: Vec<u32>,
    /// How many asks go before the one that is refused, while it comes.
    before: Option<usize>,
    ghost few: { length names.items ≤ 1000 },
}

impl Names {
    fn new(alloc: Global, before: Option<usize>) -> Names
        ensures { result.names.items ≡ [] }
    {
        Names {
            names: Vec::new(alloc),
            before,
        }
    }

    /// Whether this ask is the one that is refused.
    fn refuses(&mut self) -> bool
        ensures { self.new.names ≡ self.old.names }
    {
        let Some(before) = self.before else {
            return false;
        };
        self.before = before.checked_sub(1);
        before == 0
    }
}

impl Kept for Names {
    ghost use Rattle.std.specs.Prelude.{◌≡◌, ⊤, ◌++◌, ◌∷◌, [], length, MatchResult};

    type Ask = u32;

    type Answer = Result<u32, NoMemory>;

    type Entry = u32;

    type Settings = ();

    ghost settings = { λ _. tt };

    ghost history = { λ n. n.names.items };

    ghost asker = { λ n. n };

    ghost maker = { λ n. n };

    ghost is_sound = { λ _ _. ⊤ };

    ghost may_ask = { λ _ _ _. ⊤ };

    ghost serves = { λ _ h n r new. MatchResult r (λ at. (at ≡ length h) × (new ≡ h ++ n ∷ [])) (λ _. new ≡ h) };

    fn serve(&mut self, ask: u32) -> Result<u32, NoMemory> {
        let at = self.names.len();
        if self.refuses() || at >= 1000 {
            return Err(NoMemory);
        }
        self.names.push(ask)?;
        Ok(at as u32)
    }

    fn entries(&self) -> u32 {
        self.names.len() as u32
    }

    ghost begins_sound = { λ _. tt };

    ghost stays_asked = { λ _ _ _ _ _ _ _. tt };
}

/// What two passes are answered, of which each asks once, and who added.
fn both_ask<R: Wait>(
    rt: &R,
    alloc: Global,
) -> Result<([Result<u32, NoMemory>; 2], Names), NoMemory> {
    let (turn, mut first) = Turn::new(alloc, Names::new(alloc, None))?;
    let mut second = first.split(&turn)?;
    let answers = [
        first.with_turn(rt, &turn, 0),
        second.with_turn(rt, &turn, 1),
    ];
    first.join(&turn, second);
    Ok((answers, turn.close(first)))
}

/// What two passes are answered that ask twice each, where the second ask of all is refused, and who added.
fn one_is_refused<R: Wait>(
    rt: &R,
    alloc: Global,
) -> Result<([Result<u32, NoMemory>; 4], Names), NoMemory> {
    let (turn, mut first) = Turn::new(alloc, Names::new(alloc, Some(1)))?;
    let mut second = first.split(&turn)?;
    let answers = [
        first.with_turn(rt, &turn, 0),
        second.with_turn(rt, &turn, 1),
        first.with_turn(rt, &turn, 0),
        second.with_turn(rt, &turn, 1),
    ];
    first.join(&turn, second);
    Ok((answers, turn.close(first)))
}

/// What three passes are answered, of which the third is left and asks once more, and who added.
fn the_third_is_left<R: Wait>(
    rt: &R,
    alloc: Global,
) -> Result<([Result<u32, NoMemory>; 3], Names), NoMemory> {
    let (turn, mut first) = Turn::new(alloc, Names::new(alloc, None))?;
    let mut second = first.split(&turn)?;
    let mut third = first.split(&turn)?;
    let two = third.with_turn(rt, &turn, 2);
    let one = second.with_turn(rt, &turn, 1);
    second.join(&turn, first);
    third.join(&turn, second);
    let more = third.with_turn(rt, &turn, 2);
    Ok(([two, one, more], turn.close(third)))
}

#[test]
fn two_passes_add_one_each(rt: HostRuntime) -> Result<(), Fail> {
    let (answers, names) = both_ask(&rt, rt.alloc())?;
    assert!(rt; answers == [Ok(0), Ok(1)]);
    assert!(rt; names.names.as_slice() == [0, 1].as_slice());
    Ok(())
}

#[test]
fn one_that_is_refused_adds_nothing(rt: HostRuntime) -> Result<(), Fail> {
    let (answers, names) = one_is_refused(&rt, rt.alloc())?;
    assert!(rt; answers == [Ok(0), Err(NoMemory), Ok(1), Ok(2)]);
    assert!(rt; names.names.as_slice() == [0, 0, 1].as_slice());
    Ok(())
}

#[test]
fn joined_the_other_way_round(rt: HostRuntime) -> Result<(), Fail> {
    let (answers, names) = the_third_is_left(&rt, rt.alloc())?;
    assert!(rt; answers == [Ok(0), Ok(1), Ok(2)]);
    assert!(rt; names.names.as_slice() == [2, 1, 2].as_slice());
    Ok(())
}
