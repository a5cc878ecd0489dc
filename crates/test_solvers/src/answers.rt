//! Each kind of answer on the smallest facts that have it.
ghost use Rattle.std.specs.Prelude.{◌≡◌, Some};

use ac_diff::{Diff, DiffAnswer, solve};
use std::test::Fail;

/// `unit plus - unit minus <= bound`.
fn fact(plus: usize, minus: usize, bound: i128) -> Diff
    ensures { result ≡ record { plus = Some plus; minus = Some minus; bound = bound } }
{
    Diff {
        plus: Some(plus),
        minus: Some(minus),
        bound,
    }
}

#[test]
fn two_facts_that_contradict_are_a_cycle(rt: HostRuntime) -> Result<(), Fail> {
    let facts = [fact(0, 1, 1), fact(1, 0, -2)];
    let DiffAnswer::Cycle(cycle) = solve(rt.alloc(), 2, &facts)? else {
        return Err(Fail::new("no cycle"));
    };
    assert_eq!(rt; cycle.as_slice(), [0, 1].as_slice());
    Ok(())
}

#[test]
fn two_facts_that_agree_have_a_point(rt: HostRuntime) -> Result<(), Fail> {
    let facts = [fact(0, 1, 1), fact(1, 0, 0)];
    let DiffAnswer::Point(point) = solve(rt.alloc(), 2, &facts)? else {
        return Err(Fail::new("no point"));
    };
    let [first, second] = point.as_slice() else {
        return Err(Fail::new("not two numbers"));
    };
    assert!(rt; matches!(first.checked_sub(*second), Some(0 | 1)));
    Ok(())
}
