//! Which steps are instances of their rules. A row is a rule, its goal, and its premises behind bars.
use crate::steps::{open_step, step};
use ac_proof::{CheckFault, ProofTree, check_proof, has_few_premises};
use sqlite_items::Items;
use std::alloc::Global;
use std::process::Abort;
use std::test::Fail;

const CONNECTIVES: [&str; 17] = [
    "true-intro: true",
    "false-elim: true | false",
    "false-elim: not true | false",
    "and-intro: true and false | true | false",
    "and-left: true | true and false",
    "and-right: false | true and false",
    "or-left: true or false | true",
    "or-right: true or false | false",
    "or-elim: 0 <= 1 | true or false | 0 <= 1 | 0 <= 1",
    "implies-intro: true implies false | false",
    "implies-elim: false | true implies false | true",
    "not-intro: not true | false",
    "not-elim: false | not true | true",
    "classical: true | false",
    "classical: not true | false",
    "lab-intro: @use 2 { true } | true",
    "lab-elim: true | @use 2 { true }",
];

const NUMBERS: [&str; 11] = [
    "all-intro 0: all _0 { _0 <= x } | #0 <= x",
    "all-elim 3: 3 <= x | all _0 { _0 <= x }",
    "all-elim 3: all _0 { _0 <= 3 } | all _0 { all _1 { _1 <= _0 } }",
    "linear 1 1: false | x <= 3 | 4 <= x",
    "linear 1 1 1: x <= y | x <= k | k <= y",
    "eq-le: x <= y | x = y",
    "eq-le: y <= x | x = y",
    "le-total: x <= y or y + 1 <= x",
    "eq-split: x = y or { x + 1 <= y or y + 1 <= x }",
    "read-put: { { i = k and j = l } and put(a, i, j, v)[k,l] = v } or { not { i = k and j = l } and put(a, i, j, v)[k,l] = a[k,l] }",
    "read-same: a[i,j] = a[k,l] | i = k | j = l",
];

const NO_CONNECTIVES: [&str; 47] = [
    "true-intro: false",
    "true-intro: true | true",
    "false-elim: not true | true",
    "and-intro: true and false | false | true",
    "and-intro: true and false | true | true",
    "and-intro: true or false | true | false",
    "and-left: false | true and false",
    "and-left: true | true or false",
    "and-left: true | true",
    "and-left: true | true and false | true and false",
    "and-right: true | true and false",
    "and-right: true | true or false",
    "and-right: true | true",
    "or-left: true or false | false",
    "or-left: true and false | true",
    "or-left: true or false | true or false",
    "or-right: true or false | true",
    "or-right: true and false | true",
    "or-right: true or false | true or false",
    "or-elim: 0 <= 1 | true and false | 0 <= 1 | 0 <= 1",
    "or-elim: 0 <= 1 | true or false | 0 <= 1 | true",
    "or-elim: 0 <= 1 | true or false | false | 0 <= 1",
    "or-elim: 0 <= 1 | true or false | 0 <= 1",
    "or-elim: 0 <= 1 | true or false | 0 <= 1 | 0 <= 1 | 0 <= 1",
    "implies-intro: true implies false | true",
    "implies-intro: true or false | false",
    "implies-elim: true | true implies false | true",
    "implies-elim: false | true implies false | false",
    "implies-elim: false | true | true implies false",
    "not-intro: not true | true",
    "not-intro: true | false",
    "not-elim: true | not true | true",
    "not-elim: false | true | not true",
    "not-elim: false | not true | false",
    "classical: not true | true",
    "classical: true | true",
    "lab-intro: true | @use 2 { true }",
    "lab-intro: @use 2 { true } | false",
    "lab-intro: @use 2 { true } | @use 2 { true }",
    "lab-elim: @use 2 { true } | true",
    "lab-elim: @use 2 { true } | false",
    "lab-elim: @use 2 { true } | @use 2 { true }",
    "all-intro 0: all _0 { _0 <= x } | x <= x",
    "all-intro 0: all _0 { _0 <= #0 } | #0 <= #0",
    "all-intro 0: #0 <= x | #0 <= x",
    "all-intro 1: all _0 { _0 <= x } | #0 <= x",
    "hyp 0: true",
];

const NO_NUMBERS: [&str; 31] = [
    "all-elim 3: 4 <= x | all _0 { _0 <= x }",
    "all-elim 3: 3 <= x | all _0 { _0 = x }",
    "all-elim 3: all _0 { _0 <= x } | all _0 { _0 <= x }",
    "all-elim 3: all _0 { 3 <= _0 } | all _0 { all _1 { _1 <= _0 } }",
    "linear 1 1: false | x <= 3 | 3 <= x",
    "linear 1 2: false | x <= 3 | 4 <= x",
    "linear 1: false | x <= 3 | 4 <= x",
    "linear 1 1 0: false | x <= 3 | 4 <= x",
    "linear 1 1: false | x <= 3 | 4 = x",
    "linear 0 1 1: x <= y | x <= k | k <= y",
    "linear 1 1 1: x = y | x <= k | k <= y",
    "eq-le: x <= x | x = y",
    "eq-le: x <= y | x <= y",
    "le-total: x <= y or x + 1 <= y",
    "le-total: x <= y or y + 2 <= x",
    "le-total: x <= y or 1 + y <= x",
    "le-total: x <= y or y <= x",
    "le-total: x <= y or y + 1 <= x | true",
    "eq-split: x = y or { y + 1 <= x or x + 1 <= y }",
    "eq-split: x = y or { x + 1 <= y and y + 1 <= x }",
    "eq-split: x <= y or { x + 1 <= y or y + 1 <= x }",
    "read-put: { { i = k and j = l } and put(a, i, j, v)[k,l] = v } or { not { i = k and j = l } and put(a, i, j, v)[k,l] = b[k,l] }",
    "read-put: { { i = k and j = l } and put(a, i, j, v)[k,l] = x } or { not { i = k and j = l } and put(a, i, j, v)[k,l] = a[k,l] }",
    "read-put: { { i = k and j = l } and put(a, i, j, v)[k,l] = v } or { { i = k and j = l } and put(a, i, j, v)[k,l] = a[k,l] }",
    "read-put: { { j = k and i = l } and put(a, i, j, v)[k,l] = v } or { not { j = k and i = l } and put(a, i, j, v)[k,l] = a[k,l] }",
    "read-put: { { i = k and j = l } and put(a, i, j, v)[k,l] = v } or { not { i = k and j = l } and put(a, i, j, v)[l,k] = a[k,l] }",
    "read-same: a[i,j] = b[k,l] | i = k | j = l",
    "read-same: a[i,j] = a[k,l] | k = i | j = l",
    "read-same: a[i,j] = a[k,l] | j = l | i = k",
    "read-same: a[i,j] <= a[k,l] | i = k | j = l",
    "hyp 0: x <= x",
];

/// No row has more premises.
const MOST: usize = 4;

/// Whether the root is an instance of its rule: its premises are no steps, so the checker stops at the first of them.
fn is_instance<R: Abort>(rt: &R, alloc: Global, row: &str) -> Result<bool, Fail> {
    let (rule, formulas) = row.split_once(": ").ok_or("a rule")?;
    let tree = match formulas.split_once(" | ") {
        Some((goal, premises)) => step(rt, alloc, rule, goal, open_steps(rt, alloc, premises)?)?,
        None => step(rt, alloc, rule, formulas, Items::new(alloc))?,
    };
    assert!(rt; has_few_premises(&tree));
    match check_proof(alloc, &[], &tree) {
        Ok(()) => Ok(true),
        Err(CheckFault::Step(place)) => Ok(!place.path.is_empty()),
        Err(CheckFault::OutOfMemory) => Err(Fail::new("out of memory")),
    }
}

fn open_steps<R: Abort>(rt: &R, alloc: Global, goals: &str) -> Result<Items<ProofTree>, Fail> {
    let mut steps = Items::new(alloc);
    let mut rest = goals;
    for _ in 0..MOST {
        let Some((goal, more)) = rest.split_once(" | ") else {
            break;
        };
        steps.push(open_step(rt, alloc, goal)?)?;
        rest = more;
    }
    steps.push(open_step(rt, alloc, rest)?)?;
    Ok(steps)
}

fn each_is<R: Abort>(rt: &R, alloc: Global, rows: &[&str], want: bool) -> Result<(), Fail> {
    for row in rows {
        assert_eq!(rt; is_instance(rt, alloc, row)?, want, "{row}");
    }
    Ok(())
}

#[test]
fn an_instance_of_each_rule_is_accepted(rt: HostRuntime) -> Result<(), Fail> {
    each_is(&rt, rt.alloc(), &CONNECTIVES, true)?;
    each_is(&rt, rt.alloc(), &NUMBERS, true)
}

#[test]
fn near_misses_of_each_rule_are_refused(rt: HostRuntime) -> Result<(), Fail> {
    each_is(&rt, rt.alloc(), &NO_CONNECTIVES, false)?;
    each_is(&rt, rt.alloc(), &NO_NUMBERS, false)
}
