//! Whole proofs, with hypotheses and the place of a fault.
use crate::steps::step;
use crate::texts::formula_of;
use ac_logic::{Formula, Term};
use ac_proof::{CheckFault, ProofTree, Rule, StepPath, check_proof, has_few_premises};
use ac_shared::Shared;
use sqlite_items::Items;
use std::alloc::{AllocError, Global};
use std::process::Abort;
use std::test::Fail;

/// The place of the first fault; none where the proof is checked.
fn fault_of<R: Abort>(
    rt: &R,
    alloc: Global,
    hyps: &[Shared<Formula>],
    tree: &ProofTree,
) -> Result<Option<StepPath>, AllocError> {
    assert!(rt; has_few_premises(tree));
    match check_proof(alloc, hyps, tree) {
        Ok(()) => Ok(None),
        Err(CheckFault::Step(place)) => Ok(Some(place)),
        Err(CheckFault::OutOfMemory) => Err(AllocError),
    }
}

/// The proof of `@use 2 { 0 <= 3 and 3 + 1 <= 4 }`, with the rule of its first linear step.
fn bound_of_a_cell<R: Abort>(rt: &R, alloc: Global, first: &str) -> Result<ProofTree, Fail> {
    let mut sides = Items::new(alloc);
    sides.push(step(rt, alloc, first, "0 <= 3", Items::new(alloc))?)?;
    sides.push(step(rt, alloc, "linear 1", "3 + 1 <= 4", Items::new(alloc))?)?;
    let mut both = Items::new(alloc);
    both.push(step(rt, alloc, "and-intro", "0 <= 3 and 3 + 1 <= 4", sides)?)?;
    step(
        rt,
        alloc,
        "lab-intro",
        "@use 2 { 0 <= 3 and 3 + 1 <= 4 }",
        both,
    )
}

#[test]
fn a_bound_is_proved_and_a_factor_0_is_refused_at_its_step(rt: HostRuntime) -> Result<(), Fail> {
    let alloc = rt.alloc();
    let whole = bound_of_a_cell(&rt, alloc, "linear 1")?;
    assert!(rt; fault_of(&rt, alloc, &[], &whole)?.is_none());
    let broken = bound_of_a_cell(&rt, alloc, "linear 0")?;
    let place = fault_of(&rt, alloc, &[], &broken)?.ok_or("refused")?;
    assert_eq!(rt; place.path.as_slice(), [0, 0].as_slice());
    Ok(())
}

#[test]
fn a_hypothesis_is_used_by_its_place_and_its_names_are_not_new(
    rt: HostRuntime,
) -> Result<(), Fail> {
    let alloc = rt.alloc();
    let hyps = [formula_of(&rt, alloc, "#0 = 1")?];
    let used = step(&rt, alloc, "hyp 0", "#0 = 1", Items::new(alloc))?;
    assert!(rt; fault_of(&rt, alloc, &hyps, &used)?.is_none());
    let beyond = step(&rt, alloc, "hyp 1", "#0 = 1", Items::new(alloc))?;
    assert!(rt; fault_of(&rt, alloc, &hyps, &beyond)?.is_some());
    let mut below = Items::new(alloc);
    below.push(used)?;
    let general = step(&rt, alloc, "all-intro 0", "all _0 { _0 = 1 }", below)?;
    let place = fault_of(&rt, alloc, &hyps, &general)?.ok_or("refused")?;
    assert!(rt; place.path.is_empty());
    Ok(())
}

/// The formula `_0 <= 1` outside of any `all`.
fn loose(alloc: Global) -> Result<Shared<Formula>, AllocError> {
    let bound = Shared::new(alloc, Term::Bound(0))?;
    let one = Shared::new(alloc, Term::Num(1))?;
    Shared::new(alloc, Formula::Le(bound, one))
}

#[test]
fn a_goal_or_a_term_that_cannot_be_read_is_no_step(rt: HostRuntime) -> Result<(), Fail> {
    let alloc = rt.alloc();
    let hyps = [loose(alloc)?];
    let used = ProofTree {
        rule: Rule::Hyp { n: 0 },
        goal: loose(alloc)?,
        premises: Items::new(alloc),
    };
    let place = fault_of(&rt, alloc, &hyps, &used)?.ok_or("refused")?;
    assert!(rt; place.path.is_empty());
    let mut below = Items::new(alloc);
    below.push(step(&rt, alloc, "hyp 0", "all _0 { _0 <= 1 }", Items::new(alloc))?)?;
    let opened = ProofTree {
        rule: Rule::AllElim {
            t: Shared::new(alloc, Term::Bound(0))?,
        },
        goal: loose(alloc)?,
        premises: below,
    };
    let place = fault_of(&rt, alloc, &[], &opened)?.ok_or("refused")?;
    assert!(rt; place.path.is_empty());
    Ok(())
}
