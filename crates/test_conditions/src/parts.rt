//! Parts of certificates that the kernel accepts, and the refusals of others.
use crate::asked::{Noted, annotations_of, formula_of, push_pair};
use ac_kernel::{Refused, has_small_indexes, verify_part};
use ac_logic::Condition;
use ac_parse::parse;
use ac_policy::AnyPolicy;
use ac_proof::{CertPart, ProofTree, ProvedCondition, Rule};
use ac_tree::{Cut, NodeId, Pair, Place, PolicyName, Program, Target, check_static};
use sqlite_items::Items;
use std::alloc::{AllocError, Global};
use std::process::Abort;
use std::test::Fail;

const ONE_WRITE: &str = "var a[4]; begin a[3] := 1; end";

const FILLED_ARRAY: &str =
    "var a[10]; var i; var x; begin for i := 0 to 9 do a[i] := 0; end x := a[9]; end";

const ONE_CONDITION: &str = "@use 2 { 0 <= 3 and 3 + 1 <= 4 }";

const INVARIANT: &str = "all _0 { { 0 <= _0 and _0 + 1 <= i } implies init(a)[_0] = 1 }";

const BEHIND: &str = "all _0 { { 0 <= _0 and _0 <= 9 } implies init(a)[_0] = 1 }";

fn step<R: Abort>(
    rt: &R,
    alloc: Global,
    rule: Rule,
    goal: &str,
    premises: Items<ProofTree>,
) -> Result<ProofTree, Fail> {
    let goal = formula_of(rt, alloc, goal)?;
    Ok(ProofTree {
        rule,
        goal,
        premises,
    })
}

/// A comparison of numbers, by its own negation alone.
fn comparison<R: Abort>(rt: &R, alloc: Global, goal: &str) -> Result<ProofTree, Fail> {
    let mut factors = Items::new(alloc);
    factors.push(1)?;
    step(rt, alloc, Rule::Linear { factors }, goal, Items::new(alloc))
}

/// The proof of the one condition.
fn bound_of_a_cell<R: Abort>(rt: &R, alloc: Global) -> Result<ProofTree, Fail> {
    let mut sides = Items::new(alloc);
    sides.push(comparison(rt, alloc, "0 <= 3")?)?;
    sides.push(comparison(rt, alloc, "3 + 1 <= 4")?)?;
    let mut both = Items::new(alloc);
    both.push(step(rt, alloc, Rule::AndIntro, "0 <= 3 and 3 + 1 <= 4", sides)?)?;
    step(rt, alloc, Rule::LabIntro, ONE_CONDITION, both)
}

/// The entry of the one condition with a formula and a proof.
fn entry<R: Abort>(
    rt: &R,
    alloc: Global,
    formula: &str,
    proof: ProofTree,
) -> Result<ProvedCondition, Fail> {
    let formula = formula_of(rt, alloc, formula)?;
    let condition = Condition {
        policy: PolicyName::Bounds,
        pair: Pair {
            cut: Cut::Start,
            target: Target::Site(NodeId(2)),
        },
        formula,
    };
    Ok(ProvedCondition { condition, proof })
}

/// What the kernel says of the one write with these entries.
fn told_of_entries<R: Abort>(
    rt: &R,
    alloc: Global,
    conditions: Items<ProvedCondition>,
) -> Result<String, Fail> {
    let part = CertPart {
        policy: PolicyName::Bounds,
        annotations: Items::new(alloc),
        conditions,
    };
    let told = answer(rt, alloc, ONE_WRITE, &AnyPolicy::Bounds, &part);
    drop(part);
    told
}

/// What the kernel says of the filled array with these annotations and without entries.
fn told_of_annotations<R: Abort>(rt: &R, alloc: Global, noted: &[Noted]) -> Result<String, Fail> {
    let part = CertPart {
        policy: PolicyName::Init,
        annotations: annotations_of(rt, alloc, noted)?,
        conditions: Items::new(alloc),
    };
    let told = answer(rt, alloc, FILLED_ARRAY, &AnyPolicy::Init, &part);
    drop(part);
    told
}

#[test]
fn a_checked_proof_of_each_condition_is_accepted(rt: HostRuntime) -> Result<(), Fail> {
    let alloc = rt.alloc();
    let mut entries = Items::new(alloc);
    entries.push(entry(&rt, alloc, ONE_CONDITION, bound_of_a_cell(&rt, alloc)?)?)?;
    let told = told_of_entries(&rt, alloc, entries)?;
    assert_eq!(rt; told.as_str(), "ok 1");
    Ok(())
}

#[test]
fn a_proof_of_another_goal_is_refused_at_its_root(rt: HostRuntime) -> Result<(), Fail> {
    let alloc = rt.alloc();
    let other = step(&rt, alloc, Rule::TrueIntro, "true", Items::new(alloc))?;
    let mut entries = Items::new(alloc);
    entries.push(entry(&rt, alloc, ONE_CONDITION, other)?)?;
    let told = told_of_entries(&rt, alloc, entries)?;
    assert_eq!(rt; told.as_str(), "step of 0 in start -> site 2");
    Ok(())
}

#[test]
fn an_entry_of_another_formula_differs(rt: HostRuntime) -> Result<(), Fail> {
    let alloc = rt.alloc();
    let mut entries = Items::new(alloc);
    entries.push(entry(
        &rt,
        alloc,
        "0 <= 3 and 3 + 1 <= 4",
        bound_of_a_cell(&rt, alloc)?,
    )?)?;
    let told = told_of_entries(&rt, alloc, entries)?;
    assert_eq!(rt; told.as_str(), "differs start -> site 2");
    Ok(())
}

#[test]
fn an_entry_too_many_is_left_over(rt: HostRuntime) -> Result<(), Fail> {
    let alloc = rt.alloc();
    let mut entries = Items::new(alloc);
    entries.push(entry(&rt, alloc, ONE_CONDITION, bound_of_a_cell(&rt, alloc)?)?)?;
    entries.push(entry(&rt, alloc, ONE_CONDITION, bound_of_a_cell(&rt, alloc)?)?)?;
    let told = told_of_entries(&rt, alloc, entries)?;
    assert_eq!(rt; told.as_str(), "extra 1");
    Ok(())
}

#[test]
fn a_condition_without_an_entry_is_missing(rt: HostRuntime) -> Result<(), Fail> {
    let alloc = rt.alloc();
    let noted = [
        (Place::Loop(NodeId(4)), INVARIANT),
        (Place::After(NodeId(4)), BEHIND),
    ];
    let told = told_of_annotations(&rt, alloc, &noted)?;
    assert_eq!(rt; told.as_str(), "missing start -> entry 4");
    Ok(())
}

#[test]
fn a_loop_fact_stands_at_a_loop_alone(rt: HostRuntime) -> Result<(), Fail> {
    let alloc = rt.alloc();
    let noted = [(Place::Loop(NodeId(7)), INVARIANT)];
    let told = told_of_annotations(&rt, alloc, &noted)?;
    assert_eq!(rt; told.as_str(), "annotation 0");
    Ok(())
}

/// What the kernel says of a part: how many conditions it shows, or the refusal in a few words.
fn answer<R: Abort>(
    rt: &R,
    alloc: Global,
    text: &str,
    policy: &AnyPolicy,
    part: &CertPart,
) -> Result<String, Fail> {
    let program = parse(alloc, text.as_bytes())?;
    let told = judged(rt, alloc, &program, policy, part);
    drop(program);
    told
}

fn judged<R: Abort>(
    rt: &R,
    alloc: Global,
    program: &Program,
    policy: &AnyPolicy,
    part: &CertPart,
) -> Result<String, Fail> {
    let is_accepted = check_static(program);
    let are_small = has_small_indexes(part);
    assert!(rt; is_accepted.is_ok() && are_small);
    let told = match verify_part(alloc, program, policy, part) {
        Ok(count) => format!(in alloc; "ok {count}")?,
        Err(refused) => refusal_text(alloc, refused)?,
    };
    Ok(told)
}

fn refusal_text(alloc: Global, refused: Refused) -> Result<String, AllocError> {
    let mut text = String::new(alloc);
    match refused {
        Refused::Policies => text.push_str("policies")?,
        Refused::Annotation { index, .. } => {
            text.push_str(format!(in alloc; "annotation {index}")?.as_str())?
        }
        Refused::Limit { which } => text.push_str(which.word())?,
        Refused::Missing { pair, .. } => {
            text.push_str("missing ")?;
            push_pair(alloc, &mut text, pair)?
        }
        Refused::Differs { pair, .. } => {
            text.push_str("differs ")?;
            push_pair(alloc, &mut text, pair)?
        }
        Refused::Step { pair, path, .. } => {
            text.push_str(format!(in alloc; "step of {} in ", path.len())?.as_str())?;
            push_pair(alloc, &mut text, pair)?
        }
        Refused::Extra { index, .. } => {
            text.push_str(format!(in alloc; "extra {index}")?.as_str())?
        }
        Refused::OutOfMemory => return Err(AllocError),
    }
    Ok(text)
}
