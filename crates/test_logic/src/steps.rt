//! Steps of proofs from their texts: a rule is its name with its numbers of one digit, as `linear 1 1`, or its term.
use crate::texts::{formula_of, term_of};
use ac_proof::{ProofTree, Rule, RuleName};
use sqlite_items::Items;
use std::alloc::{AllocError, Global};
use std::process::Abort;
use std::test::Fail;

pub fn step<R: Abort>(
    rt: &R,
    alloc: Global,
    rule: &str,
    goal: &str,
    premises: Items<ProofTree>,
) -> Result<ProofTree, Fail> {
    let rule = rule_of(rt, alloc, rule)?.ok_or("a rule")?;
    let goal = formula_of(rt, alloc, goal)?;
    Ok(ProofTree {
        rule,
        goal,
        premises,
    })
}

/// A step that is never an instance of its rule.
pub fn open_step<R: Abort>(rt: &R, alloc: Global, goal: &str) -> Result<ProofTree, Fail> {
    step(rt, alloc, "hyp 9", goal, Items::new(alloc))
}

fn rule_of<R: Abort>(rt: &R, alloc: Global, text: &str) -> Result<Option<Rule>, Fail> {
    let Some((name, data)) = text.split_once(' ') else {
        return Ok(RuleName::of(text).and_then(RuleName::plain));
    };
    match RuleName::of(name) {
        Some(RuleName::AllElim) => Ok(Some(Rule::AllElim {
            t: term_of(rt, alloc, data)?,
        })),
        Some(name) => Ok(numbered_rule(name, numbers_of(alloc, data)?)),
        None => Ok(None),
    }
}

fn numbered_rule(name: RuleName, numbers: Items<u64>) -> Option<Rule> {
    let first = numbers.get(0).copied().unwrap_or(0);
    match name {
        RuleName::Hyp => Some(Rule::Hyp { n: first }),
        RuleName::AllIntro => match u32::try_from(first) {
            Ok(k) => Some(Rule::AllIntro { k }),
            Err(_) => None,
        },
        RuleName::Linear => Some(Rule::Linear { factors: numbers }),
        _ => None,
    }
}

fn numbers_of(alloc: Global, digits: &str) -> Result<Items<u64>, AllocError> {
    let mut numbers = Items::new(alloc);
    for byte in digits.bytes() {
        if byte.is_ascii_digit() {
            numbers.push(u64::from(byte - b'0'))?;
        }
    }
    Ok(numbers)
}
