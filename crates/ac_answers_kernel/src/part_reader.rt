//! Certificates and their parts in asks.
use crate::annotations::annotations_of;
use crate::policy_words::policy_named;
use ac_answers_language::flow::{cut_of, target_of};
use ac_answers_logic::formulas::formula;
use ac_answers_logic::proof_trees::last_step;
use ac_asks::{list_at, text_at};
use ac_logic::{Annotation, Condition};
use ac_proof::{CertPart, Certificate, ProofTree, ProvedCondition};
use ac_tree::{Pair, PolicyName};
use serde_json::Value;
use sqlite_items::Items;
use std::alloc::{AllocError, Global};

/// The part of an ask.
pub fn part_at(alloc: Global, ask: &Value) -> anyhow::Result<Option<CertPart>> {
    match ask.get("part") {
        Some(asked) => part_of(alloc, asked),
        None => Ok(None),
    }
}

/// The certificate of an ask: the list of its parts.
pub fn certificate_at(alloc: Global, ask: &Value) -> anyhow::Result<Option<Certificate>> {
    let Some(list) = list_at(ask, "certificate") else {
        return Ok(None);
    };
    let mut parts = Items::new(alloc);
    let are_all = add_parts(alloc, list, &mut parts);
    if let Ok(true) = are_all {
        return Ok(Some(Certificate { parts }));
    }
    drop(parts);
    are_all?;
    Ok(None)
}

/// Adds the parts of a list, and tells whether each is one.
fn add_parts(alloc: Global, list: &[Value], parts: &mut Items<CertPart>) -> anyhow::Result<bool> {
    for value in list.iter() {
        match part_of(alloc, value)? {
            Some(part) => parts.push(part)?,
            None => return Ok(false),
        }
    }
    Ok(true)
}

fn part_of(alloc: Global, asked: &Value) -> anyhow::Result<Option<CertPart>> {
    let (Some(word), Some(stated), Some(listed)) = (
        text_at(asked, "policy"),
        list_at(asked, "annotations"),
        list_at(asked, "conditions"),
    ) else {
        return Ok(None);
    };
    let Some(policy) = policy_named(word) else {
        return Ok(None);
    };
    let Some(annotations) = annotations_of(alloc, stated)? else {
        return Ok(None);
    };
    part_with(alloc, policy, annotations, listed)
}

fn part_with(
    alloc: Global,
    policy: PolicyName,
    annotations: Items<Annotation>,
    listed: &[Value],
) -> anyhow::Result<Option<CertPart>> {
    match entries_of(alloc, listed) {
        Ok(Some(conditions)) => Ok(Some(CertPart {
            policy,
            annotations,
            conditions,
        })),
        Ok(None) => {
            drop(annotations);
            Ok(None)
        }
        Err(error) => {
            drop(annotations);
            Err(error)
        }
    }
}

fn entries_of(alloc: Global, list: &[Value]) -> anyhow::Result<Option<Items<ProvedCondition>>> {
    let mut entries = Items::new(alloc);
    let are_all = add_entries(alloc, list, &mut entries);
    if let Ok(true) = are_all {
        return Ok(Some(entries));
    }
    drop(entries);
    are_all?;
    Ok(None)
}

/// Adds the entries of a list, and tells whether each is one.
fn add_entries(
    alloc: Global,
    list: &[Value],
    entries: &mut Items<ProvedCondition>,
) -> anyhow::Result<bool> {
    for value in list.iter() {
        match entry_of(alloc, value)? {
            Some(entry) => entries.push(entry)?,
            None => return Ok(false),
        }
    }
    Ok(true)
}

/// An entry: its policy, cut, target and formula, and the steps of its proof.
fn entry_of(alloc: Global, value: &Value) -> anyhow::Result<Option<ProvedCondition>> {
    let Some(list) = value.as_array() else {
        return Ok(None);
    };
    let [policy, cut, target, text, steps] = list.as_slice() else {
        return Ok(None);
    };
    let Some(steps) = steps.as_array() else {
        return Ok(None);
    };
    let Some(condition) = condition_of(alloc, policy, cut, target, text)? else {
        return Ok(None);
    };
    proved(alloc, condition, steps.as_slice())
}

fn proved(
    alloc: Global,
    condition: Condition,
    steps: &[Value],
) -> anyhow::Result<Option<ProvedCondition>> {
    match proof_of(alloc, steps) {
        Ok(Some(proof)) => Ok(Some(ProvedCondition { condition, proof })),
        Ok(None) => {
            drop(condition);
            Ok(None)
        }
        Err(error) => {
            drop(condition);
            Err(error)
        }
    }
}

fn condition_of(
    alloc: Global,
    policy: &Value,
    cut: &Value,
    target: &Value,
    text: &Value,
) -> Result<Option<Condition>, AllocError> {
    let (Some(word), Some(cut), Some(target), Some(text)) = (
        policy.as_str(),
        cut_of(cut),
        target_of(target),
        text.as_str(),
    ) else {
        return Ok(None);
    };
    let Some(policy) = policy_named(word) else {
        return Ok(None);
    };
    let pair = Pair { cut, target };
    match formula(alloc, text)? {
        Some(formula) => Ok(Some(Condition {
            policy,
            pair,
            formula,
        })),
        None => Ok(None),
    }
}

/// The proof with these steps in preorder, made from the last step to the first.
fn proof_of(alloc: Global, steps: &[Value]) -> anyhow::Result<Option<ProofTree>> {
    let mut behind = Vec::new(alloc);
    let are_all = add_steps(alloc, steps, &mut behind);
    let proof = behind.pop();
    let is_one = behind.is_empty();
    drop(behind);
    if let Ok(true) = are_all {
        if is_one {
            return Ok(proof);
        }
    }
    drop(proof);
    are_all?;
    Ok(None)
}

/// Adds the proofs that end in these steps, the last first, and tells whether each is one.
fn add_steps(alloc: Global, steps: &[Value], behind: &mut Vec<ProofTree>) -> anyhow::Result<bool> {
    for step in steps.iter().rev() {
        if !add_step(alloc, step, behind)? {
            return Ok(false);
        }
    }
    Ok(true)
}

/// Adds a step before the proofs behind it, of which the first are its premises. The nearest stands last.
fn add_step(alloc: Global, asked: &Value, behind: &mut Vec<ProofTree>) -> anyhow::Result<bool> {
    let Some(count) = count_at(asked) else {
        return Ok(false);
    };
    let Some(premises) = premises_of(alloc, count, behind)? else {
        return Ok(false);
    };
    match last_step(alloc, asked, premises)? {
        Some(proof) => {
            behind.push(proof)?;
            Ok(true)
        }
        None => Ok(false),
    }
}

fn count_at(asked: &Value) -> Option<u64> {
    asked.get("premises")?.as_u64()
}

fn premises_of(
    alloc: Global,
    count: u64,
    behind: &mut Vec<ProofTree>,
) -> Result<Option<Items<ProofTree>>, AllocError> {
    let mut premises = Items::new(alloc);
    let are_there = take_premises(count, behind, &mut premises);
    if let Ok(true) = are_there {
        return Ok(Some(premises));
    }
    drop(premises);
    are_there?;
    Ok(None)
}

/// Takes so many of the nearest proofs, and tells whether they are there.
fn take_premises(
    count: u64,
    behind: &mut Vec<ProofTree>,
    premises: &mut Items<ProofTree>,
) -> Result<bool, AllocError> {
    for _ in 0..count {
        match behind.pop() {
            Some(premise) => premises.push(premise)?,
            None => return Ok(false),
        }
    }
    Ok(true)
}
