//! Asks about proofs.
use crate::formulas::{formula, formula_at, term};
use ac_asks::{Answer, list_at, number_of, numbers_of, text_at};
use ac_logic::Formula;
use ac_proof::{CheckFault, ProofTree, Rule, RuleName};
use ac_shared::Shared;
use serde_json::{Value, json};
use sqlite_items::Items;
use std::alloc::{AllocError, Global};

/// No JSON text that is read nests deeper.
const DEEPEST: u64 = 128;

/// `{"ok":true}`, or the path of the first step that is refused.
pub fn check_proof(alloc: Global, ask: &Value) -> Answer {
    let (Some(texts), Some(tree)) = (list_at(ask, "hyps"), ask.get("tree")) else {
        return Ok(None);
    };
    let (Some(hypotheses), Some(tree)) = (formulas_of(alloc, texts)?, proof(alloc, tree, DEEPEST)?)
    else {
        return Ok(None);
    };
    if !ac_proof::has_few_premises(&tree) {
        return Ok(None);
    }
    match ac_proof::check_proof(alloc, hypotheses.as_slice(), &tree) {
        Ok(()) => Ok(Some(json!(in alloc; {"ok": true})?)),
        Err(CheckFault::Step(at)) => {
            let path = path_list(alloc, at.path.as_slice())?;
            Ok(Some(json!(in alloc; {"step": path})?))
        }
        Err(CheckFault::OutOfMemory) => Err(anyhow::Error::from(AllocError)),
    }
}

fn formulas_of(alloc: Global, texts: &[Value]) -> Result<Option<Vec<Shared<Formula>>>, AllocError> {
    let mut formulas = Vec::new(alloc);
    for text in texts.iter() {
        let Some(text) = text.as_str() else {
            return Ok(None);
        };
        match formula(alloc, text)? {
            Some(formula) => formulas.push(formula)?,
            None => return Ok(None),
        }
    }
    Ok(Some(formulas))
}

/// The places of a path as a list.
pub fn path_list(alloc: Global, path: &[u32]) -> Result<Vec<Value>, AllocError> {
    let mut list = Vec::new(alloc);
    for place in path.iter() {
        list.push(Value::from(*place))?;
    }
    Ok(list)
}

/// A proof of at most so many levels.
fn proof(alloc: Global, asked: &Value, levels: u64) -> anyhow::Result<Option<ProofTree>> {
    if levels == 0 {
        return Ok(None);
    }
    let Some(list) = list_at(asked, "premises") else {
        return Ok(None);
    };
    let mut premises = Items::new(alloc);
    for premise in list.iter() {
        match proof(alloc, premise, levels - 1)? {
            Some(premise) => premises.push(premise)?,
            None => return Ok(None),
        }
    }
    last_step(alloc, asked, premises)
}

/// The step of a proof behind its premises.
pub fn last_step(
    alloc: Global,
    asked: &Value,
    premises: Items<ProofTree>,
) -> anyhow::Result<Option<ProofTree>> {
    let Some(goal) = formula_at(alloc, asked, "goal")? else {
        return Ok(None);
    };
    match rule(alloc, asked)? {
        Some(rule) => Ok(Some(ProofTree {
            rule,
            goal,
            premises,
        })),
        None => Ok(None),
    }
}

/// A rule by its name and its data.
fn rule(alloc: Global, asked: &Value) -> anyhow::Result<Option<Rule>> {
    let (Some(name), Some(data)) = (text_at(asked, "rule"), list_at(asked, "data")) else {
        return Ok(None);
    };
    let Some(name) = RuleName::of(name) else {
        return Ok(None);
    };
    match name {
        RuleName::Hyp => Ok(Some(hypothesis(data))),
        RuleName::AllIntro => Ok(Some(new_name(data))),
        RuleName::AllElim => Ok(opening(alloc, data)?),
        RuleName::Linear => Ok(Some(combination(alloc, data)?)),
        plain => Ok(plain_rule(plain, data)),
    }
}

/// A step whose data are not those of its rule is no instance of it. It stands as a hypothesis that no context has.
fn no_instance() -> Rule {
    Rule::Hyp { n: u64::MAX }
}

fn number(data: &[Value]) -> Option<u64> {
    match data {
        [field] => number_of(field),
        _ => None,
    }
}

fn hypothesis(data: &[Value]) -> Rule {
    match number(data) {
        Some(n) => Rule::Hyp { n },
        None => no_instance(),
    }
}

fn new_name(data: &[Value]) -> Rule {
    let Some(number) = number(data) else {
        return no_instance();
    };
    match u32::try_from(number) {
        Ok(k) => Rule::AllIntro { k },
        Err(_) => no_instance(),
    }
}

fn opening(alloc: Global, data: &[Value]) -> Result<Option<Rule>, AllocError> {
    let [field] = data else {
        return Ok(Some(no_instance()));
    };
    let Some(text) = field.as_str() else {
        return Ok(Some(no_instance()));
    };
    match term(alloc, text)? {
        Some(t) => Ok(Some(Rule::AllElim { t })),
        None => Ok(None),
    }
}

fn combination(alloc: Global, data: &[Value]) -> Result<Rule, AllocError> {
    match numbers_of(alloc, data)? {
        Some(factors) => Ok(Rule::Linear {
            factors: Items::from_vec(factors),
        }),
        None => Ok(no_instance()),
    }
}

fn plain_rule(name: RuleName, data: &[Value]) -> Option<Rule> {
    match name.plain() {
        Some(rule) if data.is_empty() => Some(rule),
        Some(_) => Some(no_instance()),
        None => None,
    }
}
