//! Asks about ground forms.
use crate::formulas::formula_at;
use ac_asks::Answer;
use ac_expand::{ExpandFault, Ground};
use ac_logic::{Condition, Formula, Term};
use ac_shared::Shared;
use ac_tree::{Cut, LimitKind, NodeId, Pair, PolicyName, Target};
use serde_json::{Value, json};
use std::alloc::{AllocError, Global};

/// `{"index":[T,..],"instances":N,"print":G}`, or `{"limit":["instances",N]}`.
pub fn expand(alloc: Global, ask: &Value) -> Answer {
    let Some(formula) = formula_at(alloc, ask, "formula")? else {
        return Ok(None);
    };
    let condition = condition_of(formula);
    let expanded = ac_expand::expand(alloc, &condition);
    drop(condition);
    match expanded {
        Ok(ground) => described(alloc, &ground),
        Err(ExpandFault::Instances { value }) => {
            let word = LimitKind::Instances.word();
            Ok(Some(json!(in alloc; {"limit": [word, value]})?))
        }
        Err(ExpandFault::OutOfMemory) => Err(anyhow::Error::from(AllocError)),
    }
}

/// A condition with the formula. A ground form is that of the formula alone, whatever the condition is for.
fn condition_of(formula: Shared<Formula>) -> Condition {
    Condition {
        policy: PolicyName::Init,
        pair: Pair {
            cut: Cut::Start,
            target: Target::Site(NodeId(0)),
        },
        formula,
    }
}

fn described(alloc: Global, ground: &Ground) -> Answer {
    let index = index_list(alloc, ground.index.as_slice())?;
    let instances = ground.instances;
    let print = ac_formula_printer::print_formula(alloc, ground.formula.get())?;
    Ok(Some(json!(in alloc; {"index": index, "instances": instances, "print": print})?))
}

fn index_list(alloc: Global, terms: &[Shared<Term>]) -> anyhow::Result<Value> {
    let mut list = Vec::new(alloc);
    for term in terms.iter() {
        let print = ac_formula_printer::print_term(alloc, term.get())?;
        list.push(json!(in alloc; print)?)?;
    }
    Ok(Value::Array(list))
}
