//! Asks about the verification conditions of a program.
use crate::annotations::annotations_of;
use ac_answers_language::flow::{cut_value, pair_value, target_value};
use ac_answers_policies::policies::{policy_at, program_at};
use ac_asks::{Answer, list_at, told};
use ac_formula_printer::print_formula;
use ac_logic::{Annotation, Condition};
use ac_policy::AnyPolicy;
use ac_tree::{LimitKind, Pair, PolicyName, Program};
use ac_vcg::VcgFault;
use serde_json::{Value, json};
use std::alloc::{AllocError, Global};

/// The conditions of a program under a policy and annotations, or the limit that they pass.
pub fn conditions(alloc: Global, ask: &Value) -> Answer {
    let Some(program) = program_at(alloc, ask)? else {
        return Ok(None)
    };
    let answer = conditions_of(alloc, &program, ask);
    drop(program);
    answer
}

fn conditions_of(alloc: Global, program: &Program, ask: &Value) -> Answer {
    let Some(policy) = policy_at(alloc, ask)? else {
        return Ok(None)
    };
    let answer = conditions_under(alloc, program, &policy, ask);
    drop(policy);
    answer
}

fn conditions_under(alloc: Global, program: &Program, policy: &AnyPolicy, ask: &Value) -> Answer {
    let Some(list) = list_at(ask, "annotations") else {
        return Ok(None);
    };
    let Some(annotations) = annotations_of(alloc, list)? else {
        return Ok(None);
    };
    let answer = listed(alloc, program, policy, annotations.as_slice());
    drop(annotations);
    answer
}

fn listed(
    alloc: Global,
    program: &Program,
    policy: &AnyPolicy,
    annotations: &[Annotation],
) -> Answer {
    match ac_vcg::conditions(alloc, program, policy, name_of(policy), annotations) {
        Ok(conditions) => {
            let list = values_of(alloc, conditions.as_slice());
            drop(conditions);
            told(alloc, "conditions", list?)
        }
        Err(fault) => refusal(alloc, fault),
    }
}

fn name_of(policy: &AnyPolicy) -> PolicyName {
    match policy {
        AnyPolicy::Init => PolicyName::Init,
        AnyPolicy::Bounds => PolicyName::Bounds,
        AnyPolicy::Symm { .. } => PolicyName::Symm,
    }
}

fn values_of(alloc: Global, conditions: &[Condition]) -> Result<Value, AllocError> {
    let mut list = Vec::new(alloc);
    for condition in conditions {
        list.push(condition_value(alloc, condition)?)?;
    }
    Ok(Value::Array(list))
}

/// A list of the cut, the target and the text of the formula.
fn condition_value(alloc: Global, condition: &Condition) -> Result<Value, AllocError> {
    let print = print_formula(alloc, condition.formula.get())?;
    let text = json!(in alloc; print)?;
    let mut list = Vec::new(alloc);
    list.push(cut_value(alloc, condition.pair.cut)?)?;
    list.push(target_value(alloc, condition.pair.target)?)?;
    list.push(text)?;
    Ok(Value::Array(list))
}

fn refusal(alloc: Global, fault: VcgFault) -> Answer {
    match fault {
        VcgFault::Count { value } => limit_passed(alloc, LimitKind::Conditions, value),
        VcgFault::Total { value } => limit_passed(alloc, LimitKind::Total, value),
        VcgFault::Size { pair, value } => limit_passed_at(alloc, LimitKind::Size, value, pair),
        VcgFault::Depth { pair, value } => limit_passed_at(alloc, LimitKind::Depth, value, pair),
        VcgFault::OutOfMemory => Err(anyhow::Error::from(AllocError)),
    }
}

fn limit_passed(alloc: Global, kind: LimitKind, value: u64) -> Answer {
    let word = kind.word();
    Ok(Some(json!(in alloc; {"limit": [word, value]})?))
}

fn limit_passed_at(alloc: Global, kind: LimitKind, value: u64, pair: Pair) -> Answer {
    let word = kind.word();
    let pair = pair_value(alloc, pair)?;
    Ok(Some(json!(in alloc; {"limit": [word, value], "pair": pair})?))
}
