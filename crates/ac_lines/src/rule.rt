//! The name of a step's rule, and its fields as JSON.
ghost use Rattle.std.specs.Prelude.{◌≡◌, IfOk, map};
ghost use Rattle.serde_json.specs.View.{view};
ghost use Rattle.serde_json.specs.Data.{array};
ghost use Rattle.ac_lines.specs.Lines.{numbers, fields, name_of};

use crate::line::SpelledRule;
use ac_proof::RuleName;
use serde_json::{Value, json};
use std::alloc::{AllocError, Global};

/// What the rule is called.
pub fn rule_name(rule: &SpelledRule) -> RuleName
    ensures { result ≡ name_of rule.now }
{
    match rule {
        SpelledRule::Hyp { .. } => RuleName::Hyp,
        SpelledRule::AllIntro { .. } => RuleName::AllIntro,
        SpelledRule::AllElim { .. } => RuleName::AllElim,
        SpelledRule::Linear { .. } => RuleName::Linear,
        SpelledRule::Plain { name } => *name,
    }
}

/// The fields of the rule, as a list.
pub fn field_list(alloc: Global, rule: &SpelledRule) -> Result<Value, AllocError>
    ensures { IfOk result (λ v. view v ≡ array (fields rule.now)) }
{
    match rule {
        SpelledRule::Hyp { n } => {
            let n = *n;
            json!(in alloc; [n])
        }
        SpelledRule::AllIntro { k } => {
            let k = *k;
            json!(in alloc; [k])
        }
        SpelledRule::AllElim { term } => {
            let text = term.as_str();
            json!(in alloc; [text])
        }
        SpelledRule::Linear { factors } => number_list(alloc, factors.as_slice()),
        SpelledRule::Plain { .. } => json!(in alloc; []),
    }
}

#[tactic(auto, using(crate::proofs::Lists::viewed_numbers))]
fn number_list(alloc: Global, list: &[u64]) -> Result<Value, AllocError>
    ensures { IfOk result (λ v. view v ≡ array (numbers list.now)) }
{
    let mut values = Vec::new(alloc);
    for number in list {
        values.push(Value::from(*number))?;
    }
    Ok(Value::Array(values))
}
