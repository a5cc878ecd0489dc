//! The JSON object of each kind of line.
ghost use Rattle.std.specs.Prelude.{◌≡◌, IfOk};
ghost use Rattle.serde_json.specs.View.{view};
ghost use Rattle.serde_json.specs.Data.{array};
ghost use Rattle.ac_lines.specs.Lines.{words, header_data, formula_data, claim_data, annotation_data, condition_data, step_data, end_data, line_data};

use crate::line::{Claim, Line, SpelledRule};
use crate::point::{cut_value, place_value, target_value};
use crate::rule::{field_list, rule_name};
use crate::words::policy_word;
use ac_tree::{Pair, Place, PolicyName};
use serde_json::{Map, Value};
use std::alloc::{AllocError, Global};

#[tactic(auto, using(crate::proofs::Lists::viewed_words))]
fn policy_list(alloc: Global, policies: &[PolicyName]) -> Result<Value, AllocError>
    ensures { IfOk result (λ v. view v ≡ array (words policies.now)) }
{
    let mut values = Vec::new(alloc);
    for policy in policies {
        values.push(Value::try_from_str(alloc, policy_word(*policy))?)?;
    }
    Ok(Value::Array(values))
}

fn header(alloc: Global, policies: &[PolicyName]) -> Result<Value, AllocError>
    ensures { IfOk result (λ v. view v ≡ header_data policies.now) }
{
    let policies = policy_list(alloc, policies)?;
    let mut map = Map::new(alloc);
    serde_json::put(
        &mut map,
        alloc,
        "kind",
        Value::try_from_str(alloc, "header")?,
    )?;
    serde_json::put(&mut map, alloc, "policies", policies)?;
    serde_json::put(&mut map, alloc, "version", Value::from(1u64))?;
    Ok(Value::Object(map))
}

fn formula(alloc: Global, text: &str) -> Result<Value, AllocError>
    ensures { IfOk result (λ v. view v ≡ formula_data text.now) }
{
    let mut map = Map::new(alloc);
    serde_json::put(
        &mut map,
        alloc,
        "kind",
        Value::try_from_str(alloc, "formula")?,
    )?;
    serde_json::put(&mut map, alloc, "text", Value::try_from_str(alloc, text)?)?;
    Ok(Value::Object(map))
}

fn annotation(
    alloc: Global,
    policy: PolicyName,
    place: Place,
    number: u64,
) -> Result<Value, AllocError>
    ensures { IfOk result (λ v. view v ≡ annotation_data policy place number) }
{
    let at = place_value(alloc, place)?;
    let policy = Value::try_from_str(alloc, policy_word(policy))?;
    let mut map = Map::new(alloc);
    serde_json::put(&mut map, alloc, "at", at)?;
    serde_json::put(&mut map, alloc, "f", Value::from(number))?;
    serde_json::put(
        &mut map,
        alloc,
        "kind",
        Value::try_from_str(alloc, "annotation")?,
    )?;
    serde_json::put(&mut map, alloc, "policy", policy)?;
    Ok(Value::Object(map))
}

fn condition(
    alloc: Global,
    policy: PolicyName,
    pair: Pair,
    number: u64,
) -> Result<Value, AllocError>
    ensures { IfOk result (λ v. view v ≡ condition_data policy pair number) }
{
    let from = cut_value(alloc, pair.cut)?;
    let to = target_value(alloc, pair.target)?;
    let policy = Value::try_from_str(alloc, policy_word(policy))?;
    let mut map = Map::new(alloc);
    serde_json::put(&mut map, alloc, "f", Value::from(number))?;
    serde_json::put(&mut map, alloc, "from", from)?;
    serde_json::put(
        &mut map,
        alloc,
        "kind",
        Value::try_from_str(alloc, "condition")?,
    )?;
    serde_json::put(&mut map, alloc, "policy", policy)?;
    serde_json::put(&mut map, alloc, "to", to)?;
    Ok(Value::Object(map))
}

fn step(alloc: Global, rule: &SpelledRule, premises: u64, number: u64) -> Result<Value, AllocError>
    ensures { IfOk result (λ v. view v ≡ step_data rule.now premises number) }
{
    let fields = field_list(alloc, rule)?;
    let name = Value::try_from_str(alloc, rule_name(rule).text())?;
    let mut map = Map::new(alloc);
    serde_json::put(&mut map, alloc, "data", fields)?;
    serde_json::put(&mut map, alloc, "f", Value::from(number))?;
    serde_json::put(&mut map, alloc, "kind", Value::try_from_str(alloc, "step")?)?;
    serde_json::put(&mut map, alloc, "premises", Value::from(premises))?;
    serde_json::put(&mut map, alloc, "rule", name)?;
    Ok(Value::Object(map))
}

fn claim_value(alloc: Global, claim: &Claim, number: u64) -> Result<Value, AllocError>
    ensures { IfOk result (λ v. view v ≡ claim_data claim.now number) }
{
    match claim {
        Claim::Annotation { policy, place } => annotation(alloc, *policy, *place, number),
        Claim::Condition { policy, pair } => condition(alloc, *policy, *pair, number),
        Claim::Step { rule, premises } => step(alloc, rule, *premises, number),
    }
}

fn end(alloc: Global, conditions: u64, steps: u64) -> Result<Value, AllocError>
    ensures { IfOk result (λ v. view v ≡ end_data conditions steps) }
{
    let mut map = Map::new(alloc);
    serde_json::put(&mut map, alloc, "conditions", Value::from(conditions))?;
    serde_json::put(&mut map, alloc, "kind", Value::try_from_str(alloc, "end")?)?;
    serde_json::put(&mut map, alloc, "steps", Value::from(steps))?;
    Ok(Value::Object(map))
}

/// The object of a line.
pub fn line_value(alloc: Global, line: &Line) -> Result<Value, AllocError>
    ensures { IfOk result (λ v. view v ≡ line_data line.now) }
{
    match line {
        Line::Header { policies } => header(alloc, policies.as_slice()),
        Line::Formula { text } => formula(alloc, text.as_str()),
        Line::Cites { claim, formula } => claim_value(alloc, claim, *formula),
        Line::End { conditions, steps } => end(alloc, *conditions, *steps),
    }
}
