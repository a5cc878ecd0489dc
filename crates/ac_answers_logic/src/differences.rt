//! Asks about differences of units.
ghost use Rattle.std.specs.Prelude.{IfOk, IfSome};
ghost use Rattle.ac_diff.specs.Differences.{AreFacts, IsFact, IsSide};

use ac_asks::{Answer, list_at, wholes};
use ac_diff::{Diff, DiffAnswer};
use serde_json::{Value, json};
use std::alloc::{AllocError, Global};

/// The largest bound of a fact, and the least one below 0.
const LARGEST_BOUND: i128 = 4611686018427387904;

/// No ask has more units.
const MOST_UNITS: u64 = 1000000;

/// `{"point":[V,..]}` or `{"cycle":[K,..]}`.
pub fn solve(alloc: Global, ask: &Value) -> Answer {
    let (Some(list), Some(units)) = (list_at(ask, "facts"), units_of(ask)) else {
        return Ok(None);
    };
    let Some(facts) = facts_of(alloc, units, list)? else {
        return Ok(None);
    };
    match ac_diff::solve(alloc, units, facts.as_slice())? {
        DiffAnswer::Point(point) => {
            let values = wholes(alloc, point.as_slice())?;
            Ok(Some(json!(in alloc; {"point": values})?))
        }
        DiffAnswer::Cycle(cycle) => {
            let numbers = places(alloc, cycle.as_slice())?;
            Ok(Some(json!(in alloc; {"cycle": numbers})?))
        }
    }
}

fn units_of(ask: &Value) -> Option<usize> {
    match ask.get("units")?.as_u64()? {
        many if MOST_UNITS < many => None,
        units => usize::try_from(units).ok(),
    }
}

fn facts_of(alloc: Global, units: usize, list: &[Value]) -> Result<Option<Vec<Diff>>, AllocError>
    ensures { IfOk result (λ found. IfSome found (λ facts. AreFacts units facts.items)) }
{
    let mut facts = Vec::new(alloc);
    for value in list.iter() {
        match fact_of(units, value) {
            Some(fact) => facts.push(fact)?,
            None => return Ok(None),
        }
    }
    Ok(Some(facts))
}

/// A fact, from a list of its two sides and its bound.
fn fact_of(units: usize, value: &Value) -> Option<Diff>
    ensures { IfSome result (IsFact units) }
{
    let [plus, minus, bound] = value.as_array()?.as_slice() else {
        return None;
    };
    let plus = side_of(units, plus)?;
    let minus = side_of(units, minus)?;
    let bound = i128::from(bound.as_i64()?);
    if bound < -LARGEST_BOUND || LARGEST_BOUND < bound {
        return None;
    }
    Some(Diff { plus, minus, bound })
}

/// A unit's number, or `null` for 0.
fn side_of(units: usize, value: &Value) -> Option<Option<usize>>
    ensures { IfSome result (IsSide units) }
{
    match value {
        Value::Null => Some(None),
        _ => {
            let unit = usize::try_from(value.as_u64()?).ok()?;
            if unit < units { Some(Some(unit)) } else { None }
        }
    }
}

fn places(alloc: Global, numbers: &[usize]) -> Result<Vec<Value>, AllocError> {
    let mut list = Vec::new(alloc);
    for number in numbers.iter() {
        list.push(Value::from(*number as u64))?;
    }
    Ok(list)
}
