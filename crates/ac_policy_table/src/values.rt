//! Values of a policy file, read one shape at a time. `None` says that a value has another shape.
ghost use Rattle.std.specs.Prelude.{◌≡◌, map, option_map, option_and_then, is_some, IfOk};
ghost use Rattle.std.specs.List.{list_all};
ghost use Rattle.toml.specs.Data.{as_str, as_table};
ghost use Rattle.toml.specs.View.{view};
ghost use Rattle.ac_policy_table.specs.Values.{each, items_in, pair_of};

use crate::pattern_table::ApartPair;
use crate::text::Text;
use sqlite_items::Items;
use std::alloc::{AllocError, Global};
use toml::Value;

/// The items of a list.
pub(crate) fn items(value: &Value) -> Option<&[Value]>
    ensures { option_map (λ s. map view s.now) result ≡ items_in (view value.now) }
{
    match value.as_array() {
        Some(values) => Some(values.as_slice()),
        None => None,
    }
}

/// The texts of a list of texts.
pub(crate) fn texts(alloc: Global, values: &[Value]) -> Result<Option<Items<Text>>, AllocError>
    ensures { IfOk result (λ r. r ≡ each as_str (map view values.now)) }
{
    let mut texts = Items::new(alloc);
    for value in values {
        let Some(text) = value.as_str() else {
            return Ok(None);
        };
        texts.push(Text::new(alloc, text)?)?;
    }
    Ok(Some(texts))
}

/// The two texts of a list of two texts.
fn pair(alloc: Global, values: &[Value]) -> Result<Option<ApartPair>, AllocError>
    ensures { IfOk result (λ r. r ≡ pair_of (map view values.now)) }
{
    let [first, second] = values else {
        return Ok(None);
    };
    let (Some(metavariable), Some(name)) = (first.as_str(), second.as_str()) else {
        return Ok(None);
    };
    let metavariable = Text::new(alloc, metavariable)?;
    let name = Text::new(alloc, name)?;
    Ok(Some(ApartPair { metavariable, name }))
}

fn pair_in(alloc: Global, value: &Value) -> Result<Option<ApartPair>, AllocError>
    ensures { IfOk result (λ r. r ≡ option_and_then pair_of (items_in (view value.now))) }
{
    match items(value) {
        Some(values) => pair(alloc, values),
        None => Ok(None),
    }
}

/// The pairs of a list of lists of two texts.
pub(crate) fn pairs(alloc: Global, values: &[Value]) -> Result<Option<Items<ApartPair>>, AllocError>
    ensures { IfOk result (λ r. r ≡ each (λ d. option_and_then pair_of (items_in d)) (map view values.now)) }
{
    let mut pairs = Items::new(alloc);
    for value in values {
        let Some(pair) = pair_in(alloc, value)? else {
            return Ok(None);
        };
        pairs.push(pair)?;
    }
    Ok(Some(pairs))
}

/// Whether all values are tables.
pub(crate) fn are_tables(values: &[Value]) -> bool
    ensures { result ≡ list_all (λ v. is_some (as_table (view v))) values.now }
{
    values.iter().all(|value| value.is_table())
}
