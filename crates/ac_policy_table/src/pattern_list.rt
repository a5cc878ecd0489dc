//! The list of the patterns of a file.
ghost use Rattle.std.specs.Prelude.{◌≡◌, true, map, option_map, is_some, filter_map, nat_lt, length, IfOk, IfSome};
ghost use Rattle.std.specs.List.{list_all};
ghost use Rattle.ac_tree.specs.declared.limit.LimitKind.TheVariants as limit;
ghost use Rattle.ac_tree.specs.Limits.{limit_of};
ghost use Rattle.toml.specs.Data.{as_table};
ghost use Rattle.toml.specs.View.{view, table_view};
ghost use Rattle.ac_policy_table.specs.Values.{each, tables_in};
ghost use Rattle.ac_policy_table.specs.Patterns.{pattern_says};
ghost use Rattle.ac_policy_table.specs.PolicyFile.{tables_of};

use crate::entries::at_policy;
use crate::key::PolicyKey;
use crate::pattern_table::{PatternTable, pattern_table};
use crate::values::{are_tables, items};
use ac_tree::LimitKind;
use sqlite_items::Items;
use std::alloc::{AllocError, Global};
use toml::{Table, Value};

/// The values of the patterns of a file, where they are a list of tables.
pub(crate) fn values_of_patterns(table: &Table) -> Option<&[Value]>
    ensures tables { option_map (λ s. filter_map as_table (map view s.now)) result ≡ tables_of (table_view table.now) }
    ensures all { IfSome result (λ s. list_all (λ v. is_some (as_table (view v))) s.now ≡ true) }
{
    match at_policy(table, PolicyKey::Pattern) {
        Some(value) => tables_in(value),
        None => Some(&[]),
    }
}

fn tables_in(value: &Value) -> Option<&[Value]>
    ensures tables { option_map (λ s. filter_map as_table (map view s.now)) result ≡ tables_in (view value.now) }
    ensures all { IfSome result (λ s. list_all (λ v. is_some (as_table (view v))) s.now ≡ true) }
{
    match items(value) {
        Some(values) => all_tables(values),
        None => None,
    }
}

fn all_tables(values: &[Value]) -> Option<&[Value]>
    ensures tables { option_map (λ s. filter_map as_table (map view s.now)) result ≡ each as_table (map view values.now) }
    ensures all { IfSome result (λ s. list_all (λ v. is_some (as_table (view v))) s.now ≡ true) }
{
    if are_tables(values) {
        Some(values)
    } else {
        None
    }
}

/// Whether there are more patterns than the limit.
#[tactic(auto, using(crate::proofs::Tables::as_many))]
pub(crate) fn are_too_many(values: &[Value]) -> bool
    requires { list_all (λ v. is_some (as_table (view v))) values.now ≡ true }
    ensures { result ≡ nat_lt (limit_of limit.Patterns) (length (filter_map as_table (map view values.now))) }
{
    values.len() as u64 > LimitKind::Patterns.number()
}

/// What the table of each pattern says.
pub(crate) fn pattern_tables(
    alloc: Global,
    values: &[Value],
) -> Result<Items<PatternTable>, AllocError>
    ensures { IfOk result (λ r. r ≡ map pattern_says (filter_map as_table (map view values.now))) }
{
    let mut patterns = Items::new(alloc);
    for value in values {
        let Some(table) = value.as_table() else {
            continue;
        };
        patterns.push(pattern_table(alloc, table)?)?;
    }
    Ok(patterns)
}
