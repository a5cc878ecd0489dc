//! A table looked at by its keys.
ghost use Rattle.std.specs.Prelude.{◌≡◌, option_map, option_copied, find, is_some, not, string_bytes};
ghost use Rattle.std.specs.BTreeMap.{keys};
ghost use Rattle.std.specs.List.Sorted.{IsStrictlySortedBy};
ghost use Rattle.std.specs.String.{string_cmp};
ghost use Rattle.toml.specs.Data.{get_member};
ghost use Rattle.toml.specs.View.{view, table_view};
ghost use Rattle.ac_policy_table.specs.Keys.{at_policy, at_pattern, least_unknown, is_policy_key as in_policies, is_pattern_key as in_patterns, missing_policy_key as missing_in_policies, missing_pattern_key as missing_in_patterns};

use crate::key::{PatternKey, PolicyKey, is_pattern_key, is_policy_key};
use toml::{Table, Value};

fn value_at<'a>(table: &'a Table, key: &str) -> Option<&'a Value>
    ensures { option_map (λ v. view v.now) result ≡ get_member key.now (table_view table.now) }
{
    table.get(key)
}

/// What a policy file has at a key.
pub(crate) fn at_policy(table: &Table, key: PolicyKey) -> Option<&Value>
    ensures { option_map (λ v. view v.now) result ≡ at_policy key (table_view table.now) }
{
    value_at(table, key.text())
}

/// What a pattern has at a key.
pub(crate) fn at_pattern(table: &Table, key: PatternKey) -> Option<&Value>
    ensures { option_map (λ v. view v.now) result ≡ at_pattern key (table_view table.now) }
{
    value_at(table, key.text())
}

fn policy_stranger(table: &Table) -> Option<&String>
    ensures first { option_copied result ≡ find (λ k. not (in_policies (string_bytes k))) (keys table.now) }
    ensures ordered { IsStrictlySortedBy string_cmp (keys table.now) }
{
    table.keys().find(|key| !is_policy_key(key.as_str()))
}

fn pattern_stranger(table: &Table) -> Option<&String>
    ensures first { option_copied result ≡ find (λ k. not (in_patterns (string_bytes k))) (keys table.now) }
    ensures ordered { IsStrictlySortedBy string_cmp (keys table.now) }
{
    table.keys().find(|key| !is_pattern_key(key.as_str()))
}

/// The least key that no policy file has.
pub(crate) fn unknown_policy_key(table: &Table) -> Option<&str>
    ensures { option_map (λ s. s.now) result ≡ least_unknown in_policies (table_view table.now) }
{
    match policy_stranger(table) {
        Some(key) => Some(key.as_str()),
        None => None,
    }
}

/// The least key that no pattern has.
pub(crate) fn unknown_pattern_key(table: &Table) -> Option<&str>
    ensures { option_map (λ s. s.now) result ≡ least_unknown in_patterns (table_view table.now) }
{
    match pattern_stranger(table) {
        Some(key) => Some(key.as_str()),
        None => None,
    }
}

fn has_policy_key(table: &Table, key: PolicyKey) -> bool
    ensures { result ≡ is_some (at_policy key (table_view table.now)) }
{
    at_policy(table, key).is_some()
}

fn has_pattern_key(table: &Table, key: PatternKey) -> bool
    ensures { result ≡ is_some (at_pattern key (table_view table.now)) }
{
    at_pattern(table, key).is_some()
}

/// The first key that a policy file has to have and has not.
pub(crate) fn missing_policy_key(table: &Table) -> Option<PolicyKey>
    ensures { result ≡ missing_in_policies (table_view table.now) }
{
    if !has_policy_key(table, PolicyKey::Policies) {
        return Some(PolicyKey::Policies);
    }
    if !has_policy_key(table, PolicyKey::Version) {
        return Some(PolicyKey::Version);
    }
    None
}

/// The first key that a pattern has to have and has not.
pub(crate) fn missing_pattern_key(table: &Table) -> Option<PatternKey>
    ensures { result ≡ missing_in_patterns (table_view table.now) }
{
    if !has_pattern_key(table, PatternKey::Code) {
        return Some(PatternKey::Code);
    }
    if !has_pattern_key(table, PatternKey::Hot) {
        return Some(PatternKey::Hot);
    }
    if !has_pattern_key(table, PatternKey::Name) {
        return Some(PatternKey::Name);
    }
    if !has_pattern_key(table, PatternKey::Policies) {
        return Some(PatternKey::Policies);
    }
    None
}
