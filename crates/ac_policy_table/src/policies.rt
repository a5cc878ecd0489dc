//! The policies that a file or a pattern names.
ghost use Rattle.std.specs.Prelude.{◌≡◌, map, filter, option_and_then, IfOk};
ghost use Rattle.std.specs.List.{list_any};
ghost use Rattle.toml.specs.Data.{as_str};
ghost use Rattle.toml.specs.View.{view};
ghost use Rattle.ac_policy_table.specs.Values.{each, policy_named, same_policy, are_different as are_all_different, policies_in, in_fixed_order as fixed_order_of};

use crate::values::items;
use ac_tree::PolicyName;
use sqlite_items::Items;
use std::alloc::{AllocError, Global};
use toml::Value;

/// The policies of a list that has each once at most, in the order in which they are written.
pub(crate) fn policies(
    alloc: Global,
    value: &Value,
) -> Result<Option<Items<PolicyName>>, AllocError>
    ensures { IfOk result (λ r. r ≡ policies_in (view value.now)) }
{
    let Some(values) = items(value) else {
        return Ok(None);
    };
    let Some(policies) = policy_names(alloc, values)? else {
        return Ok(None);
    };
    if policies.is_empty() || !are_different(policies.as_slice()) {
        return Ok(None);
    }
    Ok(Some(policies))
}

/// The same policies in their fixed order.
pub(crate) fn in_fixed_order(
    alloc: Global,
    policies: &[PolicyName],
) -> Result<Items<PolicyName>, AllocError>
    ensures { IfOk result (λ r. r ≡ fixed_order_of policies.now) }
{
    let mut ordered = Items::new(alloc);
    for policy in [PolicyName::Init, PolicyName::Bounds, PolicyName::Symm] {
        if has(policies, policy) {
            ordered.push(policy)?;
        }
    }
    Ok(ordered)
}

fn policy_names(alloc: Global, values: &[Value]) -> Result<Option<Items<PolicyName>>, AllocError>
    ensures { IfOk result (λ r. r ≡ each (λ d. option_and_then policy_named (as_str d)) (map view values.now)) }
{
    let mut policies = Items::new(alloc);
    for value in values {
        let Some(policy) = policy_of(value) else {
            return Ok(None);
        };
        policies.push(policy)?;
    }
    Ok(Some(policies))
}

fn policy_of(value: &Value) -> Option<PolicyName>
    ensures { result ≡ option_and_then policy_named (as_str (view value.now)) }
{
    match value.as_str() {
        Some(text) => policy_named(text),
        None => None,
    }
}

fn policy_named(text: &str) -> Option<PolicyName>
    ensures { result ≡ policy_named text.now }
{
    match text {
        "init" => Some(PolicyName::Init),
        "bounds" => Some(PolicyName::Bounds),
        "symm" => Some(PolicyName::Symm),
        _ => None,
    }
}

fn are_different(policies: &[PolicyName]) -> bool
    ensures { result ≡ are_all_different same_policy policies.now }
{
    for at in 0..policies.len() {
        if has(&policies[at + 1..], policies[at]) {
            return false;
        }
    }
    true
}

fn has(policies: &[PolicyName], policy: PolicyName) -> bool
    ensures { result ≡ list_any (λ q. same_policy q policy) policies.now }
{
    policies.iter().any(|other| is_same(*other, policy))
}

fn is_same(one: PolicyName, other: PolicyName) -> bool
    ensures { result ≡ same_policy one other }
{
    match (one, other) {
        (PolicyName::Init, PolicyName::Init) => true,
        (PolicyName::Bounds, PolicyName::Bounds) => true,
        (PolicyName::Symm, PolicyName::Symm) => true,
        _ => false,
    }
}
