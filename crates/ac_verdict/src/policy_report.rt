//! The reports of policy files that are refused.

ghost use Rattle.std.specs.Prelude.{◌≡◌, IfOk, string_bytes};
ghost use Rattle.ac_verdict.specs.declared.outcome.Outcome.TheVariants.{Policy as PolicyOutcome};
ghost use Rattle.ac_verdict.specs.declared.policy_fault.PatternFault.TheVariants as pattern;
ghost use Rattle.ac_verdict.specs.declared.policy_fault.PolicyFault.TheVariants as policy;
ghost use Rattle.ac_verdict.specs.Report.{report};

use crate::policy_fault::{PatternFault, PolicyFault};
use ac_policy_table::{PatternKey, PolicyKey};
use std::alloc::{AllocError, Global};

/// The report of a policy file that is refused.
#[tactic(auto, unfolding(crate::specs::Report::report, crate::specs::Report::lines_of))]
pub(crate) fn policy_refused(alloc: Global, fault: &PolicyFault) -> Result<String, AllocError>
    ensures { IfOk result (λ text. string_bytes text ≡ report (PolicyOutcome fault.now)) }
{
    match fault {
        PolicyFault::NotToml => String::from_str(alloc, "policy: not TOML\n"),
        PolicyFault::UnknownKey { key } => unknown_key(alloc, key.as_str()),
        PolicyFault::MissingKey { key } => missing_key(alloc, *key),
        PolicyFault::BadValue { key } => bad_value(alloc, *key),
        PolicyFault::FirstPattern { fault } => pattern_refused(alloc, fault),
    }
}

#[tactic(auto, unfolding(crate::specs::Report::report, crate::specs::Report::lines_of))]
fn unknown_key(alloc: Global, key: &str) -> Result<String, AllocError>
    ensures { IfOk result (λ text. string_bytes text ≡ report (PolicyOutcome (policy.UnknownKey key.now))) }
{
    format!(in alloc; "policy: unknown key {key}\n")
}

#[tactic(auto, unfolding(crate::specs::Report::report, crate::specs::Report::lines_of))]
fn missing_key(alloc: Global, key: PolicyKey) -> Result<String, AllocError>
    ensures { IfOk result (λ text. string_bytes text ≡ report (PolicyOutcome (policy.MissingKey key))) }
{
    let key = key.text();
    format!(in alloc; "policy: missing key {key}\n")
}

#[tactic(auto, unfolding(crate::specs::Report::report, crate::specs::Report::lines_of))]
fn bad_value(alloc: Global, key: PolicyKey) -> Result<String, AllocError>
    ensures { IfOk result (λ text. string_bytes text ≡ report (PolicyOutcome (policy.BadValue key))) }
{
    let key = key.text();
    format!(in alloc; "policy: bad value {key}\n")
}

#[tactic(auto, unfolding(crate::specs::Report::report, crate::specs::Report::lines_of))]
fn pattern_refused(alloc: Global, fault: &PatternFault) -> Result<String, AllocError>
    ensures { IfOk result (λ text. string_bytes text ≡ report (PolicyOutcome (policy.FirstPattern fault.now))) }
{
    match fault {
        PatternFault::UnknownKey { key } => unknown_pattern_key(alloc, key.as_str()),
        PatternFault::MissingKey { key } => missing_pattern_key(alloc, *key),
        PatternFault::BadValue { key } => bad_pattern_value(alloc, *key),
        PatternFault::NotSupported => String::from_str(alloc, "policy: pattern 1: not built\n"),
    }
}

#[tactic(auto, unfolding(crate::specs::Report::report, crate::specs::Report::lines_of))]
fn unknown_pattern_key(alloc: Global, key: &str) -> Result<String, AllocError>
    ensures { IfOk result (λ text. string_bytes text ≡ report (PolicyOutcome (policy.FirstPattern (pattern.UnknownKey key.now)))) }
{
    format!(in alloc; "policy: pattern 1: unknown key {key}\n")
}

#[tactic(auto, unfolding(crate::specs::Report::report, crate::specs::Report::lines_of))]
fn missing_pattern_key(alloc: Global, key: PatternKey) -> Result<String, AllocError>
    ensures { IfOk result (λ text. string_bytes text ≡ report (PolicyOutcome (policy.FirstPattern (pattern.MissingKey key)))) }
{
    let key = key.text();
    format!(in alloc; "policy: pattern 1: missing key {key}\n")
}

#[tactic(auto, unfolding(crate::specs::Report::report, crate::specs::Report::lines_of))]
fn bad_pattern_value(alloc: Global, key: PatternKey) -> Result<String, AllocError>
    ensures { IfOk result (λ text. string_bytes text ≡ report (PolicyOutcome (policy.FirstPattern (pattern.BadValue key)))) }
{
    let key = key.text();
    format!(in alloc; "policy: pattern 1: bad value {key}\n")
}
