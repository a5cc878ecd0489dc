//! From the bytes of a policy file to its table.

ghost use Rattle.std.specs.Prelude.{◌≡◌, ℕ, List, IfOk, IfErr};
ghost use Rattle.ac_policy_table.specs.PolicyFile.{file_says, IsSaid};
ghost use Rattle.ac_verdict.specs.Policy.{HasTable, IsPolicyRefusal, fault_of_first, fault_of_pattern, fault_of_shapes};

use crate::outcome::Outcome;
use crate::policy_fault::{PatternFault, PolicyFault};
use ac_policy_table::{
    PatternKey, PatternTable, PatternValues, PolicyTable, TableFault, Text, read_policy_table,
};
use std::alloc::{AllocError, Global};

/// The table of a policy file that has no patterns of its own, or why the file is refused.
pub(crate) fn read_policy(alloc: Global, bytes: &[u8]) -> Result<PolicyTable, Outcome>
    ensures table { IfOk result (HasTable bytes.now) }
    ensures refused { IfErr result (IsPolicyRefusal bytes.now) }
{
    match read_policy_table(alloc, bytes) {
        Ok(table) => without_patterns(alloc, table),
        Err(fault) => Err(table_refused(fault)),
    }
}

/// The table, if it has no patterns.
#[tactic(auto, using(crate::proofs::Policies::no_fault))]
fn without_patterns(alloc: Global, table: PolicyTable) -> Result<PolicyTable, Outcome>
    ensures table { (bytes : List ℕ) → file_says bytes ≡ Ok table → IfOk result (HasTable bytes) }
    ensures refused { (bytes : List ℕ) → file_says bytes ≡ Ok table → IfErr result (IsPolicyRefusal bytes) }
{
    match fault_of_first(alloc, table.patterns.as_slice()) {
        Ok(None) => Ok(table),
        Ok(Some(fault)) => Err(Outcome::Policy {
            fault: PolicyFault::FirstPattern { fault },
        }),
        Err(_) => Err(Outcome::OutOfMemory),
    }
}

/// Why the first of the patterns is refused; none where there is none.
fn fault_of_first(
    alloc: Global,
    patterns: &[PatternTable],
) -> Result<Option<PatternFault>, AllocError>
    ensures { IfOk result (λ fault. fault ≡ fault_of_first patterns.now) }
{
    match patterns {
        [] => Ok(None),
        [first, ..] => Ok(Some(fault_of_pattern(alloc, first)?)),
    }
}

fn fault_of_pattern(alloc: Global, pattern: &PatternTable) -> Result<PatternFault, AllocError>
    ensures { IfOk result (λ fault. fault ≡ fault_of_pattern pattern.now) }
{
    match pattern {
        PatternTable::Unknown { key } => {
            let key = Text::new(alloc, key.as_str())?;
            Ok(PatternFault::UnknownKey { key })
        }
        PatternTable::Missing { key } => Ok(PatternFault::MissingKey { key: *key }),
        PatternTable::Values(values) => Ok(fault_of_values(values)),
    }
}

/// Whether a value has another shape than its key asks for is told where it doesn't rest on what the texts say.
fn fault_of_values(values: &PatternValues) -> PatternFault
    ensures { result ≡ fault_of_shapes values.now.apart values.now.code }
{
    if values.apart.is_none() {
        return PatternFault::BadValue {
            key: PatternKey::Apart,
        };
    }
    if values.code.is_none() {
        return PatternFault::BadValue {
            key: PatternKey::Code,
        };
    }
    PatternFault::NotSupported
}

/// What a fault of the table is answered as.
fn table_refused(fault: TableFault) -> Outcome
    ensures { (bytes : List ℕ) → IsSaid fault (file_says bytes) → IsPolicyRefusal bytes result }
{
    match fault {
        TableFault::Limit { which, value } => Outcome::Limit { which, value },
        TableFault::NotToml => Outcome::Policy {
            fault: PolicyFault::NotToml,
        },
        TableFault::UnknownKey { key } => Outcome::Policy {
            fault: PolicyFault::UnknownKey { key },
        },
        TableFault::MissingKey { key } => Outcome::Policy {
            fault: PolicyFault::MissingKey { key },
        },
        TableFault::BadValue { key } => Outcome::Policy {
            fault: PolicyFault::BadValue { key },
        },
        TableFault::OutOfMemory => Outcome::OutOfMemory,
    }
}
