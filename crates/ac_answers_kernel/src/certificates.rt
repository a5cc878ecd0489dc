//! Asks about whole certificates.
ghost use Rattle.ac_tree.specs.StaticRules.{KeepsStaticRules};

use crate::part_reader::certificate_at;
use crate::parts::refusal;
use ac_answers_policies::policies::program_at;
use ac_asks::{Answer, text_at, told};
use ac_policy_set::PolicySet;
use ac_policy_table::{PolicyTable, TableFault, read_policy_table};
use ac_proof::Certificate;
use ac_tree::Program;
use ac_verify::have_small_indexes;
use serde_json::Value;
use sqlite_items::Items;
use std::alloc::{AllocError, Global};

/// How many conditions each part of a certificate shows, or why the certificate is refused.
pub fn verify(alloc: Global, ask: &Value) -> Answer {
    let Some(program) = program_at(alloc, ask)? else {
        return Ok(None);
    };
    let answer = verified(alloc, &program, ask);
    drop(program);
    answer
}

fn verified(alloc: Global, program: &Program, ask: &Value) -> Answer
    requires { KeepsStaticRules program.now }
{
    let Some(set) = set_at(alloc, ask)? else {
        return Ok(None);
    };
    let answer = verified_by(alloc, program, &set, ask);
    drop(set);
    answer
}

fn verified_by(alloc: Global, program: &Program, set: &PolicySet, ask: &Value) -> Answer
    requires { KeepsStaticRules program.now }
{
    let Some(certificate) = certificate_at(alloc, ask)? else {
        return Ok(None);
    };
    let answer = verdict(alloc, program, set, &certificate);
    drop(certificate);
    answer
}

fn verdict(alloc: Global, program: &Program, set: &PolicySet, certificate: &Certificate) -> Answer
    requires { KeepsStaticRules program.now }
{
    if !have_small_indexes(certificate) {
        return Ok(None);
    }
    match ac_verify::verify(alloc, program, set, certificate) {
        Ok(verified) => told(alloc, "ok", counts(alloc, verified.counts.as_slice())?),
        Err(refused) => refusal(alloc, refused),
    }
}

fn counts(alloc: Global, list: &[u32]) -> Result<Value, AllocError> {
    let mut values = Vec::new(alloc);
    for count in list {
        values.push(Value::from(*count))?;
    }
    Ok(Value::Array(values))
}

/// The set that the text of a policy file selects, where the file has no patterns of its own and reads.
fn set_at(alloc: Global, ask: &Value) -> Result<Option<PolicySet>, AllocError> {
    let Some(text) = text_at(ask, "set") else {
        return Ok(None);
    };
    match read_policy_table(alloc, text.as_bytes()) {
        Ok(table) => Ok(Some(selected(alloc, table))),
        Err(TableFault::OutOfMemory) => Err(AllocError),
        Err(_) => Ok(None),
    }
}

fn selected(alloc: Global, table: PolicyTable) -> PolicySet {
    let PolicyTable {
        policies,
        roles,
        ..
    } = table;
    PolicySet {
        policies,
        roles,
        patterns: Items::new(alloc),
    }
}
