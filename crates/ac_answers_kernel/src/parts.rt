//! Asks about parts of certificates.
ghost use Rattle.ac_tree.specs.StaticRules.{KeepsStaticRules};

use crate::part_reader::part_at;
use crate::policy_words::word_of;
use ac_answers_language::flow::pair_value;
use ac_answers_logic::proof_trees::path_list;
use ac_answers_policies::policies::{policy_at, program_at};
use ac_asks::{Answer, told};
use ac_kernel::{Refused, has_small_indexes};
use ac_policy::AnyPolicy;
use ac_proof::CertPart;
use ac_tree::{Pair, PolicyName, Program};
use serde_json::{Value, json};
use sqlite_items::Items;
use std::alloc::{AllocError, Global};

/// How many conditions of a program a part shows, or why it is refused.
pub fn verify_part(alloc: Global, ask: &Value) -> Answer {
    let Some(program) = program_at(alloc, ask)? else {
        return Ok(None)
    };
    let answer = verified(alloc, &program, ask);
    drop(program);
    answer
}

fn verified(alloc: Global, program: &Program, ask: &Value) -> Answer
    requires { KeepsStaticRules program.now }
{
    let Some(policy) = policy_at(alloc, ask)? else {
        return Ok(None)
    };
    let answer = verified_by(alloc, program, &policy, ask);
    drop(policy);
    answer
}

fn verified_by(alloc: Global, program: &Program, policy: &AnyPolicy, ask: &Value) -> Answer
    requires { KeepsStaticRules program.now }
{
    let Some(part) = part_at(alloc, ask)? else {
        return Ok(None)
    };
    let answer = verdict(alloc, program, policy, &part);
    drop(part);
    answer
}

fn verdict(alloc: Global, program: &Program, policy: &AnyPolicy, part: &CertPart) -> Answer
    requires { KeepsStaticRules program.now }
{
    if !has_small_indexes(part) {
        return Ok(None);
    }
    match ac_kernel::verify_part(alloc, program, policy, part) {
        Ok(count) => told(alloc, "ok", Value::from(count)),
        Err(refused) => refusal(alloc, refused),
    }
}

/// The answer that tells why a certificate, or a part of one, is refused.
pub(crate) fn refusal(alloc: Global, refused: Refused) -> Answer {
    match refused {
        Refused::Policies => told(alloc, "policies", Value::from(true)),
        Refused::Annotation { policy, index } => {
            told_of(alloc, policy, "annotation", Value::from(index))
        }
        Refused::Limit { which } => {
            let word = which.word();
            Ok(Some(json!(in alloc; {"limit": word})?))
        }
        Refused::Missing { policy, pair } => {
            told_of(alloc, policy, "missing", pair_value(alloc, pair)?)
        }
        Refused::Differs { policy, pair } => {
            told_of(alloc, policy, "differs", pair_value(alloc, pair)?)
        }
        Refused::Step { policy, pair, path } => step_refusal(alloc, policy, pair, &path),
        Refused::Extra { policy, index } => told_of(alloc, policy, "extra", Value::from(index)),
        Refused::OutOfMemory => Err(anyhow::Error::from(AllocError)),
    }
}

/// An answer with one member and the policy.
fn told_of(alloc: Global, policy: PolicyName, key: &str, value: Value) -> Answer {
    let policy = word_of(policy);
    Ok(Some(json!(in alloc; {key: value, "policy": policy})?))
}

fn step_refusal(alloc: Global, policy: PolicyName, pair: Pair, path: &Items<u32>) -> Answer {
    let policy = word_of(policy);
    let step = path_list(alloc, path.as_slice())?;
    let pair = pair_value(alloc, pair)?;
    Ok(Some(json!(in alloc; {"pair": pair, "policy": policy, "step": step})?))
}
