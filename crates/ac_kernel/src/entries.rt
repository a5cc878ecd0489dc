//! Whether the entries of a part show the conditions.
ghost use Rattle.std.specs.Prelude.{◌≡◌, ◌↔◌, ◌<◌, IsTrue, OnOk, IfErr, All, length};
ghost use Rattle.std.specs.Option.{option_copied, IfSome};
ghost use Rattle.ac_proof.specs.Checked.{HasFewPremises};
ghost use Rattle.ac_kernel.specs.Entries.{IsEntryOf, Shows, IsShown, IsEntryRefusal, AreShown, IsFirstRefused};

use crate::pairs::{is_same_pair, is_same_policy};
use crate::refused::Refused;
use ac_logic::{Condition, same};
use ac_proof::{CheckFault, ProvedCondition, check_proof};
use sqlite_items::Items;
use std::alloc::Global;

/// Goes through the conditions in order, and compares each with the entry at its place and checks the entry's proof.
pub fn check_entries(
    alloc: Global,
    conditions: &[Condition],
    entries: &[ProvedCondition],
) -> Result<(), Refused>
    requires { All (λ e. HasFewPremises e.proof) entries.now }
    ensures shown { OnOk result (AreShown conditions.now entries.now (length conditions.now)) }
    ensures refused { IfErr result (IsFirstRefused conditions.now entries.now) }
{
    for i in 0..conditions.len() {
        check_entry(alloc, &conditions[i], entries.get(i))?;
    }
    Ok(())
}

fn check_entry(
    alloc: Global,
    condition: &Condition,
    entry: Option<&ProvedCondition>,
) -> Result<(), Refused>
    requires { IfSome (option_copied entry) (λ e. HasFewPremises e.proof) }
    ensures shown { OnOk result (IsShown condition.now (option_copied entry.entry)) }
    ensures refused { IfErr result (IsEntryRefusal condition.now (option_copied entry.entry)) }
{
    if let Some(entry) = entry {
        if is_entry_of(condition, entry) {
            return check_formula(alloc, condition, entry);
        }
    }
    Err(Refused::Missing {
        policy: condition.policy,
        pair: condition.pair,
    })
}

fn is_entry_of(condition: &Condition, entry: &ProvedCondition) -> bool
    ensures { IsTrue result ↔ IsEntryOf condition.now entry.now }
{
    is_same_policy(entry.condition.policy, condition.policy)
        && is_same_pair(entry.condition.pair, condition.pair)
}

/// Compares the formula of an entry of the condition, and then checks the proof.
fn check_formula(
    alloc: Global,
    condition: &Condition,
    entry: &ProvedCondition,
) -> Result<(), Refused>
    requires of { IsEntryOf condition.now entry.now }
    requires few { HasFewPremises entry.now.proof }
    ensures shown { OnOk result (Shows condition.now entry.now) }
    ensures refused { IfErr result (IsEntryRefusal condition.now (Some entry.now)) }
{
    if same(entry.condition.formula.get(), condition.formula.get()) {
        return check_steps(alloc, condition, entry);
    }
    Err(Refused::Differs {
        policy: condition.policy,
        pair: condition.pair,
    })
}

/// Checks the proof of an entry that has the formula of the condition. The proof has no hypotheses and ends in that formula.
fn check_steps(alloc: Global, condition: &Condition, entry: &ProvedCondition) -> Result<(), Refused>
    requires of { IsEntryOf condition.now entry.now }
    requires formula { entry.now.condition.formula ≡ condition.now.formula }
    requires few { HasFewPremises entry.now.proof }
    ensures shown { OnOk result (Shows condition.now entry.now) }
    ensures refused { IfErr result (IsEntryRefusal condition.now (Some entry.now)) }
{
    if !same(entry.proof.goal.get(), condition.formula.get()) {
        return Err(refused_step(condition, Items::new(alloc)));
    }
    match check_proof(alloc, &[], &entry.proof) {
        Ok(()) => Ok(()),
        Err(CheckFault::Step(at)) => Err(refused_step(condition, at.path)),
        Err(CheckFault::OutOfMemory) => Err(Refused::OutOfMemory),
    }
}

fn refused_step(condition: &Condition, path: Items<u32>) -> Refused
    ensures { result ≡ Refused.Step condition.now.policy condition.now.pair path }
{
    Refused::Step {
        policy: condition.policy,
        pair: condition.pair,
        path,
    }
}
