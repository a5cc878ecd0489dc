//! Proofs by their last step and its premises.
ghost use Rattle.std.specs.Prelude.{◌≡◌, [], ◌∷◌, IfOk};
ghost use Rattle.ac_steps.specs.Proofs.{IsMadeOf};

use ac_logic::Formula;
use ac_proof::{ProofTree, Rule};
use ac_shared::Shared;
use sqlite_items::Items;
use std::alloc::{AllocError, Global};

pub fn step(rule: Rule, goal: Shared<Formula>, premises: Items<ProofTree>) -> ProofTree
    ensures { IsMadeOf result rule goal premises }
{
    ProofTree {
        rule,
        goal,
        premises,
    }
}

pub fn one(alloc: Global, p: ProofTree) -> Result<Items<ProofTree>, AllocError>
    ensures { IfOk result (λ premises. premises ≡ p ∷ []) }
{
    let mut premises = Items::new(alloc);
    premises.push(p)?;
    Ok(premises)
}

pub fn two(alloc: Global, p: ProofTree, q: ProofTree) -> Result<Items<ProofTree>, AllocError>
    ensures { IfOk result (λ premises. premises ≡ p ∷ q ∷ []) }
{
    let mut premises = one(alloc, p)?;
    premises.push(q)?;
    Ok(premises)
}

pub fn three(
    alloc: Global,
    p: ProofTree,
    q: ProofTree,
    r: ProofTree,
) -> Result<Items<ProofTree>, AllocError>
    ensures { IfOk result (λ premises. premises ≡ p ∷ q ∷ r ∷ []) }
{
    let mut premises = two(alloc, p, q)?;
    premises.push(r)?;
    Ok(premises)
}
