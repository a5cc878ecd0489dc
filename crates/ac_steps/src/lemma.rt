//! A step by a formula that is shown first.
ghost use Rattle.std.specs.Prelude.{◌≡◌, ℕ, length, IfOk};
ghost use Rattle.ac_steps.specs.declared.plan.Way.TheVariants.{Lemma};
ghost use Rattle.ac_steps.specs.Proofs.{IsBuilt};

use crate::parts::both;
use crate::rules::{applied, supposing};
use ac_logic::Formula;
use ac_proof::ProofTree;
use ac_shared::Shared;
use sqlite_items::Items;
use std::alloc::{AllocError, Global};

/// The goal from what the first tree shows, which the second may suppose.
pub fn by_lemma(
    alloc: Global,
    goal: &Shared<Formula>,
    trees: Items<ProofTree>,
) -> Result<ProofTree, AllocError>
    requires { length trees ≡ 2 }
    ensures { IfOk result (λ tree. (place : ℕ) → IsBuilt place Lemma goal.now trees tree) }
{
    let (shown, rest) = both(trees);
    let goal = goal.share()?;
    let implication = Shared::new(alloc, Formula::Implies(shown.goal.share()?, goal.share()?))?;
    let supposing = supposing(alloc, implication, rest)?;
    let tree = applied(alloc, goal, supposing, shown)?;
    Ok(tree)
}
