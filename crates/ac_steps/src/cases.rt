//! Steps by cases of two compared terms.
ghost use Rattle.std.specs.Prelude.{◌≡◌, ℕ, List, [], ◌∷◌, ◌++◌, length, IfOk};
ghost use Rattle.ac_logic.specs.declared.formula.Formula.{Formula as AnyFormula, False as Falsity, Le as AtMost, Eq as Equal};
ghost use Rattle.ac_logic.specs.declared.formula.Formula.TheVariants.{Not};
ghost use Rattle.ac_steps.specs.declared.plan.Way.TheVariants.{Between, ByEquality, ByOrder, FromDenial};
ghost use Rattle.ac_steps.specs.Proofs.{IsBuilt, IsProof};
ghost use Rattle.ac_steps.specs.Ways.{apart, below};

use crate::comparisons::{apart, at_most, below, equal};
use crate::parts::{all_three, both, only};
use crate::rules::{absurd, cases, clash, equality, hypothesis_at, order};
use ac_logic::{Formula, Term};
use ac_proof::ProofTree;
use ac_shared::Shared;
use sqlite_items::Items;
use std::alloc::{AllocError, Global};

/// In two cases of their order. A place is that of the next hypothesis.
pub fn by_order(
    alloc: Global,
    s: &Shared<Term>,
    t: &Shared<Term>,
    goal: &Shared<Formula>,
    trees: Items<ProofTree>,
) -> Result<ProofTree, AllocError>
    requires { length trees ≡ 2 }
    ensures { IfOk result (λ tree. (place : ℕ) → IsBuilt place (ByOrder s.now t.now) goal.now trees tree) }
{
    let (first, second) = both(trees);
    let goal = goal.share()?;
    let either = order(alloc, s, t)?;
    let tree = cases(alloc, goal, either, first, second)?;
    Ok(tree)
}

/// `t + 1 <= s` from `not s <= t`: in the case `s <= t` they contradict.
pub fn from_denial(
    alloc: Global,
    place: usize,
    s: &Shared<Term>,
    t: &Shared<Term>,
    trees: Items<ProofTree>,
) -> Result<ProofTree, AllocError>
    requires { length trees ≡ 1 }
    ensures { IfOk result (IsBuilt place (FromDenial s.now t.now) (below t.now s.now) trees) }
{
    let contradiction = contradicted(alloc, place, s, t, only(trees))?;
    let goal = below(alloc, t, s)?;
    let first = absurd(alloc, goal.share()?, contradiction)?;
    let second = hypothesis_at(alloc, place, goal.share()?);
    let either = order(alloc, s, t)?;
    let tree = cases(alloc, goal, either, first, second)?;
    Ok(tree)
}

/// A denial of `s <= t` where that is the next hypothesis.
fn contradicted(
    alloc: Global,
    place: usize,
    s: &Shared<Term>,
    t: &Shared<Term>,
    denial: ProofTree,
) -> Result<ProofTree, AllocError>
    ensures { IfOk result (λ tree. (hs : List AnyFormula) → length hs ≡ place → IsProof (hs ++ AtMost s.now t.now ∷ []) (Not (AtMost s.now t.now)) denial → IsProof (hs ++ AtMost s.now t.now ∷ []) Falsity tree) }
{
    let assumed = hypothesis_at(alloc, place, at_most(alloc, s, t)?);
    let tree = clash(alloc, denial, assumed)?;
    Ok(tree)
}

/// In three cases of their equality.
pub fn by_equality(
    alloc: Global,
    place: usize,
    s: &Shared<Term>,
    t: &Shared<Term>,
    goal: &Shared<Formula>,
    trees: Items<ProofTree>,
) -> Result<ProofTree, AllocError>
    requires { length trees ≡ 3 }
    ensures { IfOk result (IsBuilt place (ByEquality s.now t.now) goal.now trees) }
{
    let (first, second, third) = all_three(trees);
    let goal = goal.share()?;
    let unequal = hypothesis_at(alloc, place, apart(alloc, s, t)?);
    let rest = cases(alloc, goal.share()?, unequal, second, third)?;
    let either = equality(alloc, s, t)?;
    let tree = cases(alloc, goal, either, first, rest)?;
    Ok(tree)
}

/// `s = t` where neither is below the other.
pub fn between(
    alloc: Global,
    place: usize,
    s: &Shared<Term>,
    t: &Shared<Term>,
    trees: Items<ProofTree>,
) -> Result<ProofTree, AllocError>
    requires { length trees ≡ 2 }
    ensures { IfOk result (IsBuilt place (Between s.now t.now) (Equal s.now t.now) trees) }
{
    let (first, second) = both(trees);
    let goal = equal(alloc, s, t)?;
    let falsity = Shared::new(alloc, Formula::False)?;
    let unequal = hypothesis_at(alloc, place, apart(alloc, s, t)?);
    let contradiction = cases(alloc, falsity, unequal, first, second)?;
    let rest = absurd(alloc, goal.share()?, contradiction)?;
    let same = hypothesis_at(alloc, place, goal.share()?);
    let either = equality(alloc, s, t)?;
    let tree = cases(alloc, goal, either, same, rest)?;
    Ok(tree)
}
