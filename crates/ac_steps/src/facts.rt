//! Plans by one `linear` step from facts whose differences contradict.
ghost use Rattle.std.specs.Prelude.{◌≡◌, ℕ, ◌<◌, ◌^◌, List, [], ◌∷◌, Some, length, map, IfOk};
ghost use Rattle.ac_logic.specs.declared.formula.Term.TheVariants.{Sub};
ghost use Rattle.ac_logic.specs.declared.formula.Formula.{Formula as AnyFormula, False as Falsity, Le as AtMost};
ghost use Rattle.ac_logic.specs.Readable.{IsReadableTerm};
ghost use Rattle.ac_linear.specs.declared.linear.Linear.{Linear as AnyLinear};
ghost use Rattle.ac_linear.specs.declared.linear.Part.{Part as AnyPart};
ghost use Rattle.ac_linear.specs.NormalForm.{normal_of};
ghost use Rattle.ac_diff.specs.declared.diff.Diff.{Diff as AnyDiff};
ghost use Rattle.ac_proof.specs.Linear.{next};
ghost use Rattle.ac_steps.specs.FactDifferences.{Contradict, Say, once};
ghost use Rattle.ac_steps.specs.Plans.{AllShow, Shows, shown_by};

use crate::comparisons::at_most;
use crate::plan::{Plan, Way};
use ac_logic::{Formula, Term};
use ac_shared::Shared;
use sqlite_items::Items;
use std::alloc::{AllocError, Global};

/// False from facts that contradict.
pub fn contradiction(alloc: Global, facts: Items<Shared<Plan>>) -> Result<Shared<Plan>, AllocError>
    ensures shown { IfOk result (λ plan. shown_by plan ≡ Falsity) }
    ensures shows { IfOk result (λ plan. (hs : List AnyFormula) (sides : ℕ → List AnyPart) (ds : List AnyDiff) → AllShow hs [] facts → Say sides (map shown_by facts) ds → Contradict ds → length facts < 2 ^ 32 → Shows hs plan) }
{
    let factors = once_each(alloc, facts.as_slice())?;
    let falsity = Shared::new(alloc, Formula::False)?;
    let plan = Plan::new(alloc, Way::Combination(factors), falsity, facts)?;
    Ok(plan)
}

/// `s <= t` from facts that contradict together with its denial, `t + 1 <= s`.
pub fn comparison(
    alloc: Global,
    s: &Shared<Term>,
    t: &Shared<Term>,
    facts: Items<Shared<Plan>>,
) -> Result<Shared<Plan>, AllocError>
    ensures shown { IfOk result (λ plan. shown_by plan ≡ AtMost s.now t.now) }
    ensures shows { IfOk result (λ plan. (hs : List AnyFormula) (sides : ℕ → List AnyPart) (ds : List AnyDiff) → IsReadableTerm s.now → IsReadableTerm t.now → AllShow hs [] facts → Say sides (AtMost (next t.now) s.now ∷ map shown_by facts) ds → Contradict ds → length facts < 2 ^ 32 → Shows hs plan) }
{
    let factors = behind(alloc, 1, facts.as_slice())?;
    let goal = at_most(alloc, s, t)?;
    let plan = Plan::new(alloc, Way::Combination(factors), goal, facts)?;
    Ok(plan)
}

/// `s <= t` from facts that contradict without its denial.
pub fn comparison_of_contradiction(
    alloc: Global,
    s: &Shared<Term>,
    t: &Shared<Term>,
    facts: Items<Shared<Plan>>,
) -> Result<Shared<Plan>, AllocError>
    ensures shown { IfOk result (λ plan. shown_by plan ≡ AtMost s.now t.now) }
    ensures shows { IfOk result (λ plan. (hs : List AnyFormula) (sides : ℕ → List AnyPart) (ds : List AnyDiff) (form : AnyLinear) → IsReadableTerm s.now → IsReadableTerm t.now → normal_of (Sub (next t.now) s.now) ≡ Some form → AllShow hs [] facts → Say sides (map shown_by facts) ds → Contradict ds → length facts < 2 ^ 32 → Shows hs plan) }
{
    let factors = behind(alloc, 0, facts.as_slice())?;
    let goal = at_most(alloc, s, t)?;
    let plan = Plan::new(alloc, Way::Combination(factors), goal, facts)?;
    Ok(plan)
}

/// The factor 1 for each fact.
fn once_each(alloc: Global, facts: &[Shared<Plan>]) -> Result<Items<u64>, AllocError>
    ensures { IfOk result (λ factors. factors ≡ once facts.now) }
{
    let mut factors = Items::new(alloc);
    for _fact in facts {
        factors.push(1)?;
    }
    Ok(factors)
}

/// A factor, and behind it 1 for each fact.
fn behind(alloc: Global, first: u64, facts: &[Shared<Plan>]) -> Result<Items<u64>, AllocError>
    ensures { IfOk result (λ factors. factors ≡ first ∷ once facts.now) }
{
    let mut factors = Items::new(alloc);
    factors.push(first)?;
    factors.append(once_each(alloc, facts)?)?;
    Ok(factors)
}
