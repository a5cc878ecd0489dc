//! What the premises of a step may use besides its hypotheses.
ghost use Rattle.std.specs.Prelude.{◌≡◌, [], ◌∷◌, map, slice_index_or, IfOk};
ghost use Rattle.std.specs.Option.{option_to_list};
ghost use Rattle.ac_logic.specs.declared.formula.Formula.TheVariants.{Not};
ghost use Rattle.ac_proof.specs.Rules.{antecedent, denied, sides};
ghost use Rattle.ac_proof.specs.Checked.{goal_of};
ghost use Rattle.ac_proof.specs.Walk.{added};

use crate::rule::Rule;
use crate::tree::ProofTree;
use ac_logic::Formula;
use ac_shared::Shared;
use std::alloc::{AllocError, Global};

/// What premise number i may use besides the hypotheses, if the rule adds anything for it.
pub fn added_to(
    alloc: Global,
    rule: &Rule,
    goal: &Shared<Formula>,
    premises: &[ProofTree],
    i: usize,
) -> Result<Option<Shared<Formula>>, AllocError>
    ensures { IfOk result (λ more. option_to_list more ≡ added rule.now goal.now (map goal_of premises.now) i) }
{
    match rule {
        Rule::OrElim => side_of(premises, i),
        Rule::ImpliesIntro => antecedent_of(goal.get(), i),
        Rule::NotIntro => denied_by(goal.get(), i),
        Rule::Classical => denial_of(alloc, goal, i),
        _ => Ok(None),
    }
}

/// For `or-elim`: each side of the disjunction that the first premise shows, for the second and third premise.
fn side_of(premises: &[ProofTree], i: usize) -> Result<Option<Shared<Formula>>, AllocError>
    ensures { IfOk result (λ more. option_to_list more ≡ slice_index_or (sides (map goal_of premises.now)) i []) }
{
    match premises {
        [] => Ok(None),
        [p, ..] => side_in(p.goal.get(), i),
    }
}

fn side_in(formula: &Formula, i: usize) -> Result<Option<Shared<Formula>>, AllocError>
    ensures { IfOk result (λ more. option_to_list more ≡ slice_index_or (sides (formula.now ∷ [])) i []) }
{
    let Formula::Or(a, b) = formula else {
        return Ok(None)
    };
    if i == 1 {
        return Ok(Some(a.share()?));
    }
    if i == 2 {
        return Ok(Some(b.share()?));
    }
    Ok(None)
}

/// For `implies-intro`: what the goal supposes.
fn antecedent_of(goal: &Formula, i: usize) -> Result<Option<Shared<Formula>>, AllocError>
    ensures { IfOk result (λ more. option_to_list more ≡ slice_index_or (antecedent goal.now) i []) }
{
    let Formula::Implies(a, _) = goal else {
        return Ok(None)
    };
    if i > 0 {
        return Ok(None);
    }
    Ok(Some(a.share()?))
}

/// For `not-intro`: what the goal denies.
fn denied_by(goal: &Formula, i: usize) -> Result<Option<Shared<Formula>>, AllocError>
    ensures { IfOk result (λ more. option_to_list more ≡ slice_index_or (denied goal.now) i []) }
{
    let Formula::Not(a) = goal else {
        return Ok(None)
    };
    if i > 0 {
        return Ok(None);
    }
    Ok(Some(a.share()?))
}

/// For `classical`: the denial of the goal.
fn denial_of(
    alloc: Global,
    goal: &Shared<Formula>,
    i: usize,
) -> Result<Option<Shared<Formula>>, AllocError>
    ensures { IfOk result (λ more. option_to_list more ≡ slice_index_or ((Not goal.now ∷ []) ∷ []) i []) }
{
    if i > 0 {
        return Ok(None);
    }
    let denial = Shared::new(alloc, Formula::Not(goal.share()?))?;
    Ok(Some(denial))
}
