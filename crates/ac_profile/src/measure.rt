//! What is measured of a formula before it is made: its size and depth, or that it is too large.
//!
//! A formula only grows along a path: what labels it, joins it, implies it or changes it never makes it smaller. So nothing
//! more is measured of one that is larger than the limit.
ghost use Rattle.std.specs.Prelude.{IfOk};
ghost use Rattle.ac_logic.specs.declared.formula.Formula.{Formula as AnyFormula};
ghost use Rattle.ac_logic.specs.Patterns.{Conjunction};
ghost use Rattle.ac_profile.specs.Measure.{IsMeasure};
ghost use Rattle.ac_profile.specs.Profile.{IsProfile};

use crate::precondition::Precondition;
use crate::profile::Profile;
use ac_logic::{Change, Formula, Label};
use ac_shared::Shared;
use ac_tree::LimitKind;
use std::alloc::{AllocError, Global};

/// The profile of a formula, or that it is larger than the limit on the size of a condition.
#[derive(Drop)]
pub enum Measure {
    TooLarge,
    Known(Profile),
}

/// The measure of a formula with this profile.
#[tactic(auto, using(crate::proofs::Measures::above_limit))]
fn measured(profile: Profile) -> Measure
    ensures { (f : AnyFormula) → IsProfile profile f → IsMeasure result f }
{
    if profile.size() > LimitKind::Size.number() {
        return Measure::TooLarge;
    }
    Measure::Known(profile)
}

/// The measure of a conjunction, by the profile of its first part and the measure of its second.
fn joined(alloc: Global, first: Profile, other: Measure) -> Result<Measure, AllocError>
    ensures { IfOk result (λ made. (f g : AnyFormula) → IsProfile first f → IsMeasure other g → IsMeasure made (Conjunction f g)) }
{
    match other {
        Measure::TooLarge => Ok(Measure::TooLarge),
        Measure::Known(second) => {
            let both = first.and(alloc, second)?;
            Ok(measured(both))
        }
    }
}

impl Precondition for Measure {
    ghost stands = { IsMeasure };

    fn of(alloc: Global, formula: Shared<Formula>) -> Result<Measure, AllocError> {
        let profile = Profile::of(alloc, formula)?;
        Ok(measured(profile))
    }

    fn again(&self, alloc: Global) -> Result<Measure, AllocError> {
        match self {
            Measure::TooLarge => Ok(Measure::TooLarge),
            Measure::Known(profile) => {
                let copy = profile.again(alloc)?;
                Ok(Measure::Known(copy))
            }
        }
    }

    fn labelled(self, alloc: Global, label: Label) -> Result<Measure, AllocError> {
        match self {
            Measure::TooLarge => Ok(Measure::TooLarge),
            Measure::Known(profile) => {
                let whole = profile.labelled(alloc, label)?;
                Ok(measured(whole))
            }
        }
    }

    fn and(self, alloc: Global, other: Measure) -> Result<Measure, AllocError> {
        match self {
            Measure::TooLarge => Ok(Measure::TooLarge),
            Measure::Known(first) => joined(alloc, first, other),
        }
    }

    fn implied_by(self, alloc: Global, premise: Shared<Formula>) -> Result<Measure, AllocError> {
        match self {
            Measure::TooLarge => Ok(Measure::TooLarge),
            Measure::Known(profile) => {
                let whole = profile.implied_by(alloc, premise)?;
                Ok(measured(whole))
            }
        }
    }

    fn after(self, alloc: Global, changes: &[Change]) -> Result<Measure, AllocError> {
        match self {
            Measure::TooLarge => Ok(Measure::TooLarge),
            Measure::Known(profile) => {
                let changed = profile.after(alloc, changes)?;
                Ok(measured(changed))
            }
        }
    }
}
