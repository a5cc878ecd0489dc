//! What is made along a path: a precondition itself, or what is to be known of it.
ghost use Rattle.std.specs.Prelude.{◌≡◌, IfOk};
ghost use Rattle.ac_logic.specs.declared.formula.Formula.{Formula as AnyFormula};
ghost use Rattle.ac_logic.specs.Patterns.{Conjunction, Implication, Labelled};
ghost use Rattle.ac_logic.specs.Substitution.{formula_after, AreClosedChanges};

use ac_logic::{Change, Formula, Label, substitute};
use ac_shared::Shared;
use std::alloc::{AllocError, Global};

/// A precondition, or what is to be known of it, made from its end.
pub trait Precondition: Drop {
    /// Which formula a value stands for.
    ghost stands: { Self → AnyFormula → Type 0 };

    fn of(alloc: Global, formula: Shared<Formula>) -> Result<Self, AllocError>
        ensures { IfOk result (λ made. stands made formula) };

    fn again(&self, alloc: Global) -> Result<Self, AllocError>
        ensures { IfOk result (λ made. (f : AnyFormula) → stands self.now f → stands made f) };

    fn labelled(self, alloc: Global, label: Label) -> Result<Self, AllocError>
        ensures { IfOk result (λ made. (f : AnyFormula) → stands self f → stands made (Labelled label f)) };

    fn and(self, alloc: Global, other: Self) -> Result<Self, AllocError>
        ensures { IfOk result (λ made. (f g : AnyFormula) → stands self f → stands other g → stands made (Conjunction f g)) };

    fn implied_by(self, alloc: Global, premise: Shared<Formula>) -> Result<Self, AllocError>
        ensures { IfOk result (λ made. (f : AnyFormula) → stands self f → stands made (Implication premise f)) };

    fn after(self, alloc: Global, changes: &[Change]) -> Result<Self, AllocError>
        requires { AreClosedChanges changes.now }
        ensures { IfOk result (λ made. (f : AnyFormula) → stands self f → stands made (formula_after changes.now f)) };
}

/// A precondition as a formula.
#[derive(Drop)]
pub struct Made {
    pub formula: Shared<Formula>,
}

impl Precondition for Made {
    ghost stands = { λ made f. made.formula ≡ f };

    fn of(alloc: Global, formula: Shared<Formula>) -> Result<Made, AllocError> {
        Ok(Made { formula })
    }

    fn again(&self, alloc: Global) -> Result<Made, AllocError> {
        let formula = self.formula.share()?;
        Ok(Made { formula })
    }

    fn labelled(self, alloc: Global, label: Label) -> Result<Made, AllocError> {
        let formula = Shared::new(alloc, Formula::Lab(label, self.formula))?;
        Ok(Made { formula })
    }

    fn and(self, alloc: Global, other: Made) -> Result<Made, AllocError> {
        let formula = Shared::new(alloc, Formula::And(self.formula, other.formula))?;
        Ok(Made { formula })
    }

    fn implied_by(self, alloc: Global, premise: Shared<Formula>) -> Result<Made, AllocError> {
        let formula = Shared::new(alloc, Formula::Implies(premise, self.formula))?;
        Ok(Made { formula })
    }

    fn after(self, alloc: Global, changes: &[Change]) -> Result<Made, AllocError> {
        let formula = substitute(alloc, &self.formula, changes)?;
        Ok(Made { formula })
    }
}
