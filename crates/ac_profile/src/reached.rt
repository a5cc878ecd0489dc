//! That a path leads to a target, and nothing of its formula.
use crate::precondition::Precondition;
use ac_logic::{Change, Formula, Label};
use ac_shared::Shared;
use std::alloc::{AllocError, Global};

/// A path leads to the target.
#[derive(Drop)]
pub struct Reached;

impl Precondition for Reached {
    ghost stands = { λ made f. Unit {0} };

    fn of(alloc: Global, formula: Shared<Formula>) -> Result<Reached, AllocError> {
        Ok(Reached)
    }

    fn again(&self, alloc: Global) -> Result<Reached, AllocError> {
        Ok(Reached)
    }

    fn labelled(self, alloc: Global, label: Label) -> Result<Reached, AllocError> {
        Ok(Reached)
    }

    fn and(self, alloc: Global, other: Reached) -> Result<Reached, AllocError> {
        Ok(Reached)
    }

    fn implied_by(self, alloc: Global, premise: Shared<Formula>) -> Result<Reached, AllocError> {
        Ok(Reached)
    }

    fn after(self, alloc: Global, changes: &[Change]) -> Result<Reached, AllocError> {
        Ok(Reached)
    }
}
