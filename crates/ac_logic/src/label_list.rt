//! The labels of a formula.
ghost use Rattle.std.specs.Prelude.{◌≡◌, ◌++◌, IfOk};
ghost use Rattle.ac_logic.specs.Labels.{labels_of};

use crate::formula::Formula;
use crate::label::Label;
use std::alloc::{AllocError, Global};

/// All labels in preorder, repeats kept.
pub fn labels(alloc: Global, formula: &Formula) -> Result<Vec<Label>, AllocError>
    ensures { IfOk result (λ all. all.items ≡ labels_of formula.now) }
{
    let mut all = Vec::new(alloc);
    push_labels(formula, &mut all)?;
    Ok(all)
}

fn push_labels(formula: &Formula, all: &mut Vec<Label>) -> Result<(), AllocError>
    ensures { IfOk result (λ _. all.new.items ≡ all.old.items ++ labels_of formula.now) }
{
    match formula {
        Formula::True => Ok(()),
        Formula::False => Ok(()),
        Formula::Le(_, _) => Ok(()),
        Formula::Eq(_, _) => Ok(()),
        Formula::Not(f) => push_labels(f.get(), all),
        Formula::And(f, g) => {
            push_labels(f.get(), all)?;
            push_labels(g.get(), all)
        }
        Formula::Or(f, g) => {
            push_labels(f.get(), all)?;
            push_labels(g.get(), all)
        }
        Formula::Implies(f, g) => {
            push_labels(f.get(), all)?;
            push_labels(g.get(), all)
        }
        Formula::All(f) => push_labels(f.get(), all),
        Formula::Lab(l, f) => {
            all.push(*l)?;
            push_labels(f.get(), all)
        }
    }
}
