//! How what stands behind a statement is joined with what is to be shown in it.
ghost use Rattle.std.specs.Prelude.{◌≡◌, IfOk, Option};
ghost use Rattle.ac_logic.specs.declared.formula.Formula.{Formula as AnyFormula};
ghost use Rattle.ac_conditions.specs.Goals.{conjoined as conjoined_formula, under as under_label};
ghost use Rattle.ac_conditions.specs.Tests.{labelled as labelled_formula};
ghost use Rattle.ac_preconditions.specs.Stands.{StandsIf};

use ac_logic::{Formula, Label, LabelKind};
use ac_profile::Precondition;
use ac_shared::Shared;
use ac_tree::NodeId;
use std::alloc::{AllocError, Global};

/// A formula with what it is for, and the node that it speaks of.
pub fn labelled(
    alloc: Global,
    kind: LabelKind,
    node: NodeId,
    formula: Shared<Formula>,
) -> Result<Shared<Formula>, AllocError>
    ensures { IfOk result (λ f. f ≡ labelled_formula kind node formula) }
{
    Shared::new(alloc, Formula::Lab(Label { kind, node }, formula))
}

/// Both, or the only one that there is.
pub fn conjoined<G: Precondition>(
    alloc: Global,
    left: Option<G>,
    right: Option<G>,
) -> Result<Option<G>, AllocError>
    ensures { IfOk result (λ made. (f g : Option AnyFormula) → StandsIf G.stands left f → StandsIf G.stands right g → StandsIf G.stands made (conjoined_formula f g)) }
{
    match left {
        None => Ok(right),
        Some(first) => match right {
            None => Ok(Some(first)),
            Some(second) => {
                let both = first.and(alloc, second)?;
                Ok(Some(both))
            }
        },
    }
}

/// What stands behind, under a labelled premise.
pub fn under<G: Precondition>(
    alloc: Global,
    kind: LabelKind,
    node: NodeId,
    premise: Shared<Formula>,
    behind: Option<G>,
) -> Result<Option<G>, AllocError>
    ensures { IfOk result (λ made. (Q : Option AnyFormula) → StandsIf G.stands behind Q → StandsIf G.stands made (under_label kind node premise Q)) }
{
    match behind {
        None => Ok(None),
        Some(goal) => {
            let first = labelled(alloc, kind, node, premise)?;
            let whole = goal.implied_by(alloc, first)?;
            Ok(Some(whole))
        }
    }
}
