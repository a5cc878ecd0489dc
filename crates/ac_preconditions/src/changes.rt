//! What a write changes, value and shadow at once.
ghost use Rattle.std.specs.Prelude.{◌≡◌, ◌∷◌, IfOk, Option};
ghost use Rattle.ac_logic.specs.declared.formula.Change.TheVariants as any_change;
ghost use Rattle.ac_logic.specs.declared.formula.Formula.{Formula as AnyFormula};
ghost use Rattle.ac_logic.specs.declared.formula.Sym.TheVariants as symbol;
ghost use Rattle.ac_logic.specs.Patterns.{Array, PutOf};
ghost use Rattle.ac_logic.specs.Substitution.{AreClosedChanges};
ghost use Rattle.ac_policy.specs.Sites.{site_at, scalar_write as written_scalar};
ghost use Rattle.ac_policy.specs.Terms.{term_of as expr_term, first_index as first, second_index as second};
ghost use Rattle.ac_conditions.specs.Preconditions.{before_changes as changes_before, variable as variable_term};
ghost use Rattle.ac_conditions.specs.Tests.{one_more as next_term};
ghost use Rattle.ac_preconditions.specs.Stands.{StandsIf};

use crate::aim::Aim;
use crate::sites::element_site;
use crate::test_formulas::{one_more, variable};
use ac_logic::{ArrayTerm, Change, Label, LabelKind, Sym, Term};
use ac_policy::{Policy, SiteKind, first_index, scalar_write, second_index, term_of};
use ac_profile::Precondition;
use ac_shared::Shared;
use ac_tree::{Expr, Index, Name, NodeId, Program};
use std::alloc::{AllocError, Global};

/// The change of a value, and then what a policy says of it.
fn with_effect(alloc: Global, write: Change, effect: Vec<Change>) -> Result<Vec<Change>, AllocError>
    ensures { IfOk result (λ cs. cs.items ≡ write ∷ effect.items) }
{
    let mut effect = effect;
    let mut changes = Vec::new(alloc);
    changes.push(write)?;
    changes.append(&mut effect)?;
    Ok(changes)
}

/// The changes of a write of a scalar.
fn scalar_changes<P: Policy>(
    alloc: Global,
    aim: &Aim<P>,
    node: NodeId,
    name: &Name,
    value: Shared<Term>,
) -> Result<Vec<Change>, AllocError>
    ensures { IfOk result (λ cs. cs.items ≡ any_change.Scalar (symbol.Value name.now) value ∷ P.effect_of aim.now.policy.now aim.now.program.now (written_scalar node name.now)) }
{
    let site = scalar_write(alloc, node, name)?;
    let effect = aim.policy.effect(alloc, aim.program, &site)?;
    let write = Change::Scalar(Sym::Value(name.clone()?), value);
    with_effect(alloc, write, effect)
}

/// The changes of an assignment to a scalar, and of the variable of a `for` where it is entered.
pub fn set_changes<P: Policy>(
    alloc: Global,
    value: &Expr,
    aim: &Aim<P>,
    node: NodeId,
    name: &Name,
) -> Result<Vec<Change>, AllocError>
    ensures changes { IfOk result (λ cs. cs.items ≡ any_change.Scalar (symbol.Value name.now) (expr_term aim.now.program.now value.now.kind) ∷ P.effect_of aim.now.policy.now aim.now.program.now (written_scalar node name.now)) }
    ensures closed { IfOk result (λ cs. AreClosedChanges cs.items) }
{
    let value = term_of(alloc, value, aim.program)?;
    scalar_changes(alloc, aim, node, name, value)
}

/// The changes of the variable of a `for` behind a turn.
pub fn turn_changes<P: Policy>(
    alloc: Global,
    aim: &Aim<P>,
    node: NodeId,
    name: &Name,
) -> Result<Vec<Change>, AllocError>
    ensures changes { IfOk result (λ cs. cs.items ≡ any_change.Scalar (symbol.Value name.now) (next_term (variable_term name.now)) ∷ P.effect_of aim.now.policy.now aim.now.program.now (written_scalar node name.now)) }
    ensures closed { IfOk result (λ cs. AreClosedChanges cs.items) }
{
    let variable = variable(alloc, name)?;
    let value = one_more(alloc, variable)?;
    scalar_changes(alloc, aim, node, name, value)
}

/// The array of a name after a write of an element.
fn written_array(
    alloc: Global,
    index: &Index,
    value: &Expr,
    program: &Program,
    name: &Name,
) -> Result<Shared<ArrayTerm>, AllocError>
    ensures { IfOk result (λ a. a ≡ PutOf (Array (symbol.Value name.now)) (first program.now index.now) (second program.now index.now) (expr_term program.now value.now.kind)) }
{
    let array = Shared::new(alloc, ArrayTerm::Sym(Sym::Value(name.clone()?)))?;
    let i = first_index(alloc, index, program)?;
    let j = second_index(alloc, index, program)?;
    let value = term_of(alloc, value, program)?;
    Shared::new(alloc, ArrayTerm::Put(array, i, j, value))
}

/// The changes of an assignment to an element.
fn element_changes<P: Policy>(
    alloc: Global,
    index: &Index,
    value: &Expr,
    aim: &Aim<P>,
    node: NodeId,
    name: &Name,
) -> Result<Vec<Change>, AllocError>
    ensures { IfOk result (λ cs. cs.items ≡ any_change.Array (symbol.Value name.now) (PutOf (Array (symbol.Value name.now)) (first aim.now.program.now index.now) (second aim.now.program.now index.now) (expr_term aim.now.program.now value.now.kind)) ∷ P.effect_of aim.now.policy.now aim.now.program.now (site_at node SiteKind.Write name.now (first aim.now.program.now index.now) (second aim.now.program.now index.now))) }
{
    let site = element_site(alloc, index, aim.program, node, name, SiteKind::Write)?;
    let effect = aim.policy.effect(alloc, aim.program, &site)?;
    let array = written_array(alloc, index, value, aim.program, name)?;
    let write = Change::Array(Sym::Value(name.clone()?), array);
    with_effect(alloc, write, effect)
}

/// The changes of an assignment to an element, which put in nothing loose.
pub fn put_changes<P: Policy>(
    alloc: Global,
    index: &Index,
    value: &Expr,
    aim: &Aim<P>,
    node: NodeId,
    name: &Name,
) -> Result<Vec<Change>, AllocError>
    ensures changes { IfOk result (λ cs. cs.items ≡ any_change.Array (symbol.Value name.now) (PutOf (Array (symbol.Value name.now)) (first aim.now.program.now index.now) (second aim.now.program.now index.now) (expr_term aim.now.program.now value.now.kind)) ∷ P.effect_of aim.now.policy.now aim.now.program.now (site_at node SiteKind.Write name.now (first aim.now.program.now index.now) (second aim.now.program.now index.now))) }
    ensures closed { IfOk result (λ cs. AreClosedChanges cs.items) }
{
    element_changes(alloc, index, value, aim, node, name)
}

/// What stands behind an assignment, before it.
pub fn before_changes<G: Precondition>(
    alloc: Global,
    node: NodeId,
    changes: &[Change],
    behind: Option<G>,
) -> Result<Option<G>, AllocError>
    requires { AreClosedChanges changes.now }
    ensures { IfOk result (λ made. (Q : Option AnyFormula) → StandsIf G.stands behind Q → StandsIf G.stands made (changes_before node changes.now Q)) }
{
    match behind {
        None => Ok(None),
        Some(goal) => {
            let changed = goal.after(alloc, changes)?;
            let kind = LabelKind::Set;
            let whole = changed.labelled(alloc, Label { kind, node })?;
            Ok(Some(whole))
        }
    }
}
