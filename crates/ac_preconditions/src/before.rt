//! What has to hold before a statement, made backwards from what stands behind it up to the next cut.
ghost use Rattle.std.specs.Prelude.{◌≡◌, IfOk, Option};
ghost use Rattle.ac_logic.specs.declared.formula.Formula.{Formula as AnyFormula};
ghost use Rattle.ac_logic.specs.declared.formula.Formula.TheVariants as any_formula;
ghost use Rattle.ac_logic.specs.Patterns.{Negation};
ghost use Rattle.ac_tree.specs.declared.program.StmtKind.TheVariants as AnyStmt;
ghost use Rattle.ac_policy.specs.Terms.{term_of as expr_term};
ghost use Rattle.ac_conditions.specs.Goals.{conjoined as conjoined_formula, under as under_label};
ghost use Rattle.ac_conditions.specs.Part.{facts_at, is_loop, is_after};
ghost use Rattle.ac_conditions.specs.Preconditions.{joined as joined_facts, past_barrier as behind_barrier, scalar_changes, element_changes, before_changes as changes_before, set_goal as goal_of_set, put_goal as goal_of_put, ends_goal as goal_of_ends, while_entry as entry_of_while, while_keep as keep_of_while, for_entry as entry_of_for, for_keep as keep_of_for, before, variable as variable_term};
ghost use Rattle.ac_conditions.specs.Tests.{labelled as labelled_formula, formula_of as test_formula};
ghost use Rattle.ac_preconditions.specs.Aimed.{part_at};
ghost use Rattle.ac_preconditions.specs.Barriers.{AreMarked};
ghost use Rattle.ac_preconditions.specs.Stands.{StandsIf};

use crate::aim::{Aim, is_barrier, is_entry, is_keep, is_site};
use crate::barriers::has_barrier;
use crate::changes::{before_changes, put_changes, set_changes, turn_changes};
use crate::facts::{facts_behind, joined, loop_facts};
use crate::goals::{cond_goal, element_goal, expr_goals, index_goals, scalar_goal, two_goals};
use crate::joins::{conjoined, under};
use crate::test_formulas::{formula_of, negation, variable};
use ac_logic::{Annotation, Formula, Label, LabelKind};
use ac_policy::{Policy, SiteKind, term_of};
use ac_profile::Precondition;
use ac_shared::Shared;
use ac_tree::{Cond, Expr, Index, Name, NodeId, Program};
use std::alloc::{AllocError, Global};

/// A goal of facts, with its label.
fn goal_of<G: Precondition>(
    alloc: Global,
    kind: LabelKind,
    node: NodeId,
    facts: Shared<Formula>,
) -> Result<G, AllocError>
    ensures { IfOk result (λ made. G.stands made (labelled_formula kind node facts)) }
{
    let goal = G::of(alloc, facts)?;
    goal.labelled(alloc, Label { kind, node })
}

/// The invariant of a loop, its facts joined.
fn invariant(
    alloc: Global,
    annotations: &[Annotation],
    node: NodeId,
) -> Result<Shared<Formula>, AllocError>
    ensures { IfOk result (λ f. f ≡ joined_facts (facts_at (is_loop node) annotations.now)) }
{
    let facts = loop_facts(alloc, annotations, node)?;
    joined(alloc, facts.as_slice())
}

/// The goal where a `while` is entered.
pub fn while_entry<P: Policy, G: Precondition>(
    alloc: Global,
    aim: &Aim<P>,
    node: NodeId,
) -> Result<Option<G>, AllocError>
    ensures { IfOk result (λ made. StandsIf G.stands made (entry_of_while aim.now.program.now (part_at P.need_of P.effect_of P.known_of aim.now) aim.now.target node)) }
{
    if !is_entry(aim.target, node) {
        return Ok(None);
    }
    let facts = invariant(alloc, aim.annotations, node)?;
    let goal = goal_of(alloc, LabelKind::Entry, node, facts)?;
    Ok(Some(goal))
}

/// The goal behind a turn of a `while`.
pub fn while_keep<P: Policy, G: Precondition>(
    alloc: Global,
    aim: &Aim<P>,
    node: NodeId,
) -> Result<Option<G>, AllocError>
    ensures { IfOk result (λ made. StandsIf G.stands made (keep_of_while aim.now.program.now (part_at P.need_of P.effect_of P.known_of aim.now) aim.now.target node)) }
{
    if !is_keep(aim.target, node) {
        return Ok(None);
    }
    let facts = invariant(alloc, aim.annotations, node)?;
    let goal = goal_of(alloc, LabelKind::Keep, node, facts)?;
    Ok(Some(goal))
}

/// The goal where a `for` is entered: its invariant after the first write of its variable.
fn for_entry<P: Policy, G: Precondition>(
    alloc: Global,
    lo: &Expr,
    aim: &Aim<P>,
    node: NodeId,
    name: &Name,
) -> Result<Option<G>, AllocError>
    ensures { IfOk result (λ made. StandsIf G.stands made (entry_of_for aim.now.program.now (part_at P.need_of P.effect_of P.known_of aim.now) aim.now.target node name.now lo.now)) }
{
    if !is_entry(aim.target, node) {
        return Ok(None);
    }
    let facts = invariant(alloc, aim.annotations, node)?;
    let changes = set_changes(alloc, lo, aim, node, name)?;
    let goal = G::of(alloc, facts)?;
    let changed = goal.after(alloc, changes.as_slice())?;
    let kind = LabelKind::Entry;
    let whole = changed.labelled(alloc, Label { kind, node })?;
    Ok(Some(whole))
}

/// The goal behind a turn of a `for`: its invariant after the next write of its variable.
pub fn for_keep<P: Policy, G: Precondition>(
    alloc: Global,
    aim: &Aim<P>,
    node: NodeId,
    name: &Name,
) -> Result<Option<G>, AllocError>
    ensures { IfOk result (λ made. StandsIf G.stands made (keep_of_for aim.now.program.now (part_at P.need_of P.effect_of P.known_of aim.now) aim.now.target node name.now)) }
{
    if !is_keep(aim.target, node) {
        return Ok(None);
    }
    let facts = invariant(alloc, aim.annotations, node)?;
    let changes = turn_changes(alloc, aim, node, name)?;
    let goal = G::of(alloc, facts)?;
    let changed = goal.after(alloc, changes.as_slice())?;
    let kind = LabelKind::Keep;
    let whole = changed.labelled(alloc, Label { kind, node })?;
    Ok(Some(whole))
}

/// What stands behind a statement: where a barrier stands there, a path ends at it.
pub fn past_barrier<P: Policy, G: Precondition>(
    alloc: Global,
    aim: &Aim<P>,
    node: NodeId,
    behind: Option<G>,
) -> Result<Option<G>, AllocError>
    requires { AreMarked aim.now.annotations.now aim.now.barriers.now }
    ensures { IfOk result (λ made. (Q : Option AnyFormula) → StandsIf G.stands behind Q → StandsIf G.stands made (behind_barrier aim.now.target node (facts_at (is_after node) aim.now.annotations.now) Q)) }
{
    if !has_barrier(aim, node) {
        return Ok(behind);
    }
    if !is_barrier(aim.target, node) {
        return Ok(None);
    }
    let facts = facts_behind(alloc, aim.annotations, node)?;
    let whole = joined(alloc, facts.as_slice())?;
    let goal = goal_of(alloc, LabelKind::Barrier, node, whole)?;
    Ok(Some(goal))
}

/// The goals of the sites of an assignment to a scalar.
fn set_goal<P: Policy, G: Precondition>(
    alloc: Global,
    value: &Expr,
    aim: &Aim<P>,
    node: NodeId,
    name: &Name,
) -> Result<Option<G>, AllocError>
    ensures { IfOk result (λ made. StandsIf G.stands made (goal_of_set aim.now.program.now (part_at P.need_of P.effect_of P.known_of aim.now) aim.now.target node name.now value.now)) }
{
    let reads = expr_goals(alloc, value, aim, None)?;
    let kind = SiteKind::Write;
    scalar_goal(alloc, node, name, kind, aim, reads)
}

/// The goals of the sites of an assignment to an element.
fn put_goal<P: Policy, G: Precondition>(
    alloc: Global,
    index: &Index,
    value: &Expr,
    aim: &Aim<P>,
    node: NodeId,
    name: &Name,
) -> Result<Option<G>, AllocError>
    ensures { IfOk result (λ made. StandsIf G.stands made (goal_of_put aim.now.program.now (part_at P.need_of P.effect_of P.known_of aim.now) aim.now.target node name.now index.now value.now)) }
{
    let last = expr_goals(alloc, value, aim, None)?;
    let reads = index_goals(alloc, index, aim, last)?;
    let kind = SiteKind::Write;
    element_goal(alloc, node, name, index, kind, aim, reads)
}

/// The goals of the sites of the ends of a `for`.
fn ends_goal<P: Policy, G: Precondition>(
    alloc: Global,
    lo: &Expr,
    hi: &Expr,
    aim: &Aim<P>,
) -> Result<Option<G>, AllocError>
    ensures { IfOk result (λ made. StandsIf G.stands made (goal_of_ends aim.now.program.now (part_at P.need_of P.effect_of P.known_of aim.now) aim.now.target lo.now hi.now)) }
{
    two_goals(alloc, lo, hi, aim)
}

/// What has to hold before a `use`.
pub fn before_use<P: Policy, G: Precondition>(
    alloc: Global,
    aim: &Aim<P>,
    node: NodeId,
    name: &Name,
    role: &Name,
    behind: Option<G>,
) -> Result<Option<G>, AllocError>
    ensures { IfOk result (λ made. (Q : Option AnyFormula) → StandsIf G.stands behind Q → StandsIf G.stands made (before aim.now.program.now (part_at P.need_of P.effect_of P.known_of aim.now) aim.now.target node (AnyStmt.Hand name.now role.now) Q)) }
{
    if !is_site(aim.target, node) {
        return Ok(behind);
    }
    let role = role.clone()?;
    let kind = SiteKind::Hand { role };
    scalar_goal(alloc, node, name, kind, aim, behind)
}

/// What stands behind an assignment to a scalar, before it.
fn behind_set<P: Policy, G: Precondition>(
    alloc: Global,
    value: &Expr,
    aim: &Aim<P>,
    node: NodeId,
    name: &Name,
    behind: Option<G>,
) -> Result<Option<G>, AllocError>
    ensures { IfOk result (λ made. (Q : Option AnyFormula) → StandsIf G.stands behind Q → StandsIf G.stands made (changes_before node (scalar_changes aim.now.program.now (part_at P.need_of P.effect_of P.known_of aim.now) node name.now (expr_term aim.now.program.now value.now.kind)) Q)) }
{
    if behind.is_none() {
        return Ok(behind);
    }
    let changes = set_changes(alloc, value, aim, node, name)?;
    before_changes(alloc, node, changes.as_slice(), behind)
}

/// What stands behind an assignment to an element, before it.
fn behind_put<P: Policy, G: Precondition>(
    alloc: Global,
    index: &Index,
    value: &Expr,
    aim: &Aim<P>,
    node: NodeId,
    name: &Name,
    behind: Option<G>,
) -> Result<Option<G>, AllocError>
    ensures { IfOk result (λ made. (Q : Option AnyFormula) → StandsIf G.stands behind Q → StandsIf G.stands made (changes_before node (element_changes aim.now.program.now (part_at P.need_of P.effect_of P.known_of aim.now) node name.now index.now (expr_term aim.now.program.now value.now.kind)) Q)) }
{
    if behind.is_none() {
        return Ok(behind);
    }
    let changes = put_changes(alloc, index, value, aim, node, name)?;
    before_changes(alloc, node, changes.as_slice(), behind)
}

/// What has to hold where a test holds.
pub fn where_it_holds<G: Precondition>(
    alloc: Global,
    test: &Cond,
    program: &Program,
    node: NodeId,
    goal: Option<G>,
) -> Result<Option<G>, AllocError>
    ensures { IfOk result (λ made. (Q : Option AnyFormula) → StandsIf G.stands goal Q → StandsIf G.stands made (under_label LabelKind.Test node (test_formula program.now test.now.kind) Q)) }
{
    if goal.is_none() {
        return Ok(goal);
    }
    let holds = formula_of(alloc, test, program)?;
    under(alloc, LabelKind::Test, node, holds, goal)
}

/// What has to hold where a test fails.
pub fn where_it_fails<G: Precondition>(
    alloc: Global,
    test: &Cond,
    program: &Program,
    node: NodeId,
    goal: Option<G>,
) -> Result<Option<G>, AllocError>
    ensures { IfOk result (λ made. (Q : Option AnyFormula) → StandsIf G.stands goal Q → StandsIf G.stands made (under_label LabelKind.Denied node (Negation (test_formula program.now test.now.kind)) Q)) }
{
    if goal.is_none() {
        return Ok(goal);
    }
    let holds = formula_of(alloc, test, program)?;
    let fails = negation(alloc, holds)?;
    under(alloc, LabelKind::Denied, node, fails, goal)
}

/// Once more what stands behind.
pub fn again<G: Precondition>(alloc: Global, behind: &Option<G>) -> Result<Option<G>, AllocError>
    ensures { IfOk result (λ made. (Q : Option AnyFormula) → StandsIf G.stands behind.now Q → StandsIf G.stands made Q) }
{
    match behind {
        None => Ok(None),
        Some(goal) => {
            let goal = goal.again(alloc)?;
            Ok(Some(goal))
        }
    }
}

/// What has to hold before an assignment to a scalar.
pub fn before_set<P: Policy, G: Precondition>(
    alloc: Global,
    value: &Expr,
    aim: &Aim<P>,
    node: NodeId,
    name: &Name,
    behind: Option<G>,
) -> Result<Option<G>, AllocError>
    ensures { IfOk result (λ made. (Q : Option AnyFormula) → StandsIf G.stands behind Q → StandsIf G.stands made (before aim.now.program.now (part_at P.need_of P.effect_of P.known_of aim.now) aim.now.target node (AnyStmt.Set name.now value.now) Q)) }
{
    let goal = set_goal(alloc, value, aim, node, name)?;
    let rest = behind_set(alloc, value, aim, node, name, behind)?;
    conjoined(alloc, goal, rest)
}

/// What has to hold before an assignment to an element.
pub fn before_put<P: Policy, G: Precondition>(
    alloc: Global,
    index: &Index,
    value: &Expr,
    aim: &Aim<P>,
    node: NodeId,
    name: &Name,
    behind: Option<G>,
) -> Result<Option<G>, AllocError>
    ensures { IfOk result (λ made. (Q : Option AnyFormula) → StandsIf G.stands behind Q → StandsIf G.stands made (before aim.now.program.now (part_at P.need_of P.effect_of P.known_of aim.now) aim.now.target node (AnyStmt.Put name.now index.now value.now) Q)) }
{
    let goal = put_goal(alloc, index, value, aim, node, name)?;
    let rest = behind_put(alloc, index, value, aim, node, name, behind)?;
    conjoined(alloc, goal, rest)
}

/// What has to hold before a `for`.
pub fn before_for<P: Policy, G: Precondition>(
    alloc: Global,
    lo: &Expr,
    hi: &Expr,
    aim: &Aim<P>,
    node: NodeId,
    name: &Name,
) -> Result<Option<G>, AllocError>
    ensures { IfOk result (λ made. StandsIf G.stands made (conjoined_formula (goal_of_ends aim.now.program.now (part_at P.need_of P.effect_of P.known_of aim.now) aim.now.target lo.now hi.now) (entry_of_for aim.now.program.now (part_at P.need_of P.effect_of P.known_of aim.now) aim.now.target node name.now lo.now))) }
{
    let goal = ends_goal(alloc, lo, hi, aim)?;
    let entry = for_entry(alloc, lo, aim, node, name)?;
    conjoined(alloc, goal, entry)
}

/// What has to hold where the variable of a `for` is not past the last end.
pub fn where_at_most<G: Precondition>(
    alloc: Global,
    hi: &Expr,
    program: &Program,
    node: NodeId,
    name: &Name,
    goal: Option<G>,
) -> Result<Option<G>, AllocError>
    ensures { IfOk result (λ made. (Q : Option AnyFormula) → StandsIf G.stands goal Q → StandsIf G.stands made (under_label LabelKind.Test node (any_formula.Le (variable_term name.now) (expr_term program.now hi.now.kind)) Q)) }
{
    if goal.is_none() {
        return Ok(goal);
    }
    let last = term_of(alloc, hi, program)?;
    let holds = Shared::new(alloc, Formula::Le(variable(alloc, name)?, last))?;
    under(alloc, LabelKind::Test, node, holds, goal)
}
