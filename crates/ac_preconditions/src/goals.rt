//! What is to be shown at a target, at the sites of a statement or of a test.
ghost use Rattle.std.specs.Prelude.{◌≡◌, ◌++◌, IfOk, Option, None};
ghost use Rattle.ac_run.specs.Declarations.{constant_of};
ghost use Rattle.ac_logic.specs.declared.formula.Formula.{Formula as AnyFormula};
ghost use Rattle.ac_logic.specs.Patterns.{Negation};
ghost use Rattle.ac_policy.specs.Sites.{site_at, expr_sites};
ghost use Rattle.ac_policy.specs.Terms.{zero_term, first_index as first, second_index as second};
ghost use Rattle.ac_conditions.specs.Goals.{conjoined as conjoined_formula, site_goal as goal_of_site, sites_goal, cond_goal as goal_of_cond, under as under_label};
ghost use Rattle.ac_conditions.specs.Tests.{formula_of as test_formula};
ghost use Rattle.ac_preconditions.specs.Onto.{read_onto, expr_onto, index_onto};
ghost use Rattle.ac_preconditions.specs.Stands.{StandsIf};

use crate::aim::{Aim, is_site};
use crate::joins::{conjoined, labelled, under};
use crate::sites::{element_site, scalar_site};
use crate::test_formulas::{formula_of, negation};
use ac_logic::{Formula, LabelKind};
use ac_policy::{Policy, Site, SiteKind};
use ac_profile::Precondition;
use ac_shared::Shared;
use ac_tree::{Cond, CondKind, Expr, ExprKind, Index, ItemKind, Name, NodeId, Program, kind_of};
use std::alloc::{AllocError, Global};

/// The number of a name that is a constant.
pub fn constant(program: &Program, name: &Name) -> Option<i64>
    ensures { result ≡ constant_of program.now name.now }
{
    match kind_of(program.items.as_slice(), name) {
        Some(ItemKind::Const { value }) => Some(*value),
        _ => None,
    }
}

/// The goal of a site, where the target is there and the site is subject.
fn site_goal<P: Policy, G: Precondition>(
    alloc: Global,
    site: &Site,
    aim: &Aim<P>,
) -> Result<Option<G>, AllocError>
    ensures { IfOk result (λ made. StandsIf G.stands made (goal_of_site (P.need_of aim.now.policy.now aim.now.program.now) aim.now.target site.now)) }
{
    if !is_site(aim.target, site.node) {
        return Ok(None);
    }
    match aim.policy.need(alloc, aim.program, site)? {
        None => Ok(None),
        Some(need) => {
            let formula = labelled(alloc, LabelKind::Need, site.node, need)?;
            let goal = G::of(alloc, formula)?;
            Ok(Some(goal))
        }
    }
}

/// The goal of a site that has no indexes, before those of later sites.
pub fn scalar_goal<P: Policy, G: Precondition>(
    alloc: Global,
    node: NodeId,
    name: &Name,
    kind: SiteKind,
    aim: &Aim<P>,
    later: Option<G>,
) -> Result<Option<G>, AllocError>
    ensures { IfOk result (λ made. (Q : Option AnyFormula) → StandsIf G.stands later Q → StandsIf G.stands made (conjoined_formula (goal_of_site (P.need_of aim.now.policy.now aim.now.program.now) aim.now.target (site_at node kind name.now zero_term zero_term)) Q)) }
{
    if !is_site(aim.target, node) {
        return Ok(later);
    }
    let site = scalar_site(alloc, node, name, kind)?;
    let goal = site_goal(alloc, &site, aim)?;
    conjoined(alloc, goal, later)
}

/// The goal of a site with the indexes of an access, before those of later sites.
pub fn element_goal<P: Policy, G: Precondition>(
    alloc: Global,
    node: NodeId,
    name: &Name,
    index: &Index,
    kind: SiteKind,
    aim: &Aim<P>,
    later: Option<G>,
) -> Result<Option<G>, AllocError>
    ensures { IfOk result (λ made. (Q : Option AnyFormula) → StandsIf G.stands later Q → StandsIf G.stands made (conjoined_formula (goal_of_site (P.need_of aim.now.policy.now aim.now.program.now) aim.now.target (site_at node kind name.now (first aim.now.program.now index.now) (second aim.now.program.now index.now))) Q)) }
{
    if !is_site(aim.target, node) {
        return Ok(later);
    }
    let site = element_site(alloc, index, aim.program, node, name, kind)?;
    let goal = site_goal(alloc, &site, aim)?;
    conjoined(alloc, goal, later)
}

/// The goal of a read of a name without indexes, before those of later sites.
fn scalar_read<P: Policy, G: Precondition>(
    alloc: Global,
    node: NodeId,
    name: &Name,
    aim: &Aim<P>,
    later: Option<G>,
) -> Result<Option<G>, AllocError>
    ensures { IfOk result (λ made. (Q : Option AnyFormula) → StandsIf G.stands later Q → StandsIf G.stands made (read_onto (P.need_of aim.now.policy.now aim.now.program.now) aim.now.target (constant_of aim.now.program.now name.now) (site_at node SiteKind.Read name.now zero_term zero_term) Q)) }
{
    match constant(aim.program, name) {
        Some(_) => Ok(later),
        None => {
            let kind = SiteKind::Read;
            scalar_goal(alloc, node, name, kind, aim, later)
        }
    }
}

/// The goal of a read of an element, before those of later sites.
fn element_read<P: Policy, G: Precondition>(
    alloc: Global,
    node: NodeId,
    name: &Name,
    index: &Index,
    aim: &Aim<P>,
    later: Option<G>,
) -> Result<Option<G>, AllocError>
    ensures { IfOk result (λ made. (Q : Option AnyFormula) → StandsIf G.stands later Q → StandsIf G.stands made (read_onto (P.need_of aim.now.policy.now aim.now.program.now) aim.now.target (constant_of aim.now.program.now name.now) (site_at node SiteKind.Read name.now (first aim.now.program.now index.now) (second aim.now.program.now index.now)) Q)) }
{
    match constant(aim.program, name) {
        Some(_) => Ok(later),
        None => {
            let kind = SiteKind::Read;
            element_goal(alloc, node, name, index, kind, aim, later)
        }
    }
}

/// The goals of the reads of an expression, before those of later sites.
#[cycle(goals)]
pub fn expr_goals<P: Policy, G: Precondition>(
    alloc: Global,
    expr: &Expr,
    aim: &Aim<P>,
    later: Option<G>,
) -> Result<Option<G>, AllocError>
    ensures { IfOk result (λ made. (Q : Option AnyFormula) → StandsIf G.stands later Q → StandsIf G.stands made (expr_onto (P.need_of aim.now.policy.now aim.now.program.now) aim.now.target aim.now.program.now expr.now.node.id expr.now.kind Q)) }
{
    let node = expr.node.id;
    match &expr.kind {
        ExprKind::Num(_) => Ok(later),
        ExprKind::Get(name) => scalar_read(alloc, node, name, aim, later),
        ExprKind::Read(name, index) => {
            let inner = index_goals(alloc, index, aim, later)?;
            element_read(alloc, node, name, index, aim, inner)
        }
        ExprKind::Neg(a) => expr_goals(alloc, a.get(), aim, later),
        ExprKind::Add(a, b) => {
            let second = expr_goals(alloc, b.get(), aim, later)?;
            expr_goals(alloc, a.get(), aim, second)
        }
        ExprKind::Sub(a, b) => {
            let second = expr_goals(alloc, b.get(), aim, later)?;
            expr_goals(alloc, a.get(), aim, second)
        }
        ExprKind::Mul(a, b) => {
            let second = expr_goals(alloc, b.get(), aim, later)?;
            expr_goals(alloc, a.get(), aim, second)
        }
    }
}

/// The goals of the reads in the indexes of an access, before those of later sites.
#[cycle(goals)]
pub fn index_goals<P: Policy, G: Precondition>(
    alloc: Global,
    index: &Index,
    aim: &Aim<P>,
    later: Option<G>,
) -> Result<Option<G>, AllocError>
    ensures { IfOk result (λ made. (Q : Option AnyFormula) → StandsIf G.stands later Q → StandsIf G.stands made (index_onto (P.need_of aim.now.policy.now aim.now.program.now) aim.now.target aim.now.program.now index.now Q)) }
{
    match index {
        Index::One(a) => expr_goals(alloc, a.get(), aim, later),
        Index::Two(a, b) => {
            let second = expr_goals(alloc, b.get(), aim, later)?;
            expr_goals(alloc, a.get(), aim, second)
        }
    }
}

/// The goal of a right side, which is met only where the left side holds.
fn guarded<G: Precondition>(
    alloc: Global,
    left: &Cond,
    program: &Program,
    right: Option<G>,
) -> Result<Option<G>, AllocError>
    ensures { IfOk result (λ made. (Q : Option AnyFormula) → StandsIf G.stands right Q → StandsIf G.stands made (under_label LabelKind.Guard left.now.node.id (test_formula program.now left.now.kind) Q)) }
{
    if right.is_none() {
        return Ok(right);
    }
    let holds = formula_of(alloc, left, program)?;
    under(alloc, LabelKind::Guard, left.node.id, holds, right)
}

/// The goal of a right side, which is met only where the left side fails.
fn denied<G: Precondition>(
    alloc: Global,
    left: &Cond,
    program: &Program,
    right: Option<G>,
) -> Result<Option<G>, AllocError>
    ensures { IfOk result (λ made. (Q : Option AnyFormula) → StandsIf G.stands right Q → StandsIf G.stands made (under_label LabelKind.Guard left.now.node.id (Negation (test_formula program.now left.now.kind)) Q)) }
{
    if right.is_none() {
        return Ok(right);
    }
    let holds = formula_of(alloc, left, program)?;
    let fails = negation(alloc, holds)?;
    under(alloc, LabelKind::Guard, left.node.id, fails, right)
}

/// The goals of the reads of two expressions, joined from the last.
fn two_onto<P: Policy, G: Precondition>(
    alloc: Global,
    left: &Expr,
    right: &Expr,
    aim: &Aim<P>,
) -> Result<Option<G>, AllocError>
    ensures { IfOk result (λ made. StandsIf G.stands made (expr_onto (P.need_of aim.now.policy.now aim.now.program.now) aim.now.target aim.now.program.now left.now.node.id left.now.kind (expr_onto (P.need_of aim.now.policy.now aim.now.program.now) aim.now.target aim.now.program.now right.now.node.id right.now.kind None))) }
{
    let later = expr_goals(alloc, right, aim, None)?;
    expr_goals(alloc, left, aim, later)
}

/// The goals of the reads of two expressions.
pub fn two_goals<P: Policy, G: Precondition>(
    alloc: Global,
    left: &Expr,
    right: &Expr,
    aim: &Aim<P>,
) -> Result<Option<G>, AllocError>
    ensures { IfOk result (λ made. StandsIf G.stands made (sites_goal (P.need_of aim.now.policy.now aim.now.program.now) aim.now.target (expr_sites aim.now.program.now left.now.node.id left.now.kind ++ expr_sites aim.now.program.now right.now.node.id right.now.kind))) }
{
    two_onto(alloc, left, right, aim)
}

/// The goals of both sides of an `and`.
fn and_goal<G: Precondition>(
    alloc: Global,
    side: &Cond,
    program: &Program,
    left: Option<G>,
    right: Option<G>,
) -> Result<Option<G>, AllocError>
    ensures { IfOk result (λ made. (f g : Option AnyFormula) → StandsIf G.stands left f → StandsIf G.stands right g → StandsIf G.stands made (conjoined_formula f (under_label LabelKind.Guard side.now.node.id (test_formula program.now side.now.kind) g))) }
{
    let right = guarded(alloc, side, program, right)?;
    conjoined(alloc, left, right)
}

/// The goals of both sides of an `or`.
fn or_goal<G: Precondition>(
    alloc: Global,
    side: &Cond,
    program: &Program,
    left: Option<G>,
    right: Option<G>,
) -> Result<Option<G>, AllocError>
    ensures { IfOk result (λ made. (f g : Option AnyFormula) → StandsIf G.stands left f → StandsIf G.stands right g → StandsIf G.stands made (conjoined_formula f (under_label LabelKind.Guard side.now.node.id (Negation (test_formula program.now side.now.kind)) g))) }
{
    let right = denied(alloc, side, program, right)?;
    conjoined(alloc, left, right)
}

/// The goals of the sites of a test, each under what holds where it is met.
#[cycle(guards)]
pub fn cond_goal<P: Policy, G: Precondition>(
    alloc: Global,
    test: &Cond,
    aim: &Aim<P>,
) -> Result<Option<G>, AllocError>
    ensures { IfOk result (λ made. StandsIf G.stands made (goal_of_cond (P.need_of aim.now.policy.now aim.now.program.now) aim.now.target aim.now.program.now test.now.kind)) }
{
    match &test.kind {
        CondKind::True => Ok(None),
        CondKind::False => Ok(None),
        CondKind::Rel(_, a, b) => two_goals(alloc, a.get(), b.get(), aim),
        CondKind::Not(c) => cond_goal(alloc, c.get(), aim),
        CondKind::And(c, d) => {
            let left = cond_goal(alloc, c.get(), aim)?;
            let right = cond_goal(alloc, d.get(), aim)?;
            and_goal(alloc, c.get(), aim.program, left, right)
        }
        CondKind::Or(c, d) => {
            let left = cond_goal(alloc, c.get(), aim)?;
            let right = cond_goal(alloc, d.get(), aim)?;
            or_goal(alloc, c.get(), aim.program, left, right)
        }
    }
}
