//! The hypotheses at a cut: the ranges of inputs, what the `for` loops around it say, the exit of a loop, and annotations.
ghost use Rattle.std.specs.Prelude.{◌≡◌, ◌++◌, map, IfOk, OnOk};
ghost use Rattle.ac_logic.specs.declared.formula.Formula.TheVariants as any_formula;
ghost use Rattle.ac_logic.specs.Patterns.{Conjunction, Disjunction};
ghost use Rattle.ac_policy.specs.Terms.{term_of as expr_term};
ghost use Rattle.ac_conditions.specs.Hypotheses.{and_known as with_known, in_body as inside, at_for_test as at_test, at_for_exit as behind_for, at_while_exit as behind_while};
ghost use Rattle.ac_conditions.specs.Part.{facts_at, is_loop, is_after};
ghost use Rattle.ac_conditions.specs.Preconditions.{variable as variable_term};
ghost use Rattle.ac_conditions.specs.Tests.{labelled as labelled_formula, one_more as next_term};
ghost use Rattle.ac_preconditions.specs.Aimed.{part_at};

use crate::aim::Aim;
use crate::facts::{facts_behind, loop_facts};
use crate::joins::labelled;
use crate::test_formulas::{formula_of, negation, one_more, variable};
use ac_logic::{Annotation, Formula, LabelKind};
use ac_policy::{Policy, term_of};
use ac_shared::Shared;
use ac_tree::{Cond, Expr, Name, NodeId, Program};
use std::alloc::{AllocError, Global};

/// A formula and what a policy knows of a written scalar.
fn and_known<P: Policy>(
    alloc: Global,
    aim: &Aim<P>,
    name: &Name,
    formula: Shared<Formula>,
) -> Result<Shared<Formula>, AllocError>
    ensures { IfOk result (λ f. f ≡ with_known formula (P.known_of aim.now.policy.now name.now)) }
{
    match aim.policy.known(alloc, name)? {
        None => Ok(formula),
        Some(known) => Shared::new(alloc, Formula::And(formula, known)),
    }
}

/// The variable of a `for` lies between its ends.
fn lies_between(
    alloc: Global,
    lo: &Expr,
    hi: &Expr,
    program: &Program,
    name: &Name,
) -> Result<Shared<Formula>, AllocError>
    ensures { IfOk result (λ f. f ≡ Conjunction (any_formula.Le (expr_term program.now lo.now.kind) (variable_term name.now)) (any_formula.Le (variable_term name.now) (expr_term program.now hi.now.kind))) }
{
    let first = term_of(alloc, lo, program)?;
    let lower = Shared::new(alloc, Formula::Le(first, variable(alloc, name)?))?;
    let last = term_of(alloc, hi, program)?;
    let upper = Shared::new(alloc, Formula::Le(variable(alloc, name)?, last))?;
    Shared::new(alloc, Formula::And(lower, upper))
}

/// Inside a `for` its variable lies between its ends.
pub fn in_body<P: Policy>(
    alloc: Global,
    lo: &Expr,
    hi: &Expr,
    aim: &Aim<P>,
    node: NodeId,
    name: &Name,
) -> Result<Shared<Formula>, AllocError>
    ensures { IfOk result (λ f. f ≡ inside aim.now.program.now (part_at P.need_of P.effect_of P.known_of aim.now) node name.now lo.now hi.now) }
{
    let both = lies_between(alloc, lo, hi, aim.program, name)?;
    let whole = and_known(alloc, aim, name, both)?;
    labelled(alloc, LabelKind::Header, node, whole)
}

/// At the test of a `for` its variable is not below the first end.
pub fn at_for_test<P: Policy>(
    alloc: Global,
    lo: &Expr,
    aim: &Aim<P>,
    node: NodeId,
    name: &Name,
) -> Result<Shared<Formula>, AllocError>
    ensures { IfOk result (λ f. f ≡ at_test aim.now.program.now (part_at P.need_of P.effect_of P.known_of aim.now) node name.now lo.now) }
{
    let first = term_of(alloc, lo, aim.program)?;
    let lower = Shared::new(alloc, Formula::Le(first, variable(alloc, name)?))?;
    let whole = and_known(alloc, aim, name, lower)?;
    labelled(alloc, LabelKind::Header, node, whole)
}

/// The variable of a `for` had no turn, or is next behind the last end.
fn has_ended(
    alloc: Global,
    lo: &Expr,
    hi: &Expr,
    program: &Program,
    name: &Name,
) -> Result<Shared<Formula>, AllocError>
    ensures { IfOk result (λ f. f ≡ Disjunction (any_formula.Eq (variable_term name.now) (expr_term program.now lo.now.kind)) (any_formula.Eq (variable_term name.now) (next_term (expr_term program.now hi.now.kind)))) }
{
    let first = term_of(alloc, lo, program)?;
    let unturned = Shared::new(alloc, Formula::Eq(variable(alloc, name)?, first))?;
    let last = term_of(alloc, hi, program)?;
    let next = one_more(alloc, last)?;
    let turned = Shared::new(alloc, Formula::Eq(variable(alloc, name)?, next))?;
    Shared::new(alloc, Formula::Or(unturned, turned))
}

/// The variable of a `for` is past the last end, and had no turn or is next behind it.
fn is_past(
    alloc: Global,
    lo: &Expr,
    hi: &Expr,
    program: &Program,
    name: &Name,
) -> Result<Shared<Formula>, AllocError>
    ensures { IfOk result (λ f. f ≡ Conjunction (any_formula.Le (next_term (expr_term program.now hi.now.kind)) (variable_term name.now)) (Disjunction (any_formula.Eq (variable_term name.now) (expr_term program.now lo.now.kind)) (any_formula.Eq (variable_term name.now) (next_term (expr_term program.now hi.now.kind))))) }
{
    let last = term_of(alloc, hi, program)?;
    let next = one_more(alloc, last)?;
    let past = Shared::new(alloc, Formula::Le(next, variable(alloc, name)?))?;
    let ended = has_ended(alloc, lo, hi, program, name)?;
    Shared::new(alloc, Formula::And(past, ended))
}

/// Behind the last test of a `for` its variable is past the last end.
pub fn at_for_exit<P: Policy>(
    alloc: Global,
    lo: &Expr,
    hi: &Expr,
    aim: &Aim<P>,
    node: NodeId,
    name: &Name,
) -> Result<Shared<Formula>, AllocError>
    ensures { IfOk result (λ f. f ≡ behind_for aim.now.program.now (part_at P.need_of P.effect_of P.known_of aim.now) node name.now lo.now hi.now) }
{
    let both = is_past(alloc, lo, hi, aim.program, name)?;
    let whole = and_known(alloc, aim, name, both)?;
    labelled(alloc, LabelKind::Exit, node, whole)
}

/// Behind the last test of a `while` its test fails.
pub fn at_while_exit<P: Policy>(
    alloc: Global,
    test: &Cond,
    aim: &Aim<P>,
    node: NodeId,
) -> Result<Shared<Formula>, AllocError>
    ensures { IfOk result (λ f. f ≡ behind_while aim.now.program.now (part_at P.need_of P.effect_of P.known_of aim.now) node test.now) }
{
    let holds = formula_of(alloc, test, aim.program)?;
    let fails = negation(alloc, holds)?;
    labelled(alloc, LabelKind::Exit, node, fails)
}

/// Adds facts with a label each.
fn add_labelled(
    alloc: Global,
    kind: LabelKind,
    node: NodeId,
    facts: &[Shared<Formula>],
    hypotheses: &mut Vec<Shared<Formula>>,
) -> Result<(), AllocError>
    ensures { OnOk result (hypotheses.new.items ≡ hypotheses.old.items ++ map (labelled_formula kind node) facts.now) }
{
    for fact in facts {
        hypotheses.push(labelled(alloc, kind, node, fact.share()?)?)?;
    }
    Ok(())
}

/// Adds the facts of the invariant of a loop.
pub fn add_invariants(
    alloc: Global,
    annotations: &[Annotation],
    node: NodeId,
    hypotheses: &mut Vec<Shared<Formula>>,
) -> Result<(), AllocError>
    ensures { OnOk result (hypotheses.new.items ≡ hypotheses.old.items ++ map (labelled_formula LabelKind.Invariant node) (facts_at (is_loop node) annotations.now)) }
{
    let facts = loop_facts(alloc, annotations, node)?;
    add_labelled(
        alloc,
        LabelKind::Invariant,
        node,
        facts.as_slice(),
        hypotheses,
    )
}

/// The facts behind a statement.
pub fn assumed(
    alloc: Global,
    annotations: &[Annotation],
    node: NodeId,
) -> Result<Vec<Shared<Formula>>, AllocError>
    ensures { IfOk result (λ hs. hs.items ≡ map (labelled_formula LabelKind.Assumed node) (facts_at (is_after node) annotations.now)) }
{
    let facts = facts_behind(alloc, annotations, node)?;
    let mut hypotheses = Vec::new(alloc);
    add_labelled(
        alloc,
        LabelKind::Assumed,
        node,
        facts.as_slice(),
        &mut hypotheses,
    )?;
    Ok(hypotheses)
}
