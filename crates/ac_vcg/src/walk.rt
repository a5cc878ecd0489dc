//! The conditions of one target, made in one walk from the end of the program to its start.
ghost use Rattle.std.specs.Prelude.{◌≡◌, ◌++◌, ◌∷◌, [], List, IfOk, OnOk, Option, true};
ghost use Rattle.ac_tree.specs.declared.policy.PolicyName.{PolicyName as AnyName};
ghost use Rattle.ac_tree.specs.declared.program.Program.{Program as AnyProgram};
ghost use Rattle.ac_tree.specs.declared.program.StmtKind.TheVariants as AnyStmt;
ghost use Rattle.ac_tree.specs.Preorder.{inside_stmt, nodes_of_list};
ghost use Rattle.ac_logic.specs.declared.condition.Condition.{Condition as AnyCondition};
ghost use Rattle.ac_logic.specs.declared.formula.Formula.{Formula as AnyFormula};
ghost use Rattle.ac_logic.specs.declared.label.LabelKind.TheVariants as any_label;
ghost use Rattle.ac_logic.specs.Patterns.{Negation};
ghost use Rattle.ac_conditions.specs.Conditions.{implied_by, condition, barrier_condition, conditions, list_conditions};
ghost use Rattle.ac_conditions.specs.Goals.{conjoined as conjoined_formula, under as under_label, cond_goal as goal_of_test};
ghost use Rattle.ac_conditions.specs.Hypotheses.{in_body as inside, at_for_test as at_test, at_for_exit as behind_for, at_while_exit as behind_while, invariants};
ghost use Rattle.ac_conditions.specs.Part.{Part as AnyPart, facts_at, is_after};
ghost use Rattle.ac_conditions.specs.Preconditions.{past_barrier as behind_barrier, before, before_list};
ghost use Rattle.ac_conditions.specs.Tests.{formula_of as test_formula};
ghost use Rattle.ac_preconditions.specs.Aimed.{part_at};
ghost use Rattle.ac_preconditions.specs.Barriers.{AreMarked};
ghost use Rattle.ac_preconditions.specs.Outside.{Rises, IsAtNone};
ghost use Rattle.ac_preconditions.specs.Stands.{StandsIf};
ghost use Rattle.ac_vcg.specs.Stands.{IsFor, AreFound, IsFoundIf, condition_from};

use crate::found::Found;
use ac_logic::Formula;
use ac_policy::Policy;
use ac_preconditions::aim::{Aim, is_passed};
use ac_preconditions::barriers::has_barrier;
use ac_preconditions::before::{
    again, before_for, before_put, before_set, before_use, for_keep, past_barrier, where_at_most,
    where_it_fails, where_it_holds, while_entry, while_keep,
};
use ac_preconditions::goals::cond_goal;
use ac_preconditions::hypotheses::{
    add_invariants, assumed, at_for_exit, at_for_test, at_while_exit, in_body,
};
use ac_preconditions::joins::conjoined;
use ac_profile::Precondition;
use ac_shared::Shared;
use ac_tree::{Cond, Cut, Expr, Name, NodeId, Pair, Program, Stmt, StmtKind};
use std::alloc::{AllocError, Global};

/// A goal under hypotheses, each implying the next.
fn implied<G: Precondition>(
    alloc: Global,
    hypotheses: &[Shared<Formula>],
    goal: G,
) -> Result<G, AllocError>
    ensures { IfOk result (λ made. (f : AnyFormula) → G.stands goal f → G.stands made (implied_by hypotheses.now f)) }
{
    let mut goal = goal;
    let mut left = hypotheses.len();
    while left > 0 {
        left -= 1;
        let hypothesis = hypotheses[left].share()?;
        goal = goal.implied_by(alloc, hypothesis)?;
    }
    Ok(goal)
}

/// The condition of a cut.
fn condition_of<G: Precondition>(
    alloc: Global,
    pair: Pair,
    hypotheses: &[Shared<Formula>],
    own: &[Shared<Formula>],
    path: G,
) -> Result<Found<G>, AllocError>
    ensures { IfOk result (λ made. (name : AnyName) (f : AnyFormula) → G.stands path f → IsFor G.stands name made (condition_from name pair.cut pair.target (implied_by (hypotheses.now ++ own.now) f))) }
{
    let inner = implied(alloc, own, path)?;
    let goal = implied(alloc, hypotheses, inner)?;
    Ok(Found { pair, goal })
}

/// Adds the condition of a cut, where a path leads from it to the target.
pub fn add_condition<G: Precondition>(
    alloc: Global,
    pair: Pair,
    hypotheses: &[Shared<Formula>],
    own: &[Shared<Formula>],
    path: Option<G>,
    found: &mut Vec<Found<G>>,
) -> Result<(), AllocError>
    ensures { OnOk result ((p : AnyProgram) (part : AnyPart) (name : AnyName) (Q : Option AnyFormula) (cs : List AnyCondition) → StandsIf G.stands path Q → AreFound G.stands name found.old.items cs → AreFound G.stands name found.new.items (condition p name part pair.target pair.cut (hypotheses.now ++ own.now) Q ++ cs)) }
{
    match path {
        None => Ok(()),
        Some(path) => {
            let condition = condition_of(alloc, pair, hypotheses, own, path)?;
            found.push(condition)?;
            Ok(())
        }
    }
}

/// The condition of the barrier behind a statement.
fn barrier_of<P: Policy, G: Precondition>(
    alloc: Global,
    aim: &Aim<P>,
    node: NodeId,
    hypotheses: &[Shared<Formula>],
    behind: &Option<G>,
) -> Result<Option<Found<G>>, AllocError>
    requires { AreMarked aim.now.annotations.now aim.now.barriers.now }
    ensures { IfOk result (λ made. (p : AnyProgram) (part : AnyPart) (name : AnyName) (Q : Option AnyFormula) → StandsIf G.stands behind.now Q → IsFoundIf G.stands name made (barrier_condition p name part aim.now.target node hypotheses.now (facts_at (is_after node) aim.now.annotations.now) Q)) }
{
    if !has_barrier(aim, node) {
        return Ok(None);
    }
    match behind {
        None => Ok(None),
        Some(path) => {
            let own = assumed(alloc, aim.annotations, node)?;
            let path = path.again(alloc)?;
            let cut = Cut::After(node);
            let target = aim.target;
            let pair = Pair { cut, target };
            let condition = condition_of(alloc, pair, hypotheses, own.as_slice(), path)?;
            Ok(Some(condition))
        }
    }
}

fn add_barrier<G: Precondition>(
    barrier: Option<Found<G>>,
    found: &mut Vec<Found<G>>,
) -> Result<(), AllocError>
    ensures { OnOk result ((name : AnyName) (bs cs : List AnyCondition) → IsFoundIf G.stands name barrier bs → AreFound G.stands name found.old.items cs → AreFound G.stands name found.new.items (bs ++ cs)) }
{
    match barrier {
        None => Ok(()),
        Some(condition) => {
            found.push(condition)?;
            Ok(())
        }
    }
}

/// Adds the condition of the head of a `for`.
fn add_for_head<P: Policy, G: Precondition>(
    alloc: Global,
    lo: &Expr,
    aim: &Aim<P>,
    node: NodeId,
    name: &Name,
    hypotheses: &[Shared<Formula>],
    path: Option<G>,
    found: &mut Vec<Found<G>>,
) -> Result<(), AllocError>
    ensures { OnOk result ((title : AnyName) (Q : Option AnyFormula) (cs : List AnyCondition) → StandsIf G.stands path Q → AreFound G.stands title found.old.items cs → AreFound G.stands title found.new.items (condition aim.now.program.now title (part_at P.need_of P.effect_of P.known_of aim.now) aim.now.target (Cut.Head node) (hypotheses.now ++ (at_test aim.now.program.now (part_at P.need_of P.effect_of P.known_of aim.now) node name.now lo.now ∷ invariants aim.now.program.now (part_at P.need_of P.effect_of P.known_of aim.now) node)) Q ++ cs)) }
{
    if path.is_none() {
        return Ok(());
    }
    let mut own = Vec::new(alloc);
    own.push(at_for_test(alloc, lo, aim, node, name)?)?;
    add_invariants(alloc, aim.annotations, node, &mut own)?;
    let cut = Cut::Head(node);
    let target = aim.target;
    let pair = Pair { cut, target };
    add_condition(alloc, pair, hypotheses, own.as_slice(), path, found)
}

/// Adds the condition of the exit of a `for`.
fn add_for_exit<P: Policy, G: Precondition>(
    alloc: Global,
    lo: &Expr,
    hi: &Expr,
    aim: &Aim<P>,
    node: NodeId,
    name: &Name,
    hypotheses: &[Shared<Formula>],
    path: Option<G>,
    found: &mut Vec<Found<G>>,
) -> Result<(), AllocError>
    ensures { OnOk result ((title : AnyName) (Q : Option AnyFormula) (cs : List AnyCondition) → StandsIf G.stands path Q → AreFound G.stands title found.old.items cs → AreFound G.stands title found.new.items (condition aim.now.program.now title (part_at P.need_of P.effect_of P.known_of aim.now) aim.now.target (Cut.Exit node) (hypotheses.now ++ (behind_for aim.now.program.now (part_at P.need_of P.effect_of P.known_of aim.now) node name.now lo.now hi.now ∷ invariants aim.now.program.now (part_at P.need_of P.effect_of P.known_of aim.now) node)) Q ++ cs)) }
{
    if path.is_none() {
        return Ok(());
    }
    let mut own = Vec::new(alloc);
    own.push(at_for_exit(alloc, lo, hi, aim, node, name)?)?;
    add_invariants(alloc, aim.annotations, node, &mut own)?;
    let cut = Cut::Exit(node);
    let target = aim.target;
    let pair = Pair { cut, target };
    add_condition(alloc, pair, hypotheses, own.as_slice(), path, found)
}

/// Adds the condition of the head of a `while`.
fn add_while_head<P: Policy, G: Precondition>(
    alloc: Global,
    aim: &Aim<P>,
    node: NodeId,
    hypotheses: &[Shared<Formula>],
    path: Option<G>,
    found: &mut Vec<Found<G>>,
) -> Result<(), AllocError>
    ensures { OnOk result ((name : AnyName) (Q : Option AnyFormula) (cs : List AnyCondition) → StandsIf G.stands path Q → AreFound G.stands name found.old.items cs → AreFound G.stands name found.new.items (condition aim.now.program.now name (part_at P.need_of P.effect_of P.known_of aim.now) aim.now.target (Cut.Head node) (hypotheses.now ++ invariants aim.now.program.now (part_at P.need_of P.effect_of P.known_of aim.now) node) Q ++ cs)) }
{
    if path.is_none() {
        return Ok(());
    }
    let mut own = Vec::new(alloc);
    add_invariants(alloc, aim.annotations, node, &mut own)?;
    let cut = Cut::Head(node);
    let target = aim.target;
    let pair = Pair { cut, target };
    add_condition(alloc, pair, hypotheses, own.as_slice(), path, found)
}

/// Adds the condition of the exit of a `while`.
fn add_while_exit<P: Policy, G: Precondition>(
    alloc: Global,
    test: &Cond,
    aim: &Aim<P>,
    node: NodeId,
    hypotheses: &[Shared<Formula>],
    path: Option<G>,
    found: &mut Vec<Found<G>>,
) -> Result<(), AllocError>
    ensures { OnOk result ((name : AnyName) (Q : Option AnyFormula) (cs : List AnyCondition) → StandsIf G.stands path Q → AreFound G.stands name found.old.items cs → AreFound G.stands name found.new.items (condition aim.now.program.now name (part_at P.need_of P.effect_of P.known_of aim.now) aim.now.target (Cut.Exit node) (hypotheses.now ++ (behind_while aim.now.program.now (part_at P.need_of P.effect_of P.known_of aim.now) node test.now ∷ invariants aim.now.program.now (part_at P.need_of P.effect_of P.known_of aim.now) node)) Q ++ cs)) }
{
    if path.is_none() {
        return Ok(());
    }
    let mut own = Vec::new(alloc);
    own.push(at_while_exit(alloc, test, aim, node)?)?;
    add_invariants(alloc, aim.annotations, node, &mut own)?;
    let cut = Cut::Exit(node);
    let target = aim.target;
    let pair = Pair { cut, target };
    add_condition(alloc, pair, hypotheses, own.as_slice(), path, found)
}

/// The hypotheses inside a `for`.
fn hypotheses_inside<P: Policy>(
    alloc: Global,
    lo: &Expr,
    hi: &Expr,
    aim: &Aim<P>,
    node: NodeId,
    name: &Name,
    hypotheses: &[Shared<Formula>],
) -> Result<Vec<Shared<Formula>>, AllocError>
    ensures { IfOk result (λ inner. inner.items ≡ hypotheses.now ++ inside aim.now.program.now (part_at P.need_of P.effect_of P.known_of aim.now) node name.now lo.now hi.now ∷ []) }
{
    let mut inner = Vec::new(alloc);
    for hypothesis in hypotheses {
        inner.push(hypothesis.share()?)?;
    }
    inner.push(in_body(alloc, lo, hi, aim, node, name)?)?;
    Ok(inner)
}

/// Adds the conditions of the cuts of a `for`.
#[cycle(walk)]
fn walk_for<P: Policy, G: Precondition>(
    alloc: Global,
    body: &[Stmt],
    lo: &Expr,
    hi: &Expr,
    aim: &Aim<P>,
    node: NodeId,
    name: &Name,
    hypotheses: &[Shared<Formula>],
    behind: Option<G>,
    barrier: Option<Found<G>>,
    found: &mut Vec<Found<G>>,
) -> Result<(), AllocError>
    requires { AreMarked aim.now.annotations.now aim.now.barriers.now }
    ensures { OnOk result ((title : AnyName) (Q : Option AnyFormula) (bs cs : List AnyCondition) → (aim.now.is_ordered ≡ true → Rises 0 (nodes_of_list body.now)) → StandsIf G.stands behind Q → IsFoundIf G.stands title barrier bs → AreFound G.stands title found.old.items cs → AreFound G.stands title found.new.items (conditions aim.now.program.now title (part_at P.need_of P.effect_of P.known_of aim.now) aim.now.target hypotheses.now node (AnyStmt.For name.now lo.now hi.now body.now) Q bs ++ cs)) }
{
    let inner = hypotheses_inside(alloc, lo, hi, aim, node, name, hypotheses)?;
    let kept = for_keep(alloc, aim, node, name)?;
    let path = walk_block(alloc, body, aim, inner.as_slice(), kept, found)?;
    let head = where_at_most(alloc, hi, aim.program, node, name, path)?;
    add_barrier(barrier, found)?;
    add_for_exit(alloc, lo, hi, aim, node, name, hypotheses, behind, found)?;
    add_for_head(alloc, lo, aim, node, name, hypotheses, head, found)
}

/// Adds the conditions of the cuts of a `while`.
#[cycle(walk)]
fn walk_while<P: Policy, G: Precondition>(
    alloc: Global,
    body: &[Stmt],
    test: &Cond,
    aim: &Aim<P>,
    node: NodeId,
    hypotheses: &[Shared<Formula>],
    behind: Option<G>,
    barrier: Option<Found<G>>,
    found: &mut Vec<Found<G>>,
) -> Result<(), AllocError>
    requires { AreMarked aim.now.annotations.now aim.now.barriers.now }
    ensures { OnOk result ((name : AnyName) (Q : Option AnyFormula) (bs cs : List AnyCondition) → (aim.now.is_ordered ≡ true → Rises 0 (nodes_of_list body.now)) → StandsIf G.stands behind Q → IsFoundIf G.stands name barrier bs → AreFound G.stands name found.old.items cs → AreFound G.stands name found.new.items (conditions aim.now.program.now name (part_at P.need_of P.effect_of P.known_of aim.now) aim.now.target hypotheses.now node (AnyStmt.While test.now body.now) Q bs ++ cs)) }
{
    let kept = while_keep(alloc, aim, node)?;
    let path = walk_block(alloc, body, aim, hypotheses, kept, found)?;
    let holds = where_it_holds(alloc, test, aim.program, node, path)?;
    let goal = cond_goal(alloc, test, aim)?;
    let head = conjoined(alloc, goal, holds)?;
    add_barrier(barrier, found)?;
    add_while_exit(alloc, test, aim, node, hypotheses, behind, found)?;
    add_while_head(alloc, aim, node, hypotheses, head, found)
}

/// What has to hold before an `if`, by what has to hold before its second part; adds the conditions of the cuts in its first.
#[cycle(walk)]
fn walk_if<P: Policy, G: Precondition>(
    alloc: Global,
    yes: &[Stmt],
    test: &Cond,
    aim: &Aim<P>,
    node: NodeId,
    hypotheses: &[Shared<Formula>],
    behind: Option<G>,
    denied: Option<G>,
    found: &mut Vec<Found<G>>,
) -> Result<Option<G>, AllocError>
    requires { AreMarked aim.now.annotations.now aim.now.barriers.now }
    ensures { IfOk result (λ made. (name : AnyName) (Q R : Option AnyFormula) (cs : List AnyCondition) → (aim.now.is_ordered ≡ true → Rises 0 (nodes_of_list yes.now)) → StandsIf G.stands behind Q → StandsIf G.stands denied R → AreFound G.stands name found.old.items cs → StandsIf G.stands made (conjoined_formula (goal_of_test (P.need_of aim.now.policy.now aim.now.program.now) aim.now.target aim.now.program.now test.now.kind) (conjoined_formula (under_label any_label.Test node (test_formula aim.now.program.now test.now.kind) (before_list aim.now.program.now (part_at P.need_of P.effect_of P.known_of aim.now) aim.now.target yes.now Q)) (under_label any_label.Denied node (Negation (test_formula aim.now.program.now test.now.kind)) R))) × AreFound G.stands name found.new.items (list_conditions aim.now.program.now name (part_at P.need_of P.effect_of P.known_of aim.now) aim.now.target hypotheses.now yes.now Q ++ cs)) }
{
    let taken = walk_block(alloc, yes, aim, hypotheses, behind, found)?;
    let first = where_it_holds(alloc, test, aim.program, node, taken)?;
    let second = where_it_fails(alloc, test, aim.program, node, denied)?;
    let sides = conjoined(alloc, first, second)?;
    let goal = cond_goal(alloc, test, aim)?;
    conjoined(alloc, goal, sides)
}

/// What has to hold before a statement; adds the conditions of its cuts, the last first.
#[cycle(walk)]
fn walk_stmt<P: Policy, G: Precondition>(
    alloc: Global,
    stmt: &Stmt,
    aim: &Aim<P>,
    hypotheses: &[Shared<Formula>],
    behind: Option<G>,
    barrier: Option<Found<G>>,
    found: &mut Vec<Found<G>>,
) -> Result<Option<G>, AllocError>
    requires { AreMarked aim.now.annotations.now aim.now.barriers.now }
    ensures { IfOk result (λ made. (name : AnyName) (Q : Option AnyFormula) (bs cs : List AnyCondition) → (aim.now.is_ordered ≡ true → Rises 0 (inside_stmt stmt.now.kind)) → StandsIf G.stands behind Q → IsFoundIf G.stands name barrier bs → AreFound G.stands name found.old.items cs → StandsIf G.stands made (before aim.now.program.now (part_at P.need_of P.effect_of P.known_of aim.now) aim.now.target stmt.now.node.id stmt.now.kind Q) × AreFound G.stands name found.new.items (conditions aim.now.program.now name (part_at P.need_of P.effect_of P.known_of aim.now) aim.now.target hypotheses.now stmt.now.node.id stmt.now.kind Q bs ++ cs)) }
{
    let node = stmt.node.id;
    match &stmt.kind {
        StmtKind::Set { name, value } => {
            add_barrier(barrier, found)?;
            before_set(alloc, value, aim, node, name, behind)
        }
        StmtKind::Put { name, index, value } => {
            add_barrier(barrier, found)?;
            before_put(alloc, index, value, aim, node, name, behind)
        }
        StmtKind::If { test, yes, no } => {
            let no = no.as_slice();
            let other = again(alloc, &behind)?;
            let denied = walk_block(alloc, no, aim, hypotheses, other, found)?;
            let yes = yes.as_slice();
            let path = walk_if(
                alloc, yes, test, aim, node, hypotheses, behind, denied, found,
            )?;
            add_barrier(barrier, found)?;
            Ok(path)
        }
        StmtKind::For { name, lo, hi, body } => {
            let body = body.as_slice();
            walk_for(
                alloc, body, lo, hi, aim, node, name, hypotheses, behind, barrier, found,
            )?;
            before_for(alloc, lo, hi, aim, node, name)
        }
        StmtKind::While { test, body } => {
            let body = body.as_slice();
            walk_while(
                alloc, body, test, aim, node, hypotheses, behind, barrier, found,
            )?;
            while_entry(alloc, aim, node)
        }
        StmtKind::Hand { name, role } => {
            add_barrier(barrier, found)?;
            before_use(alloc, aim, node, name, role, behind)
        }
        StmtKind::Skip => {
            add_barrier(barrier, found)?;
            Ok(behind)
        }
    }
}

/// What has to hold before a statement and the barrier behind it; adds the conditions of their cuts, the last first. A
/// statement is passed over where nothing behind it leads to the target and the target is at none of its nodes.
#[cycle(walk)]
fn walk_next<P: Policy, G: Precondition>(
    alloc: Global,
    stmt: &Stmt,
    aim: &Aim<P>,
    hypotheses: &[Shared<Formula>],
    passed: bool,
    behind: Option<G>,
    found: &mut Vec<Found<G>>,
) -> Result<Option<G>, AllocError>
    requires { AreMarked aim.now.annotations.now aim.now.barriers.now }
    ensures { IfOk result (λ made. (name : AnyName) (Q : Option AnyFormula) (cs : List AnyCondition) → (aim.now.is_ordered ≡ true → Rises 0 (inside_stmt stmt.now.kind)) → (passed ≡ true → IsAtNone aim.now.target (stmt.now.node.id ∷ inside_stmt stmt.now.kind)) → StandsIf G.stands behind Q → AreFound G.stands name found.old.items cs → StandsIf G.stands made (before aim.now.program.now (part_at P.need_of P.effect_of P.known_of aim.now) aim.now.target stmt.now.node.id stmt.now.kind (behind_barrier aim.now.target stmt.now.node.id (facts_at (is_after stmt.now.node.id) aim.now.annotations.now) Q)) × AreFound G.stands name found.new.items (conditions aim.now.program.now name (part_at P.need_of P.effect_of P.known_of aim.now) aim.now.target hypotheses.now stmt.now.node.id stmt.now.kind (behind_barrier aim.now.target stmt.now.node.id (facts_at (is_after stmt.now.node.id) aim.now.annotations.now) Q) (barrier_condition aim.now.program.now name (part_at P.need_of P.effect_of P.known_of aim.now) aim.now.target stmt.now.node.id hypotheses.now (facts_at (is_after stmt.now.node.id) aim.now.annotations.now) Q) ++ cs)) }
{
    if passed && behind.is_none() {
        return Ok(behind);
    }
    let barrier = barrier_of(alloc, aim, stmt.node.id, hypotheses, &behind)?;
    let past = past_barrier(alloc, aim, stmt.node.id, behind)?;
    walk_stmt(alloc, stmt, aim, hypotheses, past, barrier, found)
}

/// What has to hold before a block; adds the conditions of its cuts, the last first.
#[cycle(walk)]
pub fn walk_block<P: Policy, G: Precondition>(
    alloc: Global,
    block: &[Stmt],
    aim: &Aim<P>,
    hypotheses: &[Shared<Formula>],
    behind: Option<G>,
    found: &mut Vec<Found<G>>,
) -> Result<Option<G>, AllocError>
    requires { AreMarked aim.now.annotations.now aim.now.barriers.now }
    ensures { IfOk result (λ made. (name : AnyName) (Q : Option AnyFormula) (cs : List AnyCondition) → (aim.now.is_ordered ≡ true → Rises 0 (nodes_of_list block.now)) → StandsIf G.stands behind Q → AreFound G.stands name found.old.items cs → StandsIf G.stands made (before_list aim.now.program.now (part_at P.need_of P.effect_of P.known_of aim.now) aim.now.target block.now Q) × AreFound G.stands name found.new.items (list_conditions aim.now.program.now name (part_at P.need_of P.effect_of P.known_of aim.now) aim.now.target hypotheses.now block.now Q ++ cs)) }
{
    let mut goal = behind;
    let mut next = None;
    let mut left = block.len();
    while left > 0 {
        left -= 1;
        let stmt = &block[left];
        let passed = is_passed(aim, stmt.node.id, next);
        goal = walk_next(alloc, stmt, aim, hypotheses, passed, goal, found)?;
        next = Some(stmt.node.id);
    }
    Ok(goal)
}
