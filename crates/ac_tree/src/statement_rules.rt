//! The rules on statements, each of which is judged by the declarations and the `for` loops around it.
ghost use Rattle.std.specs.Prelude.{◌≡◌};
ghost use Rattle.ac_tree.specs.StaticRules.{broken, kind_in, first_fault, assignment_tests, set_tests, for_tests, stmt_faults, list_faults};
ghost use Rattle.ac_tree.specs.FirstFault.{fault_of, loops_of};

use crate::declarations::{is_const, is_given, is_var, rank_of};
use crate::declared_names::DeclaredNames;
use crate::loops::{Loops, does_read, is_bound, is_variable};
use crate::name::Name;
use crate::name_uses::{check_cond, check_expr, check_index, check_indexes, indexes_of};
use crate::node::NodeId;
use crate::program::{Expr, ItemKind, Stmt, StmtKind};
use crate::rule;
use crate::static_rules::{StaticFault, unless};

#[cycle(stmt)]
#[tactic(auto, using(crate::proofs::FirstFaults::stmt_fault_rules))]
fn check_stmt<D: DeclaredNames>(
    names: &D,
    loops: &Loops<'_>,
    stmt: &Stmt,
) -> Result<(), StaticFault>
    ensures { fault_of result ≡ first_fault (stmt_faults (D.listed names.now) (loops_of loops.now) stmt.now.node.id stmt.now.kind) }
{
    let node = stmt.node.id;
    match &stmt.kind {
        StmtKind::Set { name, value } => {
            check_set(names, loops, node, name, 0)?;
            check_expr(names, value)
        }
        StmtKind::Put { name, index, value } => {
            check_set(names, loops, node, name, indexes_of(index))?;
            check_index(names, index)?;
            check_expr(names, value)
        }
        StmtKind::If { test, yes, no } => {
            check_cond(names, test)?;
            check_block(names, loops, yes.as_slice())?;
            check_block(names, loops, no.as_slice())
        }
        StmtKind::For { name, lo, hi, body } => {
            check_for(names, loops, node, name, lo, hi)?;
            check_expr(names, lo)?;
            check_expr(names, hi)?;
            let inside = Loops::Inside {
                name: &*name,
                low: &*lo,
                high: &*hi,
                outer: &*loops,
            };
            check_block(names, &inside, body.as_slice())
        }
        StmtKind::While { test, body } => {
            check_cond(names, test)?;
            check_block(names, loops, body.as_slice())
        }
        StmtKind::Hand { name, .. } => {
            unless(rule::UNDECLARED_NAME, names.kind_of(name).is_none(), node)
        }
        StmtKind::Skip => Ok(()),
    }
}

#[cycle(stmt)]
pub fn check_block<D: DeclaredNames>(
    names: &D,
    loops: &Loops<'_>,
    block: &[Stmt],
) -> Result<(), StaticFault>
    ensures { fault_of result ≡ first_fault (list_faults (D.listed names.now) (loops_of loops.now) block.now) }
{
    for stmt in block {
        check_stmt(names, loops, stmt)?;
    }
    Ok(())
}

fn check_set<D: DeclaredNames>(
    names: &D,
    loops: &Loops<'_>,
    node: NodeId,
    name: &Name,
    indexes: u8,
) -> Result<(), StaticFault>
    ensures { fault_of result ≡ first_fault (broken node (set_tests (loops_of loops.now) name.now (kind_in (D.listed names.now) name.now) indexes)) }
{
    match names.kind_of(name) {
        None => Err(StaticFault {
            rule: rule::UNDECLARED_NAME,
            node,
        }),
        Some(kind) => {
            check_indexes(node, rank_of(kind), indexes)?;
            check_assignment(node, kind, loops, name)
        }
    }
}

fn check_for<D: DeclaredNames>(
    names: &D,
    loops: &Loops<'_>,
    node: NodeId,
    name: &Name,
    low: &Expr,
    high: &Expr,
) -> Result<(), StaticFault>
    ensures { fault_of result ≡ first_fault (broken node (for_tests (loops_of loops.now) name.now (kind_in (D.listed names.now) name.now) low.now.kind high.now.kind)) }
{
    match names.kind_of(name) {
        None => Err(StaticFault {
            rule: rule::UNDECLARED_NAME,
            node,
        }),
        Some(kind) => {
            unless(rule::ASSIGNED_CONSTANT, is_const(kind), node)?;
            unless(rule::ASSIGNED_INPUT, is_given(kind), node)?;
            unless(rule::BAD_LOOP_VARIABLE, !is_var(kind), node)?;
            unless(rule::ASSIGNED_LOOP_VARIABLE, is_variable(loops, name), node)?;
            unless(rule::ASSIGNED_LOOP_BOUND, is_bound(loops, name), node)?;
            let reads_itself = does_read(low, name) || does_read(high, name);
            unless(rule::LOOP_READS_VARIABLE, reads_itself, node)
        }
    }
}

/// An assignment to a declared name, also that of a `for` to its variable.
fn check_assignment(
    node: NodeId,
    kind: &ItemKind,
    loops: &Loops<'_>,
    name: &Name,
) -> Result<(), StaticFault>
    ensures { fault_of result ≡ first_fault (broken node (assignment_tests (loops_of loops.now) name.now kind.now)) }
{
    unless(rule::ASSIGNED_CONSTANT, is_const(kind), node)?;
    unless(rule::ASSIGNED_INPUT, is_given(kind), node)?;
    unless(rule::ASSIGNED_LOOP_VARIABLE, is_variable(loops, name), node)?;
    unless(rule::ASSIGNED_LOOP_BOUND, is_bound(loops, name), node)
}
