//! Everything that a condition can aim at, in order.
ghost use Rattle.std.specs.Prelude.{◌≡◌, ◌++◌, ◌∷◌, [], IfOk, OnOk};
ghost use Rattle.ac_logic.specs.declared.formula.Term.{Term as AnyTerm};
ghost use Rattle.ac_policy.specs.Sites.{read_sites, expr_sites, index_sites, cond_sites};
ghost use Rattle.ac_conditions.specs.Targets.{site_targets, stmt_targets, list_targets};

use ac_preconditions::goals::constant;
use ac_tree::{
    Cond, CondKind, Expr, ExprKind, Index, Name, NodeId, Program, Stmt, StmtKind, Target,
};
use std::alloc::{AllocError, Global};

/// The targets of a program: by node, and Entry, Keep, Barrier, Site at one node.
pub fn targets(alloc: Global, program: &Program) -> Result<Vec<Target>, AllocError>
    ensures { IfOk result (λ found. found.items ≡ list_targets program.now program.now.body) }
{
    let mut found = Vec::new(alloc);
    add_block(program.body.as_slice(), program, &mut found)?;
    Ok(found)
}

/// Adds the target at a read of a name, where it is no constant.
fn add_read(
    node: NodeId,
    name: &Name,
    program: &Program,
    found: &mut Vec<Target>,
) -> Result<(), AllocError>
    ensures { (i j : AnyTerm) → OnOk result (found.new.items ≡ found.old.items ++ site_targets (read_sites program.now node name.now i j)) }
{
    match constant(program, name) {
        Some(_) => Ok(()),
        None => {
            found.push(Target::Site(node))?;
            Ok(())
        }
    }
}

#[cycle(targets)]
fn add_expr(expr: &Expr, program: &Program, found: &mut Vec<Target>) -> Result<(), AllocError>
    ensures { OnOk result (found.new.items ≡ found.old.items ++ site_targets (expr_sites program.now expr.now.node.id expr.now.kind)) }
{
    match &expr.kind {
        ExprKind::Num(_) => Ok(()),
        ExprKind::Get(name) => add_read(expr.node.id, name, program, found),
        ExprKind::Read(name, index) => {
            add_read(expr.node.id, name, program, found)?;
            add_index(index, program, found)
        }
        ExprKind::Neg(a) => add_expr(a.get(), program, found),
        ExprKind::Add(a, b) => {
            add_expr(a.get(), program, found)?;
            add_expr(b.get(), program, found)
        }
        ExprKind::Sub(a, b) => {
            add_expr(a.get(), program, found)?;
            add_expr(b.get(), program, found)
        }
        ExprKind::Mul(a, b) => {
            add_expr(a.get(), program, found)?;
            add_expr(b.get(), program, found)
        }
    }
}

#[cycle(targets)]
fn add_index(index: &Index, program: &Program, found: &mut Vec<Target>) -> Result<(), AllocError>
    ensures { OnOk result (found.new.items ≡ found.old.items ++ site_targets (index_sites program.now index.now)) }
{
    match index {
        Index::One(a) => add_expr(a.get(), program, found),
        Index::Two(a, b) => {
            add_expr(a.get(), program, found)?;
            add_expr(b.get(), program, found)
        }
    }
}

fn add_cond(cond: &Cond, program: &Program, found: &mut Vec<Target>) -> Result<(), AllocError>
    ensures { OnOk result (found.new.items ≡ found.old.items ++ site_targets (cond_sites program.now cond.now.kind)) }
{
    match &cond.kind {
        CondKind::True => Ok(()),
        CondKind::False => Ok(()),
        CondKind::Rel(_, a, b) => {
            add_expr(a.get(), program, found)?;
            add_expr(b.get(), program, found)
        }
        CondKind::Not(a) => add_cond(a.get(), program, found),
        CondKind::And(a, b) => {
            add_cond(a.get(), program, found)?;
            add_cond(b.get(), program, found)
        }
        CondKind::Or(a, b) => {
            add_cond(a.get(), program, found)?;
            add_cond(b.get(), program, found)
        }
    }
}

/// Adds the targets at a loop itself.
fn add_loop(node: NodeId, found: &mut Vec<Target>) -> Result<(), AllocError>
    ensures { OnOk result (found.new.items ≡ found.old.items ++ Target.Entry node ∷ Target.Keep node ∷ Target.Barrier node ∷ []) }
{
    found.push(Target::Entry(node))?;
    found.push(Target::Keep(node))?;
    found.push(Target::Barrier(node))?;
    Ok(())
}

#[cycle(stmt_targets)]
fn add_stmt(stmt: &Stmt, program: &Program, found: &mut Vec<Target>) -> Result<(), AllocError>
    ensures { OnOk result (found.new.items ≡ found.old.items ++ stmt_targets program.now stmt.now.node.id stmt.now.kind) }
{
    let node = stmt.node.id;
    match &stmt.kind {
        StmtKind::Set { value, .. } => {
            found.push(Target::Barrier(node))?;
            found.push(Target::Site(node))?;
            add_expr(value, program, found)
        }
        StmtKind::Put { index, value, .. } => {
            found.push(Target::Barrier(node))?;
            found.push(Target::Site(node))?;
            add_index(index, program, found)?;
            add_expr(value, program, found)
        }
        StmtKind::If { test, yes, no } => {
            found.push(Target::Barrier(node))?;
            add_cond(test, program, found)?;
            add_block(yes.as_slice(), program, found)?;
            add_block(no.as_slice(), program, found)?;
            Ok(())
        }
        StmtKind::For { lo, hi, body, .. } => {
            add_loop(node, found)?;
            add_expr(lo, program, found)?;
            add_expr(hi, program, found)?;
            add_block(body.as_slice(), program, found)?;
            Ok(())
        }
        StmtKind::While { test, body } => {
            add_loop(node, found)?;
            add_cond(test, program, found)?;
            add_block(body.as_slice(), program, found)?;
            Ok(())
        }
        StmtKind::Hand { .. } => {
            found.push(Target::Barrier(node))?;
            found.push(Target::Site(node))?;
            Ok(())
        }
        StmtKind::Skip => {
            found.push(Target::Barrier(node))?;
            Ok(())
        }
    }
}

#[cycle(stmt_targets)]
fn add_block(block: &[Stmt], program: &Program, found: &mut Vec<Target>) -> Result<(), AllocError>
    ensures { OnOk result (found.new.items ≡ found.old.items ++ list_targets program.now block.now) }
{
    for stmt in block {
        add_stmt(stmt, program, found)?;
    }
    Ok(())
}
