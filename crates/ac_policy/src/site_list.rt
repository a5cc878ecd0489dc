//! The sites of a program, in the order of nodes.
ghost use Rattle.std.specs.Prelude.{◌≡◌, ◌++◌, ◌∷◌, [], IfOk, OnOk};
ghost use Rattle.ac_policy.specs.Terms.{first_index as first, second_index as second, zero_term};
ghost use Rattle.ac_policy.specs.Sites.{site_at, scalar_write as written_scalar, read_sites, expr_sites, index_sites, cond_sites, stmt_sites, list_sites, sites_of};

use crate::site::{Site, SiteKind};
use crate::terms::{constant, first_index, second_index, zero};
use ac_tree::{Cond, CondKind, Expr, ExprKind, Index, Name, NodeId, Program, Stmt, StmtKind};
use std::alloc::{AllocError, Global};

/// Every read of a name that is no constant, every assignment and every `use`, in the order of nodes.
pub fn sites(alloc: Global, program: &Program) -> Result<Vec<Site>, AllocError>
    ensures { IfOk result (λ found. found.items ≡ sites_of program.now) }
{
    let mut found = Vec::new(alloc);
    add_block(alloc, program.body.as_slice(), program, &mut found)?;
    Ok(found)
}

/// The site of a write to a scalar. The variable of a `for` has none among the sites; its writes are judged by this one, with
/// the node of the `for`.
pub fn scalar_write(alloc: Global, node: NodeId, name: &Name) -> Result<Site, AllocError>
    ensures { IfOk result (λ s. s ≡ written_scalar node name.now) }
{
    let name = name.clone()?;
    let i = zero(alloc)?;
    let j = zero(alloc)?;
    Ok(Site {
        node,
        name,
        kind: SiteKind::Write,
        i,
        j,
    })
}

/// Adds a site that has no indexes.
fn add_scalar(
    alloc: Global,
    node: NodeId,
    name: &Name,
    kind: SiteKind,
    found: &mut Vec<Site>,
) -> Result<(), AllocError>
    ensures { OnOk result (found.new.items ≡ found.old.items ++ site_at node kind name.now zero_term zero_term ∷ []) }
{
    let name = name.clone()?;
    let i = zero(alloc)?;
    let j = zero(alloc)?;
    found.push(Site {
        node,
        name,
        kind,
        i,
        j,
    })?;
    Ok(())
}

/// Adds a site with the indexes of an access.
fn add_indexed(
    alloc: Global,
    node: NodeId,
    name: &Name,
    index: &Index,
    kind: SiteKind,
    program: &Program,
    found: &mut Vec<Site>,
) -> Result<(), AllocError>
    ensures { OnOk result (found.new.items ≡ found.old.items ++ site_at node kind name.now (first program.now index.now) (second program.now index.now) ∷ []) }
{
    let name = name.clone()?;
    let i = first_index(alloc, index, program)?;
    let j = second_index(alloc, index, program)?;
    found.push(Site {
        node,
        name,
        kind,
        i,
        j,
    })?;
    Ok(())
}

/// Adds the read of a name without indexes, where it is no constant.
fn add_get(
    alloc: Global,
    node: NodeId,
    name: &Name,
    program: &Program,
    found: &mut Vec<Site>,
) -> Result<(), AllocError>
    ensures { OnOk result (found.new.items ≡ found.old.items ++ read_sites program.now node name.now zero_term zero_term) }
{
    if constant(program, name).is_some() {
        return Ok(());
    }
    add_scalar(alloc, node, name, SiteKind::Read, found)
}

/// Adds the read of an element, where its name is no constant.
fn add_read(
    alloc: Global,
    node: NodeId,
    name: &Name,
    index: &Index,
    program: &Program,
    found: &mut Vec<Site>,
) -> Result<(), AllocError>
    ensures { OnOk result (found.new.items ≡ found.old.items ++ read_sites program.now node name.now (first program.now index.now) (second program.now index.now)) }
{
    if constant(program, name).is_some() {
        return Ok(());
    }
    add_indexed(alloc, node, name, index, SiteKind::Read, program, found)
}

/// Adds the reads of an expression.
#[cycle(expr_sites)]
fn add_expr(
    alloc: Global,
    expr: &Expr,
    program: &Program,
    found: &mut Vec<Site>,
) -> Result<(), AllocError>
    ensures { OnOk result (found.new.items ≡ found.old.items ++ expr_sites program.now expr.now.node.id expr.now.kind) }
{
    match &expr.kind {
        ExprKind::Num(_) => Ok(()),
        ExprKind::Get(name) => add_get(alloc, expr.node.id, name, program, found),
        ExprKind::Read(name, index) => {
            add_read(alloc, expr.node.id, name, index, program, found)?;
            add_index(alloc, index, program, found)
        }
        ExprKind::Neg(a) => add_expr(alloc, a.get(), program, found),
        ExprKind::Add(a, b) => {
            add_expr(alloc, a.get(), program, found)?;
            add_expr(alloc, b.get(), program, found)
        }
        ExprKind::Sub(a, b) => {
            add_expr(alloc, a.get(), program, found)?;
            add_expr(alloc, b.get(), program, found)
        }
        ExprKind::Mul(a, b) => {
            add_expr(alloc, a.get(), program, found)?;
            add_expr(alloc, b.get(), program, found)
        }
    }
}

/// Adds the reads of the indexes of an access.
#[cycle(expr_sites)]
fn add_index(
    alloc: Global,
    index: &Index,
    program: &Program,
    found: &mut Vec<Site>,
) -> Result<(), AllocError>
    ensures { OnOk result (found.new.items ≡ found.old.items ++ index_sites program.now index.now) }
{
    match index {
        Index::One(a) => add_expr(alloc, a.get(), program, found),
        Index::Two(a, b) => {
            add_expr(alloc, a.get(), program, found)?;
            add_expr(alloc, b.get(), program, found)
        }
    }
}

/// Adds the reads of a condition.
fn add_cond(
    alloc: Global,
    cond: &Cond,
    program: &Program,
    found: &mut Vec<Site>,
) -> Result<(), AllocError>
    ensures { OnOk result (found.new.items ≡ found.old.items ++ cond_sites program.now cond.now.kind) }
{
    match &cond.kind {
        CondKind::True => Ok(()),
        CondKind::False => Ok(()),
        CondKind::Rel(_, a, b) => {
            add_expr(alloc, a.get(), program, found)?;
            add_expr(alloc, b.get(), program, found)
        }
        CondKind::Not(a) => add_cond(alloc, a.get(), program, found),
        CondKind::And(a, b) => {
            add_cond(alloc, a.get(), program, found)?;
            add_cond(alloc, b.get(), program, found)
        }
        CondKind::Or(a, b) => {
            add_cond(alloc, a.get(), program, found)?;
            add_cond(alloc, b.get(), program, found)
        }
    }
}

/// Adds the sites of a statement.
#[cycle(stmt_sites)]
#[tactic(auto, using(crate::proofs::SiteLists::sites_if, crate::proofs::SiteLists::sites_for, crate::proofs::SiteLists::sites_while))]
fn add_stmt(
    alloc: Global,
    stmt: &Stmt,
    program: &Program,
    found: &mut Vec<Site>,
) -> Result<(), AllocError>
    ensures { OnOk result (found.new.items ≡ found.old.items ++ stmt_sites program.now stmt.now.node.id stmt.now.kind) }
{
    let node = stmt.node.id;
    match &stmt.kind {
        StmtKind::Set { name, value } => {
            add_scalar(alloc, node, name, SiteKind::Write, found)?;
            add_expr(alloc, value, program, found)
        }
        StmtKind::Put { name, index, value } => {
            add_indexed(alloc, node, name, index, SiteKind::Write, program, found)?;
            add_index(alloc, index, program, found)?;
            add_expr(alloc, value, program, found)
        }
        StmtKind::If { test, yes, no } => {
            add_cond(alloc, test, program, found)?;
            add_block(alloc, yes.as_slice(), program, found)?;
            add_block(alloc, no.as_slice(), program, found)?;
            Ok(())
        }
        StmtKind::For { lo, hi, body, .. } => {
            add_expr(alloc, lo, program, found)?;
            add_expr(alloc, hi, program, found)?;
            add_block(alloc, body.as_slice(), program, found)?;
            Ok(())
        }
        StmtKind::While { test, body } => {
            add_cond(alloc, test, program, found)?;
            add_block(alloc, body.as_slice(), program, found)?;
            Ok(())
        }
        StmtKind::Hand { name, role } => {
            let role = role.clone()?;
            add_scalar(alloc, node, name, SiteKind::Hand { role }, found)
        }
        StmtKind::Skip => Ok(()),
    }
}

/// Adds the sites of the statements of a block.
#[cycle(stmt_sites)]
fn add_block(
    alloc: Global,
    block: &[Stmt],
    program: &Program,
    found: &mut Vec<Site>,
) -> Result<(), AllocError>
    ensures { OnOk result (found.new.items ≡ found.old.items ++ list_sites program.now block.now) }
{
    for stmt in block {
        add_stmt(alloc, stmt, program, found)?;
    }
    Ok(())
}
