//! Where each node of a program stands: one walk in preorder over the tree.
ghost use Rattle.std.specs.Prelude.{◌≡◌, ◌-◌, ◌<◌, IfOk, OnOk, length, vec_len};
ghost use Rattle.ac_tree.specs.Added.{Adds, Fills, Opens, Closes, IsNumberOf, at_spot};
ghost use Rattle.ac_tree.specs.Numbering.{expr_nodes, index_nodes, cond_nodes, stmt_nodes, list_nodes, program_nodes};
ghost use Rattle.ac_tree.specs.StaticRules.{index_count};
ghost use Rattle.ac_tree.specs.Positions.{position, part_at, below_expr, below_index, below_cond, below_stmt, list_positions, items_positions, positions_of};

use crate::node::NodeId;
use crate::program::{Cond, CondKind, Expr, ExprKind, Index, Item, Program, Stmt, StmtKind};
use std::alloc::{AllocError, Global};

/// Where a node stands: in which list of which parent and at which place, and the last node below it.
///
/// List 0 of a parent has its declarations, expressions and conditions, list 1 its body or the part for yes, list 2 the part
/// for no. The parent of node 0 is 0, and the last node below a leaf is itself.
#[derive(Clone, Copy)]
pub struct Position {
    pub parent: NodeId,
    pub block: u8,
    pub place: u32,
    pub last: NodeId,
}

/// A place in a list of a parent.
#[derive(Clone, Copy)]
struct Spot {
    parent: u32,
    block: u8,
    place: u32,
}

/// Where each node of a program stands, in the order of their numbers.
pub fn positions(alloc: Global, program: &Program) -> Result<Vec<Position>, AllocError>
    requires { program_nodes program.now < 4294967296 }
    ensures { IfOk result (λ found. found.items ≡ positions_of program.now) }
{
    let spot = Spot {
        parent: 0,
        block: 0,
        place: 0,
    };
    let mut found = Vec::new(alloc);
    let own = open(&mut found, spot)?;
    add_items(&mut found, own, program.items.as_slice())?;
    add_block(&mut found, own, 1, program.body.as_slice())?;
    close(&mut found, spot, own);
    Ok(found)
}

/// A count as a number of 32 bits. Where it doesn't fit it is the greatest, which no caller of `positions` meets.
fn number(count: usize) -> u32
    ensures { IsNumberOf count result }
{
    u32::try_from(count).unwrap_or(u32::MAX)
}

/// Adds a node with nothing below it, and gives its number.
fn open(found: &mut Vec<Position>, spot: Spot) -> Result<u32, AllocError>
    ensures { IfOk result (λ own. Opens spot own found.old.items found.new.items) }
{
    let own = number(found.len());
    found.push(position_at(spot, own))?;
    Ok(own)
}

/// Tells a node that all that was added behind it is below it.
fn close(found: &mut Vec<Position>, spot: Spot, own: u32)
    requires { own < vec_len found.old }
    ensures { Closes spot own found.old.items found.new.items }
{
    let last = number(found.len() - 1);
    found[own as usize] = position_at(spot, last);
}

fn position_at(spot: Spot, last: u32) -> Position
    ensures { result ≡ position spot.parent spot.block spot.place last }
{
    Position {
        parent: NodeId(spot.parent),
        block: spot.block,
        place: spot.place,
        last: NodeId(last),
    }
}

#[cycle(expr_position)]
fn add_expr(
    found: &mut Vec<Position>,
    parent: u32,
    place: u32,
    expr: &Expr,
) -> Result<(), AllocError>
    ensures { OnOk result (Adds (expr_nodes expr.now.kind) (part_at parent place (below_expr expr.now.kind)) found.old.items found.new.items) }
{
    let spot = Spot {
        parent,
        block: 0,
        place,
    };
    let own = open(found, spot)?;
    add_operands(found, own, &expr.kind)?;
    close(found, spot, own);
    Ok(())
}

#[cycle(expr_position)]
fn add_operands(found: &mut Vec<Position>, own: u32, kind: &ExprKind) -> Result<(), AllocError>
    ensures { OnOk result (Fills (expr_nodes kind.now) (below_expr kind.now own) found.old.items found.new.items) }
{
    match kind {
        ExprKind::Num(_) => Ok(()),
        ExprKind::Get(_) => Ok(()),
        ExprKind::Read(_, index) => add_index(found, own, index),
        ExprKind::Neg(a) => add_expr(found, own, 0, a.get()),
        ExprKind::Add(a, b) | ExprKind::Sub(a, b) | ExprKind::Mul(a, b) => {
            add_expr(found, own, 0, a.get())?;
            add_expr(found, own, 1, b.get())
        }
    }
}

#[cycle(expr_position)]
fn add_index(found: &mut Vec<Position>, own: u32, index: &Index) -> Result<(), AllocError>
    ensures { OnOk result (Adds (index_nodes index.now) (below_index index.now own) found.old.items found.new.items) }
{
    match index {
        Index::One(a) => add_expr(found, own, 0, a.get()),
        Index::Two(a, b) => {
            add_expr(found, own, 0, a.get())?;
            add_expr(found, own, 1, b.get())
        }
    }
}

#[cycle(cond_position)]
fn add_cond(
    found: &mut Vec<Position>,
    parent: u32,
    place: u32,
    cond: &Cond,
) -> Result<(), AllocError>
    ensures { OnOk result (Adds (cond_nodes cond.now.kind) (part_at parent place (below_cond cond.now.kind)) found.old.items found.new.items) }
{
    let spot = Spot {
        parent,
        block: 0,
        place,
    };
    let own = open(found, spot)?;
    add_parts(found, own, &cond.kind)?;
    close(found, spot, own);
    Ok(())
}

#[cycle(cond_position)]
fn add_parts(found: &mut Vec<Position>, own: u32, kind: &CondKind) -> Result<(), AllocError>
    ensures { OnOk result (Fills (cond_nodes kind.now) (below_cond kind.now own) found.old.items found.new.items) }
{
    match kind {
        CondKind::True => Ok(()),
        CondKind::False => Ok(()),
        CondKind::Rel(_, a, b) => {
            add_expr(found, own, 0, a.get())?;
            add_expr(found, own, 1, b.get())
        }
        CondKind::Not(a) => add_cond(found, own, 0, a.get()),
        CondKind::And(a, b) | CondKind::Or(a, b) => {
            add_cond(found, own, 0, a.get())?;
            add_cond(found, own, 1, b.get())
        }
    }
}

#[cycle(stmt_position)]
fn add_stmt(found: &mut Vec<Position>, spot: Spot, stmt: &Stmt) -> Result<(), AllocError>
    ensures { OnOk result (Adds (stmt_nodes stmt.now.kind) (at_spot spot (below_stmt stmt.now.kind)) found.old.items found.new.items) }
{
    let own = open(found, spot)?;
    add_inner(found, own, &stmt.kind)?;
    close(found, spot, own);
    Ok(())
}

/// Adds the expressions, the condition and the blocks of a statement.
#[cycle(stmt_position)]
fn add_inner(found: &mut Vec<Position>, own: u32, kind: &StmtKind) -> Result<(), AllocError>
    ensures { OnOk result (Fills (stmt_nodes kind.now) (below_stmt kind.now own) found.old.items found.new.items) }
{
    match kind {
        StmtKind::Set { value, .. } => add_expr(found, own, 0, value),
        StmtKind::Put { index, value, .. } => {
            add_index(found, own, index)?;
            add_expr(found, own, index_places(index), value)
        }
        StmtKind::If { test, yes, no } => {
            add_cond(found, own, 0, test)?;
            add_block(found, own, 1, yes.as_slice())?;
            add_block(found, own, 2, no.as_slice())
        }
        StmtKind::For { lo, hi, body, .. } => {
            add_expr(found, own, 0, lo)?;
            add_expr(found, own, 1, hi)?;
            add_block(found, own, 1, body.as_slice())
        }
        StmtKind::While { test, body } => {
            add_cond(found, own, 0, test)?;
            add_block(found, own, 1, body.as_slice())
        }
        StmtKind::Hand { .. } => Ok(()),
        StmtKind::Skip => Ok(()),
    }
}

/// Adds the statements of a list of a node.
#[cycle(stmt_position)]
fn add_block(
    found: &mut Vec<Position>,
    parent: u32,
    block: u8,
    stmts: &[Stmt],
) -> Result<(), AllocError>
    ensures { OnOk result (Adds (list_nodes stmts.now) (list_positions stmts.now parent block 0) found.old.items found.new.items) }
{
    for (i, stmt) in stmts.iter().enumerate() {
        let place = number(i);
        add_stmt(
            found,
            Spot {
                parent,
                block,
                place,
            },
            stmt,
        )?;
    }
    Ok(())
}

/// The place behind the expressions of an index.
#[tactic(auto, using(crate::proofs::FirstFaults::index_count_rules))]
fn index_places(index: &Index) -> u32
    ensures { result ≡ index_count index.now }
{
    match index {
        Index::One(_) => 1,
        Index::Two(..) => 2,
    }
}

fn add_items(found: &mut Vec<Position>, parent: u32, items: &[Item]) -> Result<(), AllocError>
    ensures { OnOk result (Adds (length items.now) (items_positions items.now parent 0) found.old.items found.new.items) }
{
    for i in 0..items.len() {
        let place = number(i);
        open(
            found,
            Spot {
                parent,
                block: 0,
                place,
            },
        )?;
    }
    Ok(())
}
