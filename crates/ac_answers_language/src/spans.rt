//! The spans of a program's nodes.
use ac_tree::{Cond, CondKind, Expr, ExprKind, Index, Program, Span, Stmt, StmtKind};
use std::alloc::{AllocError, Global};

/// The span of each node of a program, in the order of their numbers.
pub fn spans_of(alloc: Global, program: &Program) -> Result<Vec<Span>, AllocError> {
    let mut spans = Vec::new(alloc);
    spans.push(program.node.span)?;
    for item in program.items.as_slice().iter() {
        spans.push(item.node.span)?;
    }
    add_block(&mut spans, program.body.as_slice())?;
    Ok(spans)
}

#[cycle(stmt_span)]
fn add_block(spans: &mut Vec<Span>, block: &[Stmt]) -> Result<(), AllocError> {
    for stmt in block.iter() {
        add_stmt(spans, stmt)?;
    }
    Ok(())
}

#[cycle(stmt_span)]
fn add_stmt(spans: &mut Vec<Span>, stmt: &Stmt) -> Result<(), AllocError> {
    spans.push(stmt.node.span)?;
    match &stmt.kind {
        StmtKind::Set { value, .. } => add_expr(spans, value),
        StmtKind::Put { index, value, .. } => {
            add_index(spans, index)?;
            add_expr(spans, value)
        }
        StmtKind::If { test, yes, no } => {
            add_cond(spans, test)?;
            add_block(spans, yes.as_slice())?;
            add_block(spans, no.as_slice())
        }
        StmtKind::For { lo, hi, body, .. } => {
            add_expr(spans, lo)?;
            add_expr(spans, hi)?;
            add_block(spans, body.as_slice())
        }
        StmtKind::While { test, body } => {
            add_cond(spans, test)?;
            add_block(spans, body.as_slice())
        }
        StmtKind::Hand { .. } => Ok(()),
        StmtKind::Skip => Ok(()),
    }
}

fn add_cond(spans: &mut Vec<Span>, cond: &Cond) -> Result<(), AllocError> {
    spans.push(cond.node.span)?;
    match &cond.kind {
        CondKind::True => Ok(()),
        CondKind::False => Ok(()),
        CondKind::Rel(_, a, b) => {
            add_expr(spans, a.get())?;
            add_expr(spans, b.get())
        }
        CondKind::Not(a) => add_cond(spans, a.get()),
        CondKind::And(a, b) => {
            add_cond(spans, a.get())?;
            add_cond(spans, b.get())
        }
        CondKind::Or(a, b) => {
            add_cond(spans, a.get())?;
            add_cond(spans, b.get())
        }
    }
}

#[cycle(expr_span)]
fn add_expr(spans: &mut Vec<Span>, expr: &Expr) -> Result<(), AllocError> {
    spans.push(expr.node.span)?;
    match &expr.kind {
        ExprKind::Num(_) => Ok(()),
        ExprKind::Get(_) => Ok(()),
        ExprKind::Read(_, index) => add_index(spans, index),
        ExprKind::Neg(a) => add_expr(spans, a.get()),
        ExprKind::Add(a, b) => {
            add_expr(spans, a.get())?;
            add_expr(spans, b.get())
        }
        ExprKind::Sub(a, b) => {
            add_expr(spans, a.get())?;
            add_expr(spans, b.get())
        }
        ExprKind::Mul(a, b) => {
            add_expr(spans, a.get())?;
            add_expr(spans, b.get())
        }
    }
}

#[cycle(expr_span)]
fn add_index(spans: &mut Vec<Span>, index: &Index) -> Result<(), AllocError> {
    match index {
        Index::One(a) => add_expr(spans, a.get()),
        Index::Two(a, b) => {
            add_expr(spans, a.get())?;
            add_expr(spans, b.get())
        }
    }
}
