//! Which names an expression or a condition reads.
ghost use Rattle.std.specs.Prelude.{◌≡◌};
ghost use Rattle.ac_tree.specs.StaticRules.{reads, reads_index};
ghost use Rattle.ac_codes.specs.SideConditions.{cond_reads as cond_reads_name};
ghost use Rattle.ac_sameness.specs.Tests.{reads_none as reads_none_of, reads_none_index as reads_none_index_of, cond_reads_none as cond_reads_none_of};

use crate::written::Written;
use ac_tree::{Cond, CondKind, Expr, ExprKind, Index, Name};

/// Whether an expression reads none of the names that a run writes.
#[cycle(reads_none)]
#[tactic(auto, unfolding(crate::specs::Opened::hidden, crate::specs::Opened::expr_shape, crate::specs::Opened::expr_child))]
pub fn reads_none(written: &Written<'_>, expr: &Expr) -> bool
    ensures { result ≡ reads_none_of written.now expr.now.kind }
{
    match &expr.kind {
        ExprKind::Num(_) => true,
        ExprKind::Get(name) => !written.has(name),
        ExprKind::Read(name, index) => !written.has(name) && index_reads_none(written, index),
        ExprKind::Neg(a) => reads_none(written, a.get()),
        ExprKind::Add(a, b) => reads_none(written, a.get()) && reads_none(written, b.get()),
        ExprKind::Sub(a, b) => reads_none(written, a.get()) && reads_none(written, b.get()),
        ExprKind::Mul(a, b) => reads_none(written, a.get()) && reads_none(written, b.get()),
    }
}

#[cycle(reads_none)]
#[tactic(auto, unfolding(crate::specs::Opened::hidden, crate::specs::Opened::expr_shape, crate::specs::Opened::expr_child))]
fn index_reads_none(written: &Written<'_>, index: &Index) -> bool
    ensures { result ≡ reads_none_index_of written.now index.now }
{
    match index {
        Index::One(a) => reads_none(written, a.get()),
        Index::Two(a, b) => reads_none(written, a.get()) && reads_none(written, b.get()),
    }
}

/// Whether a condition reads none of the names that a run writes.
#[tactic(auto, unfolding(crate::specs::Opened::hidden, crate::specs::Opened::cond_shape, crate::specs::Opened::cond_child, crate::specs::Opened::expr_shape, crate::specs::Opened::expr_child))]
pub fn cond_reads_none(written: &Written<'_>, cond: &Cond) -> bool
    ensures { result ≡ cond_reads_none_of written.now cond.now.kind }
{
    match &cond.kind {
        CondKind::True => true,
        CondKind::False => true,
        CondKind::Rel(_, a, b) => reads_none(written, a.get()) && reads_none(written, b.get()),
        CondKind::Not(c) => cond_reads_none(written, c.get()),
        CondKind::And(c, d) => {
            cond_reads_none(written, c.get()) && cond_reads_none(written, d.get())
        }
        CondKind::Or(c, d) => {
            cond_reads_none(written, c.get()) && cond_reads_none(written, d.get())
        }
    }
}

/// Whether an expression reads a name.
#[cycle(does_read)]
#[tactic(auto, unfolding(crate::specs::Opened::hidden, crate::specs::Opened::expr_shape, crate::specs::Opened::expr_child))]
pub fn does_read(expr: &Expr, name: &Name) -> bool
    ensures { result ≡ reads name.now expr.now.kind }
{
    match &expr.kind {
        ExprKind::Num(_) => false,
        ExprKind::Get(read) => *read == *name,
        ExprKind::Read(array, index) => *array == *name || does_index_read(index, name),
        ExprKind::Neg(a) => does_read(a.get(), name),
        ExprKind::Add(a, b) => does_read(a.get(), name) || does_read(b.get(), name),
        ExprKind::Sub(a, b) => does_read(a.get(), name) || does_read(b.get(), name),
        ExprKind::Mul(a, b) => does_read(a.get(), name) || does_read(b.get(), name),
    }
}

#[cycle(does_read)]
#[tactic(auto, unfolding(crate::specs::Opened::hidden, crate::specs::Opened::expr_shape, crate::specs::Opened::expr_child))]
fn does_index_read(index: &Index, name: &Name) -> bool
    ensures { result ≡ reads_index name.now index.now }
{
    match index {
        Index::One(a) => does_read(a.get(), name),
        Index::Two(a, b) => does_read(a.get(), name) || does_read(b.get(), name),
    }
}

/// Whether a condition reads a name.
#[tactic(auto, unfolding(crate::specs::Opened::hidden, crate::specs::Opened::cond_shape, crate::specs::Opened::cond_child, crate::specs::Opened::expr_shape, crate::specs::Opened::expr_child))]
pub fn does_cond_read(cond: &Cond, name: &Name) -> bool
    ensures { result ≡ cond_reads_name name.now cond.now.kind }
{
    match &cond.kind {
        CondKind::True => false,
        CondKind::False => false,
        CondKind::Rel(_, a, b) => does_read(a.get(), name) || does_read(b.get(), name),
        CondKind::Not(c) => does_cond_read(c.get(), name),
        CondKind::And(c, d) => does_cond_read(c.get(), name) || does_cond_read(d.get(), name),
        CondKind::Or(c, d) => does_cond_read(c.get(), name) || does_cond_read(d.get(), name),
    }
}
