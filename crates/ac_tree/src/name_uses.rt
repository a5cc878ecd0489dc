//! The rules on what expressions and conditions name: each name is declared and has as many indexes as extents.
ghost use Rattle.std.specs.Prelude.{◌≡◌};
ghost use Rattle.ac_tree.specs.StaticRules.{broken, kind_in, first_fault, index_tests, use_tests, index_count, expr_faults, index_faults, cond_faults};
ghost use Rattle.ac_tree.specs.FirstFault.{fault_of};

use crate::declarations::rank_of;
use crate::declared_names::DeclaredNames;
use crate::name::Name;
use crate::node::NodeId;
use crate::program::{Cond, CondKind, Expr, ExprKind, Index};
use crate::rule;
use crate::static_rules::{StaticFault, unless};

/// A name with so many indexes.
fn check_use<D: DeclaredNames>(
    names: &D,
    node: NodeId,
    name: &Name,
    indexes: u8,
) -> Result<(), StaticFault>
    ensures { fault_of result ≡ first_fault (broken node (use_tests (kind_in (D.listed names.now) name.now) indexes)) }
{
    match names.kind_of(name) {
        None => Err(StaticFault {
            rule: rule::UNDECLARED_NAME,
            node,
        }),
        Some(kind) => check_indexes(node, rank_of(kind), indexes),
    }
}

pub fn check_indexes(node: NodeId, rank: u8, indexes: u8) -> Result<(), StaticFault>
    ensures { fault_of result ≡ first_fault (broken node (index_tests rank indexes)) }
{
    unless(rule::INDEXED_SCALAR, rank == 0 && indexes != 0, node)?;
    unless(rule::WRONG_INDEXES, rank != 0 && indexes != rank, node)
}

#[tactic(auto, using(crate::proofs::FirstFaults::index_count_rules))]
pub fn indexes_of(index: &Index) -> u8
    ensures { result ≡ index_count index.now }
{
    match index {
        Index::One(_) => 1,
        Index::Two(..) => 2,
    }
}

#[cycle(expr)]
#[tactic(auto, using(crate::proofs::FirstFaults::expr_fault_rules))]
pub fn check_expr<D: DeclaredNames>(names: &D, expr: &Expr) -> Result<(), StaticFault>
    ensures { fault_of result ≡ first_fault (expr_faults (D.listed names.now) expr.now.node.id expr.now.kind) }
{
    match &expr.kind {
        ExprKind::Num(_) => Ok(()),
        ExprKind::Get(name) => check_use(names, expr.node.id, name, 0),
        ExprKind::Read(name, index) => {
            check_use(names, expr.node.id, name, indexes_of(index))?;
            check_index(names, index)
        }
        ExprKind::Neg(a) => check_expr(names, a.get()),
        ExprKind::Add(a, b) => {
            check_expr(names, a.get())?;
            check_expr(names, b.get())
        }
        ExprKind::Sub(a, b) => {
            check_expr(names, a.get())?;
            check_expr(names, b.get())
        }
        ExprKind::Mul(a, b) => {
            check_expr(names, a.get())?;
            check_expr(names, b.get())
        }
    }
}

#[cycle(expr)]
#[tactic(auto, using(crate::proofs::FirstFaults::index_fault_rules))]
pub fn check_index<D: DeclaredNames>(names: &D, index: &Index) -> Result<(), StaticFault>
    ensures { fault_of result ≡ first_fault (index_faults (D.listed names.now) index.now) }
{
    match index {
        Index::One(a) => check_expr(names, a.get()),
        Index::Two(a, b) => {
            check_expr(names, a.get())?;
            check_expr(names, b.get())
        }
    }
}

#[tactic(auto, using(crate::proofs::FirstFaults::cond_fault_rules))]
pub fn check_cond<D: DeclaredNames>(names: &D, cond: &Cond) -> Result<(), StaticFault>
    ensures { fault_of result ≡ first_fault (cond_faults (D.listed names.now) cond.now.kind) }
{
    match &cond.kind {
        CondKind::True => Ok(()),
        CondKind::False => Ok(()),
        CondKind::Rel(_, a, b) => {
            check_expr(names, a.get())?;
            check_expr(names, b.get())
        }
        CondKind::Not(a) => check_cond(names, a.get()),
        CondKind::And(a, b) => {
            check_cond(names, a.get())?;
            check_cond(names, b.get())
        }
        CondKind::Or(a, b) => {
            check_cond(names, a.get())?;
            check_cond(names, b.get())
        }
    }
}
