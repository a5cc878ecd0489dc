//! Where a target stands.
ghost use Rattle.std.specs.Prelude.{◌≡◌};
ghost use Rattle.ac_flow.specs.Leads.{is_site, is_entry, is_barrier};
ghost use Rattle.ac_walk.specs.Walks as walks;

use ac_tree::{Expr, ExprKind, Index, NodeId, Target};

/// The node of a target.
pub fn node_of(target: Target) -> NodeId
    ensures { result ≡ walks.target_node target }
{
    match target {
        Target::Entry(node) => node,
        Target::Keep(node) => node,
        Target::Barrier(node) => node,
        Target::Site(node) => node,
    }
}

/// Whether a target is the access of a node.
pub fn is_access(target: Target, node: NodeId) -> bool
    ensures { result ≡ is_site target node }
{
    match target {
        Target::Site(at) => at.0 == node.0,
        Target::Entry(_) => false,
        Target::Keep(_) => false,
        Target::Barrier(_) => false,
    }
}

/// Whether a target is the entry of a loop.
pub fn is_entry_of(target: Target, node: NodeId) -> bool
    ensures { result ≡ is_entry target node }
{
    match target {
        Target::Entry(at) => at.0 == node.0,
        Target::Keep(_) => false,
        Target::Barrier(_) => false,
        Target::Site(_) => false,
    }
}

/// Whether a target is the barrier behind a statement.
pub fn is_behind(target: Target, node: NodeId) -> bool
    ensures { result ≡ is_barrier target node }
{
    match target {
        Target::Barrier(at) => at.0 == node.0,
        Target::Entry(_) => false,
        Target::Keep(_) => false,
        Target::Site(_) => false,
    }
}

/// Whether a target is a read in an expression.
#[cycle(reads)]
pub fn is_read_in(target: Target, expr: &Expr) -> bool
    ensures { result ≡ walks.is_in_expr target expr.now.node expr.now.kind }
{
    match &expr.kind {
        ExprKind::Num(_) => false,
        ExprKind::Get(_) => is_access(target, expr.node.id),
        ExprKind::Read(_, index) => {
            is_read_in_index(target, index) || is_access(target, expr.node.id)
        }
        ExprKind::Neg(a) => is_read_in(target, a.get()),
        ExprKind::Add(a, b) => is_read_in(target, a.get()) || is_read_in(target, b.get()),
        ExprKind::Sub(a, b) => is_read_in(target, a.get()) || is_read_in(target, b.get()),
        ExprKind::Mul(a, b) => is_read_in(target, a.get()) || is_read_in(target, b.get()),
    }
}

/// Whether a target is a read in the indexes of an access.
#[cycle(reads)]
pub fn is_read_in_index(target: Target, index: &Index) -> bool
    ensures { result ≡ walks.is_in_index target index.now }
{
    match index {
        Index::One(a) => is_read_in(target, a.get()),
        Index::Two(a, b) => is_read_in(target, a.get()) || is_read_in(target, b.get()),
    }
}
