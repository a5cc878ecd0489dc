//! Whether trees of a program are the same up to nodes. It takes no memory, and its time is linear in the smaller tree.
ghost use Rattle.std.specs.Prelude.{◌≡◌};
ghost use Rattle.ac_codes.specs.Sameness.{same_expr as same_expr_of, same_index as same_index_of, same_relation as same_relation_of, same_cond as same_cond_of, same_stmt as same_stmt_of, same_run as same_run_of};

use ac_tree::{Cond, CondKind, Expr, ExprKind, Index, RelOp, Stmt, StmtKind};

/// Whether two expressions are the same up to nodes.
#[cycle(same_expr)]
#[tactic(auto, unfolding(crate::specs::Opened::hidden, crate::specs::Opened::expr_shape, crate::specs::Opened::expr_child))]
pub fn same_expr(a: &Expr, b: &Expr) -> bool
    ensures { result ≡ same_expr_of a.now.kind b.now.kind }
{
    match (&a.kind, &b.kind) {
        (ExprKind::Num(k), ExprKind::Num(l)) => *k == *l,
        (ExprKind::Get(x), ExprKind::Get(y)) => *x == *y,
        (ExprKind::Read(x, i), ExprKind::Read(y, j)) => *x == *y && same_index(i, j),
        (ExprKind::Neg(c), ExprKind::Neg(d)) => same_expr(c.get(), d.get()),
        (ExprKind::Add(c, d), ExprKind::Add(e, f)) => {
            same_expr(c.get(), e.get()) && same_expr(d.get(), f.get())
        }
        (ExprKind::Sub(c, d), ExprKind::Sub(e, f)) => {
            same_expr(c.get(), e.get()) && same_expr(d.get(), f.get())
        }
        (ExprKind::Mul(c, d), ExprKind::Mul(e, f)) => {
            same_expr(c.get(), e.get()) && same_expr(d.get(), f.get())
        }
        _ => false,
    }
}

#[cycle(same_expr)]
#[tactic(auto, unfolding(crate::specs::Opened::hidden, crate::specs::Opened::expr_shape, crate::specs::Opened::expr_child))]
fn same_index(a: &Index, b: &Index) -> bool
    ensures { result ≡ same_index_of a.now b.now }
{
    match (a, b) {
        (Index::One(c), Index::One(d)) => same_expr(c.get(), d.get()),
        (Index::Two(c, d), Index::Two(e, f)) => {
            same_expr(c.get(), e.get()) && same_expr(d.get(), f.get())
        }
        _ => false,
    }
}

/// Whether two relations are the same.
pub fn same_relation(a: RelOp, b: RelOp) -> bool
    ensures { result ≡ same_relation_of a b }
{
    match (a, b) {
        (RelOp::Eq, RelOp::Eq) => true,
        (RelOp::Ne, RelOp::Ne) => true,
        (RelOp::Lt, RelOp::Lt) => true,
        (RelOp::Le, RelOp::Le) => true,
        (RelOp::Gt, RelOp::Gt) => true,
        (RelOp::Ge, RelOp::Ge) => true,
        _ => false,
    }
}

/// Whether two conditions are the same up to nodes.
#[tactic(auto, unfolding(crate::specs::Opened::hidden, crate::specs::Opened::expr_shape, crate::specs::Opened::expr_child, crate::specs::Opened::cond_shape, crate::specs::Opened::cond_child))]
pub fn same_cond(a: &Cond, b: &Cond) -> bool
    ensures { result ≡ same_cond_of a.now.kind b.now.kind }
{
    match (&a.kind, &b.kind) {
        (CondKind::True, CondKind::True) => true,
        (CondKind::False, CondKind::False) => true,
        (CondKind::Rel(r, c, d), CondKind::Rel(q, e, f)) => {
            same_relation(*r, *q) && same_expr(c.get(), e.get()) && same_expr(d.get(), f.get())
        }
        (CondKind::Not(c), CondKind::Not(d)) => same_cond(c.get(), d.get()),
        (CondKind::And(c, d), CondKind::And(e, f)) => {
            same_cond(c.get(), e.get()) && same_cond(d.get(), f.get())
        }
        (CondKind::Or(c, d), CondKind::Or(e, f)) => {
            same_cond(c.get(), e.get()) && same_cond(d.get(), f.get())
        }
        _ => false,
    }
}

#[cycle(same_stmt)]
#[tactic(auto, using(crate::proofs::Rows::same_stmt_rules))]
fn same_stmt(a: &Stmt, b: &Stmt) -> bool
    ensures { result ≡ same_stmt_of a.now.kind b.now.kind }
{
    match (&a.kind, &b.kind) {
        (StmtKind::Set { name: x, value: e }, StmtKind::Set { name: y, value: f }) => {
            *x == *y && same_expr(e, f)
        }
        (
            StmtKind::Put {
                name: x,
                index: i,
                value: e,
            },
            StmtKind::Put {
                name: y,
                index: j,
                value: f,
            },
        ) => *x == *y && same_index(i, j) && same_expr(e, f),
        (
            StmtKind::If {
                test: c,
                yes: xs,
                no: ys,
            },
            StmtKind::If {
                test: d,
                yes: zs,
                no: ws,
            },
        ) => {
            same_cond(c, d)
                && same_run(xs.as_slice(), zs.as_slice())
                && same_run(ys.as_slice(), ws.as_slice())
        }
        (
            StmtKind::For {
                name: x,
                lo: a,
                hi: b,
                body: xs,
            },
            StmtKind::For {
                name: y,
                lo: c,
                hi: d,
                body: zs,
            },
        ) => {
            *x == *y && same_expr(a, c) && same_expr(b, d) && same_run(xs.as_slice(), zs.as_slice())
        }
        (StmtKind::While { test: c, body: xs }, StmtKind::While { test: d, body: zs }) => {
            same_cond(c, d) && same_run(xs.as_slice(), zs.as_slice())
        }
        (StmtKind::Hand { name: x, role: r }, StmtKind::Hand { name: y, role: q }) => {
            *x == *y && *r == *q
        }
        (StmtKind::Skip, StmtKind::Skip) => true,
        _ => false,
    }
}

/// Whether two runs of statements are the same up to nodes.
#[cycle(same_stmt)]
#[tactic(auto, using(crate::proofs::Dropping::same_run_rules))]
pub fn same_run(a: &[Stmt], b: &[Stmt]) -> bool
    ensures { result ≡ same_run_of a.now b.now }
{
    if a.len() != b.len() {
        return false;
    }
    for (at, stmt) in a.iter().enumerate() {
        if !same_stmt(stmt, &b[at]) {
            return false;
        }
    }
    true
}
