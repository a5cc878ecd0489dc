//! Whether a run writes a name.
ghost use Rattle.std.specs.Prelude.{◌≡◌};
ghost use Rattle.ac_codes.specs.SideConditions.{writes as writes_name, run_writes as run_writes_name};

use ac_tree::{Name, Stmt, StmtKind};

#[cycle(does_write)]
#[tactic(auto, using(crate::proofs::Rows::write_rules))]
fn does_stmt_write(stmt: &Stmt, name: &Name) -> bool
    ensures { result ≡ writes_name name.now stmt.now.kind }
{
    match &stmt.kind {
        StmtKind::Set { name: written, .. } => *written == *name,
        StmtKind::Put { name: written, .. } => *written == *name,
        StmtKind::If { yes, no, .. } => {
            does_write(yes.as_slice(), name) || does_write(no.as_slice(), name)
        }
        StmtKind::For {
            name: written,
            body,
            ..
        } => *written == *name || does_write(body.as_slice(), name),
        StmtKind::While { body, .. } => does_write(body.as_slice(), name),
        StmtKind::Hand { .. } => false,
        StmtKind::Skip => false,
    }
}

/// Whether a run writes a name, also by a statement inside another.
#[cycle(does_write)]
#[tactic(auto, using(crate::proofs::Dropping::writes_step))]
pub fn does_write(run: &[Stmt], name: &Name) -> bool
    ensures { result ≡ run_writes_name name.now run.now }
{
    for stmt in run {
        if does_stmt_write(stmt, name) {
            return true;
        }
    }
    false
}
