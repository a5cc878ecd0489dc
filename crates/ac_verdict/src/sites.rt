//! The conditions of a supported program, policy by policy.

ghost use Rattle.std.specs.Prelude.{◌≡◌, IfOk};
ghost use Rattle.ac_tree.specs.declared.program.Program.{Program as Tree};
ghost use Rattle.ac_run.specs.StraightWrites.{is_write_within};
ghost use Rattle.ac_verdict.specs.Sites.{outside, conditions_under, unproved_under};

use crate::writes::written;
use ac_names::NameTable;
use ac_tree::{Node, PolicyName, Program, StmtKind};
use sqlite_items::Items;
use std::alloc::{AllocError, Global};

/// How many conditions there are under a policy.
pub(crate) fn conditions_under(policy: PolicyName, program: &Program) -> usize
    ensures { result ≡ conditions_under policy program.now }
{
    match policy {
        PolicyName::Bounds => program.body.len(),
        PolicyName::Init | PolicyName::Symm => 0,
    }
}

/// The nodes of the unproved conditions under a policy, in the order of the text.
pub(crate) fn unproved_under(
    alloc: Global,
    policy: PolicyName,
    program: &Program,
) -> Result<Items<Node>, AllocError>
    ensures { IfOk result (λ nodes. nodes ≡ unproved_under policy program.now) }
{
    match policy {
        PolicyName::Bounds => Ok(Items::from_vec(outside(alloc, program)?)),
        PolicyName::Init | PolicyName::Symm => Ok(Items::new(alloc)),
    }
}

/// The writes whose index is not below the extent of their array, in the order of the text.
fn outside(alloc: Global, program: &Program) -> Result<Vec<Node>, AllocError>
    ensures { IfOk result (λ nodes. nodes.items ≡ outside program.now) }
{
    let names = NameTable::new(alloc, program.items.as_slice())?;
    let mut nodes = Vec::new(alloc);
    for statement in program.body.as_slice() {
        if !is_within(&statement.kind, &names) {
            nodes.push(statement.node)?;
        }
    }
    Ok(nodes)
}

/// Whether the statement writes a literal within its array.
fn is_within(statement: &StmtKind, names: &NameTable<'_>) -> bool
    ensures { (p : Tree) → names.now ≡ p.items → result ≡ is_write_within p statement.now }
{
    match written(statement, names) {
        Some((index, extent)) => index < extent,
        None => false,
    }
}
