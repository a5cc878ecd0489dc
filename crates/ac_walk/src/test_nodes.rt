//! The nodes of tests that control enters.
ghost use Rattle.std.specs.Prelude.{◌≡◌, ◌∷◌, ◌++◌, IfOk, OnOk};
ghost use Rattle.ac_walk.specs.Walks.{is_in_cond, lefts};

use crate::targets::is_read_in;
use ac_tree::{Cond, CondKind, NodeId, Target};
use std::alloc::AllocError;

/// Adds a test and the left operands in it that control enters, up to the target, and says whether the target is in it.
#[cycle(lefts)]
pub fn add_test(found: &mut Vec<NodeId>, target: Target, test: &Cond) -> Result<bool, AllocError>
    ensures met { IfOk result (λ met. met ≡ is_in_cond target test.now.kind) }
    ensures added { OnOk result (found.new.items ≡ found.old.items ++ test.now.node.id ∷ lefts target test.now.kind) }
{
    found.push(test.node.id)?;
    add_lefts(found, target, test)
}

#[cycle(lefts)]
fn add_lefts(found: &mut Vec<NodeId>, target: Target, cond: &Cond) -> Result<bool, AllocError>
    ensures met { IfOk result (λ met. met ≡ is_in_cond target cond.now.kind) }
    ensures added { OnOk result (found.new.items ≡ found.old.items ++ lefts target cond.now.kind) }
{
    match &cond.kind {
        CondKind::True => Ok(false),
        CondKind::False => Ok(false),
        CondKind::Rel(_, a, b) => Ok(is_read_in(target, a.get()) || is_read_in(target, b.get())),
        CondKind::Not(a) => add_lefts(found, target, a.get()),
        CondKind::And(a, b) => {
            if add_test(found, target, a.get())? {
                return Ok(true);
            }
            add_lefts(found, target, b.get())
        }
        CondKind::Or(a, b) => {
            if add_test(found, target, a.get())? {
                return Ok(true);
            }
            add_lefts(found, target, b.get())
        }
    }
}
