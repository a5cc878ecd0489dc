//! The tasks of a run, as borrows of its program.

use ac_tree::{Name, Stmt};

/// Tasks that are left: the next statement of a block and those behind it, or a `for` that compares its variable with
/// the number that its end had, or adds one to it.
#[derive(Clone, Copy)]
pub(crate) enum Pending<'p> {
    Block(&'p Stmt, &'p [Stmt]),
    Compare(&'p Name, i128, &'p [Stmt]),
    Advance(&'p Name, i128, &'p [Stmt]),
}
