//! What is read of a statement or a declaration whose end is still to come.
use ac_tree::{Expr, Name, Span};

/// A statement or a declaration that is being read: where it begins, and the name that it is about.
pub struct Begun {
    pub start: Span,
    pub name: Name,
}

/// A statement of two expressions whose first is read: an assignment to a cell of two indexes, or a `for`.
pub struct Halfway {
    pub start: Span,
    pub name: Name,
    pub first: Expr,
}
