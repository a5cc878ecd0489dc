//! The walk of a pair: the nodes that its verification condition visits.
//!
//! A walk has the input declarations, the `for` statements that enclose the cut's statement, that statement, each statement,
//! test and left operand that a path from the cut to the target enters, and the target's node. What a path only leaves is not
//! there. `specs/Walks.antt` defines it by recursion over the tree.
#![tactic(auto, unfolding(crate::specs::Opened::hidden, crate::specs::Opened::expr_shape, crate::specs::Opened::expr_child, crate::specs::Opened::cond_shape, crate::specs::Opened::cond_child, crate::specs::Opened::stmt_shape, crate::specs::Opened::stmt_child))]

pub mod examples;
mod from_cut;
mod onward;
mod targets;
mod test_nodes;
mod visited;

pub use visited::walk;
