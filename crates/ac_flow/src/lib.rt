//! The control flow of a program: its cuts, and its pairs of a cut and a target.
//!
//! Control goes from point to point of a program, whatever its tests give. Some points are cuts, at which the path of a
//! verification condition begins, and some are targets, at which it ends. `specs/` says, in this order, which points there
//! are and how control goes on from each, which targets it can reach from a cut without passing another, the same by
//! recursion over the tree, and the lists of cuts and pairs.
#![tactic(auto, unfolding(crate::specs::Opened::hidden, crate::specs::Opened::expr_shape, crate::specs::Opened::expr_child, crate::specs::Opened::cond_shape, crate::specs::Opened::cond_child, crate::specs::Opened::stmt_shape, crate::specs::Opened::stmt_child))]

mod cut_list;
pub mod examples;
pub mod laws;
pub mod marks;
mod pair_list;
mod through;

pub use cut_list::cuts;
pub use pair_list::pairs;
