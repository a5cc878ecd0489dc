//! How many pairs of a cut and a target a program has, and at which nodes they aim.
//!
//! A short program can have millions of pairs. Here they are counted without a list of them: in one walk, which keeps how
//! many cuts control comes from, and not which.
#![tactic(auto, unfolding(crate::specs::Opened::hidden, crate::specs::Opened::expr_shape, crate::specs::Opened::expr_child, crate::specs::Opened::cond_shape, crate::specs::Opened::cond_child, crate::specs::Opened::stmt_shape, crate::specs::Opened::stmt_child))]

mod pair_count;
mod through;

pub use pair_count::{PairCount, count_pairs, target_node};
