//! Soundness: a program whose verification conditions hold under every valuation never does what the policy forbids.
//!
//! It is proved once, over every policy. `specs/` says what the conditions say by recursion over the tree, what the static
//! rules give, and the invariant of a run; `proofs/` has one lemma for each kind of statement.
#![tactic(auto, unfolding(crate::specs::Opened::formula_shape, crate::specs::Opened::formula_child, crate::specs::Opened::term_shape, crate::specs::Opened::term_child, crate::specs::Opened::array_shape, crate::specs::Opened::array_child, crate::specs::Opened::expr_shape, crate::specs::Opened::expr_child, crate::specs::Opened::cond_shape, crate::specs::Opened::cond_child, crate::specs::Opened::stmt_shape, crate::specs::Opened::stmt_child, crate::specs::Opened::hidden))]

pub mod laws;
