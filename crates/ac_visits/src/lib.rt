//! Walks and paths: what the paths of a pair visit, as a relation, and the laws that walks are just that.
//!
//! `specs/Visits.antt` says by the paths of control flow what is visited; a walk is defined by recursion over the tree, and the
//! first law says that both agree. Nothing here runs.
#![tactic(auto, unfolding(crate::specs::Opened::hidden, crate::specs::Opened::expr_shape, crate::specs::Opened::expr_child, crate::specs::Opened::cond_shape, crate::specs::Opened::cond_child, crate::specs::Opened::stmt_shape, crate::specs::Opened::stmt_child))]

pub mod laws;
