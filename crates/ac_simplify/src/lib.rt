//! The simplifier of formulas: sixteen rules, applied from the leaves up until none applies.
#![tactic(auto, using(crate::proofs::Places::walk_rules), unfolding(crate::specs::Opened::formula_shape, crate::specs::Opened::formula_child, crate::specs::Opened::hidden))]

mod first_rule;
mod rewrite;
mod rule;
mod walk;

pub use rewrite::{Rewrite, Simplified};
pub use rule::RewriteRule;
pub use walk::simplify;
