//! Which values the keys of a pattern may have: its name, its policies, the metavariables that it names beside its code, and
//! the formulas that it gives.
#![tactic(auto, unfolding(crate::specs::Opened::formula_shape, crate::specs::Opened::formula_child, crate::specs::Opened::term_shape, crate::specs::Opened::term_child, crate::specs::Opened::array_shape, crate::specs::Opened::array_child, crate::specs::Opened::hidden))]

mod annotations;
mod named_metavariables;
mod names;
mod policies;

pub use annotations::is_annotation;
pub use named_metavariables::{are_apart, are_fixed, is_hot};
pub use names::is_pattern_name;
pub use policies::{are_policies, is_init_alone};
