//! The door: a certificate is accepted only where its proofs show every verification condition of the program, made anew.
//!
//! `verify_part` makes the conditions of a program under a policy and the annotations of a part of a certificate, compares
//! each with the entry at its place, and checks the entry's proof. Whatever made the certificate, an accepted part says that
//! no run of the program has an event that the policy forbids. `specs/` says, in this order, at which places an annotation
//! may stand, which annotations are well formed, when an entry shows a condition, and why a part is refused.
#![tactic(auto, unfolding(crate::specs::Opened::formula_shape, crate::specs::Opened::formula_child, crate::specs::Opened::term_shape, crate::specs::Opened::term_child, crate::specs::Opened::array_shape, crate::specs::Opened::array_child, crate::specs::Opened::expr_shape, crate::specs::Opened::expr_child, crate::specs::Opened::cond_shape, crate::specs::Opened::cond_child, crate::specs::Opened::stmt_shape, crate::specs::Opened::stmt_child, crate::specs::Opened::hidden))]

mod annotations;
mod entries;
mod indexes;
pub mod laws;
mod pairs;
mod places;
mod ranks;
mod refused;
mod regenerate;
mod verify;

pub use annotations::first_ill_formed;
pub use indexes::has_small_indexes;
pub use pairs::is_same_policy;
pub use refused::Refused;
pub use verify::verify_part;
