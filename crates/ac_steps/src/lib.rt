//! Plans of the prover, and the proofs that are made from them.
//!
//! A plan is a proof on its way: its parts are shared, it names hypotheses by their formulas, and it has a few steps that no
//! rule has, each of which stands for several (`specs/Ways.antt` is their table). `tree_of` makes the proof of a plan in a
//! context, where each hypothesis has a place. What a plan needs of the context is that its hypotheses stand there somewhere,
//! so one plan serves in every context that has them.
#![tactic(auto, unfolding(crate::specs::Opened::formula_shape, crate::specs::Opened::formula_child, crate::specs::Opened::term_shape, crate::specs::Opened::term_child, crate::specs::Opened::array_shape, crate::specs::Opened::array_child, crate::specs::Opened::plan_shape, crate::specs::Opened::plan_child, crate::specs::Opened::hidden))]

mod added;
mod builder;
mod cases;
mod comparisons;
mod facts;
mod hypothesis;
mod laws;
mod lemma;
mod parts;
mod plan;
mod rules;
mod step;
mod usage;

pub use builder::tree_of;
pub use facts::{comparison, comparison_of_contradiction, contradiction};
pub use laws::{
    comparison_law, contradiction_law, more_hypotheses_law, needless_denial_law, reversal_law,
    unused_hypothesis_law,
};
pub use plan::{Plan, Way};
pub use usage::uses;
