//! What one statement, test or expression does to the precondition behind it, and what is known at a cut.
//!
//! A path is followed backwards, from the target that it aims at up to the next cut. Each function here takes one step of it, and
//! says which formula the result stands for; the walk through a program is made of these steps.
#![tactic(auto, unfolding(crate::specs::Opened::formula_shape, crate::specs::Opened::formula_child, crate::specs::Opened::term_shape, crate::specs::Opened::term_child, crate::specs::Opened::array_shape, crate::specs::Opened::array_child, crate::specs::Opened::expr_shape, crate::specs::Opened::expr_child, crate::specs::Opened::cond_shape, crate::specs::Opened::cond_child, crate::specs::Opened::stmt_shape, crate::specs::Opened::stmt_child, crate::specs::Opened::hidden))]

pub mod aim;
pub mod barriers;
pub mod before;
mod changes;
pub mod facts;
pub mod goals;
pub mod hypotheses;
pub mod joins;
mod sites;
mod test_formulas;
