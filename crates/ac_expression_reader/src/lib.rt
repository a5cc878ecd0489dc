//! The machines that read the tokens of expressions and conditions forwards.
//!
//! Each takes one token after another and never goes back. Its definition stands in `specs/`; the laws in `proofs/` say that
//! it reads exactly what the grammar spells and stops exactly at the first token at which nothing continues.
//!
//! What is given up is handed to a call as a whole: a drop at the end of a scope is unrolled there, and proved, by the cases of
//! each part.
#![tactic(auto)]

pub mod children;
pub mod condition;
pub mod expression;
pub mod refusal;
pub mod stack;
