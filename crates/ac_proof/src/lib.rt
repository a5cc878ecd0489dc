//! Proofs: the rules of natural deduction, proof trees and certificates, and the checker.
//!
//! A proof is a tree of steps, each with a rule, a goal and the proofs of its premises. `check_proof` accepts a tree exactly
//! where each step is an instance of its rule (`specs/Rules.antt` is the table of the rules), and else it names the first
//! step in preorder that is none. `soundness` says what an accepted tree means: under every valuation in which all
//! hypotheses hold, its goal holds. Where a tree comes from does not matter: nothing here trusts whoever made it.
#![tactic(auto, unfolding(crate::specs::Opened::formula_shape, crate::specs::Opened::formula_child, crate::specs::Opened::term_shape, crate::specs::Opened::term_child, crate::specs::Opened::array_shape, crate::specs::Opened::array_child, crate::specs::Opened::hidden))]

mod arithmetic;
mod array;
mod certificate;
mod check;
mod context;
mod facts;
mod fault;
mod few;
mod instance;
mod known;
mod law;
mod linear;
mod premises;
mod propositional;
mod quantifier;
mod rule;
mod rule_name;
mod tree;

pub use certificate::{CertPart, Certificate, ProvedCondition};
pub use check::check_proof;
pub use fault::CheckFault;
pub use few::has_few_premises;
pub use law::soundness;
pub use rule::Rule;
pub use rule_name::RuleName;
pub use tree::{ProofTree, StepPath};
