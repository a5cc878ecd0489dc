//! What a policy file selects, read to the end.
//!
//! A `PolicySet` has the selected policies, the roles of symm and the patterns that are looked for; `any_policy` gives one of
//! the policies with what it needs of the set.
#![tactic(auto)]

mod policy_set;

pub use policy_set::{PolicySet, any_policy};
