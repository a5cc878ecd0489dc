//! How many conditions a program has under a policy.

use ac_tree::PolicyName;

/// How many conditions a program has under a policy, and how many of them are unproved.
#[derive(Clone, Copy)]
pub struct Count {
    pub policy: PolicyName,
    pub conditions: usize,
    pub unproved: usize,
}
