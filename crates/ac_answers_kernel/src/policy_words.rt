//! The words of the policies.
use ac_tree::PolicyName;

/// The policy that a word names.
pub fn policy_named(word: &str) -> Option<PolicyName> {
    match word {
        "init" => Some(PolicyName::Init),
        "bounds" => Some(PolicyName::Bounds),
        "symm" => Some(PolicyName::Symm),
        _ => None,
    }
}

/// The word of a policy.
pub fn word_of(policy: PolicyName) -> &'static str {
    match policy {
        PolicyName::Init => "init",
        PolicyName::Bounds => "bounds",
        PolicyName::Symm => "symm",
    }
}
