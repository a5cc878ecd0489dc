//! The policies of a pattern.
ghost use Rattle.std.specs.Prelude.{◌≡◌, ◌↔◌, IsTrue};
ghost use Rattle.ac_pattern_keys.specs.Keys.{differ as differ_by, are_policies as are_policies_list, is_init_alone as is_init_alone_list};

use ac_tree::PolicyName;

fn differ(a: PolicyName, b: PolicyName) -> bool
    ensures { result ≡ differ_by a b }
{
    match (a, b) {
        (PolicyName::Init, PolicyName::Init) => false,
        (PolicyName::Bounds, PolicyName::Bounds) => false,
        (PolicyName::Symm, PolicyName::Symm) => false,
        _ => true,
    }
}

/// Whether these are one to three different policies.
pub fn are_policies(policies: &[PolicyName]) -> bool
    ensures { result ≡ are_policies_list policies.now }
{
    match policies {
        [_] => true,
        [a, b] => differ(*a, *b),
        [a, b, c] => differ(*a, *b) && differ(*a, *c) && differ(*b, *c),
        _ => false,
    }
}

/// Whether the policies are `init` and no other, so that formulas may speak of shadow variables.
pub fn is_init_alone(policies: &[PolicyName]) -> bool
    ensures { result ≡ is_init_alone_list policies.now }
{
    match policies {
        [PolicyName::Init] => true,
        _ => false,
    }
}
