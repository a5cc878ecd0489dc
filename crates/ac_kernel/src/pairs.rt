//! Whether two conditions are of one policy and one pair.
ghost use Rattle.std.specs.Prelude.{◌≡◌, ◌↔◌, IsTrue};

use ac_tree::{Cut, Pair, PolicyName, Target};

/// Whether both are the same policy.
pub fn is_same_policy(a: PolicyName, b: PolicyName) -> bool
    ensures { IsTrue result ↔ (a ≡ b) }
{
    match (a, b) {
        (PolicyName::Init, PolicyName::Init) => true,
        (PolicyName::Bounds, PolicyName::Bounds) => true,
        (PolicyName::Symm, PolicyName::Symm) => true,
        _ => false,
    }
}

/// Whether both lead from the same cut to the same target.
pub fn is_same_pair(a: Pair, b: Pair) -> bool
    ensures { IsTrue result ↔ (a ≡ b) }
{
    is_same_cut(a.cut, b.cut) && is_same_target(a.target, b.target)
}

fn is_same_cut(a: Cut, b: Cut) -> bool
    ensures { IsTrue result ↔ (a ≡ b) }
{
    match (a, b) {
        (Cut::Start, Cut::Start) => true,
        (Cut::Head(m), Cut::Head(n)) => m.0 == n.0,
        (Cut::Exit(m), Cut::Exit(n)) => m.0 == n.0,
        (Cut::After(m), Cut::After(n)) => m.0 == n.0,
        _ => false,
    }
}

fn is_same_target(a: Target, b: Target) -> bool
    ensures { IsTrue result ↔ (a ≡ b) }
{
    match (a, b) {
        (Target::Entry(m), Target::Entry(n)) => m.0 == n.0,
        (Target::Keep(m), Target::Keep(n)) => m.0 == n.0,
        (Target::Barrier(m), Target::Barrier(n)) => m.0 == n.0,
        (Target::Site(m), Target::Site(n)) => m.0 == n.0,
        _ => false,
    }
}
