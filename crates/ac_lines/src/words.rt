//! The words and nodes of policies, control points, targets and places.
ghost use Rattle.std.specs.Prelude.{◌≡◌};
ghost use Rattle.ac_lines.specs.Words.{policy_word as word_of_policy, cut_word as word_of_cut, cut_node as node_of_cut, target_word as word_of_target, target_node as node_of_target, place_word as word_of_place, place_node as node_of_place};

use ac_tree::{Cut, Place, PolicyName, Target};

/// The word of a policy.
pub fn policy_word(policy: PolicyName) -> &'static str
    ensures { result.now ≡ word_of_policy policy }
{
    match policy {
        PolicyName::Init => "init",
        PolicyName::Bounds => "bounds",
        PolicyName::Symm => "symm",
    }
}

/// The word of a control point.
pub fn cut_word(cut: Cut) -> &'static str
    ensures { result.now ≡ word_of_cut cut }
{
    match cut {
        Cut::Start => "start",
        Cut::Head(_) => "head",
        Cut::Exit(_) => "exit",
        Cut::After(_) => "after",
    }
}

/// The node of a control point, and 0 at the start.
pub fn cut_node(cut: Cut) -> u32
    ensures { result ≡ node_of_cut cut }
{
    match cut {
        Cut::Start => 0,
        Cut::Head(node) => node.0,
        Cut::Exit(node) => node.0,
        Cut::After(node) => node.0,
    }
}

/// The word of a target.
pub fn target_word(target: Target) -> &'static str
    ensures { result.now ≡ word_of_target target }
{
    match target {
        Target::Entry(_) => "entry",
        Target::Keep(_) => "keep",
        Target::Barrier(_) => "barrier",
        Target::Site(_) => "site",
    }
}

/// The node of a target.
pub fn target_node(target: Target) -> u32
    ensures { result ≡ node_of_target target }
{
    match target {
        Target::Entry(node) => node.0,
        Target::Keep(node) => node.0,
        Target::Barrier(node) => node.0,
        Target::Site(node) => node.0,
    }
}

/// The word of a place.
pub fn place_word(place: Place) -> &'static str
    ensures { result.now ≡ word_of_place place }
{
    match place {
        Place::Loop(_) => "loop",
        Place::After(_) => "after",
    }
}

/// The node of a place.
pub fn place_node(place: Place) -> u32
    ensures { result ≡ node_of_place place }
{
    match place {
        Place::Loop(node) => node.0,
        Place::After(node) => node.0,
    }
}
