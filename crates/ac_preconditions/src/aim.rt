//! What paths aim at, and what is known at places on them.
ghost use Rattle.std.specs.Prelude.{◌≡◌, ◌&&◌};
ghost use Rattle.ac_flow.specs.Leads.{is_site as aims_at_site, is_entry as aims_at_entry, is_keep as aims_at_keep, is_barrier as aims_at_barrier};
ghost use Rattle.ac_preconditions.specs.Outside.{node_of as target_node, is_from as stands_from, is_outside as stands_outside};

use ac_logic::Annotation;
use ac_policy::Policy;
use ac_tree::{NodeId, Program, Target};

/// The target of the paths in a program, the policy, the facts that annotations state at places, a mark for each statement that
/// has facts behind it, and whether the nodes are known to be in order.
#[derive(Drop)]
pub struct Aim<'a, P> {
    pub program: &'a Program,
    pub policy: &'a P,
    pub annotations: &'a [Annotation],
    pub barriers: &'a [bool],
    pub target: Target,
    pub is_ordered: bool,
}

/// The node of a target.
pub fn node_of(target: Target) -> NodeId
    ensures { result ≡ target_node target }
{
    match target {
        Target::Entry(node) => node,
        Target::Keep(node) => node,
        Target::Barrier(node) => node,
        Target::Site(node) => node,
    }
}

/// Whether a node is not before another, if there is one.
fn is_from(node: NodeId, first: Option<NodeId>) -> bool
    ensures { result ≡ stands_from node first }
{
    match first {
        None => false,
        Some(first) => first.0 <= node.0,
    }
}

/// Whether a target is at no node of a statement, by the node of the statement behind it.
fn is_outside(target: Target, node: NodeId, next: Option<NodeId>) -> bool
    ensures { result ≡ stands_outside target node next }
{
    let at = node_of(target);
    at.0 < node.0 || is_from(at, next)
}

/// Whether a target is known to be at no node of a statement.
pub fn is_passed<P: Policy>(aim: &Aim<P>, node: NodeId, next: Option<NodeId>) -> bool
    ensures { result ≡ (aim.now.is_ordered && stands_outside aim.now.target node next) }
{
    aim.is_ordered && is_outside(aim.target, node, next)
}

pub fn is_site(target: Target, node: NodeId) -> bool
    ensures { result ≡ aims_at_site target node }
{
    match target {
        Target::Site(n) => n.0 == node.0,
        _ => false,
    }
}

pub fn is_entry(target: Target, node: NodeId) -> bool
    ensures { result ≡ aims_at_entry target node }
{
    match target {
        Target::Entry(n) => n.0 == node.0,
        _ => false,
    }
}

pub fn is_keep(target: Target, node: NodeId) -> bool
    ensures { result ≡ aims_at_keep target node }
{
    match target {
        Target::Keep(n) => n.0 == node.0,
        _ => false,
    }
}

pub fn is_barrier(target: Target, node: NodeId) -> bool
    ensures { result ≡ aims_at_barrier target node }
{
    match target {
        Target::Barrier(n) => n.0 == node.0,
        _ => false,
    }
}
