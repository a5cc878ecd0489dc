//! The facts that annotations state at places.
ghost use Rattle.std.specs.Prelude.{◌≡◌, IfOk, Bool, true, false, List, []};
ghost use Rattle.ac_conditions.specs.Part.{is_loop, is_after, facts_at};
ghost use Rattle.ac_conditions.specs.Preconditions.{joined as joined_facts, joined_onto};

use ac_logic::{Annotation, Formula};
use ac_shared::Shared;
use ac_tree::{NodeId, Place};
use std::alloc::{AllocError, Global};

fn is_at_loop(place: Place, node: NodeId) -> bool
    ensures { result ≡ is_loop node place }
{
    match place {
        Place::Loop(at) => at.0 == node.0,
        Place::After(_) => false,
    }
}

fn is_behind(place: Place, node: NodeId) -> bool
    ensures { result ≡ is_after node place }
{
    match place {
        Place::After(at) => at.0 == node.0,
        Place::Loop(_) => false,
    }
}

/// The facts of the invariant of a loop.
pub fn loop_facts(
    alloc: Global,
    annotations: &[Annotation],
    node: NodeId,
) -> Result<Vec<Shared<Formula>>, AllocError>
    ensures { IfOk result (λ facts. facts.items ≡ facts_at (is_loop node) annotations.now) }
{
    let mut facts = Vec::new(alloc);
    for annotation in annotations {
        if is_at_loop(annotation.place, node) {
            facts.push(annotation.formula.share()?)?;
        }
    }
    Ok(facts)
}

/// The facts behind a statement.
pub fn facts_behind(
    alloc: Global,
    annotations: &[Annotation],
    node: NodeId,
) -> Result<Vec<Shared<Formula>>, AllocError>
    ensures { IfOk result (λ facts. facts.items ≡ facts_at (is_after node) annotations.now) }
{
    let mut facts = Vec::new(alloc);
    for annotation in annotations {
        if is_behind(annotation.place, node) {
            facts.push(annotation.formula.share()?)?;
        }
    }
    Ok(facts)
}

/// Facts joined by `and` to the left, or `true`.
pub fn joined(alloc: Global, facts: &[Shared<Formula>]) -> Result<Shared<Formula>, AllocError>
    ensures { IfOk result (λ f. f ≡ joined_facts facts.now) }
{
    match facts {
        [] => Shared::new(alloc, Formula::True),
        [first, rest @ ..] => joined_behind(alloc, first, rest),
    }
}

fn joined_behind(
    alloc: Global,
    first: &Shared<Formula>,
    rest: &[Shared<Formula>],
) -> Result<Shared<Formula>, AllocError>
    ensures { IfOk result (λ f. f ≡ joined_onto first.now rest.now) }
{
    let mut whole = first.share()?;
    for fact in rest {
        whole = Shared::new(alloc, Formula::And(whole, fact.share()?))?;
    }
    Ok(whole)
}
