//! Which statements have a barrier behind them, by marks that are set once for a whole walk.
ghost use Rattle.std.specs.Prelude.{◌≡◌, IfOk};
ghost use Rattle.ac_conditions.specs.Part.{facts_at, is_after, is_any, places_of};
ghost use Rattle.ac_preconditions.specs.Barriers.{AreMarked};

use crate::aim::Aim;
use ac_flow::marks::{is_marked, mark_places};
use ac_logic::Annotation;
use ac_tree::{NodeId, Place};
use std::alloc::{AllocError, Global};

/// The places of annotations.
fn places(alloc: Global, annotations: &[Annotation]) -> Result<Vec<Place>, AllocError>
    ensures { IfOk result (λ found. found.items ≡ places_of annotations.now) }
{
    let mut found = Vec::new(alloc);
    for annotation in annotations {
        found.push(annotation.place)?;
    }
    Ok(found)
}

/// A mark for each statement that has facts behind it.
pub fn mark_barriers(alloc: Global, annotations: &[Annotation]) -> Result<Vec<bool>, AllocError>
    ensures { IfOk result (λ marks. AreMarked annotations.now marks.items) }
{
    let places = places(alloc, annotations)?;
    mark_places(alloc, places.as_slice())
}

/// Whether a statement has facts behind it, so that a barrier stands there.
pub fn has_barrier<P>(aim: &Aim<P>, node: NodeId) -> bool
    requires { AreMarked aim.now.annotations.now aim.now.barriers.now }
    ensures { result ≡ is_any (facts_at (is_after node) aim.now.annotations.now) }
{
    is_marked(aim.barriers, node)
}
