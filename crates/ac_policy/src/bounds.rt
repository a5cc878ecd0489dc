//! The formulas of bounds.
ghost use Rattle.std.specs.Prelude.{◌≡◌, IfOk};
ghost use Rattle.ac_policy.specs.Bounds.{bounds_need};

use crate::extents::{extent_terms, indexes_within};
use crate::site::{Site, SiteKind};
use ac_logic::Formula;
use ac_shared::Shared;
use ac_tree::Program;
use std::alloc::{AllocError, Global};

/// What is to be shown of an access: both indexes are within the extents.
pub fn need(
    alloc: Global,
    program: &Program,
    site: &Site,
) -> Result<Option<Shared<Formula>>, AllocError>
    ensures { IfOk result (λ f. f ≡ bounds_need program.now site.now) }
{
    match &site.kind {
        SiteKind::Hand { .. } => Ok(None),
        _ => {
            let extents = extent_terms(alloc, program, &site.name)?;
            indexes_within(alloc, &extents, &site.i, &site.j)
        }
    }
}
