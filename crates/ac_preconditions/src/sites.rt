//! The sites that stand in a statement or a test.
ghost use Rattle.std.specs.Prelude.{◌≡◌, IfOk};
ghost use Rattle.ac_policy.specs.Sites.{site_at};
ghost use Rattle.ac_policy.specs.Terms.{zero_term, first_index as first, second_index as second};

use ac_logic::Term;
use ac_policy::{Site, SiteKind, first_index, second_index};
use ac_shared::Shared;
use ac_tree::{Index, Name, NodeId, Program};
use std::alloc::{AllocError, Global};

/// A site that has no indexes.
pub fn scalar_site(
    alloc: Global,
    node: NodeId,
    name: &Name,
    kind: SiteKind,
) -> Result<Site, AllocError>
    ensures { IfOk result (λ s. s ≡ site_at node kind name.now zero_term zero_term) }
{
    let name = name.clone()?;
    let i = Shared::new(alloc, Term::Num(0))?;
    let j = Shared::new(alloc, Term::Num(0))?;
    Ok(Site {
        node,
        name,
        kind,
        i,
        j,
    })
}

/// A site with the indexes of an access.
pub fn element_site(
    alloc: Global,
    index: &Index,
    program: &Program,
    node: NodeId,
    name: &Name,
    kind: SiteKind,
) -> Result<Site, AllocError>
    ensures { IfOk result (λ s. s ≡ site_at node kind name.now (first program.now index.now) (second program.now index.now)) }
{
    let name = name.clone()?;
    let i = first_index(alloc, index, program)?;
    let j = second_index(alloc, index, program)?;
    Ok(Site {
        node,
        name,
        kind,
        i,
        j,
    })
}
