//! The formulas of symm.
ghost use Rattle.std.specs.Prelude.{◌≡◌, IfOk};
ghost use Rattle.ac_policy.specs.Symm.{is_listed as is_listed_role, mirrored_formula, symmetric_formula, symm_need};

use crate::extents::{ExtentTerms, extent_terms, for_all_cells};
use crate::site::{Site, SiteKind};
use ac_logic::{ArrayTerm, Formula, Sym, Term};
use ac_shared::Shared;
use ac_tree::{Name, Program};
use std::alloc::{AllocError, Global};

fn is_listed(roles: &[Name], role: &Name) -> bool
    ensures { result ≡ is_listed_role roles.now role.now }
{
    roles.iter().any(|listed| *listed == *role)
}

/// The entry at the indexes is the mirrored one.
fn mirrored(alloc: Global, name: &Name) -> Result<Shared<Formula>, AllocError>
    ensures { IfOk result (λ f. f ≡ mirrored_formula name.now) }
{
    let array = Shared::new(alloc, ArrayTerm::Sym(Sym::Value(name.clone()?)))?;
    let row = Shared::new(alloc, Term::Bound(1))?;
    let column = Shared::new(alloc, Term::Bound(0))?;
    let entry = Term::Read(array.share()?, row.share()?, column.share()?);
    let entry = Shared::new(alloc, entry)?;
    let mirrored = Shared::new(alloc, Term::Read(array, column, row))?;
    Shared::new(alloc, Formula::Eq(entry, mirrored))
}

/// The name has two extents, they are equal, and every entry is the mirrored one.
fn symmetric(
    alloc: Global,
    extents: &ExtentTerms,
    name: &Name,
) -> Result<Shared<Formula>, AllocError>
    ensures { IfOk result (λ f. f ≡ symmetric_formula extents.now name.now) }
{
    match extents {
        ExtentTerms::TwoExtents(rows, columns) => {
            let square = Shared::new(alloc, Formula::Eq(rows.share()?, columns.share()?))?;
            let entries = for_all_cells(alloc, extents, mirrored(alloc, name)?)?;
            Shared::new(alloc, Formula::And(square, entries))
        }
        _ => Shared::new(alloc, Formula::False),
    }
}

/// What is to be shown of a use in one of the roles: the name is a symmetric matrix.
pub fn need(
    alloc: Global,
    program: &Program,
    site: &Site,
    roles: &[Name],
) -> Result<Option<Shared<Formula>>, AllocError>
    ensures { IfOk result (λ f. f ≡ symm_need roles.now program.now site.now) }
{
    match &site.kind {
        SiteKind::Hand { role } if is_listed(roles, role) => {
            let extents = extent_terms(alloc, program, &site.name)?;
            let shown = symmetric(alloc, &extents, &site.name)?;
            Ok(Some(shown))
        }
        _ => Ok(None),
    }
}
