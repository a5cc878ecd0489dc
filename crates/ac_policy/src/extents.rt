//! The extents of a name as terms, and formulas on the cells within them.
ghost use Rattle.std.specs.Prelude.{◌≡◌, IfOk};
ghost use Rattle.std.specs.Option.{option_copied};
ghost use Rattle.ac_run.specs.Declarations.{kind_in, kind_of as declared_kind};
ghost use Rattle.ac_policy.specs.Extents.{extent_term as term_of_extent, terms_of_extents, extent_terms_in, extent_terms as terms_in, index_within as within_formula, indexes_within as are_within, cell_term as term_of_cell, row_index as row_of, column_index as column_of, for_all_cells as everywhere};

use crate::terms::{literal_term, scalar_term, zero};
use ac_logic::{ArrayTerm, Formula, Sym, Term};
use ac_shared::Shared;
use ac_tree::{Extent, Extents, ItemKind, Name, Program, kind_of};
use std::alloc::{AllocError, Global};

/// The extents of a name as terms: none for a scalar, or one, or rows and columns.
#[derive(Drop)]
pub enum ExtentTerms {
    NoExtent,
    OneExtent(Shared<Term>),
    TwoExtents(Shared<Term>, Shared<Term>),
}

fn extent_term(
    alloc: Global,
    program: &Program,
    extent: &Extent,
) -> Result<Shared<Term>, AllocError>
    ensures { IfOk result (λ t. t ≡ term_of_extent program.now extent.now) }
{
    match extent {
        Extent::Lit(number) => literal_term(alloc, *number),
        Extent::Named(name) => scalar_term(alloc, program, name),
    }
}

fn terms_of(alloc: Global, program: &Program, extents: &Extents) -> Result<ExtentTerms, AllocError>
    ensures { IfOk result (λ z. z ≡ terms_of_extents program.now extents.now) }
{
    match extents {
        Extents::One(extent) => {
            let count = extent_term(alloc, program, extent)?;
            Ok(ExtentTerms::OneExtent(count))
        }
        Extents::Two(first, second) => {
            let rows = extent_term(alloc, program, first)?;
            let columns = extent_term(alloc, program, second)?;
            Ok(ExtentTerms::TwoExtents(rows, columns))
        }
    }
}

/// The extents of a name as terms.
pub fn extent_terms(
    alloc: Global,
    program: &Program,
    name: &Name,
) -> Result<ExtentTerms, AllocError>
    ensures { IfOk result (λ z. z ≡ terms_in program.now name.now) }
{
    match kind_of(program.items.as_slice(), name) {
        Some(ItemKind::InputArray { extents, .. }) => terms_of(alloc, program, extents),
        Some(ItemKind::VarArray { extents }) => terms_of(alloc, program, extents),
        _ => Ok(ExtentTerms::NoExtent),
    }
}

/// `0 <= i and i + 1 <= e`
fn index_within(
    alloc: Global,
    index: &Shared<Term>,
    extent: &Shared<Term>,
) -> Result<Shared<Formula>, AllocError>
    ensures { IfOk result (λ f. f ≡ within_formula index.now extent.now) }
{
    let zero = zero(alloc)?;
    let lower = Shared::new(alloc, Formula::Le(zero, index.share()?))?;
    let one = Shared::new(alloc, Term::Num(1))?;
    let next = Shared::new(alloc, Term::Add(index.share()?, one))?;
    let upper = Shared::new(alloc, Formula::Le(next, extent.share()?))?;
    Shared::new(alloc, Formula::And(lower, upper))
}

/// Both indexes are within the extents; none for a scalar, which has no extent.
pub fn indexes_within(
    alloc: Global,
    extents: &ExtentTerms,
    i: &Shared<Term>,
    j: &Shared<Term>,
) -> Result<Option<Shared<Formula>>, AllocError>
    ensures { IfOk result (λ f. f ≡ are_within extents.now i.now j.now) }
{
    match extents {
        ExtentTerms::NoExtent => Ok(None),
        ExtentTerms::OneExtent(count) => {
            let inside = index_within(alloc, i, count)?;
            Ok(Some(inside))
        }
        ExtentTerms::TwoExtents(rows, columns) => {
            let first = index_within(alloc, i, rows)?;
            let second = index_within(alloc, j, columns)?;
            let inside = Shared::new(alloc, Formula::And(first, second))?;
            Ok(Some(inside))
        }
    }
}

/// The value of a symbol at a cell.
pub fn cell_term(
    alloc: Global,
    extents: &ExtentTerms,
    symbol: Sym,
    i: &Shared<Term>,
    j: &Shared<Term>,
) -> Result<Shared<Term>, AllocError>
    ensures { IfOk result (λ t. t ≡ term_of_cell extents.now symbol i.now j.now) }
{
    match extents {
        ExtentTerms::NoExtent => Shared::new(alloc, Term::Sym(symbol)),
        _ => {
            let array = Shared::new(alloc, ArrayTerm::Sym(symbol))?;
            Shared::new(alloc, Term::Read(array, i.share()?, j.share()?))
        }
    }
}

/// The first index of every cell.
pub fn row_index(alloc: Global, extents: &ExtentTerms) -> Result<Shared<Term>, AllocError>
    ensures { IfOk result (λ t. t ≡ row_of extents.now) }
{
    match extents {
        ExtentTerms::NoExtent => zero(alloc),
        ExtentTerms::OneExtent(_) => Shared::new(alloc, Term::Bound(0)),
        ExtentTerms::TwoExtents(..) => Shared::new(alloc, Term::Bound(1)),
    }
}

/// The second index of every cell.
pub fn column_index(alloc: Global, extents: &ExtentTerms) -> Result<Shared<Term>, AllocError>
    ensures { IfOk result (λ t. t ≡ column_of extents.now) }
{
    match extents {
        ExtentTerms::NoExtent => zero(alloc),
        ExtentTerms::OneExtent(_) => zero(alloc),
        ExtentTerms::TwoExtents(..) => Shared::new(alloc, Term::Bound(0)),
    }
}

/// A formula on the cell at these indexes holds for every cell within the extents.
pub fn for_all_cells(
    alloc: Global,
    extents: &ExtentTerms,
    body: Shared<Formula>,
) -> Result<Shared<Formula>, AllocError>
    ensures { IfOk result (λ f. f ≡ everywhere extents.now body) }
{
    match extents {
        ExtentTerms::NoExtent => Ok(body),
        ExtentTerms::OneExtent(count) => {
            let index = Shared::new(alloc, Term::Bound(0))?;
            let inside = index_within(alloc, &index, count)?;
            let holds = Shared::new(alloc, Formula::Implies(inside, body))?;
            Shared::new(alloc, Formula::All(holds))
        }
        ExtentTerms::TwoExtents(rows, columns) => {
            let outer = Shared::new(alloc, Term::Bound(1))?;
            let inner = Shared::new(alloc, Term::Bound(0))?;
            let first = index_within(alloc, &outer, rows)?;
            let second = index_within(alloc, &inner, columns)?;
            let inside = Shared::new(alloc, Formula::And(first, second))?;
            let holds = Shared::new(alloc, Formula::Implies(inside, body))?;
            let each = Shared::new(alloc, Formula::All(holds))?;
            Shared::new(alloc, Formula::All(each))
        }
    }
}
