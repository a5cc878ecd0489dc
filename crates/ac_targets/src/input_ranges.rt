//! The hypotheses on inputs: the numbers of each lie in its declared range.
ghost use Rattle.std.specs.Prelude.{◌≡◌, ◌++◌, IfOk, OnOk};
ghost use Rattle.ac_logic.specs.declared.formula.Sym.TheVariants as symbol;
ghost use Rattle.ac_policy.specs.Extents.{extent_term as term_of_extent, terms_of_extents, cell_term as term_of_cell, row_index, column_index};
ghost use Rattle.ac_conditions.specs.Ranges.{cells_between as cells_lie_between, item_ranges, labelled_ranges, ranges as all_ranges};

use ac_logic::{ArrayTerm, Formula, LabelKind, Sym, Term};
use ac_policy::{ExtentTerms, for_all_cells, literal_term, scalar_term};
use ac_preconditions::joins::labelled;
use ac_shared::Shared;
use ac_tree::{Extent, Extents, Item, ItemKind, Name, Program};
use std::alloc::{AllocError, Global};

fn extent_term(
    alloc: Global,
    extent: &Extent,
    program: &Program,
) -> Result<Shared<Term>, AllocError>
    ensures { IfOk result (λ t. t ≡ term_of_extent program.now extent.now) }
{
    match extent {
        Extent::Lit(number) => literal_term(alloc, *number),
        Extent::Named(name) => scalar_term(alloc, program, name),
    }
}

/// Declared extents as terms.
fn extent_terms(
    alloc: Global,
    extents: &Extents,
    program: &Program,
) -> Result<ExtentTerms, AllocError>
    ensures { IfOk result (λ z. z ≡ terms_of_extents program.now extents.now) }
{
    match extents {
        Extents::One(extent) => {
            let count = extent_term(alloc, extent, program)?;
            Ok(ExtentTerms::OneExtent(count))
        }
        Extents::Two(first, second) => {
            let rows = extent_term(alloc, first, program)?;
            let columns = extent_term(alloc, second, program)?;
            Ok(ExtentTerms::TwoExtents(rows, columns))
        }
    }
}

/// The value of a name at each cell, as the ranges of inputs speak of it.
fn value_at_cells(
    alloc: Global,
    extents: &ExtentTerms,
    name: &Name,
) -> Result<Shared<Term>, AllocError>
    ensures { IfOk result (λ t. t ≡ term_of_cell extents.now (symbol.Value name.now) (row_index extents.now) (column_index extents.now)) }
{
    let value = Sym::Value(name.clone()?);
    match extents {
        ExtentTerms::NoExtent => Shared::new(alloc, Term::Sym(value)),
        ExtentTerms::OneExtent(_) => {
            let array = Shared::new(alloc, ArrayTerm::Sym(value))?;
            let row = Shared::new(alloc, Term::Bound(0))?;
            let column = Shared::new(alloc, Term::Num(0))?;
            Shared::new(alloc, Term::Read(array, row, column))
        }
        ExtentTerms::TwoExtents(..) => {
            let array = Shared::new(alloc, ArrayTerm::Sym(value))?;
            let row = Shared::new(alloc, Term::Bound(1))?;
            let column = Shared::new(alloc, Term::Bound(0))?;
            Shared::new(alloc, Term::Read(array, row, column))
        }
    }
}

/// Every cell of a name has a number between these.
fn cells_between(
    alloc: Global,
    extents: &ExtentTerms,
    name: &Name,
    lo: i64,
    hi: i64,
) -> Result<Shared<Formula>, AllocError>
    ensures { IfOk result (λ f. f ≡ cells_lie_between extents.now name.now lo hi) }
{
    let value = value_at_cells(alloc, extents, name)?;
    let first = Shared::new(alloc, Term::Num(lo))?;
    let lower = Shared::new(alloc, Formula::Le(first, value.share()?))?;
    let last = Shared::new(alloc, Term::Num(hi))?;
    let upper = Shared::new(alloc, Formula::Le(value, last))?;
    let between = Shared::new(alloc, Formula::And(lower, upper))?;
    for_all_cells(alloc, extents, between)
}

/// Adds the range of an item, where it is an input.
fn add_item(
    alloc: Global,
    item: &Item,
    program: &Program,
    found: &mut Vec<Shared<Formula>>,
) -> Result<(), AllocError>
    ensures { OnOk result (found.new.items ≡ found.old.items ++ labelled_ranges program.now item.now (item_ranges program.now item.now.name item.now.kind)) }
{
    match &item.kind {
        ItemKind::InputScalar { lo, hi } => {
            let range = cells_between(alloc, &ExtentTerms::NoExtent, &item.name, *lo, *hi)?;
            found.push(labelled(alloc, LabelKind::Range, item.node.id, range)?)?;
            Ok(())
        }
        ItemKind::InputArray { extents, lo, hi } => {
            let terms = extent_terms(alloc, extents, program)?;
            let range = cells_between(alloc, &terms, &item.name, *lo, *hi)?;
            found.push(labelled(alloc, LabelKind::Range, item.node.id, range)?)?;
            Ok(())
        }
        _ => Ok(()),
    }
}

/// The ranges of the inputs of a program, in the order of the declarations.
pub fn ranges(alloc: Global, program: &Program) -> Result<Vec<Shared<Formula>>, AllocError>
    ensures { IfOk result (λ found. found.items ≡ all_ranges program.now program.now.items) }
{
    let mut found = Vec::new(alloc);
    for item in program.items.as_slice() {
        add_item(alloc, item, program, &mut found)?;
    }
    Ok(found)
}
