//! The formulas of init: the shadow variable of a cell is 1 where the cell was written.
ghost use Rattle.std.specs.Prelude.{◌≡◌, IfOk, Some};
ghost use Rattle.ac_run.specs.Declarations.{is_input as is_input_name};
ghost use Rattle.ac_policy.specs.Init.{init_need, init_effect, init_known, marked_formula, all_marked_formula, marking as marking_of};

use crate::extents::{
    ExtentTerms, cell_term, column_index, extent_terms, for_all_cells, row_index,
};
use crate::site::{Site, SiteKind};
use ac_logic::{ArrayTerm, Change, Formula, Sym, Term};
use ac_shared::Shared;
use ac_tree::{ItemKind, Name, Program, kind_of};
use std::alloc::{AllocError, Global};

fn is_input(program: &Program, name: &Name) -> bool
    ensures { result ≡ is_input_name program.now name.now }
{
    match kind_of(program.items.as_slice(), name) {
        Some(ItemKind::InputScalar { .. }) => true,
        Some(ItemKind::InputArray { .. }) => true,
        _ => false,
    }
}

/// The cell at the indexes is marked.
fn marked(
    alloc: Global,
    extents: &ExtentTerms,
    name: &Name,
    i: &Shared<Term>,
    j: &Shared<Term>,
) -> Result<Shared<Formula>, AllocError>
    ensures { IfOk result (λ f. f ≡ marked_formula extents.now name.now i.now j.now) }
{
    let value = cell_term(alloc, extents, Sym::Init(name.clone()?), i, j)?;
    let mark = Shared::new(alloc, Term::Num(1))?;
    Shared::new(alloc, Formula::Eq(value, mark))
}

/// Every cell of the name is marked.
fn marked_everywhere(
    alloc: Global,
    extents: &ExtentTerms,
    name: &Name,
) -> Result<Shared<Formula>, AllocError>
    ensures { IfOk result (λ f. f ≡ all_marked_formula extents.now name.now) }
{
    let i = row_index(alloc, extents)?;
    let j = column_index(alloc, extents)?;
    let body = marked(alloc, extents, name, &i, &j)?;
    for_all_cells(alloc, extents, body)
}

/// What is to be shown: of a read, that the cell was written, and of a use, that all cells were; nothing of an input.
pub fn need(
    alloc: Global,
    program: &Program,
    site: &Site,
) -> Result<Option<Shared<Formula>>, AllocError>
    ensures { IfOk result (λ f. f ≡ init_need program.now site.now) }
{
    if is_input(program, &site.name) {
        return Ok(None);
    }
    match &site.kind {
        SiteKind::Write => Ok(None),
        SiteKind::Read => {
            let extents = extent_terms(alloc, program, &site.name)?;
            let shown = marked(alloc, &extents, &site.name, &site.i, &site.j)?;
            Ok(Some(shown))
        }
        SiteKind::Hand { .. } => {
            let extents = extent_terms(alloc, program, &site.name)?;
            let shown = marked_everywhere(alloc, &extents, &site.name)?;
            Ok(Some(shown))
        }
    }
}

/// The change that marks a cell.
fn marking(alloc: Global, extents: &ExtentTerms, site: &Site) -> Result<Change, AllocError>
    ensures { IfOk result (λ c. c ≡ marking_of extents.now site.now.name site.now.i site.now.j) }
{
    let mark = Shared::new(alloc, Term::Num(1))?;
    match extents {
        ExtentTerms::NoExtent => Ok(Change::Scalar(Sym::Init(site.name.clone()?), mark)),
        _ => {
            let array = Shared::new(alloc, ArrayTerm::Sym(Sym::Init(site.name.clone()?)))?;
            let i = site.i.share()?;
            let j = site.j.share()?;
            let put = Shared::new(alloc, ArrayTerm::Put(array, i, j, mark))?;
            Ok(Change::Array(Sym::Init(site.name.clone()?), put))
        }
    }
}

/// A write marks its cell.
pub fn effect(alloc: Global, program: &Program, site: &Site) -> Result<Vec<Change>, AllocError>
    ensures { IfOk result (λ changes. changes.items ≡ init_effect program.now site.now) }
{
    let mut changes = Vec::new(alloc);
    match &site.kind {
        SiteKind::Write => {
            let extents = extent_terms(alloc, program, &site.name)?;
            changes.push(marking(alloc, &extents, site)?)?;
        }
        _ => {}
    }
    Ok(changes)
}

/// A scalar that was written has its mark.
pub fn known(alloc: Global, name: &Name) -> Result<Option<Shared<Formula>>, AllocError>
    ensures { IfOk result (λ f. f ≡ init_known name.now) }
{
    let value = Shared::new(alloc, Term::Sym(Sym::Init(name.clone()?)))?;
    let mark = Shared::new(alloc, Term::Num(1))?;
    let known = Shared::new(alloc, Formula::Eq(value, mark))?;
    Ok(Some(known))
}
