//! Tables of the distinct indexes of arrays.
ghost use Rattle.std.specs.Prelude.{◌≡◌, All, [], fold, map, is_some, IfOk, IfSome, OnOk, Some, slice_get};
ghost use Rattle.std.specs.List.{list_any};
ghost use Rattle.ac_linear.specs.TermEquality.{array_eq};
ghost use Rattle.ac_ground.specs.Table.{first_index, index, index_eq, IsPlaced, second_index, with_index};

use crate::cell::Cell;
use crate::number::is_same;
use ac_logic::{ArrayTerm, Term, same_array};
use ac_shared::Shared;
use sqlite_items::Items;
use std::alloc::{AllocError, Global};

/// A term that stands as an index of an array.
#[derive(Drop)]
pub(crate) struct Index {
    pub(crate) array: Shared<ArrayTerm>,
    pub(crate) term: Shared<Term>,
}

/// A cell with the places of its indexes in the two tables.
#[derive(Drop)]
pub(crate) struct PlacedCell {
    pub(crate) cell: Cell,
    pub(crate) first: usize,
    pub(crate) second: usize,
}

/// The first and the second indexes of cells, each once.
#[derive(Drop)]
pub(crate) struct Indexes {
    pub(crate) firsts: Items<Index>,
    pub(crate) seconds: Items<Index>,
}

/// Whether the arrays are equal as trees.
#[tactic(auto, using(ac_linear::proofs::Equal::array_same, ac_linear::proofs::Equal::array_itself, crate::proofs::Once::array_true, crate::proofs::Once::array_false))]
pub(crate) fn is_same_array(a: &ArrayTerm, b: &ArrayTerm) -> bool
    ensures { result ≡ array_eq a.now b.now }
{
    if same_array(a, b) {
        return true;
    }
    false
}

/// The place of an index; none where it is not in the table.
fn place_of(indexes: &[Index], array: &ArrayTerm, term: &Term) -> Option<usize>
    ensures place { IfSome result (λ k. slice_get indexes.now k ≡ Some (index array.now term.now)) }
    ensures known { is_some result ≡ list_any (index_eq (index array.now term.now)) indexes.now }
{
    for place in 0..indexes.len() {
        let known = &indexes[place];
        if is_index(array, term, known) {
            return Some(place);
        }
    }
    None
}

fn is_index(array: &ArrayTerm, term: &Term, known: &Index) -> bool
    ensures { result ≡ index_eq (index array.now term.now) known.now }
{
    is_same_array(array, known.array.get()) && is_same(term, known.term.get())
}

/// The place of an index, which is added where it is not in the table.
fn place(
    indexes: &mut Items<Index>,
    array: &Shared<ArrayTerm>,
    term: &Shared<Term>,
) -> Result<usize, AllocError>
    ensures place { IfOk result (λ k. slice_get indexes.new k ≡ Some (index array.now term.now)) }
    ensures table { OnOk result (indexes.new ≡ with_index indexes.old (index array.now term.now)) }
{
    match place_of(indexes.as_slice(), array.get(), term.get()) {
        Some(place) => Ok(place),
        None => {
            let place = indexes.len();
            let array = array.share()?;
            let term = term.share()?;
            indexes.push(Index { array, term })?;
            Ok(place)
        }
    }
}

impl Indexes {
    /// No indexes.
    pub(crate) fn new(alloc: Global) -> Indexes
        ensures firsts { result.firsts ≡ [] }
        ensures seconds { result.seconds ≡ [] }
    {
        Indexes {
            firsts: Items::new(alloc),
            seconds: Items::new(alloc),
        }
    }
}

/// Adds the indexes of a cell, and tells their places.
fn placed(table: &mut Indexes, cell: &Cell) -> Result<PlacedCell, AllocError>
    ensures cell { IfOk result (λ p. p.cell ≡ cell.now) }
    ensures placed { IfOk result (λ p. IsPlaced table.new.firsts table.new.seconds p) }
    ensures firsts { OnOk result (table.new.firsts ≡ with_index table.old.firsts (first_index cell.now)) }
    ensures seconds { OnOk result (table.new.seconds ≡ with_index table.old.seconds (second_index cell.now)) }
{
    let first = place(&mut table.firsts, &cell.array, &cell.first)?;
    let second = place(&mut table.seconds, &cell.array, &cell.second)?;
    let cell = cell.copied()?;
    Ok(PlacedCell {
        cell,
        first,
        second,
    })
}

/// Adds the indexes of cells, and tells their places.
pub(crate) fn all_placed(
    alloc: Global,
    table: &mut Indexes,
    cells: &[Cell],
) -> Result<Items<PlacedCell>, AllocError>
    ensures cells { IfOk result (λ ps. map (λ p. p.cell) ps ≡ cells.now) }
    ensures placed { IfOk result (λ ps. All (IsPlaced table.new.firsts table.new.seconds) ps) }
    ensures firsts { OnOk result (table.new.firsts ≡ fold with_index table.old.firsts (map first_index cells.now)) }
    ensures seconds { OnOk result (table.new.seconds ≡ fold with_index table.old.seconds (map second_index cells.now)) }
{
    let mut places = Items::new(alloc);
    for cell in cells {
        places.push(placed(table, cell)?)?;
    }
    Ok(places)
}
