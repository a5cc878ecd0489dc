//! Declarations and numbers, found by the tables of their names.
ghost use Rattle.std.specs.Prelude.{◌≡◌, ℕ, List, map, ℤ, MatchOption, slice_set, nat_abs};
ghost use Rattle.std.specs.Option.{option_copied};
ghost use Rattle.ac_run.specs.Declarations.{kind_of, constant_of, numbers_in};
ghost use Rattle.ac_run.specs.Memory.{set_numbers, place_in};
ghost use Rattle.ac_evaluation.specs.Places.{ArePlaces, place_of};
ghost use Rattle.ac_evaluation.specs.Shapes.{shape_of, item_names, cell_names};

use crate::places::{Places, place};
use crate::shape::{Shape, place_in};
use ac_run::{Cell, StartCell};
use ac_tree::{ItemKind, Name, Program};
use sqlite_items::{Items, at};

/// What the first declaration of a name says.
#[tactic(auto, using(crate::proofs::Found::kind_found))]
pub(crate) fn kind<'p>(program: &'p Program, kinds: &Places, name: &Name) -> Option<&'p ItemKind>
    requires { ArePlaces (item_names program.now.items) kinds.now.entries }
    ensures { option_copied result ≡ kind_of program.now name.now }
{
    let Some(at) = place(kinds, name) else {
        return None;
    };
    match program.items.get(at) {
        Some(item) => Some(&item.kind),
        None => None,
    }
}

/// The number of a constant.
pub(crate) fn constant(program: &Program, kinds: &Places, name: &Name) -> Option<i128>
    requires { ArePlaces (item_names program.now.items) kinds.now.entries }
    ensures { result ≡ constant_of program.now name.now }
{
    match kind(program, kinds, name) {
        Some(ItemKind::Const { value }) => Some(i128::from(*value)),
        _ => None,
    }
}

/// The numbers that are held for a name.
#[tactic(auto, using(crate::proofs::Found::numbers_found))]
pub(crate) fn numbers<'m>(cells: &'m [StartCell], places: &Places, name: &Name) -> &'m [i128]
    requires { ArePlaces (cell_names cells.now) places.now.entries }
    ensures { result.now ≡ numbers_in cells.now name.now }
{
    let Some(place) = place(places, name) else {
        return &[];
    };
    match at(cells, place) {
        Some(cell) => cell.numbers.as_slice(),
        None => &[],
    }
}

/// Puts a number into a cell of these extents, if its name has that place.
pub(crate) fn set_number(
    cells: &mut Vec<StartCell>,
    places: &Places,
    shape: Shape,
    cell: &Cell,
    number: i128,
)
    requires { ArePlaces (cell_names cells.old.items) places.now.entries }
    ensures { cells.new.items ≡ set_numbers cells.old.items cell.now.name (slice_set (numbers_in cells.old.items cell.now.name) (place_in (shape_of shape) (nat_abs cell.now.i) (nat_abs cell.now.j)) number) }
{
    let Some(at) = place(places, &cell.name) else {
        return;
    };
    if at < cells.len() {
        let held = &mut cells[at];
        put(&mut held.numbers, shape, cell, number);
    }
}

fn put(numbers: &mut Items<i128>, shape: Shape, cell: &Cell, number: i128)
    ensures { numbers.new ≡ slice_set numbers.old (place_in (shape_of shape) (nat_abs cell.now.i) (nat_abs cell.now.j)) number }
{
    let count = numbers.len();
    if let Some(place) = place_in(shape, cell.i, cell.j)
        && place < count
    {
        numbers.set(place, number);
    }
}
