//! Tables of names: where a name stands first.
ghost use Rattle.std.specs.Prelude.{◌≡◌, ℕ, List, map, IfOk};
ghost use Rattle.ac_run.specs.declared.start.StartCell.{StartCell as CellOfStart};
ghost use Rattle.ac_tree.specs.declared.program.Item.{Item as Declaration};
ghost use Rattle.ac_evaluation.specs.Places.{ArePlaces, place_of};

use ac_run::StartCell;
use ac_tree::{Item, Name};
use indexmap::IndexMap;
use std::alloc::{AllocError, Global};

/// The place of each name in a list, its first where it stands there twice.
pub(crate) type Places = IndexMap<Name, usize>;

/// The places of the declarations.
pub(crate) fn places_of_items(alloc: Global, items: &[Item]) -> Result<Places, AllocError>
    ensures { IfOk result (λ places. ArePlaces (map (λ d. d.name) items.now) places.entries) }
{
    let mut places = IndexMap::new(alloc);
    for (place, item) in items.iter().enumerate() {
        if !places.contains_key(&item.name) {
            let name = item.name.clone()?;
            places.insert(name, place)?;
        }
    }
    Ok(places)
}

/// The places of the names that a memory holds numbers for.
pub(crate) fn places_of_cells(alloc: Global, cells: &[StartCell]) -> Result<Places, AllocError>
    ensures { IfOk result (λ places. ArePlaces (map (λ c. c.name) cells.now) places.entries) }
{
    let mut places = IndexMap::new(alloc);
    for (place, cell) in cells.iter().enumerate() {
        if !places.contains_key(&cell.name) {
            let name = cell.name.clone()?;
            places.insert(name, place)?;
        }
    }
    Ok(places)
}

/// The first place of a name.
pub(crate) fn place(places: &Places, name: &Name) -> Option<usize>
    ensures { (names : List (List ℕ)) → ArePlaces names places.now.entries → result ≡ place_of names name.now }
{
    places.get(name).copied()
}
