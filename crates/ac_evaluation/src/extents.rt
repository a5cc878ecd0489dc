//! The extents of the declarations under a start.
ghost use Rattle.std.specs.Prelude.{◌≡◌, IfOk};
ghost use Rattle.ac_tree.specs.declared.program.Program.{Program as Tree};
ghost use Rattle.ac_run.specs.declared.start.Start.{Start as Begins};
ghost use Rattle.ac_run.specs.Declarations.{extent, shape_of_extents, shape_in};
ghost use Rattle.ac_evaluation.specs.Places.{ArePlaces};
ghost use Rattle.ac_evaluation.specs.Shapes.{shape_of, item_shape, AreShapes, item_names, cell_names};

use crate::lookups::{constant, numbers};
use crate::places::Places;
use crate::shape::Shape;
use ac_run::Start;
use ac_tree::{Extent, Extents, Item, ItemKind, Program};
use std::alloc::{AllocError, Global};

/// A program and a start, with the places of their names.
#[derive(Clone, Copy)]
pub(crate) struct Named<'a> {
    pub program: &'a Program,
    pub kinds: &'a Places,
    pub start: &'a Start,
    pub places: &'a Places,
}

/// The shape of each declaration.
pub(crate) fn shapes(alloc: Global, names: Named) -> Result<Vec<Shape>, AllocError>
    requires declared { ArePlaces (item_names names.program.now.items) names.kinds.now.entries }
    requires held { ArePlaces (cell_names names.start.now.cells) names.places.now.entries }
    ensures { IfOk result (λ shapes. AreShapes names.entry.program.now names.entry.start.now shapes.items) }
{
    let mut shapes = Vec::new(alloc);
    for item in names.program.items.as_slice() {
        shapes.push(item_shape(names, item))?;
    }
    Ok(shapes)
}

fn item_shape(names: Named, item: &Item) -> Shape
    requires declared { ArePlaces (item_names names.program.now.items) names.kinds.now.entries }
    requires held { ArePlaces (cell_names names.start.now.cells) names.places.now.entries }
    ensures { shape_of result ≡ item_shape names.entry.program.now names.entry.start.now item.now }
{
    match &item.kind {
        ItemKind::InputArray { extents, .. } => shape_of_extents(names, extents),
        ItemKind::VarArray { extents } => shape_of_extents(names, extents),
        _ => Shape::Scalar,
    }
}

fn shape_of_extents(names: Named, extents: &Extents) -> Shape
    requires declared { ArePlaces (item_names names.program.now.items) names.kinds.now.entries }
    requires held { ArePlaces (cell_names names.start.now.cells) names.places.now.entries }
    ensures { shape_of result ≡ shape_of_extents names.entry.program.now names.entry.start.now extents.now }
{
    match extents {
        Extents::One(count) => Shape::Vector(extent(names, count)),
        Extents::Two(rows, columns) => Shape::Matrix(extent(names, rows), extent(names, columns)),
    }
}

fn extent(names: Named, count: &Extent) -> u128
    requires declared { ArePlaces (item_names names.program.now.items) names.kinds.now.entries }
    requires held { ArePlaces (cell_names names.start.now.cells) names.places.now.entries }
    ensures { result ≡ extent names.entry.program.now names.entry.start.now count.now }
{
    match count {
        Extent::Lit(number) => u128::from(*number),
        Extent::Named(name) => match constant(names.program, names.kinds, name) {
            Some(value) => value.unsigned_abs(),
            None => {
                let held = numbers(names.start.cells.as_slice(), names.places, name);
                held.first().copied().unwrap_or(0).unsigned_abs()
            }
        },
    }
}
