//! The memory of a run, with its names found by tables.
ghost use Rattle.std.specs.Prelude.{◌≡◌, ℕ, ℤ, [], ◌∷◌, ◌++◌, IfOk, MatchResult, MatchOption, slice_index_or, pos, nat_abs};
ghost use Rattle.ac_run.specs.Declarations.{constant_of, shape, numbers_in};
ghost use Rattle.ac_run.specs.Memory.{is_inside, place_in, number_at, write, contents};
ghost use Rattle.ac_run.specs.Evaluation.{read, constant_or_read};
ghost use Rattle.ac_run.specs.Memory.{scalar};
ghost use Rattle.ac_run.specs.Start.{Fits};
ghost use Rattle.ac_evaluation.specs.Misfit.{IsFirstMisfit};
ghost use Rattle.ac_evaluation.specs.Shapes.{shape_of};
ghost use Rattle.ac_evaluation.specs.Evaluates.{Evaluates};

use crate::extents::{Named, shapes};
use crate::fits::first_misfit;
use crate::lookups::{constant, numbers, set_number};
use crate::places::{Places, place, places_of_cells, places_of_items};
use crate::shape::{Shape, is_within, place_in};
use crate::start::copied;
use crate::stop::Stop;
use ac_run::{Cell, Event, Start, StartCell};
use ac_tree::{Name, Program};
use sqlite_items::{Items, at};
use std::alloc::{AllocError, Global};
use std::marker::Model;

/// The memory of a run of a program from a start, which gives the extents.
#[derive(Drop)]
pub struct Store<'p> {
    program: &'p Program,
    start: Start,
    kinds: Places,
    shapes: Vec<Shape>,
    places: Places,
    cells: Vec<StartCell>,
}

impl<'p> Model for Store<'p> {
    ghost use Rattle.ac_tree.specs.contracts.program.StmtKind as s;
    ghost use Rattle.std.specs.Coded.{codes};
    ghost use Rattle.ac_evaluation.specs.Stored.{Stored};
    ghost use Rattle.ac_evaluation.specs.Shapes.{IsTabled};

    ghost Value = { Stored };

    ghost coded = { Prim.hlevel (codes, s.the_row.coded) };

    ghost view = { λ a. record { program = a.program.now; start = a.start; memory = a.cells.items } };

    ghost invariant = { λ a. IsTabled a.program.now a.start a.kinds.entries a.shapes.items a.places.entries a.cells.items };
}

impl<'p> Store<'p> {
    /// The memory that a run of the program begins with.
    pub fn new(alloc: Global, program: &'p Program, start: &Start) -> Result<Store<'p>, AllocError>
        ensures { IfOk result (λ store. store ≡ record { program = program.now; start = start.now; memory = start.now.cells }) }
    {
        let kinds = places_of_items(alloc, program.items.as_slice())?;
        let places = places_of_cells(alloc, start.cells.as_slice())?;
        let names = Named {
            program,
            kinds: &kinds,
            start,
            places: &places,
        };
        let shapes = shapes(alloc, names)?;
        let cells = copied(alloc, start.cells.as_slice())?;
        let kept = copied(alloc, start.cells.as_slice())?;
        Ok(Store {
            program,
            start: Start {
                cells: Items::from_vec(kept),
            },
            kinds,
            shapes,
            places,
            cells,
        })
    }

    /// The first entry of the start that is wrong or missing, or the first that is too many.
    pub fn first_misfit(&self) -> Option<usize>
        ensures { MatchOption result (Fits self.now.program self.now.start) (λ n. IsFirstMisfit self.now.program self.now.start n) }
    {
        first_misfit(self.program, &self.start, self.shapes.as_slice())
    }

    /// The number of a constant.
    fn constant(&self, name: &Name) -> Option<i128>
        ensures { result ≡ constant_of self.now.program name.now }
    {
        constant(self.program, &self.kinds, name)
    }

    /// The extents of a name.
    fn shape(&self, name: &Name) -> Shape
        ensures { shape_of result ≡ shape self.now.program self.now.start name.now }
    {
        let Some(place) = place(&self.kinds, name) else {
            return Shape::Scalar;
        };
        match at(self.shapes.as_slice(), place) {
            Some(shape) => *shape,
            None => Shape::Scalar,
        }
    }

    /// The numbers of a name.
    fn numbers(&self, name: &Name) -> &[i128]
        ensures { result.now ≡ numbers_in self.now.memory name.now }
    {
        numbers(self.cells.as_slice(), &self.places, name)
    }

    /// Whether the indexes of a cell are within its extents.
    pub fn is_inside(&self, cell: &Cell) -> bool
        ensures { result ≡ is_inside self.now.program self.now.start cell.now }
    {
        is_within(self.shape(&cell.name), cell.i, cell.j)
    }

    /// The number of a cell.
    pub fn number_at(&self, cell: &Cell) -> i128
        ensures { result ≡ number_at self.now.program self.now.start self.now.memory cell.now }
    {
        number_in(self.numbers(&cell.name), self.shape(&cell.name), cell)
    }

    /// Puts a number into a cell.
    pub fn write(&mut self, cell: &Cell, number: i128)
        ensures { self.new ≡ record self.old { memory = write self.old.program self.old.start self.old.memory cell.now number } }
    {
        let shape = self.shape(&cell.name);
        set_number(&mut self.cells, &self.places, shape, cell, number);
    }

    /// All numbers of a name; those of a constant are its one number.
    pub fn contents(&self, alloc: Global, name: &Name) -> Result<Items<i128>, AllocError>
        ensures { IfOk result (λ numbers. numbers ≡ contents self.now.program self.now.start self.now.memory name.now) }
    {
        match self.constant(name) {
            Some(value) => Items::from_slice(alloc, &[value]),
            None => Items::from_slice(alloc, self.numbers(name)),
        }
    }

    /// Reads a cell, and notes it among the events.
    pub(crate) fn read(&self, cell: Cell, events: &mut Vec<Event>) -> Result<i128, Stop>
        ensures { Evaluates (read self.now.program self.now.start self.now.memory cell) [] result events.old.items events.new.items }
    {
        let is_inside = self.is_inside(&cell);
        let number = self.number_at(&cell);
        note(events, Event::Read(cell))?;
        if is_inside {
            Ok(number)
        } else {
            Err(Stop::Outside)
        }
    }

    /// The number of a constant, or that of a scalar, which is read.
    pub(crate) fn named(&self, name: &Name, events: &mut Vec<Event>) -> Result<i128, Stop>
        ensures { Evaluates (constant_or_read self.now.program self.now.start self.now.memory (constant_of self.now.program name.now) name.now) [] result events.old.items events.new.items }
    {
        match self.constant(name) {
            Some(value) => Ok(value),
            None => self.read(scalar(name)?, events),
        }
    }

    /// Reads an element of an array.
    pub(crate) fn element(
        &self,
        name: &Name,
        at: (i128, i128),
        events: &mut Vec<Event>,
    ) -> Result<i128, Stop>
        ensures { Evaluates (read self.now.program self.now.start self.now.memory (record { name = name.now; i = at.0; j = at.1 })) [] result events.old.items events.new.items }
    {
        self.read(cell(name, at.0, at.1)?, events)
    }
}

fn number_in(numbers: &[i128], shape: Shape, cell: &Cell) -> i128
    ensures { result ≡ slice_index_or numbers.now (place_in (shape_of shape) (nat_abs cell.now.i) (nat_abs cell.now.j)) (pos 0) }
{
    let count = numbers.len();
    match place_in(shape, cell.i, cell.j) {
        Some(place) if place < count => numbers[place],
        _ => 0,
    }
}

/// Puts an event behind the others.
pub fn note(events: &mut Vec<Event>, event: Event) -> Result<(), Stop>
    ensures { MatchResult result (λ _. events.new.items ≡ events.old.items ++ event ∷ []) (λ e. e ≡ Stop.OutOfMemory) }
{
    match events.push(event) {
        Ok(()) => Ok(()),
        Err(_) => Err(Stop::OutOfMemory),
    }
}

/// A cell of a name.
pub fn cell(name: &Name, i: i128, j: i128) -> Result<Cell, Stop>
    ensures { MatchResult result (λ cell. cell ≡ record { name = name.now; i = i; j = j }) (λ e. e ≡ Stop.OutOfMemory) }
{
    match name.clone() {
        Ok(name) => Ok(Cell { name, i, j }),
        Err(_) => Err(Stop::OutOfMemory),
    }
}

/// The one cell of a scalar.
pub fn scalar(name: &Name) -> Result<Cell, Stop>
    ensures { MatchResult result (λ cell. cell ≡ scalar name.now) (λ e. e ≡ Stop.OutOfMemory) }
{
    cell(name, 0, 0)
}
