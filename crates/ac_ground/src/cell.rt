//! Cells of arrays.
ghost use Rattle.std.specs.Prelude.{◌≡◌, IfOk};
ghost use Rattle.ac_ground.specs.Reads.{read};

use ac_logic::{ArrayTerm, Term};
use ac_shared::Shared;
use std::alloc::{AllocError, Global};

/// An array at two indexes: what a read reads, or what a `put` changes.
#[derive(Drop)]
pub struct Cell {
    pub array: Shared<ArrayTerm>,
    pub first: Shared<Term>,
    pub second: Shared<Term>,
}

impl Cell {
    /// One more of the same cell.
    pub(crate) fn copied(&self) -> Result<Cell, AllocError>
        ensures { IfOk result (λ copy. copy ≡ self.now) }
    {
        let array = self.array.share()?;
        let first = self.first.share()?;
        let second = self.second.share()?;
        Ok(Cell {
            array,
            first,
            second,
        })
    }

    /// The read of the cell as a term.
    pub(crate) fn read(&self, alloc: Global) -> Result<Shared<Term>, AllocError>
        ensures { IfOk result (λ term. term ≡ read self.now) }
    {
        let array = self.array.share()?;
        let first = self.first.share()?;
        let second = self.second.share()?;
        Shared::new(alloc, Term::Read(array, first, second))
    }
}
