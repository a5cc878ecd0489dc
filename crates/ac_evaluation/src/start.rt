//! Copies of the numbers of a start.
ghost use Rattle.std.specs.Prelude.{◌≡◌, IfOk};

use ac_run::StartCell;
use sqlite_items::Items;
use std::alloc::{AllocError, Global};

/// The same names with the same numbers.
pub(crate) fn copied(alloc: Global, cells: &[StartCell]) -> Result<Vec<StartCell>, AllocError>
    ensures { IfOk result (λ copy. copy.items ≡ cells.now) }
{
    let mut copy = Vec::new(alloc);
    for cell in cells {
        copy.push(copied_cell(alloc, cell)?)?;
    }
    Ok(copy)
}

fn copied_cell(alloc: Global, cell: &StartCell) -> Result<StartCell, AllocError>
    ensures { IfOk result (λ copy. copy ≡ cell.now) }
{
    let name = cell.name.clone()?;
    let numbers = Items::from_slice(alloc, cell.numbers.as_slice())?;
    Ok(StartCell { name, numbers })
}
