//! Reads of `put`s.
ghost use Rattle.std.specs.Prelude.{◌≡◌, if◌then◌else◌, IfOk};
ghost use Rattle.std.specs.List.{list_all};
ghost use Rattle.ac_ground.specs.Numbers.{equal};
ghost use Rattle.ac_ground.specs.Reads.{cell, read};
ghost use Rattle.ac_ground.specs.Table.{is_read_of_put};

use crate::cell::Cell;
use crate::gap::is_equal;
use crate::valuation::Valuation;
use ac_logic::{ArrayTerm, Term};
use ac_shared::Shared;
use std::alloc::{AllocError, Global};

/// Whether each read of a `put` equals the written number where both indexes are equal, and the inner read elsewhere.
pub(crate) fn are_reads_of_puts(
    alloc: Global,
    valuation: &Valuation,
    reads: &[Cell],
) -> Result<bool, AllocError>
    ensures { IfOk result (λ all. all ≡ list_all (λ c. is_read_of_put valuation.now c.array c.first c.second) reads.now) }
{
    for read in reads {
        if !is_read_of_put(alloc, valuation, read)? {
            return Ok(false);
        }
    }
    Ok(true)
}

fn is_read_of_put(alloc: Global, valuation: &Valuation, read: &Cell) -> Result<bool, AllocError>
    ensures { IfOk result (λ is. is ≡ is_read_of_put valuation.now read.now.array read.now.first read.now.second) }
{
    match read.array.get() {
        ArrayTerm::Sym(_) => Ok(true),
        ArrayTerm::Put(array, first, second, written) => {
            let inner = inner_read(alloc, array, read)?;
            let first = is_equal(alloc, valuation, first, &read.first)?;
            let second = is_equal(alloc, valuation, second, &read.second)?;
            is_equal_to(alloc, valuation, read, first && second, written, &inner)
        }
    }
}

/// The read of the array within a `put`.
pub(crate) fn inner_read(
    alloc: Global,
    array: &Shared<ArrayTerm>,
    outer: &Cell,
) -> Result<Shared<Term>, AllocError>
    ensures { IfOk result (λ term. term ≡ read (cell array.now outer.now.first outer.now.second)) }
{
    let array = array.share()?;
    let first = outer.first.share()?;
    let second = outer.second.share()?;
    Shared::new(alloc, Term::Read(array, first, second))
}

/// Whether a read equals the first term where it is at the cell that is written, and else the second.
fn is_equal_to(
    alloc: Global,
    valuation: &Valuation,
    outer: &Cell,
    is_written: bool,
    written: &Shared<Term>,
    inner: &Shared<Term>,
) -> Result<bool, AllocError>
    ensures { IfOk result (λ is. is ≡ (if is_written then equal valuation.now (read outer.now) written.now else equal valuation.now (read outer.now) inner.now)) }
{
    let outer = outer.read(alloc)?;
    if is_written {
        is_equal(alloc, valuation, &outer, written)
    } else {
        is_equal(alloc, valuation, &outer, inner)
    }
}
