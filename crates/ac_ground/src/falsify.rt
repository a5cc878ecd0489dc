//! Whether a valuation falsifies a ground form.
ghost use Rattle.std.specs.Prelude.{◌≡◌, ◌↔◌, IfOk, IsTrue};
ghost use Rattle.ac_ground.specs.Falsifies.{FalsifiesGround};
ghost use Rattle.ac_ground.specs.Sums.{is_in_order, reads_pass};

use crate::cell::Cell;
use crate::compared::{distinct, sum_pairs};
use crate::found::found_in;
use crate::index::{Indexes, all_placed};
use crate::meeting::{Meetings, are_agreed};
use crate::put::are_reads_of_puts;
use crate::sum::{are_sums_agreed, sums_of};
use crate::truth::is_true;
use crate::valuation::Valuation;
use ac_logic::Formula;
use std::alloc::{AllocError, Global};

/// Whether a valuation falsifies a ground form: it makes it false, and is in order on reads, on reads of `put`s and on sums
/// of all of the ground form. Box combinations of its facts are not asked.
///
/// Each two distinct indexes of an array are compared once, and each two reads by these. The time is that, and that of the
/// normal form of each comparison.
#[tactic(auto, using(crate::proofs::Falsified::falsified, crate::proofs::Falsified::not_false))]
pub fn falsifies(alloc: Global, ground: &Formula, valuation: &Valuation) -> Result<bool, AllocError>
    ensures { IfOk result (λ is. IsTrue is ↔ FalsifiesGround valuation.now ground.now) }
{
    if is_true(alloc, ground, valuation)? {
        return Ok(false);
    }
    let in_order = is_in_order(alloc, ground, valuation)?;
    Ok(in_order)
}

/// Whether a valuation is in order on reads, on reads of `put`s and on sums.
#[tactic(auto, unfolding(crate::specs::Sums::is_in_order))]
fn is_in_order(alloc: Global, ground: &Formula, valuation: &Valuation) -> Result<bool, AllocError>
    ensures { IfOk result (λ is. is ≡ is_in_order valuation.now ground.now) }
{
    let found = found_in(alloc, ground)?;
    let reads = distinct(alloc, found.reads.as_slice())?;
    if !is_agreed_on(alloc, valuation, reads.as_slice())? {
        return Ok(false);
    }
    if !are_reads_of_puts(alloc, valuation, reads.as_slice())? {
        return Ok(false);
    }
    let pairs = sum_pairs(alloc, ground, reads.as_slice(), found.puts.as_slice())?;
    let sums = sums_of(alloc, valuation, pairs.as_slice())?;
    are_sums_agreed(alloc, sums.as_slice())
}

/// Whether each two of the reads agree.
fn is_agreed_on(alloc: Global, valuation: &Valuation, reads: &[Cell]) -> Result<bool, AllocError>
    ensures { IfOk result (λ is. is ≡ reads_pass valuation.now reads.now) }
{
    let mut table = Indexes::new(alloc);
    let placed = all_placed(alloc, &mut table, reads)?;
    let meetings = Meetings::of(alloc, valuation, table)?;
    let agreed = are_agreed(alloc, valuation, &meetings, placed.as_slice())?;
    Ok(agreed)
}
