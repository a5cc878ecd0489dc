//! Whether a ground form has a term whose normal form is too wide.
ghost use Rattle.std.specs.Prelude.{◌≡◌, ◌↔◌, ◌||◌, IfOk, IsTrue};
ghost use Rattle.std.specs.List.{list_any};
ghost use Rattle.ac_logic.specs.Patterns.{Difference};
ghost use Rattle.ac_ground.specs.Boxes.{next};
ghost use Rattle.ac_ground.specs.Reads.{read};
ghost use Rattle.ac_ground.specs.Sums.{has_wide_pair};
ghost use Rattle.ac_ground.specs.Wide.{is_wide, is_wide_pair, IsWide};

use crate::cell::Cell;
use crate::compared::{distinct, sum_pairs};
use crate::found::found_in;
use crate::gap::difference;
use crate::pair::Pair;
use ac_linear::{LinFault, normal};
use ac_logic::{Formula, Term};
use ac_shared::Shared;
use std::alloc::{AllocError, Global};

/// Whether a term of a ground form is too wide, where those of its compared pairs count among them: their differences, and
/// those with 1 added to either side. Two reads of one array are too wide only where one of them is.
#[tactic(auto, using(crate::proofs::WidePairs::decided))]
pub fn is_wide(alloc: Global, ground: &Formula) -> Result<bool, AllocError>
    ensures { IfOk result (λ is. IsTrue is ↔ IsWide ground.now) }
{
    has_wide_pair(alloc, ground)
}

#[tactic(auto, unfolding(crate::specs::Sums::has_wide_pair))]
fn has_wide_pair(alloc: Global, ground: &Formula) -> Result<bool, AllocError>
    ensures { IfOk result (λ is. is ≡ has_wide_pair ground.now) }
{
    let found = found_in(alloc, ground)?;
    let reads = distinct(alloc, found.reads.as_slice())?;
    if is_any_read_wide(alloc, reads.as_slice())? {
        return Ok(true);
    }
    let pairs = sum_pairs(alloc, ground, reads.as_slice(), found.puts.as_slice())?;
    is_any_pair_wide(alloc, pairs.as_slice())
}

fn is_any_read_wide(alloc: Global, reads: &[Cell]) -> Result<bool, AllocError>
    ensures { IfOk result (λ is. is ≡ list_any (λ c. is_wide (read c)) reads.now) }
{
    for cell in reads {
        let term = cell.read(alloc)?;
        if is_wide_term(alloc, term.get())? {
            return Ok(true);
        }
    }
    Ok(false)
}

fn is_wide_term(alloc: Global, term: &Term) -> Result<bool, AllocError>
    ensures { IfOk result (λ is. is ≡ is_wide term.now) }
{
    match normal(alloc, term) {
        Ok(_) => Ok(false),
        Err(LinFault::Wide) => Ok(true),
        Err(LinFault::OutOfMemory) => Err(AllocError),
    }
}

fn is_any_pair_wide(alloc: Global, pairs: &[Pair]) -> Result<bool, AllocError>
    ensures { IfOk result (λ is. is ≡ list_any (λ p. is_wide_pair p.left p.right) pairs.now) }
{
    for pair in pairs {
        if is_wide_pair(alloc, &pair.left, &pair.right)? {
            return Ok(true);
        }
    }
    Ok(false)
}

/// Whether a difference of the two terms is too wide, or one with 1 added to a side.
fn is_wide_pair(
    alloc: Global,
    left: &Shared<Term>,
    right: &Shared<Term>,
) -> Result<bool, AllocError>
    ensures { IfOk result (λ is. is ≡ is_wide_pair left.now right.now) }
{
    let next_left = next(alloc, left)?;
    let next_right = next(alloc, right)?;
    let plain = is_wide_either_way(alloc, left, right)?;
    let above = is_wide_difference(alloc, &next_left, right)?;
    let below = is_wide_difference(alloc, &next_right, left)?;
    Ok(plain || above || below)
}

fn is_wide_either_way(
    alloc: Global,
    left: &Shared<Term>,
    right: &Shared<Term>,
) -> Result<bool, AllocError>
    ensures { IfOk result (λ is. is ≡ (is_wide (Difference left.now right.now) || is_wide (Difference right.now left.now))) }
{
    let there = is_wide_difference(alloc, left, right)?;
    let back = is_wide_difference(alloc, right, left)?;
    Ok(there || back)
}

fn is_wide_difference(
    alloc: Global,
    left: &Shared<Term>,
    right: &Shared<Term>,
) -> Result<bool, AllocError>
    ensures { IfOk result (λ is. is ≡ is_wide (Difference left.now right.now)) }
{
    match difference(alloc, left, right)? {
        Some(_) => Ok(false),
        None => Ok(true),
    }
}

/// The term and 1.
fn next(alloc: Global, term: &Shared<Term>) -> Result<Shared<Term>, AllocError>
    ensures { IfOk result (λ sum. sum ≡ next term.now) }
{
    let one = Shared::new(alloc, Term::Num(1))?;
    let term = term.share()?;
    Shared::new(alloc, Term::Add(term, one))
}
