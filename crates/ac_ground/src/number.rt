//! The numbers that a valuation gives to units and sides.
ghost use Rattle.std.specs.Prelude.{◌≡◌, ◌+ℤ◌, ◌-ℤ◌, pos, IfOk};
ghost use Rattle.std.specs.Ordering.{int_cmp};
ghost use Rattle.ac_linear.specs.TermEquality.{term_eq};
ghost use Rattle.ac_ground.specs.Numbers.{number, number_among, number_of_side};

use crate::part::term_of_side;
use crate::valuation::{Entry, Valuation};
use ac_linear::Part;
use ac_logic::{Term, same_term};
use std::alloc::{AllocError, Global};
use std::cmp::Ordering;

/// Whether the terms are equal as trees.
#[tactic(auto, using(ac_linear::proofs::Equal::term_true, ac_linear::proofs::Equal::term_false))]
pub(crate) fn is_same(a: &Term, b: &Term) -> bool
    ensures { result ≡ term_eq a.now b.now }
{
    if same_term(a, b) {
        return true;
    }
    false
}

/// That of the first entry of a unit, or 0.
fn number_among(entries: &[Entry], unit: &Term) -> i128
    ensures { result ≡ number_among entries.now unit.now }
{
    for entry in entries {
        if is_same(entry.unit.get(), unit) {
            return entry.value;
        }
    }
    0
}

/// The number of a unit.
pub(crate) fn number(valuation: &Valuation, unit: &Term) -> i128
    ensures { result ≡ number valuation.now unit.now }
{
    number_among(valuation.entries.as_slice(), unit)
}

/// The number of a side.
pub(crate) fn number_of_side(
    alloc: Global,
    valuation: &Valuation,
    side: &[Part],
) -> Result<i128, AllocError>
    ensures { IfOk result (λ n. n ≡ number_of_side valuation.now side.now) }
{
    match term_of_side(alloc, side)? {
        Some(unit) => Ok(number(valuation, unit.get())),
        None => Ok(0),
    }
}

/// What the constant plus the first number minus the second is beside 0.
pub(crate) fn sign(constant: i128, first: i128, second: i128) -> Ordering
    ensures { result ≡ int_cmp ((constant +ℤ first) -ℤ second) (pos 0) }
{
    match constant.checked_add(first) {
        Some(sum) => sum.cmp(&second),
        None => beyond(first),
    }
}

/// A sum that leaves 128 bits has the sign of its parts.
fn beyond(part: i128) -> Ordering
    ensures { result ≡ int_cmp part (pos 0) }
{
    part.cmp(&0)
}
