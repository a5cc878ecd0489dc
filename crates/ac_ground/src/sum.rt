//! Sums with the numbers of their parts.
ghost use Rattle.std.specs.Prelude.{◌≡◌, ◌<◌, ◌++◌, is_some, length, remove, IfOk, IfSome, IsTrue, OnOk};
ghost use Rattle.std.specs.List.{list_all, list_any};
ghost use Rattle.ac_ground.specs.Compared.{is_sum};
ghost use Rattle.ac_ground.specs.Falsifies.{numbered};
ghost use Rattle.ac_ground.specs.Sums.{pairs_off, part_eq, sum_of_side, sums_between, sums_of, sums_of_form, sums_pass, without};

use crate::gap::difference;
use crate::number::{number, number_of_side};
use crate::pair::Pair;
use crate::part::{negative_parts, positive_parts};
use crate::valuation::Valuation;
use ac_linear::{Linear, Part};
use sqlite_items::Items;
use std::alloc::{AllocError, Global};

/// A part of a sum: its factor, and the number of its unit.
#[derive(Clone, Copy)]
pub struct NumberedPart {
    pub factor: i128,
    pub number: i128,
}

/// A sum: its parts, and its own number.
#[derive(Drop)]
pub struct NumberedSum {
    pub parts: Items<NumberedPart>,
    pub number: i128,
}

/// The sums among the sides of pairs.
pub(crate) fn sums_of(
    alloc: Global,
    valuation: &Valuation,
    pairs: &[Pair],
) -> Result<Items<NumberedSum>, AllocError>
    ensures { IfOk result (λ sums. sums ≡ sums_of valuation.now pairs.now) }
{
    let mut sums = Items::new(alloc);
    for pair in pairs {
        add_sums(alloc, valuation, pair, &mut sums)?;
    }
    Ok(sums)
}

/// Adds the sums among the sides of a pair. One that is too wide has no sides.
#[tactic(auto, unfolding(crate::specs::Sums::sums_between, crate::specs::Opened::term_shape, crate::specs::Opened::term_child, crate::specs::Opened::array_shape, crate::specs::Opened::array_child, crate::specs::Opened::hidden))]
fn add_sums(
    alloc: Global,
    valuation: &Valuation,
    pair: &Pair,
    sums: &mut Items<NumberedSum>,
) -> Result<(), AllocError>
    ensures { OnOk result (sums.new ≡ sums.old ++ sums_between valuation.now pair.now) }
{
    match difference(alloc, &pair.left, &pair.right)? {
        Some(form) => add_sums_of_form(alloc, valuation, &form, sums),
        None => Ok(()),
    }
}

fn add_sums_of_form(
    alloc: Global,
    valuation: &Valuation,
    form: &Linear,
    sums: &mut Items<NumberedSum>,
) -> Result<(), AllocError>
    ensures { OnOk result (sums.new ≡ sums.old ++ sums_of_form valuation.now form.now) }
{
    let first = positive_parts(alloc, form.parts.as_slice())?;
    add_if_sum(alloc, valuation, first.as_slice(), sums)?;
    let second = negative_parts(alloc, form.parts.as_slice())?;
    add_if_sum(alloc, valuation, second.as_slice(), sums)
}

/// Adds a side that is a sum.
fn add_if_sum(
    alloc: Global,
    valuation: &Valuation,
    side: &[Part],
    sums: &mut Items<NumberedSum>,
) -> Result<(), AllocError>
    ensures { OnOk result (sums.new ≡ sums.old ++ sum_of_side valuation.now side.now) }
{
    if is_sum(side) {
        let parts = numbered(alloc, valuation, side)?;
        let number = number_of_side(alloc, valuation, side)?;
        sums.push(NumberedSum { parts, number })?;
    }
    Ok(())
}

/// Whether a side is a sum: not empty, and not a unit.
pub(crate) fn is_sum(side: &[Part]) -> bool
    ensures { result ≡ is_sum side.now }
{
    match side {
        [] => false,
        [part] => part.factor != 1,
        _ => true,
    }
}

/// The factors of parts with the numbers of their units.
fn numbered(
    alloc: Global,
    valuation: &Valuation,
    side: &[Part],
) -> Result<Items<NumberedPart>, AllocError>
    ensures { IfOk result (λ parts. parts ≡ numbered valuation.now side.now) }
{
    let mut parts = Items::new(alloc);
    for part in side {
        let number = number(valuation, part.unit.get());
        parts.push(NumberedPart {
            factor: part.factor,
            number,
        })?;
    }
    Ok(parts)
}

/// Whether each two sums pass: they have equal numbers, or their parts can't be paired.
pub(crate) fn are_sums_agreed(alloc: Global, sums: &[NumberedSum]) -> Result<bool, AllocError>
    ensures { IfOk result (λ all. all ≡ list_all (λ a. list_all (sums_pass a) sums.now) sums.now) }
{
    for sum in sums {
        if !passes_with_all(alloc, sum, sums)? {
            return Ok(false);
        }
    }
    Ok(true)
}

fn passes_with_all(
    alloc: Global,
    sum: &NumberedSum,
    others: &[NumberedSum],
) -> Result<bool, AllocError>
    ensures { IfOk result (λ all. all ≡ list_all (sums_pass sum.now) others.now) }
{
    for other in others {
        if !passes(alloc, sum, other)? {
            return Ok(false);
        }
    }
    Ok(true)
}

fn passes(alloc: Global, sum: &NumberedSum, other: &NumberedSum) -> Result<bool, AllocError>
    ensures { IfOk result (λ is. is ≡ sums_pass sum.now other.now) }
{
    if sum.number == other.number {
        return Ok(true);
    }
    let paired = can_be_paired(alloc, sum.parts.as_slice(), other.parts.as_slice())?;
    Ok(!paired)
}

/// Whether the parts can be paired with equal factors and equal numbers.
fn can_be_paired(
    alloc: Global,
    left: &[NumberedPart],
    right: &[NumberedPart],
) -> Result<bool, AllocError>
    ensures { IfOk result (λ is. is ≡ pairs_off left.now right.now) }
{
    let mut rest = Items::from_slice(alloc, right)?;
    for part in left {
        if !take(&mut rest, *part) {
            return Ok(false);
        }
    }
    Ok(rest.is_empty())
}

/// Takes the first equal part away. The answer says whether there was one.
fn take(parts: &mut Items<NumberedPart>, part: NumberedPart) -> bool
    ensures known { result ≡ list_any (part_eq part) parts.old }
    ensures rest { IsTrue result → parts.new ≡ without part parts.old }
{
    match place_of(parts.as_slice(), part) {
        Some(place) => {
            parts.remove(place);
            true
        }
        None => false,
    }
}

/// The place of the first equal part.
fn place_of(parts: &[NumberedPart], part: NumberedPart) -> Option<usize>
    ensures within { IfSome result (λ k. k < length parts.now) }
    ensures rest { IfSome result (λ k. remove parts.now k ≡ without part parts.now) }
    ensures known { is_some result ≡ list_any (part_eq part) parts.now }
{
    for place in 0..parts.len() {
        if is_equal_part(part, parts[place]) {
            return Some(place);
        }
    }
    None
}

fn is_equal_part(part: NumberedPart, other: NumberedPart) -> bool
    ensures { result ≡ part_eq part other }
{
    part.factor == other.factor && part.number == other.number
}
