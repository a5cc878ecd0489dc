//! Comparisons under a valuation.
ghost use Rattle.std.specs.Prelude.{◌≡◌, IfOk, option_map};
ghost use Rattle.ac_logic.specs.Patterns.{Difference};
ghost use Rattle.ac_linear.specs.NormalForm.{normal_of};
ghost use Rattle.ac_ground.specs.Numbers.{at_most, equal, gap, number_of_form};
ghost use Rattle.ac_ground.specs.Signs.{is_not_above, is_zero, sign_of};

use crate::number::{number_of_side, sign};
use crate::part::{negative_parts, positive_parts};
use crate::valuation::Valuation;
use ac_linear::{LinFault, Linear, normal};
use ac_logic::Term;
use ac_shared::Shared;
use std::alloc::{AllocError, Global};
use std::cmp::Ordering;

/// The normal form of the difference of two terms; none where it is too wide.
pub(crate) fn difference(
    alloc: Global,
    left: &Shared<Term>,
    right: &Shared<Term>,
) -> Result<Option<Linear>, AllocError>
    ensures { IfOk result (λ form. form ≡ normal_of (Difference left.now right.now)) }
{
    let difference = Shared::new(alloc, Term::Sub(left.share()?, right.share()?))?;
    match normal(alloc, difference.get()) {
        Ok(form) => Ok(Some(form)),
        Err(LinFault::Wide) => Ok(None),
        Err(LinFault::OutOfMemory) => Err(AllocError),
    }
}

/// What the number of a form is beside 0.
fn sign_of_form(alloc: Global, valuation: &Valuation, form: &Linear) -> Result<Ordering, AllocError>
    ensures { IfOk result (λ sign. sign ≡ sign_of (number_of_form valuation.now form.now)) }
{
    let first = positive_parts(alloc, form.parts.as_slice())?;
    let first = number_of_side(alloc, valuation, first.as_slice())?;
    let second = negative_parts(alloc, form.parts.as_slice())?;
    let second = number_of_side(alloc, valuation, second.as_slice())?;
    Ok(sign(form.constant, first, second))
}

/// What the number of the difference of two terms is beside 0; none where its normal form is too wide.
#[tactic(auto, unfolding(crate::specs::Numbers::gap, crate::specs::Opened::term_shape, crate::specs::Opened::term_child, crate::specs::Opened::array_shape, crate::specs::Opened::array_child, crate::specs::Opened::hidden))]
fn sign_of_gap(
    alloc: Global,
    valuation: &Valuation,
    left: &Shared<Term>,
    right: &Shared<Term>,
) -> Result<Option<Ordering>, AllocError>
    ensures { IfOk result (λ sign. sign ≡ option_map sign_of (gap valuation.now left.now right.now)) }
{
    let Some(form) = difference(alloc, left, right)? else {
        return Ok(None);
    };
    let sign = sign_of_form(alloc, valuation, &form)?;
    Ok(Some(sign))
}

/// Whether the valuation makes the left term at most the right one.
#[tactic(auto, using(crate::proofs::Signs::at_most_by_sign))]
pub(crate) fn is_at_most(
    alloc: Global,
    valuation: &Valuation,
    left: &Shared<Term>,
    right: &Shared<Term>,
) -> Result<bool, AllocError>
    ensures { IfOk result (λ is. is ≡ at_most valuation.now left.now right.now) }
{
    let sign = sign_of_gap(alloc, valuation, left, right)?;
    Ok(is_not_above(sign))
}

/// Whether the valuation makes the terms equal.
#[tactic(auto, using(crate::proofs::Signs::equal_by_sign))]
pub(crate) fn is_equal(
    alloc: Global,
    valuation: &Valuation,
    left: &Shared<Term>,
    right: &Shared<Term>,
) -> Result<bool, AllocError>
    ensures { IfOk result (λ is. is ≡ equal valuation.now left.now right.now) }
{
    let sign = sign_of_gap(alloc, valuation, left, right)?;
    Ok(is_zero(sign))
}

/// Whether there is a sign, and it says that a number is at most 0.
fn is_not_above(sign: Option<Ordering>) -> bool
    ensures { result ≡ is_not_above sign }
{
    match sign {
        Some(Ordering::Less) => true,
        Some(Ordering::Equal) => true,
        Some(Ordering::Greater) => false,
        None => false,
    }
}

/// Whether there is a sign, and it says that a number is 0.
fn is_zero(sign: Option<Ordering>) -> bool
    ensures { result ≡ is_zero sign }
{
    match sign {
        Some(Ordering::Less) => false,
        Some(Ordering::Equal) => true,
        Some(Ordering::Greater) => false,
        None => false,
    }
}
