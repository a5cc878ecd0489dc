//! The sides of normal forms, and the units that sides are.
ghost use Rattle.std.specs.Prelude.{◌≡◌, ◌++◌, ◌∷◌, [], map, not, IfOk, OnOk};
ghost use Rattle.std.specs.List.{filter};
ghost use Rattle.ac_logic.specs.declared.formula.Term.{Num};
ghost use Rattle.ac_ground.specs.Numbers.{added, is_positive, multiple, negated, term_of_side};

use ac_linear::Part;
use ac_logic::Term;
use ac_shared::Shared;
use sqlite_items::Items;
use std::alloc::{AllocError, Global};

/// The parts with a positive factor.
pub(crate) fn positive_parts(alloc: Global, parts: &[Part]) -> Result<Items<Part>, AllocError>
    ensures { IfOk result (λ side. side ≡ filter is_positive parts.now) }
{
    let mut side = Items::new(alloc);
    for part in parts {
        add_positive(&mut side, part)?;
    }
    Ok(side)
}

/// The parts with a negative factor, without their sign.
pub(crate) fn negative_parts(alloc: Global, parts: &[Part]) -> Result<Items<Part>, AllocError>
    ensures { IfOk result (λ side. side ≡ map negated (filter (λ p. not (is_positive p)) parts.now)) }
{
    let mut side = Items::new(alloc);
    for part in parts {
        add_negative(&mut side, part)?;
    }
    Ok(side)
}

fn add_positive(side: &mut Items<Part>, part: &Part) -> Result<(), AllocError>
    ensures { OnOk result (side.new ≡ side.old ++ filter is_positive (part.now ∷ [])) }
{
    if part.factor > 0 {
        let unit = part.unit.share()?;
        side.push(Part {
            unit,
            factor: part.factor,
        })?;
    }
    Ok(())
}

fn add_negative(side: &mut Items<Part>, part: &Part) -> Result<(), AllocError>
    ensures { OnOk result (side.new ≡ side.old ++ map negated (filter (λ p. not (is_positive p)) (part.now ∷ []))) }
{
    if part.factor <= 0 {
        let factor = part.factor.checked_neg().ok_or(AllocError)?;
        let unit = part.unit.share()?;
        side.push(Part { unit, factor })?;
    }
    Ok(())
}

/// The unit that a side is; none where it has no part.
pub(crate) fn term_of_side(alloc: Global, side: &[Part]) -> Result<Option<Shared<Term>>, AllocError>
    ensures { IfOk result (λ unit. unit ≡ term_of_side side.now) }
{
    let [first, rest @ ..] = side else {
        return Ok(None);
    };
    let first = multiple(alloc, first)?;
    let sum = added(alloc, first, rest)?;
    Ok(Some(sum))
}

/// A term and parts behind it, as a sum.
fn added(alloc: Global, first: Shared<Term>, rest: &[Part]) -> Result<Shared<Term>, AllocError>
    ensures { IfOk result (λ sum. sum ≡ added first rest.now) }
{
    let mut sum = first;
    for part in rest {
        let more = multiple(alloc, part)?;
        sum = Shared::new(alloc, Term::Add(sum, more))?;
    }
    Ok(sum)
}

/// A part as a term. A factor of a normal form is at most 2^62 in magnitude, so it is a number of a term.
fn multiple(alloc: Global, part: &Part) -> Result<Shared<Term>, AllocError>
    ensures { IfOk result (λ term. term ≡ multiple part.now) }
{
    if part.factor == 1 {
        return part.unit.share();
    }
    let factor = number_term(alloc, part.factor)?;
    let unit = part.unit.share()?;
    Shared::new(alloc, Term::Mul(factor, unit))
}

fn number_term(alloc: Global, n: i128) -> Result<Shared<Term>, AllocError>
    ensures { IfOk result (λ term. term ≡ Num n) }
{
    if n < -(1 << 62) || 1 << 62 < n {
        return Err(AllocError);
    }
    Shared::new(alloc, Term::Num(n as i64))
}
