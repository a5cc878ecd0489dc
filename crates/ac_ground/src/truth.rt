//! The truth of a ground form.
ghost use Rattle.std.specs.Prelude.{◌≡◌, IfOk};
ghost use Rattle.ac_ground.specs.Truth.{truth};

use crate::gap::{is_at_most, is_equal};
use crate::valuation::Valuation;
use ac_logic::Formula;
use std::alloc::{AllocError, Global};

/// Whether a ground form is true under a valuation. An `all`, which no ground form has, is not.
pub fn is_true(alloc: Global, ground: &Formula, valuation: &Valuation) -> Result<bool, AllocError>
    ensures { IfOk result (λ is. is ≡ truth valuation.now ground.now) }
{
    match ground {
        Formula::True => Ok(true),
        Formula::False => Ok(false),
        Formula::Le(s, t) => is_at_most(alloc, valuation, s, t),
        Formula::Eq(s, t) => is_equal(alloc, valuation, s, t),
        Formula::Not(f) => {
            let inside = is_true(alloc, f.get(), valuation)?;
            Ok(!inside)
        }
        Formula::And(f, g) => {
            let left = is_true(alloc, f.get(), valuation)?;
            let right = is_true(alloc, g.get(), valuation)?;
            Ok(left && right)
        }
        Formula::Or(f, g) => {
            let left = is_true(alloc, f.get(), valuation)?;
            let right = is_true(alloc, g.get(), valuation)?;
            Ok(left || right)
        }
        Formula::Implies(f, g) => {
            let left = is_true(alloc, f.get(), valuation)?;
            let right = is_true(alloc, g.get(), valuation)?;
            Ok(!left || right)
        }
        Formula::All(_) => Ok(false),
        Formula::Lab(_, f) => is_true(alloc, f.get(), valuation),
    }
}
