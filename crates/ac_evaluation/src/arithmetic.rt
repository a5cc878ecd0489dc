//! Sums, differences, products and negations within 128 bits.
ghost use Rattle.std.specs.Prelude.{◌+ℤ◌, ◌-ℤ◌, ◌*ℤ◌, neg_ℤ};
ghost use Rattle.ac_evaluation.specs.Parts.{Makes};

use crate::stop::Stop;

pub(crate) fn sum(x: i128, y: i128) -> Result<i128, Stop>
    ensures { Makes (x +ℤ y) result }
{
    x.checked_add(y).ok_or(Stop::Wide)
}

pub(crate) fn difference(x: i128, y: i128) -> Result<i128, Stop>
    ensures { Makes (x -ℤ y) result }
{
    x.checked_sub(y).ok_or(Stop::Wide)
}

pub(crate) fn product(x: i128, y: i128) -> Result<i128, Stop>
    ensures { Makes (x *ℤ y) result }
{
    x.checked_mul(y).ok_or(Stop::Wide)
}

pub(crate) fn negation(x: i128) -> Result<i128, Stop>
    ensures { Makes (neg_ℤ x) result }
{
    x.checked_neg().ok_or(Stop::Wide)
}
