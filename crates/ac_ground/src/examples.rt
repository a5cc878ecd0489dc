//! Worked examples of the definitions.
ghost use Rattle.std.specs.Prelude.{◌≡◌, false, true};
ghost use Rattle.ac_expand.specs.Ground.{ground_form};
ghost use Rattle.ac_ground.specs.Examples.{both_one, set_if_zero, first_written, four_alone, left_loop, nine_i, no_entry, no_square, one_at_i, one_c, one_cell, partly_filled, read_before_test, twice, two_sums, write_inside, write_outside, written_cell};
ghost use Rattle.ac_ground.specs.Falsifies.{Falsifies};
ghost use Rattle.ac_ground.specs.Truth.{truth};

/// A write outside of an array, an entry of a matrix that isn't square, and a read before the test of its index: no entry is
/// needed. A write inside is true under the same valuation.
pub fn without_entries()
    ensures write_outside { Falsifies no_entry write_outside }
    ensures no_square { Falsifies no_entry no_square }
    ensures read_before_test { Falsifies no_entry read_before_test }
    ensures write_inside { truth no_entry (ground_form write_inside) ≡ true }
{}

/// A cell behind the filled part of an array, a scalar that is set in one of two cases, and the end of a loop behind which
/// something false is asked.
pub fn with_entries()
    ensures partly_filled { Falsifies first_written partly_filled }
    ensures set_if_zero { Falsifies one_c set_if_zero }
    ensures left_loop { Falsifies nine_i left_loop }
{}

/// Twice a number is a unit of its own, so it can be 0 where the number is.
pub fn a_multiple()
    ensures { Falsifies no_entry twice }
{}

/// Valuations that make a formula false and are refused: for two reads of one cell, for a read of the cell that was written,
/// and for two sums with equal parts.
pub fn refused()
    ensures reads_false { truth one_at_i (ground_form one_cell) ≡ false }
    ensures reads { Falsifies one_at_i one_cell → ⊥ }
    ensures put_false { truth both_one (ground_form written_cell) ≡ false }
    ensures put { Falsifies both_one written_cell → ⊥ }
    ensures sums_false { truth four_alone (ground_form two_sums) ≡ false }
    ensures sums { Falsifies four_alone two_sums → ⊥ }
{}
