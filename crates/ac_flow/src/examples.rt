//! Worked examples of the definitions.
ghost use Rattle.std.specs.Prelude.{◌≡◌, [], ◌∷◌};
ghost use Rattle.ac_flow.specs.Cuts.{has_place, cuts_of};
ghost use Rattle.ac_flow.specs.Pairs.{pairs_of};
ghost use Rattle.ac_flow.specs.Examples.{id, filled, places, filled_cuts, filled_pairs};

/// A loop with an invariant and with a fact behind it, and a read that needs that fact.
pub fn a_filled_array()
    ensures cuts { cuts_of (has_place places) filled ≡ filled_cuts }
    ensures pairs { pairs_of filled filled_cuts (id 8 ∷ id 11 ∷ []) ≡ filled_pairs }
{}
