//! Worked examples of the definition.
ghost use Rattle.std.specs.Prelude.{◌≡◌, [], ◌∷◌};
ghost use Rattle.ac_tree.specs.declared.path.Cut.TheVariants as cut;
ghost use Rattle.ac_tree.specs.declared.path.Target.TheVariants as target;
ghost use Rattle.ac_flow.specs.Examples.{id, filled, filled_cuts, pair};
ghost use Rattle.ac_walk.specs.Walks.{walk_of};

/// A loop with an invariant and with a fact behind it, and a read that needs that fact: a turn of the loop, and the path from
/// behind it to the read.
pub fn a_filled_array()
    ensures turn { walk_of filled filled_cuts (pair (cut.Head (id 4)) (target.Keep (id 4))) ≡ id 4 ∷ id 7 ∷ [] }
    ensures read { walk_of filled filled_cuts (pair (cut.After (id 4)) (target.Site (id 11))) ≡ id 4 ∷ id 10 ∷ id 11 ∷ [] }
{}
