//! Worked examples of the definitions.
ghost use Rattle.std.specs.Prelude.{◌≡◌, [], ◌∷◌};
ghost use Rattle.ac_expand.specs.Examples.{filled, filled_ground, nested, nested_ground, number, y};
ghost use Rattle.ac_expand.specs.Ground.{ground_form};
ghost use Rattle.ac_expand.specs.Index.{index_terms};
ghost use Rattle.ac_expand.specs.Instances.{instances_of};

/// A fact on a filled array, assumed, and a read of its last cell.
pub fn a_filled_array()
    ensures index { index_terms filled ≡ number 0 ∷ number 9 ∷ [] }
    ensures instances { instances_of filled ≡ 2 }
    ensures form { ground_form filled ≡ filled_ground }
{}

/// A shown `all` inside an assumed one: each instance has a new name of its own, which is no index term.
pub fn a_shown_all_inside()
    ensures index { index_terms nested ≡ y ∷ number 0 ∷ [] }
    ensures instances { instances_of nested ≡ 2 }
    ensures form { ground_form nested ≡ nested_ground }
{}
