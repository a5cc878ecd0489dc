//! Worked examples of the laws.
ghost use Rattle.std.specs.Prelude.{◌≡◌, [], ◌∷◌, map};
ghost use Rattle.ac_flow.specs.Examples.{id, filled, filled_cuts};
ghost use Rattle.ac_walk.specs.Walks.{walk_of};
ghost use Rattle.ac_logic.specs.Aim.{AimsAt};
ghost use Rattle.ac_logic.specs.Labels.{labels_of};
ghost use Rattle.ac_conditions.specs.Examples.{kept_invariant};
ghost use Rattle.ac_conditions.specs.SearchExample.{search_program, guarded_condition};
ghost use Rattle.ac_labels.specs.TargetLabels.{target_label};

/// A turn of a loop with an invariant: five labels stand at the loop and at the write in its body, and these two are the walk.
pub fn a_kept_invariant()
    ensures labels { map (λ l. l.node) (labels_of kept_invariant.formula) ≡ id 4 ∷ id 4 ∷ id 4 ∷ id 7 ∷ id 4 ∷ [] }
    ensures walk { walk_of filled filled_cuts kept_invariant.pair ≡ id 4 ∷ id 7 ∷ [] }
    ensures aim { AimsAt (target_label kept_invariant.pair.target) kept_invariant.formula }
{}

/// A read in the right side of `and` in the test of a loop: the labels stand at the two inputs, at the left side and at the read;
/// the walk has the loop and its test besides.
pub fn a_guarded_read()
    ensures labels { map (λ l. l.node) (labels_of guarded_condition.formula) ≡ id 1 ∷ id 2 ∷ id 8 ∷ id 12 ∷ [] }
    ensures walk { walk_of search_program [] guarded_condition.pair ≡ id 1 ∷ id 2 ∷ id 6 ∷ id 7 ∷ id 8 ∷ id 12 ∷ [] }
    ensures aim { AimsAt (target_label guarded_condition.pair.target) guarded_condition.formula }
{}
