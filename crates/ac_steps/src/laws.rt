//! Laws of plans, and of facts that contradict. They do nothing when they run: what they ensure is the law.
ghost use Rattle.std.specs.Prelude.{◌≡◌, ℕ, ◌+◌, ◌<◌, ◌^◌, List, ◌∷◌, ◌++◌, Some, length};
ghost use Rattle.ac_logic.specs.declared.formula.Term.{Term as AnyTerm};
ghost use Rattle.ac_logic.specs.declared.formula.Term.TheVariants.{Sub};
ghost use Rattle.ac_logic.specs.declared.formula.Formula.{Formula as AnyFormula, False as Falsity, Le as AtMost};
ghost use Rattle.ac_linear.specs.declared.linear.Linear.{Linear as AnyLinear};
ghost use Rattle.ac_linear.specs.declared.linear.Part.{Part as AnyPart};
ghost use Rattle.ac_linear.specs.NormalForm.{normal_of};
ghost use Rattle.ac_diff.specs.declared.diff.Diff.{Diff as AnyDiff};
ghost use Rattle.ac_proof.specs.Linear.{IsLinear, next};
ghost use Rattle.ac_steps.specs.declared.plan.Plan.{Plan as AnyPlan};
ghost use Rattle.ac_steps.specs.FactDifferences.{Contradict, Say, Says, once, reversed};
ghost use Rattle.ac_steps.specs.Contexts.{AreAmong, HasNewNames, Uses};
ghost use Rattle.ac_steps.specs.Plans.{Shows};

/// A plan stays one wherever its hypotheses stand among others, where its new names stand in none of them.
pub fn more_hypotheses_law()
    ensures { (hs gs : List AnyFormula) (plan : AnyPlan) → AreAmong hs gs → HasNewNames gs plan → Shows hs plan → Shows gs plan }
{}

/// A plan that does not use a hypothesis stays one without it.
pub fn unused_hypothesis_law()
    ensures { (hs more : List AnyFormula) (a : AnyFormula) (plan : AnyPlan) → (Uses a plan → ⊥) → Shows (hs ++ a ∷ more) plan → Shows (hs ++ more) plan }
{}

/// Facts whose differences contradict show false by one `linear` step that takes each once. Its sum is not too wide.
pub fn contradiction_law()
    ensures { (sides : ℕ → List AnyPart) (facts : List AnyFormula) (ds : List AnyDiff) → Say sides facts ds → Contradict ds → length facts < 2 ^ 64 → IsLinear (once facts) Falsity facts }
{}

/// Where the denial of `s <= t` belongs to them, they show `s <= t`.
pub fn comparison_law()
    ensures { (sides : ℕ → List AnyPart) (s t : AnyTerm) (facts : List AnyFormula) (ds : List AnyDiff) → Say sides (AtMost (next t) s ∷ facts) ds → Contradict ds → length facts + 1 < 2 ^ 64 → IsLinear (once (AtMost (next t) s ∷ facts)) (AtMost s t) facts }
{}

/// Where it does not, they show it too, and take the denial 0 times.
pub fn needless_denial_law()
    ensures { (sides : ℕ → List AnyPart) (s t : AnyTerm) (form : AnyLinear) (facts : List AnyFormula) (ds : List AnyDiff) → normal_of (Sub (next t) s) ≡ Some form → Say sides facts ds → Contradict ds → length facts < 2 ^ 64 → IsLinear (0 ∷ once facts) (AtMost s t) facts }
{}

/// Where `u <= v` says a difference, its denial `v + 1 <= u` says the reverse, if its form is not too wide.
pub fn reversal_law()
    ensures { (sides : ℕ → List AnyPart) (u v : AnyTerm) (d : AnyDiff) (form : AnyLinear) → Says sides (AtMost u v) d → normal_of (Sub (next v) u) ≡ Some form → Says sides (AtMost (next v) u) (reversed d) }
{}
