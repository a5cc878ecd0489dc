//! Laws of the meaning of formulas. They do nothing when they run: what they ensure is the law.
ghost use Rattle.std.specs.Prelude.{◌≡◌, ◌↔◌, ◌≤◌, List, [], ◌∷◌, ℕ, ℤ};
ghost use Rattle.ac_logic.specs.declared.formula.Change.{Change as AnyChange};
ghost use Rattle.ac_logic.specs.declared.formula.Formula.{Formula as AnyFormula};
ghost use Rattle.ac_logic.specs.declared.formula.Term.{Term as AnyTerm};
ghost use Rattle.ac_logic.specs.Meaning.{Valuation, HoldsIn, Holds, value};
ghost use Rattle.ac_logic.specs.Bounds.{IsTermClosed, IsClosed};
ghost use Rattle.ac_logic.specs.Substitution.{formula_after, changed, AreClosedChanges};
ghost use Rattle.ac_logic.specs.Opening.{opened};
ghost use Rattle.ac_logic.specs.Absence.{AreAbsent};
ghost use Rattle.ac_logic.specs.Parts.{IsPart};
ghost use Rattle.ac_logic.specs.Readable.{IsReadableIn};
ghost use Rattle.ac_logic.specs.Size.{depth_of, size_of};

/// A formula after changes holds exactly where the formula holds with the symbols changed.
pub fn change_law()
    ensures { (cs : List AnyChange) (f : AnyFormula) (w : Valuation) → AreClosedChanges cs → Holds w (formula_after cs f) ↔ Holds (changed w cs) f }
{}

/// Changes of symbols that do not stand in a formula change neither the formula nor where it holds.
pub fn absent_change_law()
    ensures same { (cs : List AnyChange) (f : AnyFormula) → AreAbsent cs f → formula_after cs f ≡ f }
    ensures meaning { (cs : List AnyChange) (f : AnyFormula) (w : Valuation) → AreAbsent cs f → AreClosedChanges cs → Holds (changed w cs) f ↔ Holds w f }
{}

/// Changes make no formula smaller, and none less deep.
pub fn change_growth_law()
    ensures size { (cs : List AnyChange) (f : AnyFormula) → size_of f ≤ size_of (formula_after cs f) }
    ensures depth { (cs : List AnyChange) (f : AnyFormula) → depth_of f ≤ depth_of (formula_after cs f) }
{}

/// Each part of a readable formula is readable, under the `all` that stand around it.
pub fn readable_parts_law()
    ensures { (d e : ℕ) (f g : AnyFormula) → IsPart d f e g → IsReadableIn d f → IsReadableIn e g }
{}

/// The body of an `all` at a term holds exactly where the body holds with the term's number for its variable.
pub fn opening_law()
    ensures { (t : AnyTerm) (f : AnyFormula) (w : Valuation) (e : List ℤ) → IsTermClosed t → HoldsIn w e (opened t f) ↔ HoldsIn w (value w [] t ∷ e) f }
{}

/// The meaning of a formula without a loose `Bound` does not depend on the environment.
pub fn environment_law()
    ensures { (f : AnyFormula) (w : Valuation) (e : List ℤ) → IsClosed f → HoldsIn w e f ↔ Holds w f }
{}

/// Truth is two-valued: what does not fail holds.
pub fn two_valued_law()
    ensures { (f : AnyFormula) (w : Valuation) (e : List ℤ) → ((HoldsIn w e f → ⊥) → ⊥) → HoldsIn w e f }
{}
