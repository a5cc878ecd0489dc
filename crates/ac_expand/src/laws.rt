//! Laws of the definitions.
ghost use Rattle.std.specs.Prelude.{List, Bool, true, false};
ghost use Rattle.ac_logic.specs.declared.formula.Term.{Term as TermTree};
ghost use Rattle.ac_logic.specs.declared.formula.Formula.{Formula as FormulaTree};
ghost use Rattle.ac_logic.specs.Meaning.{Valuation, Holds, HoldsIn};
ghost use Rattle.ac_expand.specs.declared.names.Names.{Names as NextNames};
ghost use Rattle.ac_expand.specs.Ground.{ground_form, made};
ghost use Rattle.ac_expand.specs.Witnesses.{AreWitnesses, HasWitnesses, numbers};

/// The law that instances follow: under every valuation in which the new names are witnesses, the ground form of an assumed
/// part holds where the part holds, and a shown part holds where its ground form holds. So the formula holds where its
/// ground form does.
pub fn instance_law()
    ensures assumed { (w : Valuation) (ts : List TermTree) (inside : Bool) (e : List TermTree) (f : FormulaTree) (n : NextNames) → AreWitnesses w ts false inside e f n → HoldsIn w (numbers w e) f → Holds w (made ts false inside e f n).0 }
    ensures shown { (w : Valuation) (ts : List TermTree) (inside : Bool) (e : List TermTree) (f : FormulaTree) (n : NextNames) → AreWitnesses w ts true inside e f n → Holds w (made ts true inside e f n).0 → HoldsIn w (numbers w e) f }
    ensures whole { (w : Valuation) (f : FormulaTree) → HasWitnesses w f → Holds w (ground_form f) → Holds w f }
{}
