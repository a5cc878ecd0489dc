//! Laws of formula text. They do nothing when they run: what they ensure is the law.
ghost use Rattle.ac_logic.specs.declared.formula.Formula.{Formula as LogicFormula};
ghost use Rattle.ac_logic.specs.declared.formula.Term.{Term as LogicTerm};
ghost use Rattle.ac_logic.specs.Readable.{IsReadable, IsReadableTerm};
ghost use Rattle.ac_formula_printer.specs.FormulaText.{Terms, Formulas};
ghost use Rattle.ac_formula_printer.specs.FormulaTokens.{IsText};
ghost use Rattle.ac_formula_printer.specs.Printing.{text_of_term, text_of_formula};
ghost use Rattle.ac_formula_printer.specs.Range.{IsInRange, IsTermInRange};

/// What is printed of a readable formula or term is a text of it. That the numbers are in range is so for each formula
/// that a program has.
pub fn print_reads_back_law()
    ensures formula { (f : LogicFormula) → IsReadable f → IsInRange 0 f → IsText Formulas f (text_of_formula 0 f) }
    ensures term { (t : LogicTerm) → IsReadableTerm t → IsTermInRange t → IsText Terms t (text_of_term 0 t) }
{}
