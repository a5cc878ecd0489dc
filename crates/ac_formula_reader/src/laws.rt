//! Laws of formula text. They do nothing when they run: what they ensure is the law.
ghost use Rattle.std.specs.Prelude.{◌≡◌, ℕ, List};
ghost use Rattle.ac_formula_printer.specs.FormulaText.{Goal, Tree};
ghost use Rattle.ac_formula_printer.specs.FormulaTokens.{IsText, IsRefusedAt};

/// A text is of one formula, or one term, at most.
pub fn one_tree_law()
    ensures { (g : Goal) (bytes : List ℕ) (s t : Tree g) → IsText g s bytes → IsText g t bytes → s ≡ t }
{}

/// A text that is of no formula, or of no term, is refused at one place at most.
pub fn one_refusal_law()
    ensures { (g : Goal) (bytes : List ℕ) (a b : ℕ) → IsRefusedAt g bytes a → IsRefusedAt g bytes b → a ≡ b }
{}
