//! Laws of linear forms. They do nothing when they run: what they ensure is the law.
ghost use Rattle.std.specs.Prelude.{◌≡◌, ℕ, ℤ, List};
ghost use Rattle.ac_logic.specs.declared.formula.Term.{Term as AnyTerm};
ghost use Rattle.ac_logic.specs.Meaning.{Valuation, value};
ghost use Rattle.ac_linear.specs.declared.linear.Linear.{Linear as AnyLinear};
ghost use Rattle.ac_linear.specs.Combination.{combination_of};
ghost use Rattle.ac_linear.specs.LinearValue.{linear_value, weighted};
ghost use Rattle.ac_linear.specs.NormalForm.{normal_of};
ghost use Rattle.ac_linear.specs.WellOrdered.{IsOrdered};

/// Under every valuation a normal form has its term's number.
pub fn normal_law()
    ensures { (t : AnyTerm) (l : AnyLinear) (w : Valuation) (e : List ℤ) → normal_of t ≡ Some l → linear_value w e l ≡ value w e t }
{}

/// Under every valuation a combination has the sum of factor times fact.
pub fn combination_law()
    ensures { (facts : List AnyLinear) (factors : List ℕ) (l : AnyLinear) (w : Valuation) (e : List ℤ) → combination_of facts factors ≡ Some l → linear_value w e l ≡ weighted w e facts factors }
{}

/// A normal form has no factor 0 and each unit once, and its parts stand in the order of their printed units.
pub fn normal_order_law()
    ensures { (t : AnyTerm) (l : AnyLinear) → normal_of t ≡ Some l → IsOrdered l.parts }
{}

/// So has a combination, however the parts of the facts stand.
pub fn combination_order_law()
    ensures { (facts : List AnyLinear) (factors : List ℕ) (l : AnyLinear) → combination_of facts factors ≡ Some l → IsOrdered l.parts }
{}
