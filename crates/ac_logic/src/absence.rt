//! Whether a symbol stands in a formula. It takes no memory.
ghost use Rattle.std.specs.Prelude.{IsTrue, ◌↔◌};
ghost use Rattle.ac_logic.specs.Absence.{IsAbsent, IsAbsentInArray, IsAbsentInTerm};

use crate::equality::same_symbol;
use crate::formula::{ArrayTerm, Formula, Sym, Term};

/// Whether the symbol stands nowhere in the term, neither as a scalar nor as an array.
#[cycle(is_absent_in_term)]
pub fn is_absent_in_term(symbol: &Sym, term: &Term) -> bool
    ensures { IsTrue result ↔ IsAbsentInTerm symbol.now term.now }
{
    match term {
        Term::Num(_) => true,
        Term::Sym(s) => !same_symbol(symbol, s),
        Term::Bound(_) => true,
        Term::Read(a, i, j) => {
            is_absent_in_array(symbol, a.get())
                && is_absent_in_term(symbol, i.get())
                && is_absent_in_term(symbol, j.get())
        }
        Term::Add(s, t) => is_absent_in_term(symbol, s.get()) && is_absent_in_term(symbol, t.get()),
        Term::Sub(s, t) => is_absent_in_term(symbol, s.get()) && is_absent_in_term(symbol, t.get()),
        Term::Mul(s, t) => is_absent_in_term(symbol, s.get()) && is_absent_in_term(symbol, t.get()),
        Term::Neg(t) => is_absent_in_term(symbol, t.get()),
    }
}

/// Whether the symbol stands nowhere in the array.
#[cycle(is_absent_in_term)]
pub fn is_absent_in_array(symbol: &Sym, array: &ArrayTerm) -> bool
    ensures { IsTrue result ↔ IsAbsentInArray symbol.now array.now }
{
    match array {
        ArrayTerm::Sym(s) => !same_symbol(symbol, s),
        ArrayTerm::Put(a, i, j, v) => {
            if !is_absent_in_array(symbol, a.get()) {
                return false;
            }
            if !is_absent_in_term(symbol, i.get()) {
                return false;
            }
            is_absent_in_term(symbol, j.get()) && is_absent_in_term(symbol, v.get())
        }
    }
}

/// Whether the symbol stands nowhere in the formula, neither as a scalar nor as an array.
pub fn is_absent(symbol: &Sym, formula: &Formula) -> bool
    ensures { IsTrue result ↔ IsAbsent symbol.now formula.now }
{
    match formula {
        Formula::True => true,
        Formula::False => true,
        Formula::Le(s, t) => is_absent_in_term(symbol, s.get())
            && is_absent_in_term(symbol, t.get()),
        Formula::Eq(s, t) => is_absent_in_term(symbol, s.get())
            && is_absent_in_term(symbol, t.get()),
        Formula::Not(f) => is_absent(symbol, f.get()),
        Formula::And(f, g) => is_absent(symbol, f.get()) && is_absent(symbol, g.get()),
        Formula::Or(f, g) => is_absent(symbol, f.get()) && is_absent(symbol, g.get()),
        Formula::Implies(f, g) => is_absent(symbol, f.get()) && is_absent(symbol, g.get()),
        Formula::All(f) => is_absent(symbol, f.get()),
        Formula::Lab(_, f) => is_absent(symbol, f.get()),
    }
}
