//! Whether a formula is the body of an `all` at a term. Body and formula are walked together, and nothing is made.
ghost use Rattle.std.specs.Prelude.{◌≡◌, IsTrue, ◌↔◌, ℕ, ◌+◌};
ghost use Rattle.ac_logic.specs.Opening.{array_at, bound_at, formula_at, opened, term_at};
ghost use Rattle.ac_opening.specs.Depth.{StandsFor};

use ac_logic::{ArrayTerm, Formula, Term, same_symbol, same_term};

/// No `Bound` names an `all` that is this many further out, so a depth need not be told from a greater one from here on.
const FARTHEST: u64 = 1 << 32;

/// Whether the formula is the body of an `all` with the term in place of its variable.
pub fn is_opening_of(body: &Formula, term: &Term, formula: &Formula) -> bool
    ensures { IsTrue result ↔ (formula.now ≡ opened term.now body.now) }
{
    is_formula_at(body, formula, 0, term)
}

fn is_formula_at(body: &Formula, formula: &Formula, depth: u64, by: &Term) -> bool
    ensures { (d : ℕ) → StandsFor depth d → IsTrue result ↔ (formula.now ≡ formula_at d by.now body.now) }
{
    match (body, formula) {
        (Formula::True, Formula::True) => true,
        (Formula::False, Formula::False) => true,
        (Formula::Le(s, t), Formula::Le(u, v)) => {
            is_term_at(s.get(), u.get(), depth, by) && is_term_at(t.get(), v.get(), depth, by)
        }
        (Formula::Eq(s, t), Formula::Eq(u, v)) => {
            is_term_at(s.get(), u.get(), depth, by) && is_term_at(t.get(), v.get(), depth, by)
        }
        (Formula::Not(f), Formula::Not(g)) => is_formula_at(f.get(), g.get(), depth, by),
        (Formula::And(f, g), Formula::And(h, i)) => {
            is_formula_at(f.get(), h.get(), depth, by) && is_formula_at(g.get(), i.get(), depth, by)
        }
        (Formula::Or(f, g), Formula::Or(h, i)) => {
            is_formula_at(f.get(), h.get(), depth, by) && is_formula_at(g.get(), i.get(), depth, by)
        }
        (Formula::Implies(f, g), Formula::Implies(h, i)) => {
            is_formula_at(f.get(), h.get(), depth, by) && is_formula_at(g.get(), i.get(), depth, by)
        }
        (Formula::All(f), Formula::All(g)) => is_formula_at(f.get(), g.get(), deeper(depth), by),
        (Formula::Lab(l, f), Formula::Lab(m, g)) => {
            l == m && is_formula_at(f.get(), g.get(), depth, by)
        }
        _ => false,
    }
}

/// The depth inside one more `all`.
fn deeper(depth: u64) -> u64
    ensures { (d : ℕ) → StandsFor depth d → StandsFor result (d + 1) }
{
    if depth < FARTHEST { depth + 1 } else { depth }
}

#[cycle(is_term_at)]
fn is_term_at(body: &Term, term: &Term, depth: u64, by: &Term) -> bool
    ensures { (d : ℕ) → StandsFor depth d → IsTrue result ↔ (term.now ≡ term_at d by.now body.now) }
{
    match (body, term) {
        (Term::Bound(k), _) => is_bound_at(*k, term, depth, by),
        (Term::Num(m), Term::Num(n)) => m == n,
        (Term::Sym(x), Term::Sym(y)) => same_symbol(x, y),
        (Term::Read(a, i, j), Term::Read(b, k, l)) => {
            is_array_at(a.get(), b.get(), depth, by)
                && is_term_at(i.get(), k.get(), depth, by)
                && is_term_at(j.get(), l.get(), depth, by)
        }
        (Term::Add(s, t), Term::Add(u, v)) => {
            is_term_at(s.get(), u.get(), depth, by) && is_term_at(t.get(), v.get(), depth, by)
        }
        (Term::Sub(s, t), Term::Sub(u, v)) => {
            is_term_at(s.get(), u.get(), depth, by) && is_term_at(t.get(), v.get(), depth, by)
        }
        (Term::Mul(s, t), Term::Mul(u, v)) => {
            is_term_at(s.get(), u.get(), depth, by) && is_term_at(t.get(), v.get(), depth, by)
        }
        (Term::Neg(s), Term::Neg(u)) => is_term_at(s.get(), u.get(), depth, by),
        _ => false,
    }
}

#[cycle(is_term_at)]
fn is_array_at(body: &ArrayTerm, array: &ArrayTerm, depth: u64, by: &Term) -> bool
    ensures { (d : ℕ) → StandsFor depth d → IsTrue result ↔ (array.now ≡ array_at d by.now body.now) }
{
    match (body, array) {
        (ArrayTerm::Sym(x), ArrayTerm::Sym(y)) => same_symbol(x, y),
        (ArrayTerm::Put(a, i, j, v), ArrayTerm::Put(b, k, l, u)) => {
            if !is_array_at(a.get(), b.get(), depth, by) {
                return false;
            }
            if !is_term_at(i.get(), k.get(), depth, by) {
                return false;
            }
            is_term_at(j.get(), l.get(), depth, by) && is_term_at(v.get(), u.get(), depth, by)
        }
        _ => false,
    }
}

fn is_bound_at(k: u32, term: &Term, depth: u64, by: &Term) -> bool
    ensures { (d : ℕ) → StandsFor depth d → IsTrue result ↔ (term.now ≡ bound_at d by.now k) }
{
    let place = u64::from(k);
    if place == depth {
        return same_term(term, by);
    }
    let Term::Bound(l) = term else { return false };
    if depth < place { *l == k - 1 } else { *l == k }
}
