//! Equality of trees. It takes no memory.
ghost use Rattle.std.specs.Prelude.{◌≡◌, IsTrue, ◌↔◌};
ghost use Rattle.ac_logic.specs.Substitution.{sym_eq};

use crate::formula::{ArrayTerm, Formula, Sym, Term};

/// Whether both are the same symbol.
pub fn same_symbol(a: &Sym, b: &Sym) -> bool
    ensures same { IsTrue result ↔ (a.now ≡ b.now) }
    ensures test { result ≡ sym_eq a.now b.now }
{
    match a {
        Sym::Value(x) => match b {
            Sym::Value(y) => x.is(y),
            _ => false,
        },
        Sym::Init(x) => match b {
            Sym::Init(y) => x.is(y),
            _ => false,
        },
        Sym::Fresh(x) => match b {
            Sym::Fresh(y) => x == y,
            _ => false,
        },
    }
}

/// Whether the terms are equal as trees.
#[cycle(same_term)]
pub fn same_term(a: &Term, b: &Term) -> bool
    ensures { IsTrue result ↔ (a.now ≡ b.now) }
{
    match (a, b) {
        (Term::Num(m), Term::Num(n)) => m == n,
        (Term::Sym(x), Term::Sym(y)) => same_symbol(x, y),
        (Term::Bound(k), Term::Bound(l)) => k == l,
        (Term::Read(a, i, j), Term::Read(b, k, l)) => {
            same_array(a.get(), b.get())
                && same_term(i.get(), k.get())
                && same_term(j.get(), l.get())
        }
        (Term::Add(s, t), Term::Add(u, v)) => same_term(s.get(), u.get())
            && same_term(t.get(), v.get()),
        (Term::Sub(s, t), Term::Sub(u, v)) => same_term(s.get(), u.get())
            && same_term(t.get(), v.get()),
        (Term::Mul(s, t), Term::Mul(u, v)) => same_term(s.get(), u.get())
            && same_term(t.get(), v.get()),
        (Term::Neg(s), Term::Neg(u)) => same_term(s.get(), u.get()),
        _ => false,
    }
}

/// Whether the arrays are equal as trees.
#[cycle(same_term)]
pub fn same_array(a: &ArrayTerm, b: &ArrayTerm) -> bool
    ensures { IsTrue result ↔ (a.now ≡ b.now) }
{
    match (a, b) {
        (ArrayTerm::Sym(x), ArrayTerm::Sym(y)) => same_symbol(x, y),
        (ArrayTerm::Put(a, i, j, v), ArrayTerm::Put(b, k, l, u)) => {
            same_array(a.get(), b.get())
                && same_term(i.get(), k.get())
                && same_term(j.get(), l.get())
                && same_term(v.get(), u.get())
        }
        _ => false,
    }
}

/// Whether the formulas are equal as trees, labels too. The time is linear in the size of the smaller one.
pub fn same(a: &Formula, b: &Formula) -> bool
    ensures { IsTrue result ↔ (a.now ≡ b.now) }
{
    match (a, b) {
        (Formula::True, Formula::True) => true,
        (Formula::False, Formula::False) => true,
        (Formula::Le(s, t), Formula::Le(u, v)) => same_term(s.get(), u.get())
            && same_term(t.get(), v.get()),
        (Formula::Eq(s, t), Formula::Eq(u, v)) => same_term(s.get(), u.get())
            && same_term(t.get(), v.get()),
        (Formula::Not(f), Formula::Not(g)) => same(f.get(), g.get()),
        (Formula::And(f, g), Formula::And(h, i)) => same(f.get(), h.get())
            && same(g.get(), i.get()),
        (Formula::Or(f, g), Formula::Or(h, i)) => same(f.get(), h.get()) && same(g.get(), i.get()),
        (Formula::Implies(f, g), Formula::Implies(h, i)) => same(f.get(), h.get())
            && same(g.get(), i.get()),
        (Formula::All(f), Formula::All(g)) => same(f.get(), g.get()),
        (Formula::Lab(l, f), Formula::Lab(m, g)) => l == m && same(f.get(), g.get()),
        _ => false,
    }
}
