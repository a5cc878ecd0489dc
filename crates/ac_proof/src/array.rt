//! The rules of arrays.
ghost use Rattle.std.specs.Prelude.{◌≡◌, IsTrue, ◌↔◌, map, [], ◌∷◌};
ghost use Rattle.ac_logic.specs.declared.formula.Term.TheVariants.{Read};
ghost use Rattle.ac_logic.specs.declared.formula.Formula.{Eq};
ghost use Rattle.ac_logic.specs.declared.formula.Formula.TheVariants.{And, Not};
ghost use Rattle.ac_proof.specs.declared.rule.Rule.TheVariants.{ReadPut, ReadSame};
ghost use Rattle.ac_proof.specs.Rules.{IsInstance};
ghost use Rattle.ac_proof.specs.Checked.{goal_of};

use crate::premises::{are_none, both};
use crate::tree::ProofTree;
use ac_logic::{ArrayTerm, Formula, Term, same, same_array, same_term};

pub fn is_read_put(goal: &Formula, premises: &[ProofTree]) -> bool
    ensures { IsTrue result ↔ IsInstance [] ReadPut goal.now (map goal_of premises.now) }
{
    let Formula::Or(new, old) = goal else {
        return false
    };
    let Formula::And(here, written) = new.get() else {
        return false
    };
    let Formula::Eq(cell, value) = written.get() else {
        return false
    };
    let Term::Read(put, k, l) = cell.get() else {
        return false
    };
    let ArrayTerm::Put(a, i, j, v) = put.get() else {
        return false
    };
    are_none(premises)
        && same_term(value.get(), v.get())
        && is_same_cell(here.get(), i.get(), j.get(), k.get(), l.get())
        && is_old_cell(old.get(), here.get(), cell.get(), a.get(), k.get(), l.get())
}

/// Whether the formula is `i = k and j = l`.
fn is_same_cell(formula: &Formula, i: &Term, j: &Term, k: &Term, l: &Term) -> bool
    ensures { IsTrue result ↔ (formula.now ≡ And (Eq i.now k.now) (Eq j.now l.now)) }
{
    let Formula::And(first, second) = formula else {
        return false
    };
    is_equation(first.get(), i, k) && is_equation(second.get(), j, l)
}

/// Whether the formula is `not here and cell = a[k,l]`.
fn is_old_cell(
    formula: &Formula,
    here: &Formula,
    cell: &Term,
    a: &ArrayTerm,
    k: &Term,
    l: &Term,
) -> bool
    ensures { IsTrue result ↔ (formula.now ≡ And (Not here.now) (Eq cell.now (Read a.now k.now l.now))) }
{
    let Formula::And(elsewhere, kept) = formula else {
        return false
    };
    is_denial(elsewhere.get(), here) && is_kept_cell(kept.get(), cell, a, k, l)
}

/// Whether the formula is `not f`.
fn is_denial(formula: &Formula, f: &Formula) -> bool
    ensures { IsTrue result ↔ (formula.now ≡ Not f.now) }
{
    match formula {
        Formula::Not(g) => same(g.get(), f),
        _ => false,
    }
}

/// Whether the formula is `cell = a[k,l]`.
fn is_kept_cell(formula: &Formula, cell: &Term, a: &ArrayTerm, k: &Term, l: &Term) -> bool
    ensures { IsTrue result ↔ (formula.now ≡ Eq cell.now (Read a.now k.now l.now)) }
{
    let Formula::Eq(s, t) = formula else {
        return false
    };
    same_term(s.get(), cell) && is_read(t.get(), a, k, l)
}

/// Whether the term is `a[k,l]`.
fn is_read(term: &Term, a: &ArrayTerm, k: &Term, l: &Term) -> bool
    ensures { IsTrue result ↔ (term.now ≡ Read a.now k.now l.now) }
{
    let Term::Read(b, m, n) = term else {
        return false
    };
    same_array(b.get(), a) && same_term(m.get(), k) && same_term(n.get(), l)
}

/// Whether the formula is `s = t`.
fn is_equation(formula: &Formula, s: &Term, t: &Term) -> bool
    ensures { IsTrue result ↔ (formula.now ≡ Eq s.now t.now) }
{
    let Formula::Eq(u, v) = formula else {
        return false
    };
    same_term(u.get(), s) && same_term(v.get(), t)
}

pub fn is_read_same(goal: &Formula, premises: &[ProofTree]) -> bool
    ensures { IsTrue result ↔ IsInstance [] ReadSame goal.now (map goal_of premises.now) }
{
    let Formula::Eq(x, y) = goal else {
        return false
    };
    let Term::Read(a, i, j) = x.get() else {
        return false
    };
    let Term::Read(b, k, l) = y.get() else {
        return false
    };
    same_array(a.get(), b.get()) && are_equations(premises, i.get(), k.get(), j.get(), l.get())
}

/// Whether the premises show `i = k` and `j = l`.
fn are_equations(premises: &[ProofTree], i: &Term, k: &Term, j: &Term, l: &Term) -> bool
    ensures { IsTrue result ↔ (map goal_of premises.now ≡ Eq i.now k.now ∷ Eq j.now l.now ∷ []) }
{
    let Some((p, q)) = both(premises) else {
        return false
    };
    is_equation(p, i, k) && is_equation(q, j, l)
}
