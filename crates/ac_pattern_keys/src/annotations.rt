//! The formulas that a pattern gives. `metas` are the metavariables of its code, `shadows` whether shadow variables are allowed.
ghost use Rattle.std.specs.Prelude.{◌≡◌, ◌↔◌, IsTrue};
ghost use Rattle.ac_codes.specs.Listed.{texts_of};
ghost use Rattle.ac_pattern_keys.specs.Annotations.{is_named as is_named_by, is_scalar_named as is_scalar_named_by, IsAllowedScalar, IsAllowedArray, HasAllowedSymbolsInTerm, HasAllowedSymbolsInArray, IsAnnotation};

use crate::named_metavariables::{contains, is_hot};
use ac_logic::{ArrayTerm, Formula, Sym, Term};
use ac_pattern_tokens::{has_sign, is_signed};
use ac_tree::Name;

/// Whether a name is one of the program, or a `$` of the code.
fn is_named(metas: &[&Name], name: &Name) -> bool
    ensures { result ≡ is_named_by (texts_of metas.now) name.now }
{
    !is_signed(name.text()) || is_hot(metas, name.text())
}

/// Whether a name is one of the program, or a `$` or `%` of the code.
fn is_scalar_named(metas: &[&Name], name: &Name) -> bool
    ensures { result ≡ is_scalar_named_by (texts_of metas.now) name.now }
{
    is_named(metas, name) || (has_sign(name.text(), b'%') && contains(metas, name.text()))
}

fn is_allowed_scalar(metas: &[&Name], shadows: bool, symbol: &Sym) -> bool
    ensures { IsTrue result ↔ IsAllowedScalar (texts_of metas.now) shadows symbol.now }
{
    match symbol {
        Sym::Value(name) => is_scalar_named(metas, name),
        Sym::Init(name) => shadows && is_named(metas, name),
        Sym::Fresh(_) => false,
    }
}

fn is_allowed_array(metas: &[&Name], shadows: bool, symbol: &Sym) -> bool
    ensures { IsTrue result ↔ IsAllowedArray (texts_of metas.now) shadows symbol.now }
{
    match symbol {
        Sym::Value(name) => is_named(metas, name),
        Sym::Init(name) => shadows && is_named(metas, name),
        Sym::Fresh(_) => false,
    }
}

#[cycle(has_allowed_symbols)]
fn are_allowed_in_term(metas: &[&Name], shadows: bool, term: &Term) -> bool
    ensures { IsTrue result ↔ HasAllowedSymbolsInTerm (texts_of metas.now) shadows term.now }
{
    match term {
        Term::Num(_) => true,
        Term::Sym(symbol) => is_allowed_scalar(metas, shadows, symbol),
        Term::Bound(_) => true,
        Term::Read(a, i, j) => {
            are_allowed_in_array(metas, shadows, a.get())
                && are_allowed_in_term(metas, shadows, i.get())
                && are_allowed_in_term(metas, shadows, j.get())
        }
        Term::Add(s, t) => {
            are_allowed_in_term(metas, shadows, s.get())
                && are_allowed_in_term(metas, shadows, t.get())
        }
        Term::Sub(s, t) => {
            are_allowed_in_term(metas, shadows, s.get())
                && are_allowed_in_term(metas, shadows, t.get())
        }
        Term::Mul(s, t) => {
            are_allowed_in_term(metas, shadows, s.get())
                && are_allowed_in_term(metas, shadows, t.get())
        }
        Term::Neg(t) => are_allowed_in_term(metas, shadows, t.get()),
    }
}

#[cycle(has_allowed_symbols)]
fn are_allowed_in_array(metas: &[&Name], shadows: bool, array: &ArrayTerm) -> bool
    ensures { IsTrue result ↔ HasAllowedSymbolsInArray (texts_of metas.now) shadows array.now }
{
    match array {
        ArrayTerm::Sym(symbol) => is_allowed_array(metas, shadows, symbol),
        ArrayTerm::Put(a, i, j, v) => {
            if !are_allowed_in_array(metas, shadows, a.get()) {
                return false;
            }
            if !are_allowed_in_term(metas, shadows, i.get()) {
                return false;
            }
            are_allowed_in_term(metas, shadows, j.get())
                && are_allowed_in_term(metas, shadows, v.get())
        }
    }
}

/// Whether a formula is one that a pattern may give: its symbols are names of the program or metavariables of the code, a `%`
/// stands only as a scalar value, and there is no new name, no label and, where none is allowed, no shadow variable.
pub fn is_annotation(metas: &[&Name], shadows: bool, formula: &Formula) -> bool
    ensures { IsTrue result ↔ IsAnnotation (texts_of metas.now) shadows formula.now }
{
    match formula {
        Formula::True => true,
        Formula::False => true,
        Formula::Le(s, t) => {
            are_allowed_in_term(metas, shadows, s.get())
                && are_allowed_in_term(metas, shadows, t.get())
        }
        Formula::Eq(s, t) => {
            are_allowed_in_term(metas, shadows, s.get())
                && are_allowed_in_term(metas, shadows, t.get())
        }
        Formula::Not(f) => is_annotation(metas, shadows, f.get()),
        Formula::And(f, g) => {
            is_annotation(metas, shadows, f.get()) && is_annotation(metas, shadows, g.get())
        }
        Formula::Or(f, g) => {
            is_annotation(metas, shadows, f.get()) && is_annotation(metas, shadows, g.get())
        }
        Formula::Implies(f, g) => {
            is_annotation(metas, shadows, f.get()) && is_annotation(metas, shadows, g.get())
        }
        Formula::All(f) => is_annotation(metas, shadows, f.get()),
        Formula::Lab(_, _) => false,
    }
}
