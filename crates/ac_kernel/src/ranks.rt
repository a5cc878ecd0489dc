//! Whether a formula uses each name with its rank, and has no label and no new name of a proof.
ghost use Rattle.std.specs.Prelude.{◌≡◌, ◌↔◌, IsTrue};
ghost use Rattle.std.specs.Option.{option_copied};
ghost use Rattle.ac_kernel.specs.WellFormed.{is_scalar as scalar, is_array as array, is_scalar_variable as scalar_variable, is_array_variable as array_variable, is_used_as_scalar, is_used_as_array, KeepsRanks, TermKeepsRanks, ArrayKeepsRanks};

use ac_logic::{ArrayTerm, Formula, Sym, Term};
use ac_names::NameTable;
use ac_tree::ItemKind;

fn is_scalar(kind: Option<&ItemKind>) -> bool
    ensures { result ≡ scalar (option_copied kind.entry) }
{
    matches!(
        kind,
        Some(ItemKind::InputScalar { .. } | ItemKind::VarScalar)
    )
}

fn is_array(kind: Option<&ItemKind>) -> bool
    ensures { result ≡ array (option_copied kind.entry) }
{
    matches!(
        kind,
        Some(ItemKind::InputArray { .. } | ItemKind::VarArray { .. })
    )
}

fn is_scalar_variable(kind: Option<&ItemKind>) -> bool
    ensures { result ≡ scalar_variable (option_copied kind.entry) }
{
    matches!(kind, Some(ItemKind::VarScalar))
}

fn is_array_variable(kind: Option<&ItemKind>) -> bool
    ensures { result ≡ array_variable (option_copied kind.entry) }
{
    matches!(kind, Some(ItemKind::VarArray { .. }))
}

fn is_scalar_symbol(names: &NameTable<'_>, symbol: &Sym) -> bool
    ensures { result ≡ is_used_as_scalar names.now symbol.now }
{
    match symbol {
        Sym::Value(name) => is_scalar(names.kind_of(name)),
        Sym::Init(name) => is_scalar_variable(names.kind_of(name)),
        Sym::Fresh(_) => false,
    }
}

fn is_array_symbol(names: &NameTable<'_>, symbol: &Sym) -> bool
    ensures { result ≡ is_used_as_array names.now symbol.now }
{
    match symbol {
        Sym::Value(name) => is_array(names.kind_of(name)),
        Sym::Init(name) => is_array_variable(names.kind_of(name)),
        Sym::Fresh(_) => false,
    }
}

#[cycle(term_keeps_ranks)]
fn term_keeps_ranks(names: &NameTable<'_>, term: &Term) -> bool
    ensures { IsTrue result ↔ TermKeepsRanks names.now term.now }
{
    match term {
        Term::Num(_) => true,
        Term::Sym(symbol) => is_scalar_symbol(names, symbol),
        Term::Bound(_) => true,
        Term::Read(a, i, j) => {
            array_keeps_ranks(names, a.get())
                && term_keeps_ranks(names, i.get())
                && term_keeps_ranks(names, j.get())
        }
        Term::Add(s, t) => term_keeps_ranks(names, s.get()) && term_keeps_ranks(names, t.get()),
        Term::Sub(s, t) => term_keeps_ranks(names, s.get()) && term_keeps_ranks(names, t.get()),
        Term::Mul(s, t) => term_keeps_ranks(names, s.get()) && term_keeps_ranks(names, t.get()),
        Term::Neg(t) => term_keeps_ranks(names, t.get()),
    }
}

#[cycle(term_keeps_ranks)]
fn array_keeps_ranks(names: &NameTable<'_>, array: &ArrayTerm) -> bool
    ensures { IsTrue result ↔ ArrayKeepsRanks names.now array.now }
{
    match array {
        ArrayTerm::Sym(symbol) => is_array_symbol(names, symbol),
        ArrayTerm::Put(a, i, j, v) => {
            if !array_keeps_ranks(names, a.get()) {
                return false;
            }
            if !term_keeps_ranks(names, i.get()) {
                return false;
            }
            term_keeps_ranks(names, j.get()) && term_keeps_ranks(names, v.get())
        }
    }
}

/// Whether the formula uses each name with its rank, and has no label and no new name of a proof.
pub fn keeps_ranks(names: &NameTable<'_>, formula: &Formula) -> bool
    ensures { IsTrue result ↔ KeepsRanks names.now formula.now }
{
    match formula {
        Formula::True => true,
        Formula::False => true,
        Formula::Le(s, t) => term_keeps_ranks(names, s.get()) && term_keeps_ranks(names, t.get()),
        Formula::Eq(s, t) => term_keeps_ranks(names, s.get()) && term_keeps_ranks(names, t.get()),
        Formula::Not(f) => keeps_ranks(names, f.get()),
        Formula::And(f, g) => keeps_ranks(names, f.get()) && keeps_ranks(names, g.get()),
        Formula::Or(f, g) => keeps_ranks(names, f.get()) && keeps_ranks(names, g.get()),
        Formula::Implies(f, g) => keeps_ranks(names, f.get()) && keeps_ranks(names, g.get()),
        Formula::All(f) => keeps_ranks(names, f.get()),
        Formula::Lab(_, _) => false,
    }
}
