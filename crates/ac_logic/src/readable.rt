//! Whether a formula or a term has a text that reads back. It takes no memory.
ghost use Rattle.std.specs.Prelude.{IsTrue, ◌≡◌, ◌↔◌};
ghost use Rattle.ac_logic.specs.Readable.{HasGoodNames, HasGoodNamesInArray, HasGoodNamesInTerm, IsReadable, IsReadableArray, IsReadableScalar, IsReadableTerm};
ghost use Rattle.ac_tree.specs.Tokens.{Each, InName, IsName, kind_of_byte};
ghost use Rattle.ac_tree.specs.declared.token.ByteKind.TheVariants.{Letter};

use crate::closed::{is_closed, is_term_closed};
use crate::formula::{ArrayTerm, Formula, Sym, Term};
use ac_tree::{ByteKind, Keyword, Name};

/// Whether the formula is readable: no `Bound` is loose, no array is a `Fresh`, and each name is a name of the
/// language and no reserved word.
pub fn is_readable(formula: &Formula) -> bool
    ensures { IsTrue result ↔ IsReadable formula.now }
{
    is_closed(formula) && has_good_names(formula)
}

/// The same for a term.
pub fn is_readable_term(term: &Term) -> bool
    ensures { IsTrue result ↔ IsReadableTerm term.now }
{
    is_term_closed(term) && has_good_names_in_term(term)
}

fn has_good_names(formula: &Formula) -> bool
    ensures { IsTrue result ↔ HasGoodNames formula.now }
{
    match formula {
        Formula::True => true,
        Formula::False => true,
        Formula::Le(s, t) => has_good_names_in_term(s.get()) && has_good_names_in_term(t.get()),
        Formula::Eq(s, t) => has_good_names_in_term(s.get()) && has_good_names_in_term(t.get()),
        Formula::Not(f) => has_good_names(f.get()),
        Formula::And(f, g) => has_good_names(f.get()) && has_good_names(g.get()),
        Formula::Or(f, g) => has_good_names(f.get()) && has_good_names(g.get()),
        Formula::Implies(f, g) => has_good_names(f.get()) && has_good_names(g.get()),
        Formula::All(f) => has_good_names(f.get()),
        Formula::Lab(_, f) => has_good_names(f.get()),
    }
}

#[cycle(has_good_names_in_term)]
fn has_good_names_in_term(term: &Term) -> bool
    ensures { IsTrue result ↔ HasGoodNamesInTerm term.now }
{
    match term {
        Term::Num(_) => true,
        Term::Sym(s) => is_readable_scalar(s),
        Term::Bound(_) => true,
        Term::Read(a, i, j) => {
            has_good_names_in_array(a.get())
                && has_good_names_in_term(i.get())
                && has_good_names_in_term(j.get())
        }
        Term::Add(s, t) => has_good_names_in_term(s.get()) && has_good_names_in_term(t.get()),
        Term::Sub(s, t) => has_good_names_in_term(s.get()) && has_good_names_in_term(t.get()),
        Term::Mul(s, t) => has_good_names_in_term(s.get()) && has_good_names_in_term(t.get()),
        Term::Neg(t) => has_good_names_in_term(t.get()),
    }
}

#[cycle(has_good_names_in_term)]
fn has_good_names_in_array(array: &ArrayTerm) -> bool
    ensures { IsTrue result ↔ HasGoodNamesInArray array.now }
{
    match array {
        ArrayTerm::Sym(s) => is_readable_array(s),
        ArrayTerm::Put(a, i, j, v) => {
            if !has_good_names_in_array(a.get()) {
                return false;
            }
            if !has_good_names_in_term(i.get()) {
                return false;
            }
            has_good_names_in_term(j.get()) && has_good_names_in_term(v.get())
        }
    }
}

fn is_readable_scalar(symbol: &Sym) -> bool
    ensures { IsTrue result ↔ IsReadableScalar symbol.now }
{
    match symbol {
        Sym::Value(name) => is_name(name),
        Sym::Init(name) => is_name(name),
        Sym::Fresh(_) => true,
    }
}

fn is_readable_array(symbol: &Sym) -> bool
    ensures { IsTrue result ↔ IsReadableArray symbol.now }
{
    match symbol {
        Sym::Value(name) => is_name(name),
        Sym::Init(name) => is_name(name),
        Sym::Fresh(_) => false,
    }
}

/// Whether a name is one of the language and no reserved word.
fn is_name(name: &Name) -> bool
    ensures { IsTrue result ↔ IsName name.now }
{
    let word = name.text();
    let [first, more @ ..] = word.as_bytes() else {
        return false;
    };
    is_letter(*first) && are_in_name(more) && Keyword::of(word).is_none()
}

fn is_letter(byte: u8) -> bool
    ensures { IsTrue result ↔ (kind_of_byte byte ≡ Letter) }
{
    ByteKind::of(byte) == ByteKind::Letter
}

fn are_in_name(bytes: &[u8]) -> bool
    ensures { IsTrue result ↔ Each InName bytes.now }
{
    for byte in bytes {
        if !is_in_name(ByteKind::of(*byte)) {
            return false;
        }
    }
    true
}

fn is_in_name(kind: ByteKind) -> bool
    ensures { IsTrue result ↔ InName kind }
{
    match kind {
        ByteKind::Letter => true,
        ByteKind::Digit => true,
        ByteKind::Underscore => true,
        _ => false,
    }
}
