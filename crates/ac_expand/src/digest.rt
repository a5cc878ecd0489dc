//! Digests of terms.
ghost use Rattle.std.specs.Prelude.{◌≡◌};
ghost use Rattle.ac_expand.specs.Digest.{mixed, digest_of, digest_of_array, digest_of_name, digest_of_symbol};

use ac_logic::{ArrayTerm, Sym, Term};
use ac_tree::Name;

#[tactic(auto, unfolding(crate::specs::Digest::mixed))]
fn mixed(digest: u64, next: u64) -> u64
    ensures { result ≡ mixed digest next }
{
    digest.wrapping_mul(31).wrapping_add(next)
}

fn name_digest(digest: u64, name: &Name) -> u64
    ensures { result ≡ digest_of_name digest name.now }
{
    let bytes = name.text().as_bytes();
    bytes
        .iter()
        .fold(digest, |all, byte| mixed(all, u64::from(*byte)))
}

fn symbol_digest(symbol: &Sym) -> u64
    ensures { result ≡ digest_of_symbol symbol.now }
{
    match symbol {
        Sym::Value(name) => name_digest(1, name),
        Sym::Init(name) => name_digest(2, name),
        Sym::Fresh(k) => mixed(3, u64::from(*k)),
    }
}

/// A number that equal terms share.
#[cycle(digest)]
pub(crate) fn digest(term: &Term) -> u64
    ensures { result ≡ digest_of term.now }
{
    match term {
        Term::Num(n) => mixed(4, n.cast_unsigned()),
        Term::Sym(symbol) => symbol_digest(symbol),
        Term::Bound(k) => mixed(5, u64::from(*k)),
        Term::Read(a, i, j) => {
            let array = mixed(6, array_digest(a.get()));
            mixed(mixed(array, digest(i.get())), digest(j.get()))
        }
        Term::Add(s, t) => mixed(mixed(7, digest(s.get())), digest(t.get())),
        Term::Sub(s, t) => mixed(mixed(8, digest(s.get())), digest(t.get())),
        Term::Mul(s, t) => mixed(mixed(9, digest(s.get())), digest(t.get())),
        Term::Neg(t) => mixed(10, digest(t.get())),
    }
}

#[cycle(digest)]
fn array_digest(array: &ArrayTerm) -> u64
    ensures { result ≡ digest_of_array array.now }
{
    match array {
        ArrayTerm::Sym(symbol) => symbol_digest(symbol),
        ArrayTerm::Put(a, i, _, v) => {
            let array = mixed(11, array_digest(a.get()));
            mixed(mixed(array, digest(i.get())), digest(v.get()))
        }
    }
}
