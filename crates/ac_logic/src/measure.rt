//! The size and the depth of a formula, without memory.
ghost use Rattle.std.specs.Prelude.{◌≡◌, ◌+◌, max};
ghost use Rattle.ac_logic.specs.Size.{depth_of, depth_of_array, depth_of_term, saturated, size_of, size_of_array, size_of_term};

use crate::formula::{ArrayTerm, Formula, Term};

/// The number of `Formula`, `Term` and `ArrayTerm` nodes of the tree, or the largest u64 where there are more.
pub fn size(formula: &Formula) -> u64
    ensures { result ≡ saturated (size_of formula.now) }
{
    match formula {
        Formula::True => 1,
        Formula::False => 1,
        Formula::Le(s, t) => above(plus(term_size(s.get()), term_size(t.get()))),
        Formula::Eq(s, t) => above(plus(term_size(s.get()), term_size(t.get()))),
        Formula::Not(f) => above(size(f.get())),
        Formula::And(f, g) => above(plus(size(f.get()), size(g.get()))),
        Formula::Or(f, g) => above(plus(size(f.get()), size(g.get()))),
        Formula::Implies(f, g) => above(plus(size(f.get()), size(g.get()))),
        Formula::All(f) => above(size(f.get())),
        Formula::Lab(_, f) => above(size(f.get())),
    }
}

#[cycle(term_size)]
fn term_size(term: &Term) -> u64
    ensures { result ≡ saturated (size_of_term term.now) }
{
    match term {
        Term::Num(_) => 1,
        Term::Sym(_) => 1,
        Term::Bound(_) => 1,
        Term::Read(a, i, j) => above(plus(
            plus(array_size(a.get()), term_size(i.get())),
            term_size(j.get()),
        )),
        Term::Add(s, t) => above(plus(term_size(s.get()), term_size(t.get()))),
        Term::Sub(s, t) => above(plus(term_size(s.get()), term_size(t.get()))),
        Term::Mul(s, t) => above(plus(term_size(s.get()), term_size(t.get()))),
        Term::Neg(t) => above(term_size(t.get())),
    }
}

#[cycle(term_size)]
fn array_size(array: &ArrayTerm) -> u64
    ensures { result ≡ saturated (size_of_array array.now) }
{
    match array {
        ArrayTerm::Sym(_) => 1,
        ArrayTerm::Put(a, i, j, v) => {
            let indexes = plus(
                plus(array_size(a.get()), term_size(i.get())),
                term_size(j.get()),
            );
            above(plus(indexes, term_size(v.get())))
        }
    }
}

/// The number of nodes on the longest branch of the tree, or the largest u64 where there are more.
pub fn depth(formula: &Formula) -> u64
    ensures { result ≡ saturated (depth_of formula.now) }
{
    match formula {
        Formula::True => 1,
        Formula::False => 1,
        Formula::Le(s, t) => above(larger(term_depth(s.get()), term_depth(t.get()))),
        Formula::Eq(s, t) => above(larger(term_depth(s.get()), term_depth(t.get()))),
        Formula::Not(f) => above(depth(f.get())),
        Formula::And(f, g) => above(larger(depth(f.get()), depth(g.get()))),
        Formula::Or(f, g) => above(larger(depth(f.get()), depth(g.get()))),
        Formula::Implies(f, g) => above(larger(depth(f.get()), depth(g.get()))),
        Formula::All(f) => above(depth(f.get())),
        Formula::Lab(_, f) => above(depth(f.get())),
    }
}

#[cycle(term_depth)]
fn term_depth(term: &Term) -> u64
    ensures { result ≡ saturated (depth_of_term term.now) }
{
    match term {
        Term::Num(_) => 1,
        Term::Sym(_) => 1,
        Term::Bound(_) => 1,
        Term::Read(a, i, j) => above(larger(
            larger(array_depth(a.get()), term_depth(i.get())),
            term_depth(j.get()),
        )),
        Term::Add(s, t) => above(larger(term_depth(s.get()), term_depth(t.get()))),
        Term::Sub(s, t) => above(larger(term_depth(s.get()), term_depth(t.get()))),
        Term::Mul(s, t) => above(larger(term_depth(s.get()), term_depth(t.get()))),
        Term::Neg(t) => above(term_depth(t.get())),
    }
}

#[cycle(term_depth)]
fn array_depth(array: &ArrayTerm) -> u64
    ensures { result ≡ saturated (depth_of_array array.now) }
{
    match array {
        ArrayTerm::Sym(_) => 1,
        ArrayTerm::Put(a, i, j, v) => {
            let indexes = larger(
                larger(array_depth(a.get()), term_depth(i.get())),
                term_depth(j.get()),
            );
            above(larger(indexes, term_depth(v.get())))
        }
    }
}

/// One node above what is counted.
fn above(below: u64) -> u64
    ensures { result ≡ saturated (below + 1) }
{
    below.saturating_add(1)
}

fn plus(left: u64, right: u64) -> u64
    ensures { result ≡ saturated (left + right) }
{
    left.saturating_add(right)
}

pub(crate) fn larger(left: u64, right: u64) -> u64
    ensures { result ≡ max left right }
{
    left.max(right)
}
