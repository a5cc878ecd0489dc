//! Whether a `Bound` is loose, by how many enclosing `all` the `Bound`s reach over. It takes no memory.
ghost use Rattle.std.specs.Prelude.{IsTrue, ◌≡◌, ◌↔◌, max};
ghost use Rattle.ac_logic.specs.Bounds.{IsArrayClosed, IsClosed, IsTermClosed};
ghost use Rattle.ac_logic.specs.Reach.{reach_of, reach_of_array, reach_of_term};
ghost use Rattle.ac_logic.specs.Substitution.{AreClosedChanges, IsClosedChange};

use crate::formula::{ArrayTerm, Change, Formula, Term};
use crate::measure::larger;

/// Whether no `Bound` of the formula is loose: each names one of its `all`.
#[tactic(auto, using(crate::proofs::Reaches::closed_at_reach))]
pub fn is_closed(formula: &Formula) -> bool
    ensures { IsTrue result ↔ IsClosed formula.now }
{
    reach(formula) == 0
}

/// Whether no `Bound` stands in the term.
#[tactic(auto, using(crate::proofs::Reaches::term_closed_at_reach))]
pub fn is_term_closed(term: &Term) -> bool
    ensures { IsTrue result ↔ IsTermClosed term.now }
{
    term_reach(term) == 0
}

fn reach(formula: &Formula) -> u64
    ensures { result ≡ reach_of formula.now }
{
    match formula {
        Formula::True => 0,
        Formula::False => 0,
        Formula::Le(s, t) => larger(term_reach(s.get()), term_reach(t.get())),
        Formula::Eq(s, t) => larger(term_reach(s.get()), term_reach(t.get())),
        Formula::Not(f) => reach(f.get()),
        Formula::And(f, g) => larger(reach(f.get()), reach(g.get())),
        Formula::Or(f, g) => larger(reach(f.get()), reach(g.get())),
        Formula::Implies(f, g) => larger(reach(f.get()), reach(g.get())),
        Formula::All(f) => reach(f.get()).saturating_sub(1),
        Formula::Lab(_, f) => reach(f.get()),
    }
}

#[cycle(term_reach)]
fn term_reach(term: &Term) -> u64
    ensures { result ≡ reach_of_term term.now }
{
    match term {
        Term::Num(_) => 0,
        Term::Sym(_) => 0,
        Term::Bound(k) => u64::from(*k) + 1,
        Term::Read(a, i, j) => larger(
            larger(array_reach(a.get()), term_reach(i.get())),
            term_reach(j.get()),
        ),
        Term::Add(s, t) => larger(term_reach(s.get()), term_reach(t.get())),
        Term::Sub(s, t) => larger(term_reach(s.get()), term_reach(t.get())),
        Term::Mul(s, t) => larger(term_reach(s.get()), term_reach(t.get())),
        Term::Neg(t) => term_reach(t.get()),
    }
}

#[cycle(term_reach)]
fn array_reach(array: &ArrayTerm) -> u64
    ensures { result ≡ reach_of_array array.now }
{
    match array {
        ArrayTerm::Sym(_) => 0,
        ArrayTerm::Put(a, i, j, v) => {
            let indexes = larger(
                larger(array_reach(a.get()), term_reach(i.get())),
                term_reach(j.get()),
            );
            larger(indexes, term_reach(v.get()))
        }
    }
}

/// Whether no `Bound` stands in what the changes put in.
pub fn are_changes_closed(changes: &[Change]) -> bool
    ensures { IsTrue result ↔ AreClosedChanges changes.now }
{
    match changes {
        [] => true,
        [first, rest @ ..] => is_change_closed(first) && are_changes_closed(rest),
    }
}

fn is_change_closed(change: &Change) -> bool
    ensures { IsTrue result ↔ IsClosedChange change.now }
{
    match change {
        Change::Scalar(_, term) => is_term_closed(term.get()),
        Change::Array(_, array) => is_array_closed(array.get()),
    }
}

#[tactic(auto, using(crate::proofs::Reaches::array_closed_at_reach))]
fn is_array_closed(array: &ArrayTerm) -> bool
    ensures { IsTrue result ↔ IsArrayClosed array.now }
{
    array_reach(array) == 0
}
