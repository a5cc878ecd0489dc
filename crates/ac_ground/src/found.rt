//! What stands in a ground form: its reads, the cells that its `put`s change.
ghost use Rattle.std.specs.Prelude.{◌≡◌, ◌++◌, ◌∷◌, [], IfOk, OnOk};
ghost use Rattle.ac_ground.specs.Reads.{cell, puts_in, puts_in_array, on_sides, reads_at, reads_in, reads_in_array};

use crate::cell::Cell;
use ac_logic::{ArrayTerm, Formula, Term};
use ac_shared::Shared;
use sqlite_items::Items;
use std::alloc::{AllocError, Global};

/// The reads of a ground form, inner ones too, and the cells that its `put`s change.
#[derive(Drop)]
pub(crate) struct Found {
    pub(crate) reads: Items<Cell>,
    pub(crate) puts: Items<Cell>,
}

/// What stands in a ground form.
pub(crate) fn found_in(alloc: Global, ground: &Formula) -> Result<Found, AllocError>
    ensures reads { IfOk result (λ found. found.reads ≡ on_sides reads_in ground.now) }
    ensures puts { IfOk result (λ found. found.puts ≡ on_sides puts_in ground.now) }
{
    let mut found = Found {
        reads: Items::new(alloc),
        puts: Items::new(alloc),
    };
    add_formula(ground, &mut found)?;
    Ok(found)
}

#[tactic(auto, using(crate::proofs::Gathering::behind), unfolding(crate::specs::Opened::formula_shape, crate::specs::Opened::formula_child, crate::specs::Opened::term_shape, crate::specs::Opened::term_child, crate::specs::Opened::array_shape, crate::specs::Opened::array_child, crate::specs::Opened::hidden))]
fn add_formula(formula: &Formula, found: &mut Found) -> Result<(), AllocError>
    ensures reads { OnOk result (found.new.reads ≡ found.old.reads ++ on_sides reads_in formula.now) }
    ensures puts { OnOk result (found.new.puts ≡ found.old.puts ++ on_sides puts_in formula.now) }
{
    match formula {
        Formula::True => Ok(()),
        Formula::False => Ok(()),
        Formula::Le(s, t) => {
            add_term(s.get(), found)?;
            add_term(t.get(), found)
        }
        Formula::Eq(s, t) => {
            add_term(s.get(), found)?;
            add_term(t.get(), found)
        }
        Formula::Not(f) => add_formula(f.get(), found),
        Formula::And(f, g) => {
            add_formula(f.get(), found)?;
            add_formula(g.get(), found)
        }
        Formula::Or(f, g) => {
            add_formula(f.get(), found)?;
            add_formula(g.get(), found)
        }
        Formula::Implies(f, g) => {
            add_formula(f.get(), found)?;
            add_formula(g.get(), found)
        }
        Formula::All(_) => Ok(()),
        Formula::Lab(_, f) => add_formula(f.get(), found),
    }
}

#[cycle(add_term)]
#[tactic(auto, using(crate::proofs::Gathering::behind), unfolding(crate::specs::Opened::formula_shape, crate::specs::Opened::formula_child, crate::specs::Opened::term_shape, crate::specs::Opened::term_child, crate::specs::Opened::array_shape, crate::specs::Opened::array_child, crate::specs::Opened::hidden))]
fn add_term(term: &Term, found: &mut Found) -> Result<(), AllocError>
    ensures reads { OnOk result (found.new.reads ≡ found.old.reads ++ reads_in term.now) }
    ensures puts { OnOk result (found.new.puts ≡ found.old.puts ++ puts_in term.now) }
{
    match term {
        Term::Num(_) => Ok(()),
        Term::Sym(_) => Ok(()),
        Term::Bound(_) => Ok(()),
        Term::Read(a, i, j) => {
            add_reads(a, i, j, &mut found.reads)?;
            add_array(a.get(), found)?;
            add_term(i.get(), found)?;
            add_term(j.get(), found)?;
            Ok(())
        }
        Term::Add(s, t) => {
            add_term(s.get(), found)?;
            add_term(t.get(), found)
        }
        Term::Sub(s, t) => {
            add_term(s.get(), found)?;
            add_term(t.get(), found)
        }
        Term::Mul(s, t) => {
            add_term(s.get(), found)?;
            add_term(t.get(), found)
        }
        Term::Neg(t) => add_term(t.get(), found),
    }
}

#[cycle(add_term)]
#[tactic(auto, using(crate::proofs::Gathering::behind), unfolding(crate::specs::Opened::formula_shape, crate::specs::Opened::formula_child, crate::specs::Opened::term_shape, crate::specs::Opened::term_child, crate::specs::Opened::array_shape, crate::specs::Opened::array_child, crate::specs::Opened::hidden))]
fn add_array(array: &ArrayTerm, found: &mut Found) -> Result<(), AllocError>
    ensures reads { OnOk result (found.new.reads ≡ found.old.reads ++ reads_in_array array.now) }
    ensures puts { OnOk result (found.new.puts ≡ found.old.puts ++ puts_in_array array.now) }
{
    match array {
        ArrayTerm::Sym(_) => Ok(()),
        ArrayTerm::Put(a, i, j, v) => {
            add_cell(a, i, j, &mut found.puts)?;
            add_array(a.get(), found)?;
            add_term(i.get(), found)?;
            add_term(j.get(), found)?;
            add_term(v.get(), found)?;
            Ok(())
        }
    }
}

/// A read, and where its array is a `put` its inner reads.
fn add_reads(
    array: &Shared<ArrayTerm>,
    first: &Shared<Term>,
    second: &Shared<Term>,
    reads: &mut Items<Cell>,
) -> Result<(), AllocError>
    ensures { OnOk result (reads.new ≡ reads.old ++ reads_at array.now first.now second.now) }
{
    add_cell(array, first, second, reads)?;
    match array.get() {
        ArrayTerm::Sym(_) => Ok(()),
        ArrayTerm::Put(inner, _, _, _) => add_reads(inner, first, second, reads),
    }
}

fn add_cell(
    array: &Shared<ArrayTerm>,
    first: &Shared<Term>,
    second: &Shared<Term>,
    cells: &mut Items<Cell>,
) -> Result<(), AllocError>
    ensures { OnOk result (cells.new ≡ cells.old ++ cell array.now first.now second.now ∷ []) }
{
    let array = array.share()?;
    let first = first.share()?;
    let second = second.share()?;
    cells.push(Cell {
        array,
        first,
        second,
    })
}
