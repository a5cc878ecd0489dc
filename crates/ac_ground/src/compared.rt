//! The compared pairs of a ground form, but for two reads of one array: these have no sum as a side.
ghost use Rattle.std.specs.Prelude.{◌≡◌, ◌++◌, ◌∷◌, [], fold, if◌then◌else◌, IfOk, OnOk};
ghost use Rattle.std.specs.List.{list_any};
ghost use Rattle.ac_linear.specs.TermEquality.{array_eq};
ghost use Rattle.ac_ground.specs.Compared.{comparisons, pair};
ghost use Rattle.ac_ground.specs.Reads.{puts_in, on_sides};
ghost use Rattle.ac_ground.specs.Sums.{all_index_pairs, distinct_reads, firsts_of, index_pairs, index_pairs_with, put_pairs, put_pairs_at, seconds_of, sum_pairs};
ghost use Rattle.ac_ground.specs.Table.{cell_eq, with_cell};

use crate::cell::Cell;
use crate::index::{Index, Indexes, all_placed, is_same_array};
use crate::number::is_same;
use crate::pair::Pair;
use crate::put::inner_read;
use ac_logic::{ArrayTerm, Formula, Term};
use ac_shared::Shared;
use sqlite_items::Items;
use std::alloc::{AllocError, Global};

/// The compared pairs that have sums.
pub(crate) fn sum_pairs(
    alloc: Global,
    ground: &Formula,
    reads: &[Cell],
    puts: &[Cell],
) -> Result<Items<Pair>, AllocError>
    ensures { reads.now ≡ distinct_reads ground.now → puts.now ≡ on_sides puts_in ground.now → IfOk result (λ pairs. pairs ≡ sum_pairs ground.now) }
{
    let mut pairs = Items::new(alloc);
    add_comparisons(ground, &mut pairs)?;
    add_all_index_pairs(alloc, reads, puts, &mut pairs)?;
    add_put_pairs(alloc, reads, &mut pairs)?;
    Ok(pairs)
}

/// Each cell once, at its first place.
pub(crate) fn distinct(alloc: Global, cells: &[Cell]) -> Result<Items<Cell>, AllocError>
    ensures { IfOk result (λ once. once ≡ fold with_cell [] cells.now) }
{
    let mut once = Items::new(alloc);
    for cell in cells {
        add_new(&mut once, cell)?;
    }
    Ok(once)
}

/// Adds a cell where it is not in the list.
fn add_new(cells: &mut Items<Cell>, cell: &Cell) -> Result<(), AllocError>
    ensures { OnOk result (cells.new ≡ with_cell cells.old cell.now) }
{
    if !contains(cells.as_slice(), cell) {
        let copy = cell.copied()?;
        cells.push(copy)?;
    }
    Ok(())
}

fn contains(cells: &[Cell], cell: &Cell) -> bool
    ensures { result ≡ list_any (cell_eq cell.now) cells.now }
{
    for other in cells {
        if is_same_cell(cell, other) {
            return true;
        }
    }
    false
}

fn is_same_cell(cell: &Cell, other: &Cell) -> bool
    ensures { result ≡ cell_eq cell.now other.now }
{
    is_same_array(cell.array.get(), other.array.get())
        && is_same(cell.first.get(), other.first.get())
        && is_same(cell.second.get(), other.second.get())
}

/// Adds the sides of the comparisons of a ground form.
#[tactic(auto, using(crate::proofs::Gathering::pairs_behind), unfolding(crate::specs::Opened::formula_shape, crate::specs::Opened::formula_child, crate::specs::Opened::term_shape, crate::specs::Opened::term_child, crate::specs::Opened::array_shape, crate::specs::Opened::array_child, crate::specs::Opened::hidden))]
fn add_comparisons(formula: &Formula, pairs: &mut Items<Pair>) -> Result<(), AllocError>
    ensures { OnOk result (pairs.new ≡ pairs.old ++ comparisons formula.now) }
{
    match formula {
        Formula::True => Ok(()),
        Formula::False => Ok(()),
        Formula::Le(s, t) => add_pair(s, t, pairs),
        Formula::Eq(s, t) => add_pair(s, t, pairs),
        Formula::Not(f) => add_comparisons(f.get(), pairs),
        Formula::And(f, g) => {
            add_comparisons(f.get(), pairs)?;
            add_comparisons(g.get(), pairs)
        }
        Formula::Or(f, g) => {
            add_comparisons(f.get(), pairs)?;
            add_comparisons(g.get(), pairs)
        }
        Formula::Implies(f, g) => {
            add_comparisons(f.get(), pairs)?;
            add_comparisons(g.get(), pairs)
        }
        Formula::All(_) => Ok(()),
        Formula::Lab(_, f) => add_comparisons(f.get(), pairs),
    }
}

fn add_pair(
    left: &Shared<Term>,
    right: &Shared<Term>,
    pairs: &mut Items<Pair>,
) -> Result<(), AllocError>
    ensures { OnOk result (pairs.new ≡ pairs.old ++ pair left.now right.now ∷ []) }
{
    let left = left.share()?;
    let right = right.share()?;
    pairs.push(Pair { left, right })?;
    Ok(())
}

/// Adds each two indexes in the same place of reads or `put`s of one array.
#[tactic(auto, using(crate::proofs::Gathering::pairs_behind))]
fn add_all_index_pairs(
    alloc: Global,
    reads: &[Cell],
    puts: &[Cell],
    pairs: &mut Items<Pair>,
) -> Result<(), AllocError>
    ensures { OnOk result (pairs.new ≡ pairs.old ++ all_index_pairs reads.now puts.now) }
{
    let table = indexes_of(alloc, reads, puts)?;
    add_index_pairs(table.firsts.as_slice(), pairs)?;
    add_index_pairs(table.seconds.as_slice(), pairs)
}

/// The first and the second indexes of cells that are read and changed.
fn indexes_of(alloc: Global, reads: &[Cell], puts: &[Cell]) -> Result<Indexes, AllocError>
    ensures firsts { IfOk result (λ table. table.firsts ≡ firsts_of reads.now puts.now) }
    ensures seconds { IfOk result (λ table. table.seconds ≡ seconds_of reads.now puts.now) }
{
    let mut table = Indexes::new(alloc);
    drop(all_placed(alloc, &mut table, reads)?);
    drop(all_placed(alloc, &mut table, puts)?);
    Ok(table)
}

/// Adds each two indexes of one array.
fn add_index_pairs(indexes: &[Index], pairs: &mut Items<Pair>) -> Result<(), AllocError>
    ensures { OnOk result (pairs.new ≡ pairs.old ++ index_pairs indexes.now indexes.now) }
{
    for index in indexes {
        add_index_pairs_with(index, indexes, pairs)?;
    }
    Ok(())
}

/// Adds an index with others of its array.
fn add_index_pairs_with(
    index: &Index,
    others: &[Index],
    pairs: &mut Items<Pair>,
) -> Result<(), AllocError>
    ensures { OnOk result (pairs.new ≡ pairs.old ++ index_pairs_with index.now others.now) }
{
    for other in others {
        add_if_one_array(index, other, pairs)?;
    }
    Ok(())
}

fn add_if_one_array(index: &Index, other: &Index, pairs: &mut Items<Pair>) -> Result<(), AllocError>
    ensures { OnOk result (pairs.new ≡ pairs.old ++ (if array_eq index.now.array other.now.array then pair index.now.term other.now.term ∷ [] else [])) }
{
    if is_same_array(index.array.get(), other.array.get()) {
        add_pair(&index.term, &other.term, pairs)?;
    }
    Ok(())
}

/// Adds each read of a `put` with the written number and with the inner read.
fn add_put_pairs(alloc: Global, reads: &[Cell], pairs: &mut Items<Pair>) -> Result<(), AllocError>
    ensures { OnOk result (pairs.new ≡ pairs.old ++ put_pairs reads.now) }
{
    for read in reads {
        add_put_pairs_at(alloc, read, pairs)?;
    }
    Ok(())
}

fn add_put_pairs_at(alloc: Global, outer: &Cell, pairs: &mut Items<Pair>) -> Result<(), AllocError>
    ensures { OnOk result (pairs.new ≡ pairs.old ++ put_pairs_at outer.now.array outer.now) }
{
    match outer.array.get() {
        ArrayTerm::Sym(_) => Ok(()),
        ArrayTerm::Put(array, _, _, written) => {
            let read = outer.read(alloc)?;
            let inner = inner_read(alloc, array, outer)?;
            add_pair(&read, written, pairs)?;
            add_pair(&read, &inner, pairs)
        }
    }
}
