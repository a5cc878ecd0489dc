//! Whether reads agree: those of one array at equal indexes.
ghost use Rattle.std.specs.Prelude.{◌≡◌, ◌&&◌, All, Bool, if◌then◌else◌, IfOk, List, Some, slice_get, true};
ghost use Rattle.std.specs.List.{list_all};
ghost use Rattle.ac_ground.specs.Numbers.{equal};
ghost use Rattle.ac_ground.specs.Reads.{read};
ghost use Rattle.ac_ground.specs.Table.{agrees, AreRows, first_index, IsPlaced, meet, row, rows, second_index};
ghost use Rattle.ac_ground.specs.declared.index.Index.{Index as AnyIndex};
ghost use Rattle.ac_ground.specs.declared.valuation.Valuation.{Valuation as AnyValuation};

use crate::cell::Cell;
use crate::gap::is_equal;
use crate::index::{Index, Indexes, PlacedCell, is_same_array};
use crate::valuation::Valuation;
use sqlite_items::{Items, at};
use std::alloc::{AllocError, Global};

/// With which indexes of its table an index meets: those of the same array that have the same number.
#[derive(Drop)]
pub(crate) struct Row {
    pub(crate) bits: Items<bool>,
}

/// Two tables of indexes with their rows.
#[derive(Drop)]
pub(crate) struct Meetings {
    pub(crate) table: Indexes,
    pub(crate) firsts: Items<Row>,
    pub(crate) seconds: Items<Row>,
}

impl Meetings {
    /// The rows of the tables under a valuation.
    pub(crate) fn of(
        alloc: Global,
        valuation: &Valuation,
        table: Indexes,
    ) -> Result<Meetings, AllocError>
        ensures table { IfOk result (λ m. m.table ≡ table) }
        ensures rows { IfOk result (λ m. AreRows valuation.now m) }
    {
        let firsts = all_rows(alloc, valuation, table.firsts.as_slice())?;
        let seconds = all_rows(alloc, valuation, table.seconds.as_slice())?;
        Ok(Meetings {
            table,
            firsts,
            seconds,
        })
    }
}

/// The rows of a table of indexes.
fn all_rows(
    alloc: Global,
    valuation: &Valuation,
    indexes: &[Index],
) -> Result<Items<Row>, AllocError>
    ensures { IfOk result (λ all. all ≡ rows valuation.now indexes.now) }
{
    let mut all = Items::new(alloc);
    for index in indexes {
        all.push(row_of(alloc, valuation, indexes, index)?)?;
    }
    Ok(all)
}

/// The row of an index.
fn row_of(
    alloc: Global,
    valuation: &Valuation,
    indexes: &[Index],
    index: &Index,
) -> Result<Row, AllocError>
    ensures { IfOk result (λ made. made ≡ row valuation.now indexes.now index.now) }
{
    let mut bits = Items::new(alloc);
    for other in indexes {
        bits.push(is_meeting(alloc, valuation, index, other)?)?;
    }
    Ok(Row { bits })
}

/// Whether two indexes are of one array and equal.
fn is_meeting(
    alloc: Global,
    valuation: &Valuation,
    index: &Index,
    other: &Index,
) -> Result<bool, AllocError>
    ensures { IfOk result (λ is. is ≡ meet valuation.now index.now other.now) }
{
    if !is_same_array(index.array.get(), other.array.get()) {
        return Ok(false);
    }
    is_equal(alloc, valuation, &index.term, &other.term)
}

/// Whether the indexes at two places meet.
fn is_met(table: &[Row], first: usize, second: usize) -> bool
    ensures { (v : AnyValuation) (xs : List AnyIndex) (x y : AnyIndex) → table.now ≡ rows v xs → slice_get xs first ≡ Some x → slice_get xs second ≡ Some y → result ≡ meet v x y }
{
    match at(table, first) {
        Some(row) => is_set(row.bits.as_slice(), second),
        None => false,
    }
}

fn is_set(bits: &[bool], place: usize) -> bool
    ensures { (bit : Bool) → slice_get bits.now place ≡ Some bit → result ≡ bit }
{
    match at(bits, place) {
        Some(bit) => *bit,
        None => false,
    }
}

/// Whether the indexes of two reads meet, the first and the second.
fn are_met(meetings: &Meetings, left: &PlacedCell, right: &PlacedCell) -> bool
    ensures { (v : AnyValuation) → AreRows v meetings.now → IsPlaced meetings.now.table.firsts meetings.now.table.seconds left.now → IsPlaced meetings.now.table.firsts meetings.now.table.seconds right.now → result ≡ (meet v (first_index left.now.cell) (first_index right.now.cell) && meet v (second_index left.now.cell) (second_index right.now.cell)) }
{
    let first = is_met(meetings.firsts.as_slice(), left.first, right.first);
    let second = is_met(meetings.seconds.as_slice(), left.second, right.second);
    both(first, second)
}

fn both(first: bool, second: bool) -> bool
    ensures { result ≡ (first && second) }
{
    first && second
}

/// Whether two reads have equal numbers, unless their indexes don't meet.
fn is_agreed(
    alloc: Global,
    valuation: &Valuation,
    meetings: &Meetings,
    left: &PlacedCell,
    right: &PlacedCell,
) -> Result<bool, AllocError>
    requires rows { AreRows valuation.now meetings.now }
    requires left { IsPlaced meetings.now.table.firsts meetings.now.table.seconds left.now }
    requires right { IsPlaced meetings.now.table.firsts meetings.now.table.seconds right.now }
    ensures { IfOk result (λ is. is ≡ agrees valuation.now left.now.cell right.now.cell) }
{
    let met = are_met(meetings, left, right);
    let agreed = is_equal_if(alloc, valuation, met, &left.cell, &right.cell)?;
    Ok(agreed)
}

/// Whether two reads have equal numbers, where they are to have.
fn is_equal_if(
    alloc: Global,
    valuation: &Valuation,
    asked: bool,
    left: &Cell,
    right: &Cell,
) -> Result<bool, AllocError>
    ensures { IfOk result (λ is. is ≡ (if asked then equal valuation.now (read left.now) (read right.now) else true)) }
{
    if !asked {
        return Ok(true);
    }
    let left = left.read(alloc)?;
    let right = right.read(alloc)?;
    is_equal(alloc, valuation, &left, &right)
}

/// Whether a read agrees with each of some reads.
fn is_agreed_with_all(
    alloc: Global,
    valuation: &Valuation,
    meetings: &Meetings,
    read: &PlacedCell,
    others: &[PlacedCell],
) -> Result<bool, AllocError>
    requires rows { AreRows valuation.now meetings.now }
    requires read { IsPlaced meetings.now.table.firsts meetings.now.table.seconds read.now }
    requires others { All (IsPlaced meetings.now.table.firsts meetings.now.table.seconds) others.now }
    ensures { IfOk result (λ all. all ≡ list_all (λ q. agrees valuation.now read.now.cell q.cell) others.now) }
{
    for other in others {
        if !is_agreed(alloc, valuation, meetings, read, other)? {
            return Ok(false);
        }
    }
    Ok(true)
}

/// Whether each two reads agree.
pub(crate) fn are_agreed(
    alloc: Global,
    valuation: &Valuation,
    meetings: &Meetings,
    reads: &[PlacedCell],
) -> Result<bool, AllocError>
    requires rows { AreRows valuation.now meetings.now }
    requires reads { All (IsPlaced meetings.now.table.firsts meetings.now.table.seconds) reads.now }
    ensures { IfOk result (λ all. all ≡ list_all (λ p. list_all (λ q. agrees valuation.now p.cell q.cell) reads.now) reads.now) }
{
    for read in reads {
        if !is_agreed_with_all(alloc, valuation, meetings, read, reads)? {
            return Ok(false);
        }
    }
    Ok(true)
}
