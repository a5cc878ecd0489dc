//! Where a part goes among others.
ghost use Rattle.std.specs.Prelude.{◌≡◌, ◌<◌, ◌≤◌, drop, length};
ghost use Rattle.ac_linear.specs.NormalForm.{side};
ghost use Rattle.ac_linear.specs.Places.{has_less, InOrder, IsPlaceAmong, place_from};

use crate::entry::Entry;
use ac_logic::same_term;
use std::cmp::Ordering;

/// A place among parts: before the one of an index, or at it, which has the same unit.
#[derive(Clone, Copy)]
pub enum Place {
    Before(usize),
    At(usize),
}

/// Where a part goes beside another one.
#[derive(Clone, Copy)]
pub enum Side {
    Before,
    Same,
    Behind,
}

/// The first place at which the parts have a greater print or the same unit. Since they stand in order, halving finds
/// where those with a lesser print end, and what is looked at from there on has the same print, but for the last.
pub fn place_of(entry: &Entry, entries: &[Entry]) -> Place
    requires { InOrder entries.now }
    ensures place { result ≡ place_from 0 entry.now entries.now }
    ensures within { IsPlaceAmong result (length entries.now) }
{
    let start = lesser(entry, entries);
    for i in start..entries.len() {
        match side_of(entry, &entries[i]) {
            Side::Before => return Place::Before(i),
            Side::Same => return Place::At(i),
            Side::Behind => {}
        }
    }
    Place::Before(entries.len())
}

/// How many parts have a lesser print. They stand in front.
fn lesser(entry: &Entry, entries: &[Entry]) -> usize
    requires { InOrder entries.now }
    ensures within { result ≤ length entries.now }
    ensures behind { place_from 0 entry.now entries.now ≡ place_from result entry.now (drop result entries.now) }
{
    entries.partition_point(
        |other: &Entry| -> bool
            ensures { result ≡ has_less entry.entry.now.print other.now }
        { other.print.text() < entry.print.text() },
    )
}

#[tactic(auto, using(crate::proofs::Equal::term_true, crate::proofs::Equal::term_false))]
fn side_of(entry: &Entry, other: &Entry) -> Side
    ensures { result ≡ side entry.now other.now }
{
    match entry.print.text().cmp(other.print.text()) {
        Ordering::Less => Side::Before,
        Ordering::Equal => {
            if same_term(entry.unit.get(), other.unit.get()) {
                Side::Same
            } else {
                Side::Behind
            }
        }
        Ordering::Greater => Side::Behind,
    }
}
