//! Sums and multiples of forms.
ghost use Rattle.std.specs.Prelude.{◌≡◌, ◌<◌, ◌≤◌, insert, length, IfOk, pos};
ghost use Rattle.ac_linear.specs.NormalForm.{plus, put_all, put_in, put_multiple};
ghost use Rattle.ac_linear.specs.Places.{InOrder, joined_at};

use crate::entry::{Entries, Entry, Form};
use crate::place::{Place, place_of};
use crate::range::Range;
use std::alloc::AllocError;

/// The form x and k times the form y, or none where a number leaves the range.
pub fn plus(range: Range, x: Form, k: i128, y: Form) -> Result<Option<Form>, AllocError>
    requires { InOrder x.entries }
    ensures { IfOk result (λ sum. sum ≡ plus range x k y) }
{
    let Form { constant, entries } = x;
    let Form {
        constant: more,
        entries: others,
    } = y;
    let Some(multiple) = range.product(k, more) else {
        return Ok(None);
    };
    let Some(constant) = range.sum(constant, multiple) else {
        return Ok(None);
    };
    match put_all(range, entries, k, others)? {
        Some(entries) => Ok(Some(Form { constant, entries })),
        None => Ok(None),
    }
}

/// The parts and k times some more.
#[tactic(auto, using(crate::proofs::Search::multiple_in_order))]
fn put_all(
    range: Range,
    entries: Entries<Entry>,
    k: i128,
    more: Entries<Entry>,
) -> Result<Option<Entries<Entry>>, AllocError>
    requires { InOrder entries }
    ensures { IfOk result (λ all. all ≡ put_all range entries k more) }
{
    let mut all = entries;
    let Entries { items } = more;
    for entry in items {
        match put_multiple(range, k, entry, all)? {
            Some(new) => all = new,
            None => return Ok(None),
        }
    }
    Ok(Some(all))
}

/// The parts and k times one more.
fn put_multiple(
    range: Range,
    k: i128,
    entry: Entry,
    entries: Entries<Entry>,
) -> Result<Option<Entries<Entry>>, AllocError>
    requires { InOrder entries }
    ensures { IfOk result (λ all. all ≡ put_multiple range k entry entries) }
{
    let Some(factor) = range.product(k, entry.factor) else {
        return Ok(None);
    };
    if factor == 0 {
        return Ok(Some(entries));
    }
    let Entry { unit, print, .. } = entry;
    let entry = Entry {
        unit,
        print,
        factor,
    };
    put_in(range, entry, entries)
}

/// The parts and one more, in its place.
#[tactic(auto, using(crate::proofs::Put::put_by_index))]
fn put_in(
    range: Range,
    entry: Entry,
    entries: Entries<Entry>,
) -> Result<Option<Entries<Entry>>, AllocError>
    requires { InOrder entries }
    ensures { IfOk result (λ all. all ≡ put_in range entry entries) }
{
    match place_of(&entry, entries.items.as_slice()) {
        Place::Before(i) => {
            let all = inserted(entries, i, entry)?;
            Ok(Some(all))
        }
        Place::At(i) => Ok(joined(range, entries, i, &entry)),
    }
}

fn inserted(entries: Entries<Entry>, i: usize, entry: Entry) -> Result<Entries<Entry>, AllocError>
    requires { i ≤ length entries }
    ensures { IfOk result (λ all. all ≡ insert entries i entry) }
{
    let Entries { mut items } = entries;
    items.insert(i, entry)?;
    Ok(Entries { items })
}

/// The factor added to that of the same unit at i.
fn joined(range: Range, entries: Entries<Entry>, i: usize, entry: &Entry) -> Option<Entries<Entry>>
    requires { i < length entries }
    ensures { result ≡ joined_at range entry.now entries i }
{
    let Entries { mut items } = entries;
    let factor = range.sum(items[i].factor, entry.factor)?;
    if factor == 0 {
        items.remove(i);
    } else {
        items[i].factor = factor;
    }
    Some(Entries { items })
}
