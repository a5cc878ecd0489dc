//! Valuations of a ground form.
use ac_logic::Term;
use ac_shared::Shared;
use sqlite_items::Items;

/// A finite table from units to numbers. A unit without an entry has the number 0.
#[derive(Drop)]
pub struct Valuation {
    pub entries: Items<Entry>,
}

/// A unit and its number.
#[derive(Drop)]
pub struct Entry {
    pub unit: Shared<Term>,
    pub value: i128,
}
