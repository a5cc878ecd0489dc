//! The nodes of a formula that are no symbols, and how often and how deep each symbol occurs in it.
ghost use Rattle.std.specs.Prelude.{◌≡◌, ◌+◌, ◌∷◌, [], max, Bool, true, List, IfOk, OnOk, IfSome};
ghost use Rattle.ac_logic.specs.declared.formula.Change.{Change as AnyChange};
ghost use Rattle.ac_logic.specs.declared.formula.Sym.{Sym as AnySymbol};
ghost use Rattle.ac_logic.specs.Size.{saturated};
ghost use Rattle.ac_conditions.specs.Weights.{ones};
ghost use Rattle.ac_profile.specs.Profile.{sizes, depths, profile_size, profile_depth};
ghost use Rattle.ac_profile.specs.Added.{IsMore, HasSymbol, HasTerm, HasTwoTerms, HasArray, HasFormula, HasBelow, IsBelow, IsPlaceOf, IsWith, IsBeside, IsRaised, raised, is_of as is_change_of, is_changed as are_changing, HasChanged, AreParted, IsWithChanged, IsAfter};

use ac_logic::{ArrayTerm, Change, Formula, Sym, Term, same_symbol};
use std::alloc::{AllocError, Global};

/// How often a symbol occurs, and how many nodes stand above it at most.
#[derive(Drop)]
struct Occurrence {
    symbol: Sym,
    is_array: bool,
    count: u64,
    above: u64,
}

/// The nodes of a formula that are no symbols, by their number and by the depth of the deepest, and the symbols.
#[derive(Drop)]
pub(crate) struct Counts {
    nodes: u64,
    depth: u64,
    symbols: Vec<Occurrence>,
}

/// Where something stands in a formula: how often, and how many nodes are above it.
#[derive(Clone, Copy)]
pub(crate) struct Place {
    pub(crate) count: u64,
    pub(crate) above: u64,
}

fn place_at(occurrence: &Occurrence) -> Place
    ensures { result ≡ record { count = occurrence.now.count; above = occurrence.now.above } }
{
    Place {
        count: occurrence.count,
        above: occurrence.above,
    }
}

fn below(place: Place) -> Place
    ensures { IsBelow place result }
{
    Place {
        count: place.count,
        above: place.above.saturating_add(1),
    }
}

fn copied(symbol: &Sym) -> Result<Sym, AllocError>
    ensures { IfOk result (λ copy. copy ≡ symbol.now) }
{
    match symbol {
        Sym::Value(name) => Ok(Sym::Value(name.clone()?)),
        Sym::Init(name) => Ok(Sym::Init(name.clone()?)),
        Sym::Fresh(number) => Ok(Sym::Fresh(*number)),
    }
}

/// Where a symbol stands in a list.
fn place_of(symbols: &[Occurrence], symbol: &Sym, is_array: bool) -> Option<usize>
    ensures { IfSome result (IsPlaceOf symbols.now symbol.now is_array) }
{
    let mut at = 0;
    while at < symbols.len() {
        let here = &symbols[at];
        if here.is_array == is_array && same_symbol(&here.symbol, symbol) {
            return Some(at);
        }
        at += 1;
    }
    None
}

/// Counts a symbol at one more place.
fn merge(occurrence: &mut Occurrence, place: Place)
    ensures symbol { occurrence.new.symbol ≡ occurrence.old.symbol }
    ensures kind { occurrence.new.is_array ≡ occurrence.old.is_array }
    ensures count { occurrence.new.count ≡ saturated (occurrence.old.count + place.count) }
    ensures above { occurrence.new.above ≡ max occurrence.old.above place.above }
{
    occurrence.count = occurrence.count.saturating_add(place.count);
    occurrence.above = occurrence.above.max(place.above);
}

/// Adds occurrences of a symbol.
fn add_symbol(
    profile: &mut Counts,
    symbol: &Sym,
    is_array: bool,
    place: Place,
) -> Result<(), AllocError>
    ensures { OnOk result (HasSymbol profile.old profile.new place symbol.now is_array) }
{
    match place_of(profile.symbols.as_slice(), symbol, is_array) {
        Some(at) => {
            let occurrence = &mut profile.symbols[at];
            merge(occurrence, place);
            Ok(())
        }
        None => {
            let copy = copied(symbol)?;
            profile.symbols.push(Occurrence {
                symbol: copy,
                is_array,
                count: place.count,
                above: place.above,
            })?;
            Ok(())
        }
    }
}

fn add_node(profile: &mut Counts, place: Place)
    ensures { IsMore profile.old profile.new place (λ u. 1) (λ u. 1) }
{
    profile.nodes = profile.nodes.saturating_add(place.count);
    profile.depth = profile.depth.max(place.above.saturating_add(1));
}

#[cycle(add_term)]
fn add_term(profile: &mut Counts, term: &Term, place: Place) -> Result<(), AllocError>
    ensures { OnOk result (HasTerm profile.old profile.new place term.now) }
{
    match term {
        Term::Sym(symbol) => add_symbol(profile, symbol, false, place),
        Term::Num(_) => {
            add_node(profile, place);
            Ok(())
        }
        Term::Bound(_) => {
            add_node(profile, place);
            Ok(())
        }
        Term::Read(a, i, j) => {
            let under = below(place);
            add_node(profile, place);
            add_array(profile, a.get(), under)?;
            add_term(profile, i.get(), under)?;
            add_term(profile, j.get(), under)
        }
        Term::Add(s, t) => {
            let under = below(place);
            add_node(profile, place);
            add_term(profile, s.get(), under)?;
            add_term(profile, t.get(), under)
        }
        Term::Sub(s, t) => {
            let under = below(place);
            add_node(profile, place);
            add_term(profile, s.get(), under)?;
            add_term(profile, t.get(), under)
        }
        Term::Mul(s, t) => {
            let under = below(place);
            add_node(profile, place);
            add_term(profile, s.get(), under)?;
            add_term(profile, t.get(), under)
        }
        Term::Neg(t) => {
            let under = below(place);
            add_node(profile, place);
            add_term(profile, t.get(), under)
        }
    }
}

#[cycle(add_term)]
fn add_array(profile: &mut Counts, array: &ArrayTerm, place: Place) -> Result<(), AllocError>
    ensures { OnOk result (HasArray profile.old profile.new place array.now) }
{
    match array {
        ArrayTerm::Sym(symbol) => add_symbol(profile, symbol, true, place),
        ArrayTerm::Put(a, i, j, v) => {
            let under = below(place);
            add_node(profile, place);
            add_array(profile, a.get(), under)?;
            add_term(profile, i.get(), under)?;
            add_term(profile, j.get(), under)?;
            add_term(profile, v.get(), under)
        }
    }
}

/// Adds a node with two terms below it.
fn add_terms(
    profile: &mut Counts,
    left: &Term,
    right: &Term,
    place: Place,
) -> Result<(), AllocError>
    ensures { OnOk result (HasTwoTerms profile.old profile.new place left.now right.now) }
{
    let under = below(place);
    add_node(profile, place);
    add_term(profile, left, under)?;
    add_term(profile, right, under)
}

#[cycle(add_formula)]
pub(crate) fn add_formula(
    profile: &mut Counts,
    formula: &Formula,
    place: Place,
) -> Result<(), AllocError>
    ensures { OnOk result (HasFormula profile.old profile.new place formula.now) }
{
    match formula {
        Formula::True => {
            add_node(profile, place);
            Ok(())
        }
        Formula::False => {
            add_node(profile, place);
            Ok(())
        }
        Formula::Le(s, t) => add_terms(profile, s.get(), t.get(), place),
        Formula::Eq(s, t) => add_terms(profile, s.get(), t.get(), place),
        Formula::Not(f) => add_below(profile, f.get(), place),
        Formula::And(f, g) => {
            let under = below(place);
            add_node(profile, place);
            add_formula(profile, f.get(), under)?;
            add_formula(profile, g.get(), under)
        }
        Formula::Or(f, g) => {
            let under = below(place);
            add_node(profile, place);
            add_formula(profile, f.get(), under)?;
            add_formula(profile, g.get(), under)
        }
        Formula::Implies(f, g) => {
            let under = below(place);
            add_node(profile, place);
            add_formula(profile, f.get(), under)?;
            add_formula(profile, g.get(), under)
        }
        Formula::All(f) => add_below(profile, f.get(), place),
        Formula::Lab(_, f) => add_below(profile, f.get(), place),
    }
}

/// Adds a node with one formula below it.
#[cycle(add_formula)]
fn add_below(profile: &mut Counts, formula: &Formula, place: Place) -> Result<(), AllocError>
    ensures { OnOk result (HasBelow profile.old profile.new place formula.now) }
{
    let under = below(place);
    add_node(profile, place);
    add_formula(profile, formula, under)
}

/// Adds some occurrences.
fn add_all(profile: &mut Counts, symbols: &[Occurrence]) -> Result<(), AllocError>
    ensures { OnOk result (IsWith profile.old profile.new symbols.now) }
{
    for occurrence in symbols {
        let place = place_at(occurrence);
        add_symbol(profile, &occurrence.symbol, occurrence.is_array, place)?;
    }
    Ok(())
}

/// Adds what is counted beside.
pub(crate) fn add_counts(profile: &mut Counts, other: &Counts) -> Result<(), AllocError>
    ensures { OnOk result (IsBeside profile.old other.now profile.new) }
{
    profile.nodes = profile.nodes.saturating_add(other.nodes);
    profile.depth = profile.depth.max(other.depth);
    add_all(profile, other.symbols.as_slice())
}

fn raise(occurrence: &mut Occurrence, by: u64)
    ensures { occurrence.new ≡ raised by occurrence.old }
{
    occurrence.above = occurrence.above.saturating_add(by);
}

/// Puts everything deeper by a number.
pub(crate) fn raise_all(profile: &mut Counts, by: u64)
    ensures { IsRaised by profile.old profile.new }
{
    profile.depth = profile.depth.saturating_add(by);
    for occurrence in profile.symbols.iter_mut() {
        raise(occurrence, by);
    }
}

/// Counts a node that is not deeper than others.
pub(crate) fn count_node(profile: &mut Counts)
    ensures nodes { profile.new.nodes ≡ saturated (profile.old.nodes + 1) }
    ensures depth { profile.new.depth ≡ profile.old.depth }
    ensures symbols { profile.new.symbols.items ≡ profile.old.symbols.items }
{
    profile.nodes = profile.nodes.saturating_add(1);
}

/// Whether a change is of a symbol.
fn is_of(change: &Change, symbol: &Sym, is_array: bool) -> bool
    ensures { result ≡ is_change_of change.now is_array symbol.now }
{
    match change {
        Change::Scalar(changed, _) => !is_array && same_symbol(changed, symbol),
        Change::Array(changed, _) => is_array && same_symbol(changed, symbol),
    }
}

/// Whether some change is of a symbol.
fn is_changed(changes: &[Change], symbol: &Sym, is_array: bool) -> bool
    ensures { result ≡ are_changing changes.now is_array symbol.now }
{
    for change in changes {
        if is_of(change, symbol, is_array) {
            return true;
        }
    }
    false
}

/// Adds what a change puts in the place of a symbol.
fn add_change(profile: &mut Counts, change: &Change, place: Place) -> Result<(), AllocError>
    ensures { OnOk result ((cs : List AnyChange) (s : AnySymbol) (is_array : Bool) → is_change_of change.now is_array s ≡ true → HasChanged (change.now ∷ cs) profile.old profile.new place is_array s) }
{
    match change {
        Change::Scalar(_, term) => add_term(profile, term.get(), place),
        Change::Array(_, array) => add_array(profile, array.get(), place),
    }
}

/// Adds what the changes put in the place of a symbol.
fn add_changed(
    profile: &mut Counts,
    changes: &[Change],
    occurrence: &Occurrence,
) -> Result<(), AllocError>
    ensures { OnOk result (HasChanged changes.now profile.old profile.new (record { count = occurrence.now.count; above = occurrence.now.above }) occurrence.now.is_array occurrence.now.symbol) }
{
    let place = place_at(occurrence);
    for change in changes {
        if is_of(change, &occurrence.symbol, occurrence.is_array) {
            return add_change(profile, change, place);
        }
    }
    add_symbol(profile, &occurrence.symbol, occurrence.is_array, place)
}

/// The occurrences that stay, and those that changes take away.
#[derive(Drop)]
struct Parted {
    kept: Vec<Occurrence>,
    changed: Vec<Occurrence>,
}

fn part(alloc: Global, symbols: Vec<Occurrence>, changes: &[Change]) -> Result<Parted, AllocError>
    ensures { IfOk result (λ parted. AreParted changes.now symbols.items parted.kept.items parted.changed.items) }
{
    let mut symbols = symbols;
    let mut kept = Vec::new(alloc);
    let mut changed = Vec::new(alloc);
    while let Some(occurrence) = symbols.pop() {
        if is_changed(changes, &occurrence.symbol, occurrence.is_array) {
            changed.push(occurrence)?;
        } else {
            kept.push(occurrence)?;
        }
    }
    Ok(Parted { kept, changed })
}

/// Adds what the changes put in the place of some occurrences.
fn add_all_changed(
    profile: &mut Counts,
    changes: &[Change],
    symbols: &[Occurrence],
) -> Result<(), AllocError>
    ensures { OnOk result (IsWithChanged changes.now profile.old profile.new symbols.now) }
{
    for occurrence in symbols {
        add_changed(profile, changes, occurrence)?;
    }
    Ok(())
}

pub(crate) fn changed_counts(
    alloc: Global,
    profile: Counts,
    changes: &[Change],
) -> Result<Counts, AllocError>
    ensures { IfOk result (λ made. IsAfter changes.now profile made) }
{
    let Counts {
        nodes,
        depth,
        symbols,
    } = profile;
    let parted = part(alloc, symbols, changes)?;
    let Parted { kept, changed } = parted;
    let mut made = Counts {
        nodes,
        depth,
        symbols: kept,
    };
    add_all_changed(&mut made, changes, changed.as_slice())?;
    Ok(made)
}

fn copied_symbols(alloc: Global, symbols: &[Occurrence]) -> Result<Vec<Occurrence>, AllocError>
    ensures { IfOk result (λ copies. copies.items ≡ symbols.now) }
{
    let mut copies = Vec::new(alloc);
    for occurrence in symbols {
        let symbol = copied(&occurrence.symbol)?;
        copies.push(Occurrence {
            symbol,
            is_array: occurrence.is_array,
            count: occurrence.count,
            above: occurrence.above,
        })?;
    }
    Ok(copies)
}

/// The part of the symbols in the size.
fn symbols_size(symbols: &[Occurrence]) -> u64
    ensures { result ≡ saturated (sizes ones symbols.now) }
{
    let mut whole = 0;
    for occurrence in symbols {
        whole = occurrence.count.saturating_add(whole);
    }
    whole
}

/// The part of the symbols in the depth.
fn symbols_depth(symbols: &[Occurrence]) -> u64
    ensures { result ≡ saturated (depths ones symbols.now) }
{
    let mut deepest = 0;
    for occurrence in symbols {
        deepest = occurrence.above.saturating_add(1).max(deepest);
    }
    deepest
}

/// Nothing yet.
pub(crate) fn no_counts(alloc: Global) -> Counts
    ensures nodes { result.nodes ≡ 0 }
    ensures depth { result.depth ≡ 0 }
    ensures symbols { result.symbols.items ≡ [] }
{
    Counts {
        nodes: 0,
        depth: 0,
        symbols: Vec::new(alloc),
    }
}

pub(crate) fn copied_counts(alloc: Global, counts: &Counts) -> Result<Counts, AllocError>
    ensures nodes { IfOk result (λ copy. copy.nodes ≡ counts.now.nodes) }
    ensures depth { IfOk result (λ copy. copy.depth ≡ counts.now.depth) }
    ensures symbols { IfOk result (λ copy. copy.symbols.items ≡ counts.now.symbols.items) }
{
    let symbols = copied_symbols(alloc, counts.symbols.as_slice())?;
    Ok(Counts {
        nodes: counts.nodes,
        depth: counts.depth,
        symbols,
    })
}

/// The number of all nodes, or the largest u64 where there are more.
pub(crate) fn counted_size(counts: &Counts) -> u64
    ensures { result ≡ saturated (profile_size ones counts.now) }
{
    counts
        .nodes
        .saturating_add(symbols_size(counts.symbols.as_slice()))
}

/// The depth of the deepest node, or the largest u64 where it is deeper.
pub(crate) fn counted_depth(counts: &Counts) -> u64
    ensures { result ≡ saturated (profile_depth ones counts.now) }
{
    counts.depth.max(symbols_depth(counts.symbols.as_slice()))
}

/// How many symbols there are.
pub(crate) fn symbol_count(counts: &Counts) -> usize {
    counts.symbols.len()
}
