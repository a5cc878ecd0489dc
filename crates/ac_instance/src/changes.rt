//! The changes that put the values of a match into a formula.
ghost use Rattle.std.specs.Prelude.{◌≡◌, ◌++◌, zip, IfOk, OnOk};
ghost use Rattle.ac_logic.specs.Substitution.{AreClosedChanges};
ghost use Rattle.ac_codes.specs.Listed.{texts_of};
ghost use Rattle.ac_codes.specs.Matching.{values_of};
ghost use Rattle.ac_instance.specs.Instances.{name_changes, value_changes, values_changes, constant_change, constant_changes, changes_of};

use ac_codes::{Match, MatchValue, Pattern, metavariables};
use ac_logic::{ArrayTerm, Change, Sym, Term};
use ac_policy::{scalar_term, term_of};
use ac_shared::Shared;
use ac_tree::{Item, ItemKind, Name, Program};
use std::alloc::{AllocError, Global};

/// What each metavariable becomes, and each constant. No change has a loose `Bound`.
#[tactic(auto, using(crate::proofs::Changing::added_two, crate::proofs::Closed::closed_changes))]
pub fn changes(
    alloc: Global,
    program: &Program,
    pattern: &Pattern,
    found: &Match,
) -> Result<Vec<Change>, AllocError>
    ensures changes { IfOk result (λ changes. changes.items ≡ changes_of program.now (values_of pattern.now found.now)) }
    ensures closed { IfOk result (λ changes. AreClosedChanges changes.items) }
{
    let mut changes = Vec::new(alloc);
    add_matched(alloc, program, pattern, found, &mut changes)?;
    add_constants(alloc, program.items.as_slice(), &mut changes)?;
    Ok(changes)
}

fn add_matched(
    alloc: Global,
    program: &Program,
    pattern: &Pattern,
    found: &Match,
    changes: &mut Vec<Change>,
) -> Result<(), AllocError>
    ensures { OnOk result (changes.new.items ≡ changes.old.items ++ values_changes program.now (values_of pattern.now found.now)) }
{
    let metas = metavariables(alloc, pattern.code.as_slice())?;
    add_values(
        alloc,
        program,
        metas.as_slice(),
        found.values.as_slice(),
        changes,
    )
}

fn add_values(
    alloc: Global,
    program: &Program,
    metas: &[&Name],
    values: &[MatchValue],
    changes: &mut Vec<Change>,
) -> Result<(), AllocError>
    ensures { OnOk result (changes.new.items ≡ changes.old.items ++ values_changes program.now (zip (texts_of metas.now) values.now)) }
{
    for (at, value) in values.iter().enumerate() {
        if at < metas.len() {
            add_value(alloc, program, metas[at], value, changes)?;
        }
    }
    Ok(())
}

#[tactic(auto, using(crate::proofs::Changing::added_none))]
fn add_value(
    alloc: Global,
    program: &Program,
    meta: &Name,
    value: &MatchValue,
    changes: &mut Vec<Change>,
) -> Result<(), AllocError>
    ensures { OnOk result (changes.new.items ≡ changes.old.items ++ value_changes program.now meta.now value.now) }
{
    match value {
        MatchValue::Name(name) => add_name(alloc, program, meta, name, changes),
        MatchValue::Expr(expr) => {
            let term = term_of(alloc, expr, program)?;
            let meta = meta.clone()?;
            changes.push(Change::Scalar(Sym::Value(meta), term))?;
            Ok(())
        }
        MatchValue::Cond(_) => Ok(()),
        MatchValue::Run(_) => Ok(()),
    }
}

#[tactic(auto, using(crate::proofs::Changing::added_four))]
fn add_name(
    alloc: Global,
    program: &Program,
    meta: &Name,
    name: &Name,
    changes: &mut Vec<Change>,
) -> Result<(), AllocError>
    ensures { OnOk result (changes.new.items ≡ changes.old.items ++ name_changes program.now meta.now name.now) }
{
    let term = scalar_term(alloc, program, name)?;
    let symbol = meta.clone()?;
    changes.push(Change::Scalar(Sym::Value(symbol), term))?;
    let value = Sym::Value(name.clone()?);
    let array = Shared::new(alloc, ArrayTerm::Sym(value))?;
    let symbol = meta.clone()?;
    changes.push(Change::Array(Sym::Value(symbol), array))?;
    let shadow = Sym::Init(name.clone()?);
    let term = Shared::new(alloc, Term::Sym(shadow))?;
    let symbol = meta.clone()?;
    changes.push(Change::Scalar(Sym::Init(symbol), term))?;
    let shadow = Sym::Init(name.clone()?);
    let array = Shared::new(alloc, ArrayTerm::Sym(shadow))?;
    let symbol = meta.clone()?;
    changes.push(Change::Array(Sym::Init(symbol), array))?;
    Ok(())
}

fn add_constants(alloc: Global, items: &[Item], changes: &mut Vec<Change>) -> Result<(), AllocError>
    ensures { OnOk result (changes.new.items ≡ changes.old.items ++ constant_changes items.now) }
{
    for item in items {
        add_constant(alloc, item, changes)?;
    }
    Ok(())
}

#[tactic(auto, using(crate::proofs::Changing::added_none))]
fn add_constant(alloc: Global, item: &Item, changes: &mut Vec<Change>) -> Result<(), AllocError>
    ensures { OnOk result (changes.new.items ≡ changes.old.items ++ constant_change item.now.name item.now.kind) }
{
    match &item.kind {
        ItemKind::Const { value } => {
            let term = Shared::new(alloc, Term::Num(*value))?;
            let name = item.name.clone()?;
            changes.push(Change::Scalar(Sym::Value(name), term))?;
            Ok(())
        }
        _ => Ok(()),
    }
}
