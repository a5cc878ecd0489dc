//! The rules on declarations, each of which is judged by those before it, and what a declaration says by itself.
ghost use Rattle.std.specs.Prelude.{◌≡◌, ◌||◌, [], length, take, Option};
ghost use Rattle.std.specs.List.{list_any};
ghost use Rattle.std.specs.Option.{option_copied};
ghost use Rattle.ac_tree.specs.StaticRules.{extents_in, extents_of, rank, is_constant, is_input, is_scalar_var, is_empty_range, is_undeclared_extent, is_bad_size, is_bad_extent, first_fault, item_faults, items_faults};
ghost use Rattle.ac_tree.specs.FirstFault.{fault_of};

use crate::declared_names::DeclaredNames;
use crate::program::{Extent, Extents, Item, ItemKind};
use crate::rule;
use crate::static_rules::{StaticFault, unless};

/// How many indexes a name takes.
pub fn rank_of(kind: &ItemKind) -> u8
    ensures { result ≡ rank kind.now }
{
    match kind {
        ItemKind::InputArray { extents, .. } => extent_count(extents),
        ItemKind::VarArray { extents } => extent_count(extents),
        _ => 0,
    }
}

fn extent_count(extents: &Extents) -> u8
    ensures { result ≡ length (extents_in extents.now) }
{
    match extents {
        Extents::One(_) => 1,
        Extents::Two(..) => 2,
    }
}

pub fn is_const(kind: &ItemKind) -> bool
    ensures { result ≡ is_constant kind.now }
{
    matches!(kind, ItemKind::Const { .. })
}

pub fn is_given(kind: &ItemKind) -> bool
    ensures { result ≡ is_input kind.now }
{
    matches!(
        kind,
        ItemKind::InputScalar { .. } | ItemKind::InputArray { .. }
    )
}

pub fn is_var(kind: &ItemKind) -> bool
    ensures { result ≡ is_scalar_var kind.now }
{
    matches!(kind, ItemKind::VarScalar)
}

/// The first declaration that breaks a rule, with the least rule that it breaks.
pub fn check_items<D: DeclaredNames>(names: &D, items: &[Item]) -> Result<(), StaticFault>
    requires { D.listed names.now ≡ items.now }
    ensures { fault_of result ≡ first_fault (items_faults [] items.now) }
{
    for (count, item) in items.iter().enumerate() {
        check_item(names, count, item)?;
    }
    Ok(())
}

/// A declaration, by the first `count` ones, which stand before it.
fn check_item<D: DeclaredNames>(names: &D, count: usize, item: &Item) -> Result<(), StaticFault>
    ensures { fault_of result ≡ first_fault (item_faults (take count (D.listed names.now)) item.now) }
{
    let node = item.node.id;
    unless(
        rule::REDECLARED_NAME,
        names.kind_before(count, &item.name).is_some(),
        node,
    )?;
    unless(
        rule::UNDECLARED_NAME,
        has_undeclared_extent(names, count, &item.kind),
        node,
    )?;
    unless(rule::EMPTY_RANGE, has_empty_range(&item.kind), node)?;
    unless(
        rule::BAD_EXTENT,
        has_bad_extent(names, count, &item.kind),
        node,
    )
}

fn has_empty_range(kind: &ItemKind) -> bool
    ensures { result ≡ is_empty_range kind.now }
{
    match kind {
        ItemKind::InputScalar { lo, hi } => *hi < *lo,
        ItemKind::InputArray { lo, hi, .. } => *hi < *lo,
        _ => false,
    }
}

fn has_undeclared_extent<D: DeclaredNames>(names: &D, count: usize, kind: &ItemKind) -> bool
    ensures { result ≡ list_any (is_undeclared_extent (take count (D.listed names.now))) (extents_of kind.now) }
{
    match kind {
        ItemKind::InputArray { extents, .. } => has_undeclared(names, count, extents),
        ItemKind::VarArray { extents } => has_undeclared(names, count, extents),
        _ => false,
    }
}

fn has_undeclared<D: DeclaredNames>(names: &D, count: usize, extents: &Extents) -> bool
    ensures { result ≡ list_any (is_undeclared_extent (take count (D.listed names.now))) (extents_in extents.now) }
{
    match extents {
        Extents::One(extent) => names_undeclared(names, count, extent),
        Extents::Two(rows, columns) => {
            names_undeclared(names, count, rows) || names_undeclared(names, count, columns)
        }
    }
}

fn names_undeclared<D: DeclaredNames>(names: &D, count: usize, extent: &Extent) -> bool
    ensures { result ≡ is_undeclared_extent (take count (D.listed names.now)) extent.now }
{
    match extent {
        Extent::Lit(_) => false,
        Extent::Named(name) => names.kind_before(count, name).is_none(),
    }
}

fn has_bad_extent<D: DeclaredNames>(names: &D, count: usize, kind: &ItemKind) -> bool
    ensures { result ≡ list_any (is_bad_extent (take count (D.listed names.now))) (extents_of kind.now) }
{
    match kind {
        ItemKind::InputArray { extents, .. } => has_bad(names, count, extents),
        ItemKind::VarArray { extents } => has_bad(names, count, extents),
        _ => false,
    }
}

fn has_bad<D: DeclaredNames>(names: &D, count: usize, extents: &Extents) -> bool
    ensures { result ≡ list_any (is_bad_extent (take count (D.listed names.now))) (extents_in extents.now) }
{
    match extents {
        Extents::One(extent) => is_bad(names, count, extent),
        Extents::Two(rows, columns) => is_bad(names, count, rows) || is_bad(names, count, columns),
    }
}

fn is_bad<D: DeclaredNames>(names: &D, count: usize, extent: &Extent) -> bool
    ensures { result ≡ is_bad_extent (take count (D.listed names.now)) extent.now }
{
    match extent {
        Extent::Lit(number) => *number == 0,
        Extent::Named(name) => has_bad_size(names.kind_before(count, name)),
    }
}

fn has_bad_size(kind: Option<&ItemKind>) -> bool
    ensures { result ≡ is_bad_size (option_copied kind.entry) }
{
    match kind {
        None => false,
        Some(ItemKind::Const { value }) => *value < 0,
        Some(ItemKind::InputScalar { lo, .. }) => *lo < 0,
        Some(_) => true,
    }
}
