//! Where a statement writes a literal, and the extent of the array.

ghost use Rattle.std.specs.Prelude.{◌≡◌, MatchOption, Some, true, false};
ghost use Rattle.ac_tree.specs.declared.program.Program.{Program as Tree};
ghost use Rattle.ac_verdict.specs.Supported.{literal_extent};
ghost use Rattle.ac_verdict.specs.Writes.{IsWritten, is_put, array_of, index_of};

use ac_names::NameTable;
use ac_tree::{ExprKind, Extent, Extents, Index, ItemKind, Name, StmtKind};

/// The index that a statement writes at and the extent of the array, if the statement has a verdict.
pub(crate) fn written(statement: &StmtKind, names: &NameTable<'_>) -> Option<(u64, u64)>
    ensures { (p : Tree) → names.now ≡ p.items → IsWritten p statement.now result }
{
    let Some((name, index)) = put(statement) else {
        return None;
    };
    let Some(kind) = names.kind_of(name) else {
        return None;
    };
    let Some(extent) = literal_extent(kind) else {
        return None;
    };
    Some((index, extent))
}

/// The array and the index that a literal is written at.
fn put(statement: &StmtKind) -> Option<(&Name, u64)>
    ensures { MatchOption result (is_put statement.now ≡ false) (λ r. (is_put statement.now ≡ true) × (r.0.now ≡ array_of statement.now) × (r.1 ≡ index_of statement.now)) }
{
    match statement {
        StmtKind::Put {
            name,
            index: Index::One(index),
            value,
        } => match (&index.get().kind, &value.kind) {
            (ExprKind::Num(index), ExprKind::Num(_)) => Some((name, *index)),
            _ => None,
        },
        _ => None,
    }
}

/// The extent of an array that has one, a literal.
fn literal_extent(kind: &ItemKind) -> Option<u64>
    ensures { result ≡ literal_extent (Some kind.now) }
{
    match kind {
        ItemKind::VarArray {
            extents: Extents::One(Extent::Lit(extent)),
        } => Some(*extent),
        _ => None,
    }
}
