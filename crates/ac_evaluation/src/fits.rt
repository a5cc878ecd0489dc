//! Whether a start fits its program.
ghost use Rattle.std.specs.Prelude.{◌≡◌, ◌↔◌, IsTrue, All, MatchOption};
ghost use Rattle.std.specs.Option.{option_copied, option_map};
ghost use Rattle.ac_run.specs.Start.{count, is_held, Fits};
ghost use Rattle.ac_evaluation.specs.Shapes.{shape_of, AreShapes};
ghost use Rattle.ac_evaluation.specs.Misfit.{IsFirstMisfit};
ghost use Rattle.ac_evaluation.specs.Parts.{is_in_range, FitsAs};

use crate::shape::Shape;
use ac_run::{Start, StartCell};
use ac_tree::{Item, ItemKind, Program};
use sqlite_items::at;

/// The first entry that is wrong or missing, or the first that is too many.
pub(crate) fn first_misfit(program: &Program, start: &Start, shapes: &[Shape]) -> Option<usize>
    requires { AreShapes program.now start.now shapes.now }
    ensures { MatchOption result (Fits program.now start.now) (λ n. IsFirstMisfit program.now start.now n) }
{
    let cells = start.cells.as_slice();
    let mut next: usize = 0;
    for (i, item) in program.items.as_slice().iter().enumerate() {
        if is_held(&item.kind) {
            if !fits_at(item, at(shapes, i), at(cells, next)) {
                return Some(next);
            }
            next += 1;
        }
    }
    if next < cells.len() { Some(next) } else { None }
}

/// A start has numbers for inputs and vars, and none for constants.
fn is_held(kind: &ItemKind) -> bool
    ensures { result ≡ is_held kind.now }
{
    !matches!(kind, ItemKind::Const { .. })
}

fn fits_at(item: &Item, shape: Option<&Shape>, cell: Option<&StartCell>) -> bool
    ensures { IsTrue result ↔ FitsAs item.now (option_map shape_of (option_copied shape.entry)) (option_copied cell.entry) }
{
    match (shape, cell) {
        (Some(shape), Some(cell)) => {
            cell.name == item.name
                && has_count(*shape, cell.numbers.len())
                && are_in_range(&item.kind, cell.numbers.as_slice())
        }
        _ => false,
    }
}

fn has_count(shape: Shape, numbers: usize) -> bool
    ensures { IsTrue result ↔ (numbers ≡ count (shape_of shape)) }
{
    match shape {
        Shape::Scalar => numbers == 1,
        Shape::Vector(extent) => numbers as u128 == extent,
        Shape::Matrix(rows, columns) => match rows.checked_mul(columns) {
            Some(cells) => numbers as u128 == cells,
            None => false,
        },
    }
}

fn are_in_range(kind: &ItemKind, numbers: &[i128]) -> bool
    ensures { IsTrue result ↔ All (λ n. IsTrue (is_in_range kind.now n)) numbers.now }
{
    numbers.iter().all(|n| is_in_range(kind, n))
}

fn is_in_range(kind: &ItemKind, n: &i128) -> bool
    ensures { result ≡ is_in_range kind.now n.now }
{
    match kind {
        ItemKind::InputScalar { lo, hi } => i128::from(*lo) <= *n && *n <= i128::from(*hi),
        ItemKind::InputArray { lo, hi, .. } => i128::from(*lo) <= *n && *n <= i128::from(*hi),
        _ => true,
    }
}
