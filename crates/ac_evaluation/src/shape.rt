//! The extents that a start gives a name, and the places of its cells.
ghost use Rattle.std.specs.Prelude.{◌≡◌, ℕ, ◌+◌, ◌*◌, ◌≤◌, ◌^◌, nat_abs, MatchOption};
ghost use Rattle.ac_run.specs.Memory.{is_below, is_within, place_in};
ghost use Rattle.ac_evaluation.specs.Shapes.{shape_of};

/// A name has no extent, one, or rows and columns.
#[derive(Clone, Copy)]
pub(crate) enum Shape {
    Scalar,
    Vector(u128),
    Matrix(u128, u128),
}

fn is_below(i: i128, extent: u128) -> bool
    ensures { result ≡ is_below i extent }
{
    i >= 0 && i.unsigned_abs() < extent
}

/// Whether a cell with these indexes is inside.
pub(crate) fn is_within(shape: Shape, i: i128, j: i128) -> bool
    ensures { result ≡ is_within (shape_of shape) i j }
{
    match shape {
        Shape::Scalar => i == 0 && j == 0,
        Shape::Vector(extent) => is_below(i, extent) && j == 0,
        Shape::Matrix(rows, columns) => is_below(i, rows) && is_below(j, columns),
    }
}

/// The place of a cell in row order, if it is a number that a list in memory can have.
pub(crate) fn place_in(shape: Shape, i: i128, j: i128) -> Option<usize>
    ensures { MatchOption result (2 ^ 64 ≤ place_in (shape_of shape) (nat_abs i) (nat_abs j)) (λ place. place ≡ place_in (shape_of shape) (nat_abs i) (nat_abs j)) }
{
    match shape {
        Shape::Scalar => Some(0),
        Shape::Vector(_) => small(i.unsigned_abs()),
        Shape::Matrix(_, columns) => in_row(i.unsigned_abs(), columns, j.unsigned_abs()),
    }
}

fn in_row(row: u128, columns: u128, column: u128) -> Option<usize>
    ensures { MatchOption result (2 ^ 64 ≤ row * columns + column) (λ place. place ≡ row * columns + column) }
{
    let Some(before) = row.checked_mul(columns) else {
        return None;
    };
    let Some(place) = before.checked_add(column) else {
        return None;
    };
    small(place)
}

fn small(place: u128) -> Option<usize>
    ensures { MatchOption result (2 ^ 64 ≤ place) (λ small. small ≡ place) }
{
    usize::try_from(place).ok()
}
