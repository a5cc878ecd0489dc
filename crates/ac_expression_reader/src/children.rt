//! The children of a node.
ghost use Rattle.std.specs.Prelude.{◌≡◌, IfOk};

use sqlite_items::Boxed;
use std::alloc::{AllocError, Global};

/// Two parts of a node, boxed. Who hands both over holds none of them where memory runs out.
pub fn box_two<L: Drop, R: Drop>(
    alloc: Global,
    left: L,
    right: R,
) -> Result<(Boxed<L>, Boxed<R>), AllocError>
    ensures { IfOk result (λ both. (both.0 ≡ left) × (both.1 ≡ right)) }
{
    let left = Boxed::new(alloc, left)?;
    let right = Boxed::new(alloc, right)?;
    Ok((left, right))
}
