//! Which programs have a verdict.

ghost use Rattle.std.specs.Prelude.{IfOk, MatchOption};
ghost use Rattle.ac_verdict.specs.Supported.{IsSupported, IsFirstUnsupported};

use crate::writes::written;
use ac_names::NameTable;
use ac_tree::{NodeId, Program};
use std::alloc::{AllocError, Global};

/// The statements that a program may have.
const MOST_STATEMENTS: usize = 1_000;

/// The first statement that has no verdict; none where the program is supported.
pub(crate) fn first_unsupported(
    alloc: Global,
    program: &Program,
) -> Result<Option<NodeId>, AllocError>
    ensures { IfOk result (λ first. MatchOption first (IsSupported program.now) (IsFirstUnsupported program.now)) }
{
    let names = NameTable::new(alloc, program.items.as_slice())?;
    for (i, statement) in program.body.as_slice().iter().enumerate() {
        if i == MOST_STATEMENTS {
            return Ok(Some(statement.node.id));
        }
        let Some(_) = written(&statement.kind, &names) else {
            return Ok(Some(statement.node.id));
        };
    }
    Ok(None)
}
