//! Lines written.
ghost use Rattle.std.specs.Prelude.{◌≡◌, [], ◌∷◌, ◌++◌, OnOk, string_bytes};
ghost use Rattle.ac_lines.specs.Lines.{line_text};

use crate::line::Line;
use crate::value::line_value;
use std::alloc::{AllocError, Global};

/// Writes the text of a line, and a line feed, behind what was written before.
#[tactic(auto, using(crate::proofs::Floats::no_float))]
pub fn write_line(alloc: Global, out: &mut String, line: &Line) -> Result<(), AllocError>
    ensures { OnOk result (string_bytes out.new ≡ string_bytes out.old ++ line_text line.now ++ 10 ∷ []) }
{
    let text = line_value(alloc, line)?.to_string(alloc)?;
    out.push_str(text.as_str())?;
    out.push_str("\n")
}
