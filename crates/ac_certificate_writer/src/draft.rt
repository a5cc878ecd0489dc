//! What is written of a certificate so far.
ghost use Rattle.std.specs.Prelude.{◌≡◌, ◌+◌, IfOk, OnOk, string_bytes};
ghost use Rattle.ac_lines.specs.Numbering.{number_of};
ghost use Rattle.ac_certificate_writer.specs.Written.{written_of, with_count, with_given, with_line, with_entry};

use ac_lines::{Claim, Line, Text, write_line};
use indexmap::IndexSet;
use std::alloc::{AllocError, Global};

/// What is written of a certificate so far.
#[derive(Drop)]
pub struct Draft {
    pub out: String,
    /// The texts of the formulas that have a line, by number.
    pub given: IndexSet<Text>,
    pub conditions: u64,
    pub steps: u64,
}

/// One more. There are never so many that it fails for another cause than memory.
fn more(count: u64) -> Result<u64, AllocError>
    ensures { IfOk result (λ n. n ≡ count + 1) }
{
    match count.checked_add(1) {
        Some(count) => Ok(count),
        None => Err(AllocError),
    }
}

fn count(draft: &mut Draft, claim: &Claim) -> Result<(), AllocError>
    ensures { OnOk result (written_of draft.new ≡ with_count (written_of draft.old) claim.now) }
{
    match claim {
        Claim::Annotation { .. } => {}
        Claim::Condition { .. } => draft.conditions = more(draft.conditions)?,
        Claim::Step { .. } => draft.steps = more(draft.steps)?,
    }
    Ok(())
}

/// The number of the formula with this text, which gets a line if it has none.
fn number_for(alloc: Global, draft: &mut Draft, text: String) -> Result<u64, AllocError>
    ensures number { IfOk result (λ n. n ≡ number_of (string_bytes text) (written_of draft.old).given) }
    ensures given { OnOk result (written_of draft.new ≡ with_given (written_of draft.old) (string_bytes text)) }
{
    let text = Text::new(alloc, text)?;
    let key = text.clone()?;
    let (number, is_new) = draft.given.insert_full(key)?;
    if is_new {
        write_line(alloc, &mut draft.out, &Line::Formula { text })?;
    }
    Ok(number as u64)
}

/// Writes a line.
pub fn write(alloc: Global, draft: &mut Draft, line: &Line) -> Result<(), AllocError>
    ensures { OnOk result (written_of draft.new ≡ with_line (written_of draft.old) line.now) }
{
    write_line(alloc, &mut draft.out, line)
}

/// Writes what is said of the formula with a text, with a line for the formula if it has none.
pub fn write_entry(
    alloc: Global,
    draft: &mut Draft,
    claim: Claim,
    text: String,
) -> Result<(), AllocError>
    ensures { OnOk result (written_of draft.new ≡ with_entry (written_of draft.old) (claim, string_bytes text)) }
{
    count(draft, &claim)?;
    let formula = number_for(alloc, draft, text)?;
    write(alloc, draft, &Line::Cites { claim, formula })
}
