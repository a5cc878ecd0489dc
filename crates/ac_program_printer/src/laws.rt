//! The law of printing.
ghost use Rattle.ac_program_printer.specs.Names.{HasNames};
ghost use Rattle.ac_program_printer.specs.Printing.{program_text};
ghost use Rattle.ac_program_printer.specs.SameUpToSpans.{IsNumbered, SpellsUpToSpans};

use crate::numbers::{fit_block, fit_items};
use ac_tree::Program;

/// The law that the printed text of a program spells the same program up to spans: of one whose nodes are numbered and
/// whose names are names. It takes the program, since the numbers of a program in hand are those that their types hold.
pub fn a_printed_program_reads_back(program: &Program)
    ensures { IsNumbered program.now → HasNames program.now → SpellsUpToSpans (program_text program.now) program.now }
{
    fit_items(program.items.as_slice());
    fit_block(program.body.as_slice());
}
