//! Whether the annotations of a part are well formed.
ghost use Rattle.std.specs.Prelude.{◌≡◌, ◌↔◌, IsTrue, IfOk, MatchOption, All};
ghost use Rattle.ac_kernel.specs.WellFormed.{IsWellFormedFor, IsWellFormed, IsFirstIllFormed};

use crate::places::Places;
use crate::ranks::keeps_ranks;
use ac_logic::{Annotation, is_closed};
use ac_names::NameTable;
use ac_tree::Program;
use std::alloc::{AllocError, Global};

/// The place in the list of the first annotation that is not well formed for the program.
pub fn first_ill_formed(
    alloc: Global,
    program: &Program,
    annotations: &[Annotation],
) -> Result<Option<usize>, AllocError>
    ensures { IfOk result (λ first. MatchOption first (All (IsWellFormed program.now) annotations.now) (λ index. IsFirstIllFormed program.now annotations.now index)) }
{
    let names = NameTable::new(alloc, program.items.as_slice())?;
    let places = Places::new(alloc, program)?;
    for index in 0..annotations.len() {
        if !is_well_formed(&names, &places, &annotations[index]) {
            return Ok(Some(index));
        }
    }
    Ok(None)
}

fn is_well_formed(names: &NameTable<'_>, places: &Places, annotation: &Annotation) -> bool
    ensures { IsTrue result ↔ IsWellFormedFor names.now places.now annotation.now }
{
    let formula = annotation.formula.get();
    places.has(annotation.place) && is_closed(formula) && keeps_ranks(names, formula)
}
