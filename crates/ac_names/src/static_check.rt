//! The static rules of a program, over the table of its names.

ghost use Rattle.std.specs.Prelude.{OnOk, IfErr};
ghost use Rattle.ac_tree.specs.StaticRules.{KeepsStaticRules};
ghost use Rattle.ac_names.specs.NamesFaults.{IsFirstFault};

use crate::name_table::NameTable;
use crate::names_fault::NamesFault;
use ac_tree::{Program, check_static_by};
use std::alloc::Global;

/// Whether each rule on declarations and names holds, or the first node in preorder that breaks one, with the least rule
/// that it breaks; or want of memory.
pub fn check_static_by_table(alloc: Global, program: &Program) -> Result<(), NamesFault>
    ensures accepted { OnOk result (KeepsStaticRules program.now) }
    ensures first { IfErr result (IsFirstFault program.now) }
{
    let names = NameTable::new(alloc, program.items.as_slice())?;
    check_static_by(&names, program)?;
    Ok(())
}
