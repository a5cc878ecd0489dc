//! The names of a program in a table, and the static rules checked by it in time linear in the program.
//!
//! `check_static_by_table` says the same as `check_static` of ac_tree, which takes no memory and walks over all declarations
//! for each name: both are the one walk of ac_tree, over declarations that are looked up in either way. `NameTable` looks a
//! name up for any crate above.
#![tactic(auto)]

mod name_table;
mod names_fault;
mod static_check;

pub use name_table::NameTable;
pub use names_fault::NamesFault;
pub use static_check::check_static_by_table;
