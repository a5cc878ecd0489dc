//! The text of a program, and the law that it reads back.
#![tactic(auto)]

mod laws;
mod numbers;
mod print_condition;
mod print_expression;
mod print_program;
mod print_statement;

pub use laws::a_printed_program_reads_back;
pub use print_program::print;
