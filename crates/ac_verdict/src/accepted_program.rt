//! From the bytes of a program to a program that is accepted.

ghost use Rattle.std.specs.Prelude.{◌≡◌, List, ℕ, IfOk, IfErr};
ghost use Rattle.ac_tree.specs.declared.program.Program.{Program as Tree};
ghost use Rattle.ac_names.specs.NamesFaults.{IsFirstFault};
ghost use Rattle.ac_parse.specs.Parsing.{SpellsWithin, IsParseFault};
ghost use Rattle.ac_verdict.specs.AcceptedProgram.{program_of};
ghost use Rattle.ac_verdict.specs.Causes.{HasVerdict, IsRefusal};

use crate::outcome::Outcome;
use crate::program_fault::ProgramFault;
use crate::supported::first_unsupported;
use ac_names::{NamesFault, check_static_by_table};
use ac_parse::{ParseFault, parse};
use ac_tree::Program;
use std::alloc::Global;

/// A program that keeps the static rules and has a verdict.
#[derive(Drop)]
pub struct AcceptedProgram {
    program: Program,
}

impl AcceptedProgram {
    /// The program itself.
    pub fn get(&self) -> &Program
        ensures { result.now ≡ program_of self.now }
    {
        &self.program
    }
}

/// The program of these bytes, or why there is none: by its text, then by the static rules, then by its forms. The policy
/// is not looked at.
pub fn read_program(alloc: Global, bytes: &[u8]) -> Result<AcceptedProgram, Outcome>
    ensures accepted { IfOk result (λ a. HasVerdict bytes.now (program_of a)) }
    ensures refused { IfErr result (IsRefusal bytes.now) }
{
    match parse(alloc, bytes) {
        Ok(program) => accepted(alloc, program),
        Err(fault) => Err(text_refused(fault)),
    }
}

/// The program, if it keeps the static rules and is supported.
fn accepted(alloc: Global, program: Program) -> Result<AcceptedProgram, Outcome>
    ensures accepted { (bytes : List ℕ) → SpellsWithin bytes program → IfOk result (λ a. HasVerdict bytes (program_of a)) }
    ensures refused { (bytes : List ℕ) → SpellsWithin bytes program → IfErr result (IsRefusal bytes) }
{
    if let Err(fault) = check_static_by_table(alloc, &program) {
        return Err(rules_broken(fault));
    }
    match first_unsupported(alloc, &program) {
        Ok(None) => Ok(AcceptedProgram { program }),
        Ok(Some(node)) => Err(Outcome::Program {
            fault: ProgramFault::NotSupported { node },
        }),
        Err(_) => Err(Outcome::OutOfMemory),
    }
}

/// What a fault of the names is answered as.
fn rules_broken(fault: NamesFault) -> Outcome
    ensures { (bytes : List ℕ) (p : Tree) → SpellsWithin bytes p → IsFirstFault p fault → IsRefusal bytes result }
{
    match fault {
        NamesFault::Static(fault) => Outcome::Program {
            fault: ProgramFault::Rule { fault },
        },
        NamesFault::OutOfMemory => Outcome::OutOfMemory,
    }
}

/// What a fault of the text is answered as.
fn text_refused(fault: ParseFault) -> Outcome
    ensures { (bytes : List ℕ) → IsParseFault bytes fault → IsRefusal bytes result }
{
    match fault {
        ParseFault::NotUtf8 { at } => Outcome::Program {
            fault: ProgramFault::NotUtf8 { at },
        },
        ParseFault::Token { at } => Outcome::Program {
            fault: ProgramFault::Token { at },
        },
        ParseFault::Unexpected { span } => Outcome::Program {
            fault: ProgramFault::Unexpected { span },
        },
        ParseFault::Limit { which, value } => Outcome::Limit { which, value },
        ParseFault::OutOfMemory => Outcome::OutOfMemory,
    }
}
