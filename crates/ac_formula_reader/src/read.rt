//! Reading formulas and terms from their texts.
ghost use Rattle.std.specs.Prelude.{◌≡◌, ℕ, ◌+◌, ◌^◌, ◌≤◌, ◌<◌, List, [], ◌∷◌, ◌++◌, length, drop, IfOk, IfErr, IfSome, Some, None, Ok, Err};
ghost use Rattle.ac_formula_printer.specs.FormulaText.{Goal, Terms, Formulas};
ghost use Rattle.ac_formula_printer.specs.FormulaTokens.{IsText};
ghost use Rattle.ac_formula_reader.specs.Refusals.{IsFault};
ghost use Rattle.ac_formula_machine.specs.FormulaMachine.{begun as begun_state};
ghost use Rattle.ac_formula_reader.specs.FormulaPieces.{IsFirst, Advances, HasRun, IsRead, IsFaultAt};

use crate::ending::{end_formula, end_term};
use crate::machine::step;
use crate::tokens::{Piece, first_token};
use ac_formula_machine::{Stack, State, fresh, give_up, refuse, unbound};
use ac_logic::{Formula, Term};
use ac_shared::Shared;
use ac_tokens::{Run, run_length};
use std::alloc::{AllocError, Global};
use thiserror::Error;

/// Why a text is no formula, or no term.
#[derive(Debug, Drop, Error)]
pub enum FormulaFault {
    /// No text goes on with the token, or the fault of tokens, that begins at this byte; or the text ends there too early.
    #[error("unexpected at {at}")]
    At { at: u32 },
    /// Memory ran out.
    #[error("out of memory")]
    OutOfMemory,
}

impl From<AllocError> for FormulaFault {
    ghost use Rattle.std.specs.Prelude.{◌≡◌};
    ghost use Rattle.ac_formula_reader.specs.declared.read.FormulaFault.TheVariants.{OutOfMemory};

    ghost from_gives = { λ _ e. e ≡ OutOfMemory };

    fn from(_error: AllocError) -> FormulaFault {
        FormulaFault::OutOfMemory
    }
}

/// Where reading has come to.
#[derive(Drop)]
pub enum Reached {
    /// The token at this byte has no step.
    Stuck(usize),
    Through(Stack, State),
}

/// A state, and how many bytes lead to it.
#[derive(Drop)]
pub struct Advance {
    pub state: State,
    pub len: usize,
}

/// One token at the front of the bytes, and the blanks behind it.
fn read_token(
    alloc: Global,
    stack: &mut Stack,
    state: State,
    bytes: &[u8],
) -> Result<Option<Advance>, AllocError>
    ensures { IfOk result (λ next. Advances stack.old state bytes.now stack.new next) }
{
    match first_token(alloc, bytes) {
        Ok(Some(piece)) => take(alloc, stack, state, bytes, piece),
        Ok(None) => refuse(state),
        Err(error) => give_up(state, error),
    }
}

fn take(
    alloc: Global,
    stack: &mut Stack,
    state: State,
    bytes: &[u8],
    piece: Piece,
) -> Result<Option<Advance>, AllocError>
    requires { IsFirst bytes.now (Some piece) }
    ensures { IfOk result (λ next. Advances stack.old state bytes.now stack.new next) }
{
    let Piece { mark, len } = piece;
    let next = step(alloc, stack, state, &mark);
    drop(mark);
    match next? {
        None => Ok(None),
        Some(state) => {
            let blanks = run_length(Run::Blank, &bytes[len..]);
            Ok(Some(Advance {
                state,
                len: len + blanks,
            }))
        }
    }
}

/// All tokens of a text.
fn run(alloc: Global, bytes: &[u8], begun: State) -> Result<Reached, AllocError>
    ensures { IfOk result (λ reached. (g : Goal) → begun ≡ begun_state g → HasRun g bytes.now reached) }
{
    let mut stack = Stack::new(alloc);
    let mut state = begun;
    let mut at = run_length(Run::Blank, bytes);
    while at < bytes.len() {
        match read_token(alloc, &mut stack, state, &bytes[at..])? {
            None => return Ok(Reached::Stuck(at)),
            Some(next) => {
                state = next.state;
                at += next.len;
            }
        }
    }
    Ok(Reached::Through(stack, state))
}

/// The term of a text, or the place of its refusal.
fn whole_text_term(alloc: Global, bytes: &[u8]) -> Result<Result<Term, usize>, AllocError>
    ensures { IfOk result (λ read. IsRead Terms bytes.now read) }
{
    match run(alloc, bytes, State::Factor(fresh()))? {
        Reached::Stuck(at) => Ok(Err(at)),
        Reached::Through(stack, state) => match end_term(alloc, stack, state)? {
            None => Ok(Err(bytes.len())),
            Some(term) => Ok(Ok(term)),
        },
    }
}

/// The formula of a text, or the place of its refusal.
fn whole_text_formula(alloc: Global, bytes: &[u8]) -> Result<Result<Formula, usize>, AllocError>
    ensures { IfOk result (λ read. IsRead Formulas bytes.now read) }
{
    match run(alloc, bytes, State::Part(unbound()))? {
        Reached::Stuck(at) => Ok(Err(at)),
        Reached::Through(stack, state) => match end_formula(alloc, stack, state)? {
            None => Ok(Err(bytes.len())),
            Some(formula) => Ok(Ok(formula)),
        },
    }
}

fn fault_at(place: usize) -> FormulaFault
    requires { place < 2 ^ 32 }
    ensures { IsFaultAt place result }
{
    FormulaFault::At { at: place as u32 }
}

/// The formula that a text spells. `At` comes where the text spells none, with the byte at which no formula goes on, and
/// `OutOfMemory` where memory ran out.
///
/// The time is linear in the length of the text, but for bound names: each is looked for among the names of the `all`s around
/// it.
pub fn read_formula(alloc: Global, text: &str) -> Result<Shared<Formula>, FormulaFault>
    requires { length text.now < 2 ^ 32 }
    ensures text { IfOk result (λ formula. IsText Formulas formula text.now) }
    ensures refused { IfErr result (λ fault. IsFault Formulas text.now fault) }
{
    match whole_text_formula(alloc, text.as_bytes())? {
        Ok(formula) => Ok(Shared::new(alloc, formula)?),
        Err(place) => Err(fault_at(place)),
    }
}

/// The term that a text spells. `At` and `OutOfMemory` come as they do for a formula.
pub fn read_term(alloc: Global, text: &str) -> Result<Shared<Term>, FormulaFault>
    requires { length text.now < 2 ^ 32 }
    ensures text { IfOk result (λ term. IsText Terms term text.now) }
    ensures refused { IfErr result (λ fault. IsFault Terms text.now fault) }
{
    match whole_text_term(alloc, text.as_bytes())? {
        Ok(term) => Ok(Shared::new(alloc, term)?),
        Err(place) => Err(fault_at(place)),
    }
}
