//! The term, or the formula, that is read where a text ends.
ghost use Rattle.std.specs.Prelude.{◌≡◌, ◌∷◌, IfOk, Some};
ghost use Rattle.ac_formula_machine.specs.FormulaMachine.{ended_term as term_ended, ended_formula as formula_ended, atom_so_far, symbol_so_far, array_so_far, term_so_far, relation_ended, implied as implied_formula, either as either_formula, joined as joined_formula, denied as denied_formula};

use ac_formula_machine::{
    Before, Frame, Pending, Relation, Slot, Stack, State, added, conjoined, either, factored,
    give_up, implication, refuse, related,
};
use ac_logic::{ArrayTerm, Formula, Term};
use std::alloc::{AllocError, Global};

fn whole_atom(alloc: Global, pending: Pending, atom: Term) -> Result<Term, AllocError>
    ensures { IfOk result (λ term. term ≡ atom_so_far pending atom) }
{
    let Pending {
        sum,
        product,
        minus,
    } = pending;
    match factored(alloc, product, minus, atom) {
        Ok(product) => added(alloc, sum, product),
        Err(error) => give_up(sum, error),
    }
}

/// A symbol is a whole atom, an array with a changed cell is none.
fn whole_symbol(
    alloc: Global,
    pending: Pending,
    array: ArrayTerm,
) -> Result<Option<Term>, AllocError>
    ensures { IfOk result (λ term. term ≡ symbol_so_far pending array) }
{
    match array {
        ArrayTerm::Sym(sym) => Ok(Some(whole_atom(alloc, pending, Term::Sym(sym))?)),
        other => refuse((other, pending)),
    }
}

fn whole_array(alloc: Global, slot: Slot, array: ArrayTerm) -> Result<Option<Term>, AllocError>
    ensures { IfOk result (λ term. term ≡ array_so_far slot array) }
{
    match slot {
        Slot::Atom(pending) => whole_symbol(alloc, pending, array),
        Slot::Put => refuse(array),
    }
}

/// The term, if it may end here.
fn whole_term(alloc: Global, state: State) -> Result<Option<Term>, AllocError>
    ensures { IfOk result (λ term. term ≡ term_so_far state) }
{
    match state {
        State::Product(sum, product) => Ok(Some(added(alloc, sum, product)?)),
        State::Array(slot, array) => whole_array(alloc, slot, array),
        other => refuse(other),
    }
}

/// The term, if nothing is open around it.
pub fn end_term(alloc: Global, stack: Stack, state: State) -> Result<Option<Term>, AllocError>
    ensures { IfOk result (λ term. term ≡ term_ended stack state) }
{
    let mut stack = stack;
    match stack.pop() {
        None => whole_term(alloc, state),
        Some(frame) => refuse((frame, state)),
    }
}

/// The formula behind all antecedents that are still open.
fn implied(alloc: Global, stack: Stack, formula: Formula) -> Result<Option<Formula>, AllocError>
    ensures { IfOk result (λ whole. whole ≡ implied_formula stack formula) }
{
    let mut stack = stack;
    let mut whole = formula;
    while let Some(frame) = stack.pop() {
        match frame {
            Frame::Antecedent(left) => whole = implication(alloc, left, whole)?,
            other => return refuse((other, whole)),
        }
    }
    Ok(Some(whole))
}

/// The formula that ends with a part, with all that stands before it.
fn end_part(
    alloc: Global,
    stack: Stack,
    before: Before,
    part: Formula,
) -> Result<Option<Formula>, AllocError>
    ensures { IfOk result (λ whole. whole ≡ implied_formula stack (either_formula before.or (joined_formula before.and (denied_formula before.nots part)))) }
{
    let Before { or, and, nots } = before;
    match conjoined(alloc, and, nots, part) {
        Ok(part) => {
            let whole = either(alloc, or, part)?;
            implied(alloc, stack, whole)
        }
        Err(error) => give_up(or, error),
    }
}

/// The formula that ends with a term on this frame, if it may end here.
fn end_frame(
    alloc: Global,
    stack: Stack,
    frame: Frame,
    right: Term,
) -> Result<Option<Formula>, AllocError>
    ensures { IfOk result (λ whole. whole ≡ relation_ended (frame ∷ stack) (Some right)) }
{
    match frame {
        Frame::Right(before, left, sign) => {
            match related(alloc, Relation::between(left, sign, right)) {
                Ok(part) => end_part(alloc, stack, before, part),
                Err(error) => give_up(before, error),
            }
        }
        other => refuse((other, right)),
    }
}

/// The formula with a relation on top, if it may end here.
fn end_relation(alloc: Global, stack: Stack, right: Term) -> Result<Option<Formula>, AllocError>
    ensures { IfOk result (λ whole. whole ≡ relation_ended stack (Some right)) }
{
    let mut stack = stack;
    match stack.pop() {
        Some(frame) => end_frame(alloc, stack, frame, right),
        None => refuse(right),
    }
}

/// The formula that ends with a term, if it may end here.
fn end_side(alloc: Global, stack: Stack, state: State) -> Result<Option<Formula>, AllocError>
    ensures { IfOk result (λ whole. whole ≡ relation_ended stack (term_so_far state)) }
{
    match whole_term(alloc, state)? {
        None => Ok(None),
        Some(right) => end_relation(alloc, stack, right),
    }
}

/// The formula, if it may end here.
pub fn end_formula(alloc: Global, stack: Stack, state: State) -> Result<Option<Formula>, AllocError>
    ensures { IfOk result (λ whole. whole ≡ formula_ended stack state) }
{
    match state {
        State::Conj(or, formula) => {
            let whole = either(alloc, or, formula)?;
            implied(alloc, stack, whole)
        }
        state => end_side(alloc, stack, state),
    }
}
