//! A token behind a term or a product.
ghost use Rattle.std.specs.Prelude.{◌≡◌, IfOk, List, ◌∷◌, Some, None, false, if◌then◌else◌};
ghost use Rattle.ac_formula_machine.specs.declared.machine_state.Adding.TheVariants as adding_variant;
ghost use Rattle.ac_formula_machine.specs.declared.machine_state.Frame.{Frame as ReadFrame};
ghost use Rattle.ac_formula_machine.specs.declared.machine_state.State.TheVariants as state_variant;
ghost use Rattle.ac_formula_machine.specs.declared.token_roles.IndexEnd.TheVariants as index_variant;
ghost use Rattle.ac_logic.specs.Patterns.{ReadOf, PutOf};
ghost use Rattle.ac_formula_printer.specs.FormulaText.{related as related_formula};
ghost use Rattle.ac_formula_machine.specs.FormulaMachine.{StepGives, index_ends, in_index, at_paren, at_bracket, at_comma, at_relation, term_ends, following, having, pending, fresh as fresh_pending, atom_read as atom_state, added as added_term, joined as joined_formula, denied as denied_formula};

use crate::building::{Cell, Relation, added, conjoined, put, read, related};
use crate::connectives::{atom_step, factor_in, follow};
use crate::machine_state::{Adding, Before, Frame, Pending, Slot, State};
use crate::refusal::{give_up, refuse};
use crate::stack::Stack;
use crate::token_roles::{
    IndexEnd, ProductSign, connective_in, index_end, is_close_bracket, is_close_paren, is_comma,
    product_sign, relation_in,
};
use ac_formula_printer::FormulaMark;
use ac_logic::{ArrayTerm, Formula, Term};
use std::alloc::{AllocError, Global};

fn cell_step(alloc: Global, pending: Pending, cell: Cell) -> Result<Option<State>, AllocError>
    ensures { IfOk result (λ next. next ≡ Some (atom_state pending (ReadOf cell.array cell.first cell.second))) }
{
    match read(alloc, cell) {
        Ok(atom) => atom_step(alloc, pending, atom),
        Err(error) => give_up(pending, error),
    }
}

/// An array with one index has it as its first, and 0 as its second.
fn vector_step(
    alloc: Global,
    pending: Pending,
    array: ArrayTerm,
    index: Term,
) -> Result<Option<State>, AllocError>
    ensures { IfOk result (λ next. (k : List ReadFrame) → StepGives k next (index_ends k pending array index index_variant.Bracket)) }
{
    cell_step(alloc, pending, Cell::of(array, index, Term::Num(0)))
}

/// What is behind the first index.
fn end_index(
    alloc: Global,
    stack: &mut Stack,
    pending: Pending,
    array: ArrayTerm,
    index: Term,
    mark: &FormulaMark,
) -> Result<Option<State>, AllocError>
    ensures { IfOk result (λ next. StepGives stack.new next (in_index stack.old pending array index mark.now)) }
{
    match index_end(mark) {
        IndexEnd::Bracket => vector_step(alloc, pending, array, index),
        IndexEnd::Comma => factor_in(stack, Frame::Second(pending, array, index)),
        IndexEnd::Other => refuse((pending, array, index)),
    }
}

fn put_step(alloc: Global, slot: Slot, cell: Cell, value: Term) -> Result<Option<State>, AllocError>
    ensures { IfOk result (λ next. next ≡ Some (state_variant.Array slot (PutOf cell.array cell.first cell.second value))) }
{
    match put(alloc, cell, value) {
        Ok(array) => Ok(Some(State::Array(slot, array))),
        Err(error) => give_up(slot, error),
    }
}

fn end_paren(
    alloc: Global,
    pending: Pending,
    term: Term,
    mark: &FormulaMark,
) -> Result<Option<State>, AllocError>
    ensures { IfOk result (λ next. (k : List ReadFrame) → StepGives k next (at_paren (k, atom_state pending term) mark.now)) }
{
    if is_close_paren(mark) {
        atom_step(alloc, pending, term)
    } else {
        refuse((pending, term))
    }
}

fn end_second(
    alloc: Global,
    pending: Pending,
    cell: Cell,
    mark: &FormulaMark,
) -> Result<Option<State>, AllocError>
    ensures { IfOk result (λ next. (k : List ReadFrame) → StepGives k next (at_bracket (k, atom_state pending (ReadOf cell.array cell.first cell.second)) mark.now)) }
{
    if is_close_bracket(mark) {
        cell_step(alloc, pending, cell)
    } else {
        refuse((pending, cell))
    }
}

fn end_put_value(
    alloc: Global,
    slot: Slot,
    cell: Cell,
    value: Term,
    mark: &FormulaMark,
) -> Result<Option<State>, AllocError>
    ensures { IfOk result (λ next. (k : List ReadFrame) → StepGives k next (at_paren (k, state_variant.Array slot (PutOf cell.array cell.first cell.second value)) mark.now)) }
{
    if is_close_paren(mark) {
        put_step(alloc, slot, cell, value)
    } else {
        refuse((slot, cell, value))
    }
}

/// The next part of a `put`, behind a comma.
fn next_part(
    stack: &mut Stack,
    frame: Frame,
    mark: &FormulaMark,
) -> Result<Option<State>, AllocError>
    ensures { IfOk result (λ next. StepGives stack.new next (at_comma (frame ∷ stack.old, state_variant.Factor fresh_pending) mark.now)) }
{
    if is_comma(mark) {
        factor_in(stack, frame)
    } else {
        refuse(frame)
    }
}

fn end_left(
    stack: &mut Stack,
    before: Before,
    left: Term,
    mark: &FormulaMark,
) -> Result<Option<State>, AllocError>
    ensures { IfOk result (λ next. StepGives stack.new next (at_relation stack.old before left mark.now)) }
{
    match relation_in(mark) {
        None => refuse((before, left)),
        Some(relation) => factor_in(stack, Frame::Right(before, left, relation)),
    }
}

fn end_right(
    alloc: Global,
    stack: &mut Stack,
    before: Before,
    part: Formula,
    mark: &FormulaMark,
) -> Result<Option<State>, AllocError>
    ensures { IfOk result (λ next. StepGives stack.new next (following stack.old before.or (joined_formula before.and (denied_formula before.nots part)) mark.now)) }
{
    let Before { or, and, nots } = before;
    match conjoined(alloc, and, nots, part) {
        Ok(conjunction) => follow(alloc, stack, or, conjunction, connective_in(mark)),
        Err(error) => give_up(or, error),
    }
}

fn end_relation(
    alloc: Global,
    stack: &mut Stack,
    before: Before,
    relation: Relation,
    mark: &FormulaMark,
) -> Result<Option<State>, AllocError>
    ensures { IfOk result (λ next. StepGives stack.new next (following stack.old before.or (joined_formula before.and (denied_formula before.nots (related_formula relation.sign relation.left relation.right))) mark.now)) }
{
    match related(alloc, relation) {
        Ok(part) => end_right(alloc, stack, before, part, mark),
        Err(error) => give_up(before, error),
    }
}

/// A token behind a term on this frame.
fn end_frame(
    alloc: Global,
    stack: &mut Stack,
    frame: Frame,
    term: Term,
    mark: &FormulaMark,
) -> Result<Option<State>, AllocError>
    ensures { IfOk result (λ next. StepGives stack.new next (term_ends (frame ∷ stack.old) term mark.now)) }
{
    match frame {
        Frame::Paren(pending) => end_paren(alloc, pending, term, mark),
        Frame::First(pending, array) => end_index(alloc, stack, pending, array, term, mark),
        Frame::Second(pending, array, first) => {
            end_second(alloc, pending, Cell::of(array, first, term), mark)
        }
        Frame::PutFirst(slot, array) => {
            next_part(stack, Frame::PutSecond(slot, array, term), mark)
        }
        Frame::PutSecond(slot, array, first) => {
            next_part(stack, Frame::PutValue(slot, array, first, term), mark)
        }
        Frame::PutValue(slot, array, first, second) => {
            end_put_value(alloc, slot, Cell::of(array, first, second), term, mark)
        }
        Frame::Left(before) => end_left(stack, before, term, mark),
        Frame::Right(before, left, sign) => {
            end_relation(
                alloc,
                stack,
                before,
                Relation::between(left, sign, term),
                mark,
            )
        }
        other => refuse((other, term)),
    }
}

/// A token behind a whole term.
fn end_term(
    alloc: Global,
    stack: &mut Stack,
    term: Term,
    mark: &FormulaMark,
) -> Result<Option<State>, AllocError>
    ensures { IfOk result (λ next. StepGives stack.new next (term_ends stack.old term mark.now)) }
{
    match stack.pop() {
        None => refuse(term),
        Some(frame) => end_frame(alloc, stack, frame, term, mark),
    }
}

fn plus_step(alloc: Global, sum: Adding, product: Term) -> Result<Option<State>, AllocError>
    ensures { IfOk result (λ next. next ≡ Some (state_variant.Factor (pending (adding_variant.Plus (added_term sum product)) None false))) }
{
    let left = added(alloc, sum, product)?;
    Ok(Some(State::Factor(Pending {
        sum: Adding::Plus(left),
        product: None,
        minus: false,
    })))
}

fn minus_step(alloc: Global, sum: Adding, product: Term) -> Result<Option<State>, AllocError>
    ensures { IfOk result (λ next. next ≡ Some (state_variant.Factor (pending (adding_variant.Minus (added_term sum product)) None false))) }
{
    let left = added(alloc, sum, product)?;
    Ok(Some(State::Factor(Pending {
        sum: Adding::Minus(left),
        product: None,
        minus: false,
    })))
}

fn end_product(
    alloc: Global,
    stack: &mut Stack,
    sum: Adding,
    product: Term,
    mark: &FormulaMark,
) -> Result<Option<State>, AllocError>
    ensures { IfOk result (λ next. StepGives stack.new next (term_ends stack.old (added_term sum product) mark.now)) }
{
    let whole = added(alloc, sum, product)?;
    end_term(alloc, stack, whole, mark)
}

/// A token behind a product.
pub fn step_product(
    alloc: Global,
    stack: &mut Stack,
    sum: Adding,
    product: Term,
    mark: &FormulaMark,
) -> Result<Option<State>, AllocError>
    ensures { IfOk result (λ next. StepGives stack.new next (having stack.old sum product mark.now)) }
{
    match product_sign(mark) {
        ProductSign::Plus => plus_step(alloc, sum, product),
        ProductSign::Minus => minus_step(alloc, sum, product),
        ProductSign::Star => Ok(Some(State::Factor(Pending {
            sum,
            product: Some(product),
            minus: false,
        }))),
        ProductSign::Other => end_product(alloc, stack, sum, product, mark),
    }
}
