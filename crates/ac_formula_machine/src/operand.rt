//! A token where a factor or an array is due, and one behind an array.
ghost use Rattle.std.specs.Prelude.{◌≡◌, IfOk, List, ◌∷◌, Some, None, if◌then◌else◌};
ghost use Rattle.ac_formula_machine.specs.declared.machine_state.Frame.{Frame as ReadFrame};
ghost use Rattle.ac_logic.specs.Patterns.{Array};
ghost use Rattle.ac_formula_machine.specs.FormulaMachine.{names_of, StepGives, array_begins, named_begins, word_begins, number_begins, place_in, wanting, bound_read, at_minus, fresh_read, put_begins, symbol_ends, array_named, array_read, number_read as number_state};

use crate::building::{factored, multiplied};
use crate::connectives::{atom_step, factor_in};
use crate::machine_state::{Frame, Pending, Slot, State};
use crate::numbers::{number_in, short_in};
use crate::refusal::{give_up, refuse};
use crate::stack::Stack;
use crate::term_end::step_product;
use crate::token_roles::{
    ArrayWord, FactorStart, array_word, factor_start, is_comma, is_open_bracket, name_in,
};
use ac_formula_printer::FormulaMark;
use ac_logic::{ArrayTerm, Sym, Term};
use ac_tree::Name;
use std::alloc::{AllocError, Global};

fn word_state(slot: Slot, word: ArrayWord) -> Option<State>
    ensures { (k : List ReadFrame) → StepGives k result (word_begins k slot word) }
{
    match word {
        ArrayWord::Init => Some(State::InitWord(slot)),
        ArrayWord::Put => Some(State::PutWord(slot)),
        ArrayWord::Other => {
            drop(slot);
            None
        }
    }
}

fn array_state(slot: Slot, name: Option<Name>, mark: &FormulaMark) -> Option<State>
    ensures { (k : List ReadFrame) → StepGives k result (named_begins k slot mark.now name) }
{
    match name {
        Some(name) => Some(State::Array(slot, ArrayTerm::Sym(Sym::Value(name)))),
        None => word_state(slot, array_word(mark)),
    }
}

/// A token that begins an array.
pub fn begin_array(slot: Slot, mark: &FormulaMark) -> Result<Option<State>, AllocError>
    ensures { IfOk result (λ next. (k : List ReadFrame) → StepGives k next (array_begins k slot mark.now)) }
{
    match name_in(mark) {
        Ok(name) => Ok(array_state(slot, name, mark)),
        Err(error) => give_up(slot, error),
    }
}

/// The state when a number has come, with its sign.
fn number_read(alloc: Global, pending: Pending, number: i64) -> Result<Option<State>, AllocError>
    ensures { IfOk result (λ next. next ≡ Some (number_state pending number)) }
{
    let Pending { sum, product, .. } = pending;
    match multiplied(alloc, product, Term::Num(number)) {
        Ok(product) => Ok(Some(State::Product(sum, product))),
        Err(error) => give_up(sum, error),
    }
}

fn number_step(
    alloc: Global,
    pending: Pending,
    mark: &FormulaMark,
) -> Result<Option<State>, AllocError>
    ensures { IfOk result (λ next. (k : List ReadFrame) → StepGives k next (number_begins k pending mark.now)) }
{
    match number_in(pending.minus, mark) {
        None => refuse(pending),
        Some(number) => number_read(alloc, pending, number),
    }
}

/// The place of the bound name that a token is, if it stands in an `all` of that name.
fn bound_place(stack: &Stack, mark: &FormulaMark) -> Result<Option<u32>, AllocError>
    ensures { IfOk result (λ place. place ≡ place_in (names_of stack.now) mark.now) }
{
    match mark {
        FormulaMark::Bound(name) => stack.place_of(name),
        _ => Ok(None),
    }
}

fn bound_step(
    alloc: Global,
    stack: &Stack,
    pending: Pending,
    mark: &FormulaMark,
) -> Result<Option<State>, AllocError>
    ensures { IfOk result (λ next. StepGives stack.now next (bound_read stack.now pending mark.now)) }
{
    match bound_place(stack, mark) {
        Ok(None) => refuse(pending),
        Ok(Some(place)) => atom_step(alloc, pending, Term::Bound(place)),
        Err(error) => give_up(pending, error),
    }
}

fn negative_step(before: Pending) -> Option<State>
    ensures { (k : List ReadFrame) → StepGives k result (at_minus k before before.minus) }
{
    if before.minus {
        drop(before);
        return None;
    }
    Some(State::Factor(Pending {
        sum: before.sum,
        product: before.product,
        minus: true,
    }))
}

/// A token where a factor is due.
pub fn step_factor(
    alloc: Global,
    stack: &mut Stack,
    pending: Pending,
    mark: &FormulaMark,
) -> Result<Option<State>, AllocError>
    ensures { IfOk result (λ next. StepGives stack.new next (wanting stack.old pending mark.now)) }
{
    match factor_start(mark) {
        FactorStart::Literal => number_step(alloc, pending, mark),
        FactorStart::Bound => bound_step(alloc, stack, pending, mark),
        FactorStart::Hash => Ok(Some(State::Fresh(pending))),
        FactorStart::Minus => Ok(negative_step(pending)),
        FactorStart::Paren => factor_in(stack, Frame::Paren(pending)),
        FactorStart::Array => begin_array(Slot::Atom(pending), mark),
    }
}

/// The literal behind `#`.
pub fn step_fresh(
    alloc: Global,
    pending: Pending,
    mark: &FormulaMark,
) -> Result<Option<State>, AllocError>
    ensures { IfOk result (λ next. (k : List ReadFrame) → StepGives k next (fresh_read k pending mark.now)) }
{
    match short_in(mark) {
        None => refuse(pending),
        Some(number) => atom_step(alloc, pending, Term::Sym(Sym::Fresh(number))),
    }
}

/// The array of the `put` that this frame may be is read.
fn put_behind(
    stack: &mut Stack,
    frame: Frame,
    array: ArrayTerm,
) -> Result<Option<State>, AllocError>
    ensures { IfOk result (λ next. StepGives stack.new next (put_begins (frame ∷ stack.old) array)) }
{
    match frame {
        Frame::Put(slot) => factor_in(stack, Frame::PutFirst(slot, array)),
        other => refuse((other, array)),
    }
}

/// The array of a `put` is read.
fn put_array(stack: &mut Stack, array: ArrayTerm) -> Result<Option<State>, AllocError>
    ensures { IfOk result (λ next. StepGives stack.new next (put_begins stack.old array)) }
{
    match stack.pop() {
        Some(frame) => put_behind(stack, frame, array),
        None => refuse(array),
    }
}

fn end_put_array(
    stack: &mut Stack,
    array: ArrayTerm,
    goes_on: bool,
) -> Result<Option<State>, AllocError>
    ensures { IfOk result (λ next. StepGives stack.new next (if goes_on then put_begins stack.old array else None)) }
{
    if goes_on {
        put_array(stack, array)
    } else {
        refuse(array)
    }
}

fn symbol_step(
    alloc: Global,
    stack: &mut Stack,
    pending: Pending,
    sym: Sym,
    mark: &FormulaMark,
) -> Result<Option<State>, AllocError>
    ensures { IfOk result (λ next. StepGives stack.new next (symbol_ends stack.old pending (Array sym) mark.now)) }
{
    let Pending {
        sum,
        product,
        minus,
    } = pending;
    match factored(alloc, product, minus, Term::Sym(sym)) {
        Ok(product) => step_product(alloc, stack, sum, product, mark),
        Err(error) => give_up(sum, error),
    }
}

/// A token behind an array that may be a symbol alone.
fn end_symbol(
    alloc: Global,
    stack: &mut Stack,
    pending: Pending,
    array: ArrayTerm,
    mark: &FormulaMark,
) -> Result<Option<State>, AllocError>
    ensures { IfOk result (λ next. StepGives stack.new next (symbol_ends stack.old pending array mark.now)) }
{
    match array {
        ArrayTerm::Sym(sym) => symbol_step(alloc, stack, pending, sym, mark),
        other => refuse((other, pending)),
    }
}

fn atom_array(
    alloc: Global,
    stack: &mut Stack,
    pending: Pending,
    array: ArrayTerm,
    mark: &FormulaMark,
) -> Result<Option<State>, AllocError>
    ensures { IfOk result (λ next. StepGives stack.new next (array_named stack.old pending array mark.now)) }
{
    if is_open_bracket(mark) {
        factor_in(stack, Frame::First(pending, array))
    } else {
        end_symbol(alloc, stack, pending, array, mark)
    }
}

/// A token behind an array.
pub fn step_array(
    alloc: Global,
    stack: &mut Stack,
    slot: Slot,
    array: ArrayTerm,
    mark: &FormulaMark,
) -> Result<Option<State>, AllocError>
    ensures { IfOk result (λ next. StepGives stack.new next (array_read stack.old slot array mark.now)) }
{
    match slot {
        Slot::Put => end_put_array(stack, array, is_comma(mark)),
        Slot::Atom(pending) => atom_array(alloc, stack, pending, array, mark),
    }
}
