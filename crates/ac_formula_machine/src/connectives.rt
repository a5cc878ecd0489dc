//! What a connective or a closing brace behind a conjunction makes of the stack.
ghost use Rattle.std.specs.Prelude.{◌≡◌, IfOk, List, ◌∷◌, Some};
ghost use Rattle.ac_formula_machine.specs.declared.machine_state.Frame.{Frame as ReadFrame};
ghost use Rattle.ac_formula_machine.specs.declared.machine_state.State.TheVariants as state_variant;
ghost use Rattle.ac_formula_machine.specs.declared.token_roles.Connective.TheVariants as link_variant;
ghost use Rattle.ac_logic.specs.Patterns.{Every, Labelled};
ghost use Rattle.ac_formula_machine.specs.FormulaMachine.{StepGives, closed, connected, fresh as fresh_pending, unbound as unbound_before, part_read as part_state, atom_read as atom_state};

use crate::building::{conjoined, either, factored, fresh, implication, unbound};
use crate::machine_state::{Before, Frame, Pending, State};
use crate::refusal::{give_up, refuse};
use crate::stack::Stack;
use crate::token_roles::Connective;
use ac_logic::{Formula, Label, Term};
use ac_shared::Shared;
use std::alloc::{AllocError, Global};

/// A frame is opened, and a factor is due in it.
pub(crate) fn factor_in(stack: &mut Stack, frame: Frame) -> Result<Option<State>, AllocError>
    ensures { IfOk result (λ next. StepGives stack.new next (Some (frame ∷ stack.old, state_variant.Factor fresh_pending))) }
{
    stack.push(frame)?;
    Ok(Some(State::Factor(fresh())))
}

/// A frame is opened, and a part is due in it.
pub fn part_in(stack: &mut Stack, frame: Frame) -> Result<Option<State>, AllocError>
    ensures { IfOk result (λ next. StepGives stack.new next (Some (frame ∷ stack.old, state_variant.Part unbound_before))) }
{
    stack.push(frame)?;
    Ok(Some(State::Part(unbound())))
}

/// The state when a part has come.
pub fn part_step(alloc: Global, before: Before, part: Formula) -> Result<Option<State>, AllocError>
    ensures { IfOk result (λ next. next ≡ Some (part_state before part)) }
{
    let Before { or, and, nots } = before;
    match conjoined(alloc, and, nots, part) {
        Ok(conjunction) => Ok(Some(State::Conj(or, conjunction))),
        Err(error) => give_up(or, error),
    }
}

/// The state when an atom has come.
pub(crate) fn atom_step(
    alloc: Global,
    pending: Pending,
    atom: Term,
) -> Result<Option<State>, AllocError>
    ensures { IfOk result (λ next. next ≡ Some (atom_state pending atom)) }
{
    let Pending {
        sum,
        product,
        minus,
    } = pending;
    match factored(alloc, product, minus, atom) {
        Ok(product) => Ok(Some(State::Product(sum, product))),
        Err(error) => give_up(sum, error),
    }
}

fn all_step(alloc: Global, before: Before, body: Formula) -> Result<Option<State>, AllocError>
    ensures { IfOk result (λ next. next ≡ Some (part_state before (Every body))) }
{
    match Shared::new(alloc, body) {
        Ok(body) => part_step(alloc, before, Formula::All(body)),
        Err(error) => give_up(before, error),
    }
}

fn label_step(
    alloc: Global,
    before: Before,
    label: Label,
    body: Formula,
) -> Result<Option<State>, AllocError>
    ensures { IfOk result (λ next. next ≡ Some (part_state before (Labelled label body))) }
{
    match Shared::new(alloc, body) {
        Ok(body) => part_step(alloc, before, Formula::Lab(label, body)),
        Err(error) => give_up(before, error),
    }
}

/// A brace that closes.
fn close(alloc: Global, stack: &mut Stack, formula: Formula) -> Result<Option<State>, AllocError>
    ensures { IfOk result (λ next. StepGives stack.new next (closed stack.old formula)) }
{
    let mut whole = formula;
    while let Some(frame) = stack.pop() {
        match frame {
            Frame::Antecedent(left) => whole = implication(alloc, left, whole)?,
            Frame::Braces(before) => return part_step(alloc, before, whole),
            Frame::All(before, name) => {
                drop(name);
                return all_step(alloc, before, whole);
            }
            Frame::Lab(before, label) => return label_step(alloc, before, label, whole),
            other => return refuse((other, whole)),
        }
    }
    refuse(whole)
}

fn or_step(
    alloc: Global,
    or: Option<Formula>,
    formula: Formula,
) -> Result<Option<State>, AllocError>
    ensures { IfOk result (λ next. (k : List ReadFrame) → StepGives k next (connected k or formula link_variant.Or)) }
{
    let whole = either(alloc, or, formula)?;
    Ok(Some(State::Part(Before {
        or: Some(whole),
        and: None,
        nots: 0,
    })))
}

fn implies_step(
    alloc: Global,
    stack: &mut Stack,
    or: Option<Formula>,
    formula: Formula,
) -> Result<Option<State>, AllocError>
    ensures { IfOk result (λ next. StepGives stack.new next (connected stack.old or formula link_variant.Implies)) }
{
    let whole = either(alloc, or, formula)?;
    part_in(stack, Frame::Antecedent(whole))
}

fn close_step(
    alloc: Global,
    stack: &mut Stack,
    or: Option<Formula>,
    formula: Formula,
) -> Result<Option<State>, AllocError>
    ensures { IfOk result (λ next. StepGives stack.new next (connected stack.old or formula link_variant.Close)) }
{
    let whole = either(alloc, or, formula)?;
    close(alloc, stack, whole)
}

/// A connective behind a conjunction.
pub fn follow(
    alloc: Global,
    stack: &mut Stack,
    or: Option<Formula>,
    formula: Formula,
    connective: Connective,
) -> Result<Option<State>, AllocError>
    ensures { IfOk result (λ next. StepGives stack.new next (connected stack.old or formula connective)) }
{
    match connective {
        Connective::And => Ok(Some(State::Part(Before {
            or,
            and: Some(formula),
            nots: 0,
        }))),
        Connective::Or => or_step(alloc, or, formula),
        Connective::Implies => implies_step(alloc, stack, or, formula),
        Connective::Close => close_step(alloc, stack, or, formula),
        Connective::Other => refuse((or, formula)),
    }
}
