//! Reading formula text token by token, with a stack of what stands around.
ghost use Rattle.std.specs.Prelude.{◌≡◌, suc, IfOk, List, ◌∷◌, Some};
ghost use Rattle.ac_logic.specs.declared.formula.Sym.TheVariants.{Init};
ghost use Rattle.ac_formula_machine.specs.declared.machine_state.Frame.{Frame as ReadFrame};
ghost use Rattle.ac_formula_machine.specs.declared.machine_state.Frame.TheVariants as frame_variant;
ghost use Rattle.ac_formula_machine.specs.declared.machine_state.State.TheVariants as state_variant;
ghost use Rattle.ac_logic.specs.Patterns.{Array};
ghost use Rattle.ac_formula_printer.specs.FormulaText.{label_kind_of as kind_of_mark, kind_named as kind_by_name, name_kinds};
ghost use Rattle.ac_formula_machine.specs.FormulaMachine.{before as before_of, StepGives, stepped, wanting, part_begins, fresh as fresh_pending, unbound as unbound_before, kind_read, node_named, init_named, all_named, at_open_brace, at_open_paren, at_paren};

use ac_formula_machine::{
    Before, Frame, PartStart, Slot, Stack, State, begin_array, bound_in, connective_in, follow,
    fresh, give_up, is_close_paren, is_open_brace, is_open_paren, name_in, part_in, part_start,
    part_step, refuse, short_in, step_array, step_factor, step_fresh, step_product,
};
use ac_formula_printer::FormulaMark;
use ac_logic::{ArrayTerm, Formula, Label, LabelKind, Sym, Term};
use ac_tree::{Name, NodeId};
use std::alloc::{AllocError, Global};

fn not_step(before: Before) -> Result<Option<State>, AllocError>
    ensures { IfOk result (λ next. next ≡ Some (state_variant.Part (before_of before.or before.and (suc before.nots)))) }
{
    let Before { or, and, nots } = before;
    match nots.checked_add(1) {
        Some(nots) => Ok(Some(State::Part(Before { or, and, nots }))),
        None => give_up((or, and), AllocError),
    }
}

fn left_step(
    alloc: Global,
    stack: &mut Stack,
    before: Before,
    mark: &FormulaMark,
) -> Result<Option<State>, AllocError>
    ensures { IfOk result (λ next. StepGives stack.new next (wanting (frame_variant.Left before ∷ stack.old) fresh_pending mark.now)) }
{
    stack.push(Frame::Left(before))?;
    step_factor(alloc, stack, fresh(), mark)
}

/// A token where a part is due.
fn step_part(
    alloc: Global,
    stack: &mut Stack,
    before: Before,
    mark: &FormulaMark,
) -> Result<Option<State>, AllocError>
    ensures { IfOk result (λ next. StepGives stack.new next (part_begins stack.old before mark.now)) }
{
    match part_start(mark) {
        PartStart::True => part_step(alloc, before, Formula::True),
        PartStart::False => part_step(alloc, before, Formula::False),
        PartStart::Not => not_step(before),
        PartStart::Brace => part_in(stack, Frame::Braces(before)),
        PartStart::All => Ok(Some(State::AllWord(before))),
        PartStart::Label => Ok(Some(State::AtSign(before))),
        PartStart::Term => left_step(alloc, stack, before, mark),
    }
}

/// The kind that a token names.
fn label_kind_of(mark: &FormulaMark) -> Option<LabelKind>
    ensures { result ≡ kind_of_mark mark.now }
{
    match mark {
        FormulaMark::Name(name) => kind_named(name.text()),
        FormulaMark::Use => Some(LabelKind::Need),
        _ => None,
    }
}

fn kind_named(word: &str) -> Option<LabelKind>
    ensures { result ≡ kind_by_name name_kinds word.now }
{
    let kinds = [
        LabelKind::Range,
        LabelKind::Header,
        LabelKind::Exit,
        LabelKind::Invariant,
        LabelKind::Assumed,
        LabelKind::Test,
        LabelKind::Denied,
        LabelKind::Guard,
        LabelKind::Set,
        LabelKind::Entry,
        LabelKind::Keep,
        LabelKind::Barrier,
    ];
    kind_among(&kinds, word)
}

/// The first of the kinds that has this word.
fn kind_among(kinds: &[LabelKind], word: &str) -> Option<LabelKind>
    ensures { result ≡ kind_by_name kinds.now word.now }
{
    match kinds {
        [] => None,
        [kind, rest @ ..] => {
            if kind.text() == word {
                Some(*kind)
            } else {
                kind_among(rest, word)
            }
        }
    }
}

/// The kind behind `@`.
fn step_kind(before: Before, mark: &FormulaMark) -> Result<Option<State>, AllocError>
    ensures { IfOk result (λ next. (k : List ReadFrame) → StepGives k next (kind_read k before mark.now)) }
{
    match label_kind_of(mark) {
        None => refuse(before),
        Some(kind) => Ok(Some(State::AtKind(before, kind))),
    }
}

/// The literal behind a kind.
fn step_node(
    before: Before,
    kind: LabelKind,
    mark: &FormulaMark,
) -> Result<Option<State>, AllocError>
    ensures { IfOk result (λ next. (k : List ReadFrame) → StepGives k next (node_named k before kind mark.now)) }
{
    match short_in(mark) {
        None => refuse(before),
        Some(number) => Ok(Some(State::AtLabel(
            before,
            Label {
                kind,
                node: NodeId(number),
            },
        ))),
    }
}

/// The brace behind what stands before a body.
fn open_body(
    stack: &mut Stack,
    frame: Frame,
    mark: &FormulaMark,
) -> Result<Option<State>, AllocError>
    ensures { IfOk result (λ next. StepGives stack.new next (at_open_brace (frame ∷ stack.old, state_variant.Part unbound_before) mark.now)) }
{
    if is_open_brace(mark) {
        part_in(stack, frame)
    } else {
        refuse(frame)
    }
}

/// The parenthesis behind `put`.
fn open_put(stack: &mut Stack, slot: Slot, mark: &FormulaMark) -> Result<Option<State>, AllocError>
    ensures { IfOk result (λ next. StepGives stack.new next (at_open_paren (frame_variant.Put slot ∷ stack.old, state_variant.ArrayDue) mark.now)) }
{
    if !is_open_paren(mark) {
        return refuse(slot);
    }
    stack.push(Frame::Put(slot))?;
    Ok(Some(State::ArrayDue))
}

/// The parenthesis behind `init`.
fn open_init(slot: Slot, mark: &FormulaMark) -> Result<Option<State>, AllocError>
    ensures { IfOk result (λ next. (k : List ReadFrame) → StepGives k next (at_open_paren (k, state_variant.InitOpen slot) mark.now)) }
{
    if is_open_paren(mark) {
        Ok(Some(State::InitOpen(slot)))
    } else {
        refuse(slot)
    }
}

/// The name behind `init (`.
fn name_init(slot: Slot, mark: &FormulaMark) -> Result<Option<State>, AllocError>
    ensures { IfOk result (λ next. (k : List ReadFrame) → StepGives k next (init_named k slot mark.now)) }
{
    match name_in(mark) {
        Ok(Some(name)) => Ok(Some(State::InitName(slot, name))),
        Ok(None) => refuse(slot),
        Err(error) => give_up(slot, error),
    }
}

/// The parenthesis behind the name of an `init`.
fn close_init(slot: Slot, name: Name, mark: &FormulaMark) -> Result<Option<State>, AllocError>
    ensures { IfOk result (λ next. (k : List ReadFrame) → StepGives k next (at_paren (k, state_variant.Array slot (Array (Init name))) mark.now)) }
{
    if is_close_paren(mark) {
        Ok(Some(State::Array(slot, ArrayTerm::Sym(Sym::Init(name)))))
    } else {
        refuse((slot, name))
    }
}

/// The bound name behind `all`.
fn name_all(before: Before, mark: &FormulaMark) -> Result<Option<State>, AllocError>
    ensures { IfOk result (λ next. (k : List ReadFrame) → StepGives k next (all_named k before mark.now)) }
{
    match bound_in(mark) {
        Ok(Some(name)) => Ok(Some(State::AllName(before, name))),
        Ok(None) => refuse(before),
        Err(error) => give_up(before, error),
    }
}

/// One token. None: nothing goes on with it.
pub fn step(
    alloc: Global,
    stack: &mut Stack,
    state: State,
    mark: &FormulaMark,
) -> Result<Option<State>, AllocError>
    ensures { IfOk result (λ next. StepGives stack.new next (stepped stack.old state mark.now)) }
{
    match state {
        State::Factor(pending) => step_factor(alloc, stack, pending, mark),
        State::Fresh(pending) => step_fresh(alloc, pending, mark),
        State::InitWord(slot) => open_init(slot, mark),
        State::InitOpen(slot) => name_init(slot, mark),
        State::InitName(slot, name) => close_init(slot, name, mark),
        State::PutWord(slot) => open_put(stack, slot, mark),
        State::ArrayDue => begin_array(Slot::Put, mark),
        State::Array(slot, array) => step_array(alloc, stack, slot, array, mark),
        State::Product(sum, product) => step_product(alloc, stack, sum, product, mark),
        State::Part(before) => step_part(alloc, stack, before, mark),
        State::AllWord(before) => name_all(before, mark),
        State::AllName(before, name) => open_body(stack, Frame::All(before, name), mark),
        State::AtSign(before) => step_kind(before, mark),
        State::AtKind(before, kind) => step_node(before, kind, mark),
        State::AtLabel(before, label) => open_body(stack, Frame::Lab(before, label), mark),
        State::Conj(or, formula) => follow(alloc, stack, or, formula, connective_in(mark)),
    }
}
