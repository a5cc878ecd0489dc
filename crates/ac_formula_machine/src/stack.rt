//! What stands open around what is being read.
ghost use Rattle.std.specs.Prelude.{◌≡◌, [], ◌∷◌, reverse, OnOk, IfOk, MatchOption};
ghost use Rattle.ac_formula_machine.specs.declared.machine_state.Frame.TheVariants as frame_variant;
ghost use Rattle.ac_formula_printer.specs.FormulaText.{Names, place_of as place_in_names, one_further};
ghost use Rattle.ac_formula_machine.specs.FormulaMachine.{names_of};

use crate::machine_state::{Before, Frame};
use crate::refusal::give_up;
use ac_tree::Name;
use std::alloc::{AllocError, Global};
use std::marker::Model;

/// What stands open, which contracts see as the list from the innermost out. The names of the `all`s among it stand in a list
/// of their own, so that a bound name is looked for among these alone.
#[derive(Drop)]
pub struct Stack {
    frames: Vec<Frame>,
    names: Vec<Name>,
}

impl Model for Stack {
    ghost use Rattle.std.specs.Prelude.{◌≡◌, List, reverse};
    ghost use Rattle.std.specs.Coded.{codes};
    ghost use Rattle.ac_logic.specs.contracts.formula.Formula as formula;
    ghost use Rattle.ac_logic.specs.contracts.formula.Term as term;
    ghost use Rattle.ac_logic.specs.contracts.formula.ArrayTerm as array;
    ghost use Rattle.ac_formula_machine.specs.declared.machine_state.Frame.{Frame};
    ghost use Rattle.ac_formula_machine.specs.FormulaMachine.{names_of};

    ghost Value = { List Frame };

    ghost coded = { Prim.hlevel (codes, formula.the_row.coded, term.the_row.coded, array.the_row.coded) };

    ghost view = { λ s. reverse s.frames.items };

    ghost invariant = { λ s. reverse s.names.items ≡ names_of (reverse s.frames.items) };
}

impl Stack {
    /// Nothing stands open.
    pub fn new(alloc: Global) -> Stack
        ensures { result ≡ [] }
    {
        Stack {
            frames: Vec::new(alloc),
            names: Vec::new(alloc),
        }
    }

    /// Opens one more.
    pub fn push(&mut self, frame: Frame) -> Result<(), AllocError>
        ensures { OnOk result (self.new ≡ frame ∷ self.old) }
    {
        match frame {
            Frame::All(before, name) => self.push_all(before, name),
            other => {
                self.frames.push(other)?;
                Ok(())
            }
        }
    }

    fn push_all(&mut self, before: Before, name: Name) -> Result<(), AllocError>
        ensures { OnOk result (self.new ≡ frame_variant.All before name ∷ self.old) }
    {
        let copy = match name.clone() {
            Ok(copy) => copy,
            Err(error) => return give_up((before, name), error),
        };
        if self.frames.push(Frame::All(before, name)).is_err() {
            drop(copy);
            return Err(AllocError);
        }
        if self.names.push(copy).is_err() {
            drop(self.frames.pop());
            return Err(AllocError);
        }
        Ok(())
    }

    /// Takes the innermost off.
    pub fn pop(&mut self) -> Option<Frame>
        ensures { MatchOption result ((self.old ≡ []) × (self.new ≡ [])) (λ top. self.old ≡ top ∷ self.new) }
    {
        match self.frames.pop() {
            Some(Frame::All(before, name)) => {
                drop(self.names.pop());
                Some(Frame::All(before, name))
            }
            other => other,
        }
    }

    /// The place of the innermost `all` with a name, from the innermost as 0.
    pub fn place_of(&self, name: &Name) -> Result<Option<u32>, AllocError>
        ensures { IfOk result (λ place. place ≡ place_in_names name.now (names_of self.now)) }
    {
        find_name(self.names.as_slice(), name)
    }
}

/// The place of a name among names, from the last as 0.
fn find_name(names: &[Name], name: &Name) -> Result<Option<u32>, AllocError>
    ensures { IfOk result (λ place. place ≡ place_in_names name.now (reverse names.now)) }
{
    let mut place = None;
    for bound in names {
        place = place_within(place, bound, name)?;
    }
    Ok(place)
}

/// The place of a name when one more name stands behind.
fn place_within(place: Option<u32>, bound: &Name, name: &Name) -> Result<Option<u32>, AllocError>
    ensures { IfOk result (λ next. (e : Names) → place ≡ place_in_names name.now e → next ≡ place_in_names name.now (bound.now ∷ e)) }
{
    if name.is(bound) {
        Ok(Some(0))
    } else {
        further(place)
    }
}

fn further(place: Option<u32>) -> Result<Option<u32>, AllocError>
    ensures { IfOk result (λ next. next ≡ one_further place) }
{
    match place {
        None => Ok(None),
        Some(place) => Ok(Some(place.checked_add(1).ok_or(AllocError)?)),
    }
}
