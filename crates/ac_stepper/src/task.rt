//! What each task changes.
ghost use Rattle.std.specs.Prelude.{◌≡◌, [], pos, ◌+ℤ◌, int_le};
ghost use Rattle.ac_run.specs.Memory.{number_at};
ghost use Rattle.ac_evaluation.specs.Parts.{Makes};
ghost use Rattle.ac_run.specs.Run.{Compare, Advance, step_task};
ghost use Rattle.ac_stepper.specs.Numbers.{numbers_of_task};
ghost use Rattle.ac_stepper.specs.Tasks.{first_of};
ghost use Rattle.ac_stepper.specs.Changes.{Plans};

use crate::change::{Change, enters_quietly, stops, writes_scalar};
use crate::fault::StepFault;
use crate::pending::Pending;
use crate::statement::statement;
use ac_evaluation::{Stop, Store, scalar};
use ac_run::Cell;
use ac_tree::{Name, Stmt};
use std::alloc::Global;

/// What the next of the tasks changes.
pub(crate) fn change<'p>(
    alloc: Global,
    store: &Store<'_>,
    task: Pending<'p>,
) -> Result<Change<'p>, StepFault>
    ensures { Plans store.now.program store.now.start (step_task store.now.program store.now.start (first_of task.entry)) (numbers_of_task store.now.program store.now.start store.now.memory (first_of task.entry)) store.now.memory result }
{
    match task {
        Pending::Block(st, _) => statement(alloc, store, st),
        Pending::Compare(name, hi, body) => compare(alloc, store, name, hi, body),
        Pending::Advance(name, hi, body) => advance(alloc, store, name, hi, body),
    }
}

/// A `for` enters its body if its variable is at most the number that its end had.
fn compare<'p>(
    alloc: Global,
    store: &Store<'_>,
    name: &'p Name,
    hi: i128,
    body: &'p [Stmt],
) -> Result<Change<'p>, StepFault>
    ensures { Plans store.now.program store.now.start (step_task store.now.program store.now.start (Compare name.now hi body.now)) [] store.now.memory result }
{
    let Ok(variable) = scalar(name) else {
        return Err(StepFault::OutOfMemory);
    };
    let is_low = is_at_most(store, &variable, hi);
    if is_low {
        let next = Pending::Advance(name, hi, body);
        Ok(enters_quietly(alloc, body, Some(next)))
    } else {
        Ok(enters_quietly(alloc, &[], None))
    }
}

fn is_at_most(store: &Store<'_>, variable: &Cell, hi: i128) -> bool
    ensures { result ≡ int_le (number_at store.now.program store.now.start store.now.memory variable.now) hi }
{
    store.number_at(variable) <= hi
}

/// Behind the body of a `for` its variable goes up by one.
fn advance<'p>(
    alloc: Global,
    store: &Store<'_>,
    name: &'p Name,
    hi: i128,
    body: &'p [Stmt],
) -> Result<Change<'p>, StepFault>
    ensures { Plans store.now.program store.now.start (step_task store.now.program store.now.start (Advance name.now hi body.now)) (numbers_of_task store.now.program store.now.start store.now.memory (Advance name.now hi body.now)) store.now.memory result }
{
    let Ok(variable) = scalar(name) else {
        return Err(StepFault::OutOfMemory);
    };
    let events = Vec::new(alloc);
    match successor(store, &variable) {
        Ok(number) => {
            let next = Pending::Compare(name, hi, body);
            writes_scalar(events, name, number, Some(next))
        }
        Err(stop) => stops(stop, events),
    }
}

fn successor(store: &Store<'_>, variable: &Cell) -> Result<i128, Stop>
    ensures { Makes (number_at store.now.program store.now.start store.now.memory variable.now +ℤ pos 1) result }
{
    store.number_at(variable).checked_add(1).ok_or(Stop::Wide)
}
