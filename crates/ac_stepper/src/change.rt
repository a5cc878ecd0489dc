//! What a task changes, found out before anything is changed.
ghost use Rattle.std.specs.Prelude.{◌≡◌, [], ◌∷◌, ◌++◌, map, false, true, Some, None, MatchResult};
ghost use Rattle.ac_run.specs.Memory.{scalar};
ghost use Rattle.ac_run.specs.Run.{Do};
ghost use Rattle.ac_run.specs.declared.event.Event.TheVariants as event;
ghost use Rattle.ac_stepper.specs.Tasks.{tasks_if};
ghost use Rattle.ac_stepper.specs.Changes.{IsChange, Stops};

use crate::fault::StepFault;
use crate::pending::Pending;
use ac_evaluation::{Stop, cell, note, scalar};
use ac_run::{Cell, Event};
use ac_tree::{Name, Stmt};
use std::alloc::Global;

/// What a task changes.
#[derive(Drop)]
pub(crate) struct Change<'p> {
    /// What happens, in this order.
    pub events: Vec<Event>,
    /// The number that is written to a cell; its event is the last one.
    pub write: Option<(Cell, i128)>,
    /// Whether the run halts before it writes.
    pub halts: bool,
    /// The statements that come next, and the task behind them.
    pub block: &'p [Stmt],
    pub behind: Option<Pending<'p>>,
}

/// A change that goes on with a block and a task behind it.
pub(crate) fn enters<'p>(
    events: Vec<Event>,
    block: &'p [Stmt],
    behind: Option<Pending<'p>>,
) -> Change<'p>
    ensures { IsChange events.items None false (map Do block.now ++ tasks_if behind.entry) result }
{
    Change {
        events,
        write: None,
        halts: false,
        block,
        behind,
    }
}

/// A change without an event.
pub(crate) fn enters_quietly<'p>(
    alloc: Global,
    block: &'p [Stmt],
    behind: Option<Pending<'p>>,
) -> Change<'p>
    ensures { IsChange [] None false (map Do block.now ++ tasks_if behind.entry) result }
{
    Change {
        events: Vec::new(alloc),
        write: None,
        halts: false,
        block,
        behind,
    }
}

/// A change that is one event.
pub(crate) fn tells<'p>(alloc: Global, event: Event) -> Result<Change<'p>, StepFault>
    ensures { MatchResult result (λ change. IsChange (event ∷ []) None false [] change) (λ e. e ≡ StepFault.OutOfMemory) }
{
    let mut events = Vec::new(alloc);
    let Ok(()) = note(&mut events, event) else {
        return Err(StepFault::OutOfMemory);
    };
    Ok(Change {
        events,
        write: None,
        halts: false,
        block: &[],
        behind: None,
    })
}

/// A change that ends with a write to a scalar.
pub(crate) fn writes_scalar<'p>(
    events: Vec<Event>,
    name: &Name,
    number: i128,
    behind: Option<Pending<'p>>,
) -> Result<Change<'p>, StepFault>
    ensures { MatchResult result (λ change. IsChange (events.items ++ event.Write (scalar name.now) number ∷ []) (Some (scalar name.now, number)) false (tasks_if behind.entry) change) (λ e. e ≡ StepFault.OutOfMemory) }
{
    let (Ok(told), Ok(kept)) = (scalar(name), scalar(name)) else {
        return Err(StepFault::OutOfMemory);
    };
    let mut events = events;
    let Ok(()) = note(&mut events, Event::Write(told, number)) else {
        return Err(StepFault::OutOfMemory);
    };
    Ok(Change {
        events,
        write: Some((kept, number)),
        halts: false,
        block: &[],
        behind,
    })
}

/// A change that ends with a write to an element of an array.
pub(crate) fn writes_element<'p>(
    events: Vec<Event>,
    name: &Name,
    at: (i128, i128),
    number: i128,
) -> Result<Change<'p>, StepFault>
    ensures { MatchResult result (λ change. IsChange (events.items ++ event.Write (record { name = name.now; i = at.0; j = at.1 }) number ∷ []) (Some (record { name = name.now; i = at.0; j = at.1 }, number)) false [] change) (λ e. e ≡ StepFault.OutOfMemory) }
{
    let (Ok(told), Ok(kept)) = (cell(name, at.0, at.1), cell(name, at.0, at.1)) else {
        return Err(StepFault::OutOfMemory);
    };
    let mut events = events;
    let Ok(()) = note(&mut events, Event::Write(told, number)) else {
        return Err(StepFault::OutOfMemory);
    };
    Ok(Change {
        events,
        write: Some((kept, number)),
        halts: false,
        block: &[],
        behind: None,
    })
}

/// How an evaluation without an answer ends a task.
pub(crate) fn stops<'p>(stop: Stop, events: Vec<Event>) -> Result<Change<'p>, StepFault>
    ensures { Stops stop events.items result }
{
    match stop {
        Stop::Outside => Ok(Change {
            events,
            write: None,
            halts: true,
            block: &[],
            behind: None,
        }),
        Stop::Wide => Err(StepFault::Wide),
        Stop::OutOfMemory => Err(StepFault::OutOfMemory),
    }
}
