//! What each statement changes.
ghost use Rattle.std.specs.Prelude.{◌≡◌, [], ◌∷◌, ◌++◌, map, if◌then◌else◌, IfOk};
ghost use Rattle.ac_run.specs.Evaluation.{both, value_of, indexes_of, truth_of};
ghost use Rattle.ac_run.specs.Memory.{scalar, contents};
ghost use Rattle.ac_run.specs.declared.event.Event.TheVariants as event;
ghost use Rattle.ac_run.specs.Run.{Do, Compare, go_to, with_reading, written, step_statement};
ghost use Rattle.ac_evaluation.specs.Numbers.{numbers_of, numbers_of_index, numbers_of_condition, numbers_of_both};
ghost use Rattle.ac_stepper.specs.Numbers.{numbers_of_statement};
ghost use Rattle.ac_stepper.specs.Changes.{Plans};

use crate::change::{Change, enters, enters_quietly, stops, tells, writes_element, writes_scalar};
use crate::fault::StepFault;
use crate::pending::Pending;
use ac_evaluation::Store;
use ac_run::Event;
use ac_tree::{Cond, Expr, Index, Name, Stmt, StmtKind};
use std::alloc::{AllocError, Global};

/// What a statement changes.
pub(crate) fn statement<'p>(
    alloc: Global,
    store: &Store<'_>,
    st: &'p Stmt,
) -> Result<Change<'p>, StepFault>
    ensures { Plans store.now.program store.now.start (step_statement store.now.program store.now.start st.now st.now.kind) (numbers_of_statement store.now.program store.now.start store.now.memory st.now.kind) store.now.memory result }
{
    match &st.kind {
        StmtKind::Set { name, value } => set(alloc, store, name, value),
        StmtKind::Put { name, index, value } => put(alloc, store, name, index, value),
        StmtKind::If { test, yes, no } => {
            choose(alloc, store, test, yes.as_slice(), no.as_slice())
        }
        StmtKind::For { name, lo, hi, body } => {
            begin_for(alloc, store, name, lo, hi, body.as_slice())
        }
        StmtKind::While { test, body } => turn(alloc, store, test, body.as_slice(), st),
        StmtKind::Hand { name, role } => hand(alloc, store, name, role),
        StmtKind::Skip => Ok(enters_quietly(alloc, &[], None)),
    }
}

/// A scalar gets the number of an expression.
fn set<'p>(
    alloc: Global,
    store: &Store<'_>,
    name: &Name,
    value: &Expr,
) -> Result<Change<'p>, StepFault>
    ensures { Plans store.now.program store.now.start (with_reading (value_of store.now.program store.now.start store.now.memory value.now.kind) (λ n. written store.now.program store.now.start (scalar name.now) n)) (numbers_of store.now.program store.now.start store.now.memory value.now.kind) store.now.memory result }
{
    let mut events = Vec::new(alloc);
    match store.value(value, &mut events) {
        Ok(number) => writes_scalar(events, name, number, None),
        Err(stop) => stops(stop, events),
    }
}

/// A cell of an array gets the number of an expression.
fn put<'p>(
    alloc: Global,
    store: &Store<'_>,
    name: &Name,
    index: &Index,
    value: &Expr,
) -> Result<Change<'p>, StepFault>
    ensures { Plans store.now.program store.now.start (with_reading (both (indexes_of store.now.program store.now.start store.now.memory index.now) (value_of store.now.program store.now.start store.now.memory value.now.kind)) (λ a. written store.now.program store.now.start (record { name = name.now; i = a.0.0; j = a.0.1 }) a.1)) (numbers_of_both (numbers_of_index store.now.program store.now.start store.now.memory index.now) (indexes_of store.now.program store.now.start store.now.memory index.now) (numbers_of store.now.program store.now.start store.now.memory value.now.kind)) store.now.memory result }
{
    let mut events = Vec::new(alloc);
    match store.indexes_and_value(index, value, &mut events) {
        Ok(found) => writes_element(events, name, found.0, found.1),
        Err(stop) => stops(stop, events),
    }
}

/// A test chooses one of two blocks.
fn choose<'p>(
    alloc: Global,
    store: &Store<'_>,
    test: &Cond,
    yes: &'p [Stmt],
    no: &'p [Stmt],
) -> Result<Change<'p>, StepFault>
    ensures { Plans store.now.program store.now.start (with_reading (truth_of store.now.program store.now.start store.now.memory test.now.kind) (λ b. go_to (map Do (if b then yes.now else no.now)))) (numbers_of_condition store.now.program store.now.start store.now.memory test.now.kind) store.now.memory result }
{
    let mut events = Vec::new(alloc);
    match store.truth(test, &mut events) {
        Ok(holds) => Ok(enters(events, one_of(holds, yes, no), None)),
        Err(stop) => stops(stop, events),
    }
}

fn one_of<'p>(holds: bool, yes: &'p [Stmt], no: &'p [Stmt]) -> &'p [Stmt]
    ensures { result.now ≡ (if holds then yes.now else no.now) }
{
    if holds { yes } else { no }
}

/// A `for` begins: its variable gets the number of its start, and the number of its end is kept.
fn begin_for<'p>(
    alloc: Global,
    store: &Store<'_>,
    name: &'p Name,
    lo: &Expr,
    hi: &Expr,
    body: &'p [Stmt],
) -> Result<Change<'p>, StepFault>
    ensures { Plans store.now.program store.now.start (with_reading (both (value_of store.now.program store.now.start store.now.memory lo.now.kind) (value_of store.now.program store.now.start store.now.memory hi.now.kind)) (λ a c. go_to (Compare name.now a.1 body.now ∷ []) (written store.now.program store.now.start (scalar name.now) a.0 c))) (numbers_of_both (numbers_of store.now.program store.now.start store.now.memory lo.now.kind) (value_of store.now.program store.now.start store.now.memory lo.now.kind) (numbers_of store.now.program store.now.start store.now.memory hi.now.kind)) store.now.memory result }
{
    let mut events = Vec::new(alloc);
    match store.both(lo, hi, &mut events) {
        Ok(ends) => {
            let next = Pending::Compare(name, ends.1, body);
            writes_scalar(events, name, ends.0, Some(next))
        }
        Err(stop) => stops(stop, events),
    }
}

/// A `while` tests, and comes again behind its body.
fn turn<'p>(
    alloc: Global,
    store: &Store<'_>,
    test: &Cond,
    body: &'p [Stmt],
    again: &'p Stmt,
) -> Result<Change<'p>, StepFault>
    ensures { Plans store.now.program store.now.start (with_reading (truth_of store.now.program store.now.start store.now.memory test.now.kind) (λ b. go_to (if b then map Do body.now ++ Do again.now ∷ [] else []))) (numbers_of_condition store.now.program store.now.start store.now.memory test.now.kind) store.now.memory result }
{
    let mut events = Vec::new(alloc);
    match store.truth(test, &mut events) {
        Ok(holds) => {
            if holds {
                let next = Pending::Block(again, &[]);
                Ok(enters(events, body, Some(next)))
            } else {
                Ok(enters(events, &[], None))
            }
        }
        Err(stop) => stops(stop, events),
    }
}

/// A name is handed over in a role.
fn hand<'p>(
    alloc: Global,
    store: &Store<'_>,
    name: &Name,
    role: &Name,
) -> Result<Change<'p>, StepFault>
    ensures { Plans store.now.program store.now.start (λ c. record c { trace = c.trace ++ event.Hand name.now role.now (contents store.now.program store.now.start c.memory name.now) ∷ [] }) [] store.now.memory result }
{
    match handed(alloc, store, name, role) {
        Ok(event) => tells(alloc, event),
        Err(_) => Err(StepFault::OutOfMemory),
    }
}

fn handed(alloc: Global, store: &Store<'_>, name: &Name, role: &Name) -> Result<Event, AllocError>
    ensures { IfOk result (λ told. told ≡ event.Hand name.now role.now (contents store.now.program store.now.start store.now.memory name.now)) }
{
    let contents = store.contents(alloc, name)?;
    let name = name.clone()?;
    let role = role.clone()?;
    Ok(Event::Hand {
        name,
        role,
        contents,
    })
}
