//! The configuration of a run.
ghost use Rattle.std.specs.Prelude.{◌≡◌};

use crate::pending::Pending;
use ac_evaluation::Store;
use ac_run::Event;
use std::alloc::Global;
use std::marker::Model;

/// The configuration of a run of a program from a start.
#[derive(Drop)]
pub struct Config<'p> {
    pub(crate) alloc: Global,
    pub(crate) store: Store<'p>,
    pub(crate) tasks: Vec<Pending<'p>>,
    pub(crate) trace: Vec<Event>,
    pub(crate) has_halted: bool,
}

impl<'p> Model for Config<'p> {
    ghost use Rattle.ac_tree.specs.contracts.program.StmtKind as s;
    ghost use Rattle.std.specs.Coded.{codes};
    ghost use Rattle.ac_stepper.specs.Running.{Running};
    ghost use Rattle.ac_stepper.specs.Tasks.{tasks_of};

    ghost Value = { Running };

    ghost coded = { Prim.hlevel (codes, s.the_row.coded) };

    ghost view = { λ a. record { program = a.store.program; start = a.store.start; now = record { tasks = tasks_of a.tasks.items; memory = a.store.memory; trace = a.trace.items; has_halted = a.has_halted } } };
}

impl<'p> Config<'p> {
    /// The events so far.
    pub fn trace(&self) -> &[Event]
        ensures { result.now ≡ self.now.now.trace }
    {
        self.trace.as_slice()
    }
}
