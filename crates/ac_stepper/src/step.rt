//! The steps of a run.
ghost use Rattle.std.specs.Prelude.{◌≡◌, if◌then◌else◌, MatchResult};
ghost use Rattle.ac_stepper.specs.Steps.{Steps};
ghost use Rattle.ac_stepper.specs.Tasks.{rest_of};
ghost use Rattle.ac_stepper.specs.Changes.{changed, stored, halted};

use crate::change::Change;
use crate::config::Config;
use crate::fault::{StepFault, Stepped};
use crate::stack::{next, replace_next};
use crate::task::change;
use ac_evaluation::Store;
use ac_run::Cell;

impl<'p> Config<'p> {
    /// Makes the next step of the run. A run that has halted, or has no task left, stays as it is. Where a number of the
    /// step doesn't fit into 128 bits, or memory runs out, nothing is changed.
    pub fn step(&mut self) -> Result<Stepped, StepFault>
        ensures { Steps self.old result self.new }
    {
        if self.has_halted {
            return Ok(Stepped::Halted);
        }
        let Some(task) = next(self.tasks.as_slice()) else {
            return Ok(Stepped::Ended);
        };
        match change(self.alloc, &self.store, task) {
            Ok(change) => self.make(change),
            Err(fault) => Err(fault),
        }
    }

    /// Makes a change in the place of the next task.
    fn make(&mut self, change: Change<'p>) -> Result<Stepped, StepFault>
        ensures { MatchResult result (λ stepped. (self.new ≡ record self.old { now = changed self.old.program self.old.start change.entry (record self.old.now { tasks = rest_of self.old.now.tasks }) }) × (stepped ≡ (if self.new.now.has_halted then Stepped.Halted else Stepped.Went))) (λ e. (e ≡ StepFault.OutOfMemory) × (self.new ≡ self.old)) }
    {
        let Change {
            mut events,
            write,
            halts,
            block,
            behind,
        } = change;
        self.tasks.reserve(2)?;
        self.trace.append(&mut events)?;
        replace_next(&mut self.tasks, block, behind);
        self.has_halted = store(&mut self.store, write, halts);
        Ok(ending(self.has_halted))
    }
}

/// How a step ends that had a task.
fn ending(has_halted: bool) -> Stepped
    ensures { result ≡ (if has_halted then Stepped.Halted else Stepped.Went) }
{
    if has_halted {
        Stepped::Halted
    } else {
        Stepped::Went
    }
}

/// Writes the number of a change to its cell if that is inside, and tells whether the run has halted then.
fn store(store: &mut Store<'_>, write: Option<(Cell, i128)>, halts: bool) -> bool
    ensures memory { store.new ≡ record store.old { memory = stored store.old.program store.old.start write store.old.memory } }
    ensures halted { result ≡ halted store.old.program store.old.start write halts }
{
    let Some((cell, number)) = write else {
        return halts;
    };
    let is_inside = store.is_inside(&cell);
    if is_inside {
        store.write(&cell, number);
        halts
    } else {
        true
    }
}
