//! The first configuration of a run.
ghost use Rattle.std.specs.Prelude.{◌≡◌, ℕ, ◌<◌, ◌^◌, [], false, length, map, IfOk, OnOk, Err};
ghost use Rattle.ac_tree.specs.declared.program.Program.{Program as Tree};
ghost use Rattle.ac_run.specs.declared.start.Start as started;
ghost use Rattle.ac_run.specs.Start.{Fits};
ghost use Rattle.ac_run.specs.Run.{Do, begin};
ghost use Rattle.ac_evaluation.specs.Misfit.{IsFirstMisfit};

use crate::config::Config;
use crate::stack::put_block;
use ac_evaluation::Store;
use ac_run::Start;
use ac_tree::Program;
use std::alloc::{AllocError, Global};

/// Why a run doesn't begin: the first entry of the start that is wrong or missing, or the first that is too many; or
/// memory ran out.
#[derive(Debug, Drop, thiserror::Error)]
pub enum StartFault {
    #[error("the start doesn't fit at entry {index}")]
    Fit { index: u32 },
    #[error("out of memory")]
    OutOfMemory,
}

/// The first configuration of a run of the program from the start, if the start fits.
pub fn begin_run<'p>(
    alloc: Global,
    program: &'p Program,
    start: &Start,
) -> Result<Config<'p>, StartFault>
    requires { length start.now.cells < 2 ^ 32 }
    ensures begins { IfOk result (λ config. config ≡ record { program = program.now; start = start.now; now = begin program.now start.now }) }
    ensures fits { OnOk result (Fits program.now start.now) }
    ensures first { (n : ℕ) → result ≡ Err (StartFault.Fit n) → IsFirstMisfit program.now start.now n }
{
    let Ok(store) = Store::new(alloc, program, start) else {
        return Err(StartFault::OutOfMemory);
    };
    if let Some(index) = store.first_misfit() {
        return Err(StartFault::Fit {
            index: index as u32,
        });
    }
    match first_config(alloc, program, store) {
        Ok(config) => Ok(config),
        Err(_) => Err(StartFault::OutOfMemory),
    }
}

/// The law that a start with a first misfit doesn't fit, so that a refusal is never wrong.
pub fn a_misfit_does_not_fit()
    ensures { (p : Tree) (start : started.Start) (n : ℕ) → IsFirstMisfit p start n → ¬ Fits p start }
{}

fn first_config<'p>(
    alloc: Global,
    program: &'p Program,
    store: Store<'p>,
) -> Result<Config<'p>, AllocError>
    ensures { IfOk result (λ config. config ≡ record { program = store.entry.program; start = store.entry.start; now = record { tasks = map Do program.now.body; memory = store.entry.memory; trace = []; has_halted = false } }) }
{
    let mut tasks = Vec::new(alloc);
    tasks.reserve(1)?;
    put_block(&mut tasks, program.body.as_slice());
    Ok(Config {
        alloc,
        store,
        tasks,
        trace: Vec::new(alloc),
        has_halted: false,
    })
}
