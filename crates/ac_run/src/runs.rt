//! Laws of runs.
ghost use Rattle.std.specs.Prelude.{◌≡◌, ◌↔◌, ◌⊎◌, ℕ, ◌+◌, List, [], ◌++◌, true};
ghost use Rattle.ac_tree.specs.declared.program.Program.{Program};
ghost use Rattle.ac_tree.specs.declared.policy.PolicyName.TheVariants.{Bounds};
ghost use Rattle.ac_run.specs.declared.start.Start.{Start};
ghost use Rattle.ac_run.specs.declared.event.Event.{Event};
ghost use Rattle.ac_run.specs.Declarations.{NameBytes};
ghost use Rattle.ac_run.specs.Run.{run};
ghost use Rattle.ac_run.specs.Violation.{Violates};

/// The law that a run has halted exactly where its trace violates bounds, for every program, start and number of steps.
pub fn a_run_halts_exactly_outside()
    ensures { (p : Program) (start : Start) (roles : List NameBytes) (n : ℕ) → ((run p start n).has_halted ≡ true) ↔ Violates p start roles Bounds (run p start n).trace }
{}

/// The law that a run without tasks, or one that has halted, stays as it is.
pub fn a_stopped_run_stays()
    ensures { (p : Program) (start : Start) (n more : ℕ) → (((run p start n).tasks ≡ []) ⊎ ((run p start n).has_halted ≡ true)) → run p start (more + n) ≡ run p start n }
{}

/// The law that what stands in the trace of a run stays there, and more comes behind it.
pub fn a_trace_only_grows()
    ensures { (p : Program) (start : Start) (n more : ℕ) → (later : List Event) × ((run p start (more + n)).trace ≡ (run p start n).trace ++ later) }
{}
