//! The law on programs that only write literals at literal indexes within their arrays.
ghost use Rattle.ac_tree.specs.declared.program.Program.{Program};
ghost use Rattle.ac_run.specs.Safety.{Policies, Safe};
ghost use Rattle.ac_run.specs.StraightWrites.{WritesWithin};

/// The law that a program is safe if it does nothing but write literals at literal indexes within its arrays.
pub fn straight_writes_are_safe()
    ensures { (p : Program) → WritesWithin p → (q : Policies) → Safe p q }
{}
