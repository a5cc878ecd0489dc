//! The law of outcomes. It does nothing when it runs: what it ensures is the law.
ghost use Rattle.std.specs.Prelude.{◌≡◌, ◌≢◌, ℕ, List};
ghost use Rattle.ac_verdict.specs.declared.outcome.Outcome.{Outcome as AnyOutcome};
ghost use Rattle.ac_verdict.specs.declared.outcome.Outcome.TheVariants.{OutOfMemory};
ghost use Rattle.ac_verdict.specs.Causes.{IsCause};

/// The law that the bytes of a program and of a policy file have at most one outcome beside want of memory.
pub fn bytes_have_one_outcome()
    ensures { (program policy : List ℕ) (a b : AnyOutcome) → IsCause program policy a → IsCause program policy b → a ≢ OutOfMemory → b ≢ OutOfMemory → a ≡ b }
{}
