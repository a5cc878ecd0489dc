//! What is answered of the bytes of a program and of a policy file.

ghost use Rattle.std.specs.Prelude.{◌≡◌, IfOk, string_bytes};
ghost use Rattle.ac_verdict.specs.Report.{report};

use crate::count::Count;
use crate::policy_fault::PolicyFault;
use crate::policy_report::policy_refused;
use crate::program_fault::ProgramFault;
use crate::report::{accepted, limit_passed, program_refused, rejected};
use ac_tree::{LimitKind, Node};
use sqlite_items::Items;
use std::alloc::{AllocError, Global};

/// What is answered of the bytes of a program and of a policy file.
#[derive(Drop)]
pub enum Outcome {
    /// All conditions are proved; `counts` has an entry for each selected policy.
    Accepted {
        counts: Items<Count>,
    },
    /// The conditions at these nodes are unproved.
    Rejected {
        counts: Items<Count>,
        unproved: Items<Node>,
    },
    /// The program is refused.
    Program {
        fault: ProgramFault,
    },
    /// A limit on programs or on policy files is passed; `value` is the greatest number that is allowed.
    Limit {
        which: LimitKind,
        value: u64,
    },
    /// The policy file is refused.
    Policy {
        fault: PolicyFault,
    },
    /// Memory ran out.
    OutOfMemory,
}

impl Outcome {
    /// The text of the report; none where memory ran out.
    #[tactic(auto, unfolding(crate::specs::Report::report, crate::specs::Report::lines_of))]
    pub fn report(&self, alloc: Global) -> Result<String, AllocError>
        ensures { IfOk result (λ text. string_bytes text ≡ report self.now) }
    {
        match self {
            Outcome::Accepted { counts } => accepted(alloc, counts.as_slice()),
            Outcome::Rejected { counts, unproved } => {
                rejected(alloc, counts.as_slice(), unproved.as_slice())
            }
            Outcome::Program { fault } => program_refused(alloc, fault),
            Outcome::Limit { which, value } => limit_passed(alloc, *which, *value),
            Outcome::Policy { fault } => policy_refused(alloc, fault),
            Outcome::OutOfMemory => Ok(String::new(alloc)),
        }
    }
}
