//! What a call answers, with its report and its status.

ghost use Rattle.std.specs.Prelude.{◌≡◌, IfOk, string_bytes};
ghost use Rattle.ac_engine.specs.Report.{text_of, status_of};

use crate::status::Status;
use ac_verdict::Outcome;
use std::alloc::{AllocError, Global};

/// The usage line.
const USAGE: &str =
    "usage: certify PROGRAM POLICY CERT [--argument FILE] [--explain] | check PROGRAM POLICY CERT | show PROGRAM POLICY | make N\n";

/// What a call answers.
#[derive(Drop)]
pub enum Answer {
    /// The words have no stated form.
    Usage,
    /// A file can't be read.
    ReadFault,
    /// The outcome of the bytes of the files.
    Judged { outcome: Outcome },
}

impl Answer {
    /// The text of the report; none where memory ran out.
    pub fn report(&self, alloc: Global) -> Result<String, AllocError>
        ensures { IfOk result (λ text. string_bytes text ≡ text_of self.now) }
    {
        match self {
            Answer::Usage => String::from_str(alloc, USAGE),
            Answer::ReadFault => String::from_str(alloc, "read fault\n"),
            Answer::Judged { outcome } => outcome.report(alloc),
        }
    }

    /// The status of a call whose report was written.
    pub fn status(&self) -> Status
        ensures { result ≡ status_of self.now }
    {
        match self {
            Answer::Usage => Status::Usage,
            Answer::ReadFault => Status::ReadFault,
            Answer::Judged { outcome } => judged_status(outcome),
        }
    }
}

fn judged_status(outcome: &Outcome) -> Status
    ensures { result ≡ status_of (Answer.Judged outcome.now) }
{
    match outcome {
        Outcome::Accepted { .. } => Status::Accepted,
        Outcome::Rejected { .. } => Status::Rejected,
        Outcome::Program { .. } => Status::Program,
        Outcome::Limit { .. } => Status::Limit,
        Outcome::Policy { .. } => Status::Policy,
        Outcome::OutOfMemory => Status::Memory,
    }
}
