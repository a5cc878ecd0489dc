//! How a call ended.

ghost use Rattle.std.specs.Prelude.{◌≡◌};
ghost use Rattle.ac_engine.specs.Status.{code_of};

/// How a call ended.
#[derive(Clone, Copy)]
pub enum Status {
    /// No run of the program violates the policy.
    Accepted,
    /// Some condition is unproved.
    Rejected,
    /// The words have no stated form.
    Usage,
    /// The program is refused.
    Program,
    /// The policy file is refused.
    Policy,
    /// A file can't be read.
    ReadFault,
    /// The report can't be written.
    WriteFault,
    /// A quantity passes its limit.
    Limit,
    /// Memory ran out.
    Memory,
    /// The certificate is refused.
    Certificate,
}

impl Status {
    /// The exit code, from 0 on in the order of the variants.
    pub fn code(&self) -> u8
        ensures { result ≡ code_of self.now }
    {
        match self {
            Status::Accepted => 0,
            Status::Rejected => 1,
            Status::Usage => 2,
            Status::Program => 3,
            Status::Policy => 4,
            Status::ReadFault => 5,
            Status::WriteFault => 6,
            Status::Limit => 7,
            Status::Memory => 8,
            Status::Certificate => 9,
        }
    }
}
