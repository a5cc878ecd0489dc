//! Runs: the bytes of one kind at the front of a text, as far as they go.
ghost use Rattle.std.specs.Prelude.{◌≡◌};
ghost use Rattle.ac_tokens.specs.Runs.{goes_on as goes_on_with, IsRun};

use ac_tree::ByteKind;

/// What goes on for as long as its bytes are of one kind.
#[derive(Clone, Copy)]
pub enum Run {
    /// Letters, digits and underscores.
    Name,
    /// Letters and digits: the rest of a bound name of a formula.
    Bound,
    /// Digits.
    Number,
    /// The bytes up to the end of a line.
    Line,
    /// Blanks and ends of lines.
    Blank,
}

fn goes_on(run: Run, kind: ByteKind) -> bool
    ensures { result ≡ goes_on_with run kind }
{
    match (run, kind) {
        (Run::Name, ByteKind::Letter | ByteKind::Digit | ByteKind::Underscore) => true,
        (Run::Bound, ByteKind::Letter | ByteKind::Digit) => true,
        (Run::Number, ByteKind::Digit) => true,
        (Run::Line, ByteKind::Newline) => false,
        (Run::Line, _) => true,
        (Run::Blank, ByteKind::Blank | ByteKind::Newline) => true,
        _ => false,
    }
}

/// How many bytes a run has at the front.
#[tactic(auto, using(crate::proofs::Runs::run_is))]
pub fn run_length(run: Run, bytes: &[u8]) -> usize
    ensures { IsRun run bytes.now result }
{
    for (i, byte) in bytes.iter().enumerate() {
        if !goes_on(run, ByteKind::of(*byte)) {
            return i;
        }
    }
    bytes.len()
}
