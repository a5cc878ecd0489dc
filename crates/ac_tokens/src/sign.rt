//! Signs of two bytes.
ghost use Rattle.std.specs.Prelude.{◌≡◌};
ghost use Rattle.ac_tokens.specs.Runs.{joined_with};

use ac_tree::{ByteKind, Sign};

/// The sign of two bytes that a byte of this kind makes with the first of the bytes behind it.
pub fn joined_sign(kind: ByteKind, behind: &[u8]) -> Option<Sign>
    ensures { result ≡ joined_with kind behind.now }
{
    match behind {
        [] => None,
        [byte, ..] => Sign::joined(kind, ByteKind::of(*byte)),
    }
}
