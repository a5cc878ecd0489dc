//! Names of patterns.
ghost use Rattle.std.specs.Prelude.{◌≡◌, ◌↔◌, IsTrue};
ghost use Rattle.ac_pattern_keys.specs.Keys.{in_pattern_name, AreInPatternName, IsPatternName};

use ac_tree::{ByteKind, LimitKind};

fn is_in_name(byte: u8) -> bool
    ensures { result ≡ in_pattern_name byte }
{
    match ByteKind::of(byte) {
        ByteKind::Letter => true,
        ByteKind::Digit => true,
        _ => byte == b'-',
    }
}

fn are_in_name(bytes: &[u8]) -> bool
    ensures { IsTrue result ↔ AreInPatternName bytes.now }
{
    for byte in bytes {
        if !is_in_name(*byte) {
            return false;
        }
    }
    true
}

/// Whether a text is the name of a pattern: 1 to 32 letters, digits and `-`.
pub fn is_pattern_name(text: &str) -> bool
    ensures { IsTrue result ↔ IsPatternName text.now }
{
    let bytes = text.as_bytes();
    if bytes.is_empty() {
        return false;
    }
    bytes.len() as u64 <= LimitKind::NameLength.number() && are_in_name(bytes)
}
