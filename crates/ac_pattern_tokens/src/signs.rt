//! The signs of metavariables: `$` for a name, `%` for an expression, `?` for a condition, `@` for a run of statements.
ghost use Rattle.std.specs.Prelude.{◌≡◌};
ghost use Rattle.ac_pattern_tokens.specs.Signs.{is_sign as is_sign_byte, has_sign as has_first, is_signed as has_any};

/// Whether a byte is the sign of a metavariable.
pub fn is_sign(byte: u8) -> bool
    ensures { result ≡ is_sign_byte byte }
{
    byte == b'$' || byte == b'%' || byte == b'?' || byte == b'@'
}

/// Whether a name begins with a sign.
pub fn has_sign(name: &str, sign: u8) -> bool
    ensures { result ≡ has_first sign name.now }
{
    match name.as_bytes() {
        [] => false,
        [byte, ..] => *byte == sign,
    }
}

/// Whether a name begins with any of the signs, as a metavariable does.
pub fn is_signed(name: &str) -> bool
    ensures { result ≡ has_any name.now }
{
    match name.as_bytes() {
        [] => false,
        [byte, ..] => is_sign(*byte),
    }
}
