//! Bytes as a text.
ghost use Rattle.std.specs.Prelude.{◌≡◌, ◌^◌, ◌<◌, length, IfOk, IfErr, IsUtf8, IsAscii};
ghost use Rattle.std.specs.Str.{IsValidUpTo};

/// The bytes as a text, or the place of the first byte that begins no character.
pub fn utf8_text(bytes: &[u8]) -> Result<&str, u32>
    requires { length bytes.now < 2 ^ 32 }
    ensures text { IfOk result (λ text. (text.now ≡ bytes.now) × IsUtf8 bytes.now) }
    ensures fault { IfErr result (λ at. IsValidUpTo bytes.now at) }
{
    match str::from_utf8(bytes) {
        Ok(text) => Ok(text),
        Err(error) => Err(error.valid_up_to() as u32),
    }
}

/// The text of bytes in ASCII.
pub fn ascii_text(bytes: &[u8]) -> &str
    requires { IsAscii bytes.now }
    ensures { result.now ≡ bytes.now }
{
    match str::from_utf8(bytes) {
        Ok(text) => text,
        Err(_) => unreachable!(),
    }
}
