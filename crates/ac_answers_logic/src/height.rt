//! How high the tree of a formula's text may be, told before the text is read.
ghost use Rattle.std.specs.Prelude.{IfOk, IsTrue, length, ◌<◌, ◌^◌};

use std::alloc::{AllocError, Global};

/// The calls go down a tree by recursion, so a text whose tree may be higher is no stated ask.
const HIGHEST: u64 = 16_384;

/// A part of a text in brackets: how many tokens it has so far, and how high a tree in brackets inside it may be.
#[derive(Drop)]
struct Part {
    tokens: u64,
    inner: u64,
}

impl Part {
    fn new() -> Part {
        Part {
            tokens: 0,
            inner: 0,
        }
    }

    /// Each node of a tree that this part spells has a token of its own, or stands in brackets inside it.
    fn height(&self) -> u64 {
        self.tokens.saturating_add(self.inner)
    }

    /// The part behind a token.
    fn with_token(self) -> Part {
        Part {
            tokens: self.tokens.saturating_add(1),
            inner: self.inner,
        }
    }

    /// The part around a part that ends.
    fn around(self, ended: &Part) -> Part {
        Part {
            tokens: self.tokens.saturating_add(1),
            inner: self.inner.max(ended.height()),
        }
    }
}

/// Whether the text's places are told in 32 bits, and the tree that it spells, or begins to spell, is no higher than
/// `HIGHEST`.
pub fn is_low(alloc: Global, text: &str) -> Result<bool, AllocError>
    ensures { IfOk result (λ low. IsTrue low → length text.now < 2 ^ 32) }
{
    if u32::try_from(text.len()).is_err() {
        return Ok(false);
    }
    is_tree_low(alloc, text)
}

fn is_tree_low(alloc: Global, text: &str) -> Result<bool, AllocError> {
    let mut outer = Vec::new(alloc);
    let mut part = Part::new();
    let mut before = b' ';
    for byte in text.as_bytes().iter() {
        match *byte {
            b'(' | b'[' | b'{' => {
                outer.push(part)?;
                part = Part::new();
            }
            b')' | b']' | b'}' => part = outer.pop().unwrap_or(Part::new()).around(&part),
            byte if is_inside_token(before, byte) => {}
            _ => part = part.with_token(),
        }
        if part.height() > HIGHEST {
            return Ok(false);
        }
        before = *byte;
    }
    Ok(true)
}

/// Whether no token begins at a byte.
fn is_inside_token(before: u8, byte: u8) -> bool {
    byte == b' ' || is_of_word(byte) && is_of_word(before)
}

fn is_of_word(byte: u8) -> bool {
    byte == b'_' || byte.is_ascii_alphanumeric()
}
