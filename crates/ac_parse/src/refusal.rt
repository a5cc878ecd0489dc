//! Why reading stops.
use ac_tree::Span;

/// Why reading stops at a token, or at the end of the text: too many constructs are open, too many operators stand in one
/// place, or no program continues.
#[derive(Clone, Copy)]
pub enum Refusal {
    /// Too many constructs are open.
    Nesting,
    /// Too many operators stand in one place.
    Operators,
    /// No program continues with the token of this span.
    Unexpected(Span),
}
