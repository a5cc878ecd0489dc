//! Why a program is refused.

use ac_tree::{NodeId, Span, StaticFault};

/// Why a program is refused.
#[derive(Drop)]
pub enum ProgramFault {
    /// No character begins at this byte.
    NotUtf8 { at: u32 },
    /// No token begins at this byte.
    Token { at: u32 },
    /// No program continues at this token, or at the end of the text.
    Unexpected { span: Span },
    /// The first node that breaks a static rule, and the least rule that it breaks.
    Rule { fault: StaticFault },
    /// The first statement of a form that has no verdict yet, or the first of too many.
    NotSupported { node: NodeId },
}
