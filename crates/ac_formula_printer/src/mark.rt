//! What the tokens of formula text say.
use ac_tree::{Name, RelOp};

/// What a token of formula text says.
#[derive(Drop)]
pub enum FormulaMark {
    Name(Name),
    /// A bound name, without its `_`.
    Bound(Name),
    /// A literal; one beyond 64 bits is the greatest of 64 bits.
    Literal(u64),
    Hash,
    At,
    OpenParen,
    CloseParen,
    OpenBracket,
    CloseBracket,
    OpenBrace,
    CloseBrace,
    Comma,
    Plus,
    Minus,
    Star,
    /// A formula has `=` and `<=` alone; the others are read as these.
    Relation(RelOp),
    True,
    False,
    Not,
    And,
    Or,
    Implies,
    All,
    Init,
    Put,
    Use,
    /// A sign or a reserved word of the language that no formula has.
    Foreign,
}
