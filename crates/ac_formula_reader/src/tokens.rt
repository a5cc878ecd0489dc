//! Cutting formula text into tokens.
ghost use Rattle.std.specs.Prelude.{◌≡◌, ℕ, ◌+◌, ◌≤◌, ◌<◌, List, length, drop, take, slice_index, IsTrue, IfOk, IsAscii};
ghost use Rattle.ac_tree.specs.declared.token.ByteKind.TheVariants.{Letter, Digit, Underscore};
ghost use Rattle.ac_tree.specs.Tokens.{kind_of_byte, keyword_of};
ghost use Rattle.ac_formula_printer.specs.FormulaTokens.{keyword_mark as mark_of_keyword, sign_mark as mark_of_sign, word_mark as mark_of_word, literal_of as literal_value, first_token as token_first};
ghost use Rattle.ac_formula_reader.specs.FormulaPieces.{IsFirst, IsNoWord};

use ac_formula_printer::FormulaMark;
use ac_tokens::{Run, ascii_text, joined_sign, run_length};
use ac_tree::{ByteKind, Keyword, Name, RelOp, Sign};
use std::alloc::{AllocError, Global};

/// A token and how many bytes it has.
#[derive(Drop)]
pub struct Piece {
    pub mark: FormulaMark,
    pub len: usize,
}

fn keyword_mark(keyword: Keyword) -> FormulaMark
    ensures { result ≡ mark_of_keyword keyword }
{
    match keyword {
        Keyword::All => FormulaMark::All,
        Keyword::And => FormulaMark::And,
        Keyword::False => FormulaMark::False,
        Keyword::Implies => FormulaMark::Implies,
        Keyword::Init => FormulaMark::Init,
        Keyword::Not => FormulaMark::Not,
        Keyword::Or => FormulaMark::Or,
        Keyword::Put => FormulaMark::Put,
        Keyword::True => FormulaMark::True,
        Keyword::Use => FormulaMark::Use,
        _ => FormulaMark::Foreign,
    }
}

fn sign_mark(sign: Sign) -> FormulaMark
    ensures { result ≡ mark_of_sign sign }
{
    match sign {
        Sign::OpenParen => FormulaMark::OpenParen,
        Sign::CloseParen => FormulaMark::CloseParen,
        Sign::OpenBracket => FormulaMark::OpenBracket,
        Sign::CloseBracket => FormulaMark::CloseBracket,
        Sign::OpenBrace => FormulaMark::OpenBrace,
        Sign::CloseBrace => FormulaMark::CloseBrace,
        Sign::Comma => FormulaMark::Comma,
        Sign::Plus => FormulaMark::Plus,
        Sign::Minus => FormulaMark::Minus,
        Sign::Star => FormulaMark::Star,
        Sign::Equal => FormulaMark::Relation(RelOp::Eq),
        Sign::NotEqual => FormulaMark::Relation(RelOp::Ne),
        Sign::Less => FormulaMark::Relation(RelOp::Lt),
        Sign::LessEqual => FormulaMark::Relation(RelOp::Le),
        Sign::Greater => FormulaMark::Relation(RelOp::Gt),
        Sign::GreaterEqual => FormulaMark::Relation(RelOp::Ge),
        _ => FormulaMark::Foreign,
    }
}

/// The number that digits write, or the greatest of 64 bits.
fn literal_of(digits: &[u8]) -> u64
    ensures { result ≡ literal_value digits.now }
{
    let mut number: u64 = 0;
    for digit in digits {
        number = number
            .saturating_mul(10)
            .saturating_add(u64::from(digit.saturating_sub(48)));
    }
    number
}

fn word_mark(alloc: Global, word: &[u8]) -> Result<FormulaMark, AllocError>
    requires { IsAscii word.now }
    ensures { IfOk result (λ mark. mark ≡ mark_of_word word.now (keyword_of word.now)) }
{
    let text = ascii_text(word);
    match Keyword::of(text) {
        Some(keyword) => Ok(keyword_mark(keyword)),
        None => Ok(FormulaMark::Name(Name::new(alloc, text)?)),
    }
}

fn word(alloc: Global, bytes: &[u8]) -> Result<Option<Piece>, AllocError>
    requires within { 0 < length bytes.now }
    requires letter { kind_of_byte (slice_index bytes.now 0) ≡ Letter }
    ensures { IfOk result (λ piece. IsFirst bytes.now piece) }
{
    let len = 1 + run_length(Run::Name, &bytes[1..]);
    let mark = word_mark(alloc, &bytes[..len])?;
    Ok(Some(Piece { mark, len }))
}

#[tactic(auto, using(crate::proofs::Pieces::literal_first, crate::proofs::Pieces::literal_none))]
fn literal(bytes: &[u8]) -> Option<Piece>
    requires within { 0 < length bytes.now }
    requires digit { kind_of_byte (slice_index bytes.now 0) ≡ Digit }
    ensures { IsFirst bytes.now result }
{
    let len = 1 + run_length(Run::Number, &bytes[1..]);
    if bytes[0] == b'0' && len > 1 {
        return None;
    }
    let mark = FormulaMark::Literal(literal_of(&bytes[..len]));
    Some(Piece { mark, len })
}

#[tactic(auto, using(crate::proofs::Pieces::bound_first, crate::proofs::Pieces::bound_none))]
fn bound_name(alloc: Global, bytes: &[u8]) -> Result<Option<Piece>, AllocError>
    requires within { 0 < length bytes.now }
    requires underscore { kind_of_byte (slice_index bytes.now 0) ≡ Underscore }
    ensures { IfOk result (λ piece. IsFirst bytes.now piece) }
{
    let len = 1 + run_length(Run::Bound, &bytes[1..]);
    if len == 1 {
        return Ok(None);
    }
    let name = Name::new(alloc, ascii_text(&bytes[1..len]))?;
    Ok(Some(Piece {
        mark: FormulaMark::Bound(name),
        len,
    }))
}

#[tactic(auto, using(crate::proofs::Pieces::joined_first_is, crate::proofs::Pieces::lone_first_is))]
fn sign(kind: ByteKind, bytes: &[u8]) -> Option<Piece>
    requires within { 0 < length bytes.now }
    requires kind { kind ≡ kind_of_byte (slice_index bytes.now 0) }
    requires sign { IsNoWord kind }
    ensures { IsFirst bytes.now result }
{
    match (joined_sign(kind, &bytes[1..]), kind) {
        (Some(sign), _) => Some(Piece {
            mark: sign_mark(sign),
            len: 2,
        }),
        (None, ByteKind::Lone(sign)) => Some(Piece {
            mark: sign_mark(sign),
            len: 1,
        }),
        (None, _) => None,
    }
}

/// The longest token that the bytes begin with. None: a fault, a blank or the end.
#[tactic(auto, using(crate::proofs::Pieces::hash_first, crate::proofs::Pieces::at_first, crate::proofs::Pieces::empty_first))]
pub fn first_token(alloc: Global, bytes: &[u8]) -> Result<Option<Piece>, AllocError>
    ensures { IfOk result (λ piece. IsFirst bytes.now piece) }
{
    if bytes.is_empty() {
        return Ok(None);
    }
    match ByteKind::of(bytes[0]) {
        ByteKind::Letter => word(alloc, bytes),
        ByteKind::Digit => Ok(literal(bytes)),
        ByteKind::Underscore => bound_name(alloc, bytes),
        ByteKind::Hash => Ok(Some(Piece {
            mark: FormulaMark::Hash,
            len: 1,
        })),
        ByteKind::At => Ok(Some(Piece {
            mark: FormulaMark::At,
            len: 1,
        })),
        kind => Ok(sign(kind, bytes)),
    }
}
