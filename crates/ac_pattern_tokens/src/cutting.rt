//! The text of a code cut into tokens.
ghost use Rattle.std.specs.Prelude.{◌≡◌, ◌+◌, ◌^◌, ◌<◌, ◌≤◌, ◌++◌, length, slice_index, drop, true, false, IfOk, OnOk, MatchOption, None};
ghost use Rattle.std.specs.Option.{option_to_list};
ghost use Rattle.ac_tree.specs.Tokens.{InName};
ghost use Rattle.ac_tokens.specs.declared.token_fault.TokenFault.TheVariants.{OutOfMemory};
ghost use Rattle.ac_tokens.specs.Runs.{IsRunFrom};
ghost use Rattle.ac_pattern_tokens.specs.Signs.{is_sign as is_sign_byte};
ghost use Rattle.ac_pattern_tokens.specs.CodeText.{CutsCode, IsCutNowhere};
ghost use Rattle.ac_pattern_tokens.specs.CodePieces.{is_letter as is_letter_kind, IsNameEnd, IsCodePieceAt};

use crate::signs::is_sign;
use ac_tokens::{Piece, Run, TokenFault, ascii_text, piece_at, run_length};
use ac_tree::{ByteKind, Keyword, LimitKind, Mark, Name, Span, Token};
use std::alloc::{AllocError, Global};

fn is_letter(kind: ByteKind) -> bool
    ensures { result ≡ is_letter_kind kind }
{
    matches!(kind, ByteKind::Letter)
}

/// Where the word ends whose first byte stands at a place.
fn word_end(bytes: &[u8], at: usize) -> usize
    requires { at < length bytes.now }
    ensures { IsRunFrom InName bytes.now (at + 1) result }
{
    at + 1 + run_length(Run::Name, &bytes[at + 1..])
}

/// Where the name ends that begins at a place. None: no name within the limit begins there.
fn name_end(bytes: &[u8], at: usize) -> Option<usize>
    ensures { IsNameEnd bytes.now at result }
{
    if at >= bytes.len() {
        return None;
    }
    if !is_letter(ByteKind::of(bytes[at])) {
        return None;
    }
    let end = word_end(bytes, at);
    let word = ascii_text(&bytes[at..end]);
    match Keyword::of(word) {
        Some(_) => None,
        None if word.len() as u64 > LimitKind::NameLength.number() => None,
        None => Some(end),
    }
}

/// The metavariable whose sign stands at a place. None: no name follows the sign.
fn metavariable_at(alloc: Global, bytes: &[u8], at: usize) -> Result<Option<Piece>, AllocError>
    requires within { at < length bytes.now }
    requires short { length bytes.now < 2 ^ 32 }
    requires sign { is_sign_byte (slice_index bytes.now at) ≡ true }
    ensures { IfOk result (λ piece. IsCodePieceAt bytes.now at piece) }
{
    let end = match name_end(bytes, at + 1) {
        None => return Ok(None),
        Some(end) => end,
    };
    let name = Name::new(alloc, ascii_text(&bytes[at..end]))?;
    let span = Span {
        start: at as u32,
        end: end as u32,
    };
    Ok(Some(Piece {
        token: Some(Token {
            mark: Mark::Name(name),
            span,
        }),
        end,
    }))
}

/// Nothing stands at a fault. Want of memory is no fault of the text.
fn nothing_at(fault: TokenFault) -> Result<Option<Piece>, AllocError>
    ensures { IfOk result (λ piece. (piece ≡ None) × (fault ≡ OutOfMemory → ⊥)) }
{
    match fault {
        TokenFault::OutOfMemory => Err(AllocError),
        TokenFault::Token { at: _ } | TokenFault::Literal { at: _ } | TokenFault::Name { at: _ } =>
            { Ok(None) }
    }
}

/// A piece of program text.
fn plain_at(alloc: Global, bytes: &[u8], at: usize) -> Result<Option<Piece>, AllocError>
    requires within { at < length bytes.now }
    requires short { length bytes.now < 2 ^ 32 }
    requires plain { is_sign_byte (slice_index bytes.now at) ≡ false }
    ensures { IfOk result (λ piece. IsCodePieceAt bytes.now at piece) }
{
    match piece_at(alloc, bytes, at) {
        Ok(piece) => Ok(Some(piece)),
        Err(fault) => nothing_at(fault),
    }
}

fn code_piece_at(alloc: Global, bytes: &[u8], at: usize) -> Result<Option<Piece>, AllocError>
    requires within { at < length bytes.now }
    requires short { length bytes.now < 2 ^ 32 }
    ensures { IfOk result (λ piece. IsCodePieceAt bytes.now at piece) }
{
    if is_sign(bytes[at]) {
        metavariable_at(alloc, bytes, at)
    } else {
        plain_at(alloc, bytes, at)
    }
}

fn push_token(tokens: &mut Vec<Token>, token: Option<Token>) -> Result<(), AllocError>
    ensures { OnOk result (tokens.new.items ≡ tokens.old.items ++ option_to_list token) }
{
    if let Some(token) = token {
        tokens.push(token)?;
    }
    Ok(())
}

/// The tokens of a code's text in order, blanks and comments left out. None: it is not cut into tokens within the limits on
/// literals and names.
pub fn code_tokens(alloc: Global, text: &str) -> Result<Option<Vec<Token>>, AllocError>
    requires { length text.now < 2 ^ 32 }
    ensures { IfOk result (λ tokens. MatchOption tokens (IsCutNowhere text.now) (λ ts. CutsCode 0 text.now ts.items)) }
{
    let bytes = text.as_bytes();
    let mut tokens = Vec::new(alloc);
    let mut at = 0;
    while at < bytes.len() {
        match code_piece_at(alloc, bytes, at)? {
            None => return Ok(None),
            Some(piece) => {
                at = piece.end;
                push_token(&mut tokens, piece.token)?;
            }
        }
    }
    Ok(Some(tokens))
}
