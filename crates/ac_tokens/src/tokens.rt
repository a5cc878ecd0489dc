//! The tokens of a text.
ghost use Rattle.std.specs.Prelude.{◌≡◌, ℕ, ◌+◌, ◌*◌, ◌-◌, ◌^◌, ◌<◌, ◌≤◌, ◌↔◌, List, [], ◌∷◌, ◌++◌, length, take, drop, slice_index, IsTrue, IfOk, IfErr, OnOk, IsUtf8, IsAscii, MatchOption, Some, None};
ghost use Rattle.std.specs.Str.{IsValidUpTo};
ghost use Rattle.std.specs.Option.{option_to_list};
ghost use Rattle.ac_tree.specs.declared.limit.LimitKind.TheVariants as limit;
ghost use Rattle.ac_tree.specs.Limits.{limit_of};
ghost use Rattle.ac_tree.specs.declared.token.ByteKind.TheVariants.{Letter, Digit, Hash};
ghost use Rattle.ac_tree.specs.Tokens.{kind_of_byte, number_of, Each, InNumber, token};
ghost use Rattle.ac_tokens.specs.declared.token_fault.TokenFault.TheVariants.{OutOfMemory};
ghost use Rattle.ac_tokens.specs.TokenFaults.{IsTokenized, IsFirstFault, FaultsAt};
ghost use Rattle.ac_tokens.specs.Runs.{GoesOn, IsRunFrom};
ghost use Rattle.ac_tokens.specs.Pieces.{IsNoWord, IsPiece};

use crate::run::{Run, run_length};
use crate::sign::joined_sign;
use crate::text::ascii_text;
use crate::token_fault::TokenFault;
use ac_tree::{ByteKind, Keyword, LimitKind, Mark, Name, Span, Token};
use std::alloc::Global;

/// A blank, a comment or a token, and where it ends.
#[derive(Drop)]
pub struct Piece {
    pub token: Option<Token>,
    pub end: usize,
}

/// The tokens of a text in order, blanks and comments left out, or its first fault.
pub fn tokenize(alloc: Global, text: &str) -> Result<Vec<Token>, TokenFault>
    requires { length text.now < 2 ^ 32 }
    ensures tokens { IfOk result (λ tokens. IsTokenized text.now tokens.items) }
    ensures fault { IfErr result (λ fault. IsFirstFault text.now fault) }
{
    let bytes = text.as_bytes();
    let mut tokens = Vec::new(alloc);
    let mut at = 0;
    while at < bytes.len() {
        let piece = piece_at(alloc, bytes, at)?;
        at = piece.end;
        push_token(&mut tokens, piece.token)?;
    }
    Ok(tokens)
}

fn push_token(tokens: &mut Vec<Token>, token: Option<Token>) -> Result<(), TokenFault>
    ensures pushed { OnOk result (tokens.new.items ≡ tokens.old.items ++ option_to_list token) }
    ensures full { IfErr result (λ fault. fault ≡ OutOfMemory) }
{
    if let Some(token) = token {
        tokens.push(token)?;
    }
    Ok(())
}

/// The piece at a place, whose bytes are at most one token, or why nothing within the limits begins there.
pub fn piece_at(alloc: Global, bytes: &[u8], at: usize) -> Result<Piece, TokenFault>
    requires within { at < length bytes.now }
    requires short { length bytes.now < 2 ^ 32 }
    ensures piece { IfOk result (λ piece. IsPiece bytes.now at piece) }
    ensures fault { IfErr result (λ fault. FaultsAt at (drop at bytes.now) fault) }
{
    match ByteKind::of(bytes[at]) {
        ByteKind::Blank | ByteKind::Newline => Ok(blank(at)),
        ByteKind::Hash => Ok(comment_at(bytes, at)),
        ByteKind::Letter => word_at(alloc, bytes, at),
        ByteKind::Digit => literal_at(bytes, at),
        _ => sign_at(bytes, at),
    }
}

fn blank(at: usize) -> Piece
    requires { at < 2 ^ 32 }
    ensures { result ≡ record { token = None; end = at + 1 } }
{
    Piece {
        token: None,
        end: at + 1,
    }
}

fn comment_at(bytes: &[u8], at: usize) -> Piece
    requires within { at < length bytes.now }
    requires hash { kind_of_byte (slice_index bytes.now at) ≡ Hash }
    ensures { IsPiece bytes.now at result }
{
    let end = run_end(bytes, at + 1, Run::Line);
    Piece { token: None, end }
}

fn word_at(alloc: Global, bytes: &[u8], at: usize) -> Result<Piece, TokenFault>
    requires within { at < length bytes.now }
    requires short { length bytes.now < 2 ^ 32 }
    requires letter { kind_of_byte (slice_index bytes.now at) ≡ Letter }
    ensures piece { IfOk result (λ piece. IsPiece bytes.now at piece) }
    ensures fault { IfErr result (λ fault. FaultsAt at (drop at bytes.now) fault) }
{
    let end = run_end(bytes, at + 1, Run::Name);
    let word = ascii_text(&bytes[at..end]);
    let mark = match Keyword::of(word) {
        Some(keyword) => Mark::Keyword(keyword),
        None if word.len() as u64 > LimitKind::NameLength.number() => return Err(TokenFault::Name {
            at: at as u32,
        }),
        None => Mark::Name(Name::new(alloc, word)?),
    };
    Ok(token_piece(mark, at, end))
}

fn literal_at(bytes: &[u8], at: usize) -> Result<Piece, TokenFault>
    requires within { at < length bytes.now }
    requires short { length bytes.now < 2 ^ 32 }
    requires digit { kind_of_byte (slice_index bytes.now at) ≡ Digit }
    ensures piece { IfOk result (λ piece. IsPiece bytes.now at piece) }
    ensures fault { IfErr result (λ fault. FaultsAt at (drop at bytes.now) fault) }
{
    let end = run_end(bytes, at + 1, Run::Number);
    if bytes[at] == b'0' && end > at + 1 {
        return Err(TokenFault::Token { at: at as u32 });
    }
    match small_number(&bytes[at..end]) {
        Some(number) => Ok(token_piece(Mark::Literal(number), at, end)),
        None => Err(TokenFault::Literal { at: at as u32 }),
    }
}

fn sign_at(bytes: &[u8], at: usize) -> Result<Piece, TokenFault>
    requires within { at < length bytes.now }
    requires short { length bytes.now < 2 ^ 32 }
    requires sign { IsNoWord (kind_of_byte (slice_index bytes.now at)) }
    ensures piece { IfOk result (λ piece. IsPiece bytes.now at piece) }
    ensures fault { IfErr result (λ fault. FaultsAt at (drop at bytes.now) fault) }
{
    let kind = ByteKind::of(bytes[at]);
    match (joined_sign(kind, &bytes[at + 1..]), kind) {
        (Some(sign), _) => Ok(token_piece(Mark::Sign(sign), at, at + 2)),
        (None, ByteKind::Lone(sign)) => Ok(token_piece(Mark::Sign(sign), at, at + 1)),
        (None, _) => Err(TokenFault::Token { at: at as u32 }),
    }
}

fn token_piece(mark: Mark, start: usize, end: usize) -> Piece
    requires start { start < 2 ^ 32 }
    requires end { end < 2 ^ 32 }
    ensures token { result.token ≡ Some (token mark start end) }
    ensures end { result.end ≡ end }
{
    let span = Span {
        start: start as u32,
        end: end as u32,
    };
    Piece {
        token: Some(Token { mark, span }),
        end,
    }
}

/// Where the run that goes on at a place ends.
fn run_end(bytes: &[u8], from: usize, run: Run) -> usize
    requires { from ≤ length bytes.now }
    ensures { IsRunFrom (GoesOn run) bytes.now from result }
{
    from + run_length(run, &bytes[from..])
}

/// The number that digits write, if it is within the limit on literals.
fn small_number(digits: &[u8]) -> Option<u64>
    requires { Each InNumber digits.now }
    ensures { MatchOption result (limit_of limit.Literal < number_of digits.now) (λ n. (n ≡ number_of digits.now) × (n ≤ limit_of limit.Literal)) }
{
    let mut number: u64 = 0;
    for digit in digits {
        number = number * 10 + u64::from(*digit - b'0');
        if number > LimitKind::Literal.number() {
            return None;
        }
    }
    Some(number)
}
