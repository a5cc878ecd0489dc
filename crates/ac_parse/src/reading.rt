//! Reading the tokens of a program within the limits on nesting and operators.
ghost use Rattle.std.specs.Prelude.{◌≡◌, ◌<◌, ◌^◌, ℕ, length, IfOk};
ghost use Rattle.ac_parse.specs.Limits.{nested, operated};
ghost use Rattle.ac_parse.specs.ReadTokens.{read_all};
ghost use Rattle.ac_tokens.specs.TokenFaults.{AreWithinLimits};

use crate::declaration;
use crate::refusal::Refusal;
use ac_tree::{Keyword, LimitKind, Mark, Program, Sign, Span, Token};
use std::alloc::{AllocError, Global};

/// How many constructs are open behind a token.
pub fn nest(depth: u64, mark: &Mark) -> u64
    requires { depth < 2 ^ 32 }
    ensures { result ≡ nested depth mark.now }
{
    match mark {
        Mark::Sign(Sign::OpenParen | Sign::OpenBracket | Sign::OpenBrace) => depth + 1,
        Mark::Keyword(Keyword::If | Keyword::For | Keyword::While) => depth + 1,
        Mark::Sign(Sign::CloseParen | Sign::CloseBracket | Sign::CloseBrace) =>
            depth.saturating_sub(1),
        Mark::Keyword(Keyword::End) => depth.saturating_sub(1),
        _ => depth,
    }
}

/// How many operators stand in one place behind a token.
pub fn operate(operators: u64, mark: &Mark) -> u64
    requires { operators < 2 ^ 32 }
    ensures { result ≡ operated operators mark.now }
{
    match mark {
        Mark::Sign(Sign::Plus | Sign::Minus | Sign::Star) => operators + 1,
        Mark::Keyword(Keyword::And | Keyword::Or) => operators + 1,
        Mark::Sign(Sign::Semicolon) => 0,
        Mark::Keyword(
            Keyword::Then
            | Keyword::Else
            | Keyword::Do
            | Keyword::To
            | Keyword::Begin
            | Keyword::End,
        ) => 0,
        _ => operators,
    }
}

/// The program that the tokens of a text of so many bytes spell, its nodes not numbered, or where and why reading stops.
pub fn read(
    alloc: Global,
    tokens: &[Token],
    bytes: u32,
) -> Result<Result<Program, Refusal>, AllocError>
    requires { AreWithinLimits tokens.now }
    ensures { IfOk result (λ r. r ≡ read_all bytes tokens.now) }
{
    let mut reading = declaration::begin(alloc);
    let mut depth = 0u64;
    let mut operators = 0u64;
    for i in 0..tokens.len() {
        let token = &tokens[i];
        depth = nest(depth, &token.mark);
        operators = operate(operators, &token.mark);
        if depth > LimitKind::Nesting.number() {
            drop(reading);
            return Ok(Err(Refusal::Nesting));
        }
        if operators > LimitKind::Operators.number() {
            drop(reading);
            return Ok(Err(Refusal::Operators));
        }
        match declaration::step(alloc, reading, token)? {
            None => return Ok(Err(Refusal::Unexpected(token.span))),
            Some(next) => reading = next,
        }
    }
    match declaration::finish(reading) {
        None => Ok(Err(Refusal::Unexpected(Span {
            start: bytes,
            end: bytes,
        }))),
        Some(program) => Ok(Ok(program)),
    }
}
