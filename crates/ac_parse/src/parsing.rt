//! The program that bytes spell, or why they are refused.
ghost use Rattle.std.specs.Prelude.{◌≡◌, ◌≤◌, ℕ, List, length, IfOk, IfErr};
ghost use Rattle.ac_tree.specs.Limits.{limit_of};
ghost use Rattle.ac_parse.specs.Parsing.{IsShort, SpellsWithin, HasTokenFault, IsRefusedAfterCut, PassesLimit, IsParseFault};
ghost use Rattle.ac_parse.specs.declared.parsing.ParseFault.TheVariants.{OutOfMemory};

use crate::reading::read;
use crate::refusal::Refusal;
use ac_numbering::number;
use ac_tokens::{TokenFault, tokenize, utf8_text};
use ac_tree::{LimitKind, Program, Span, Token};
use std::alloc::{AllocError, Global};
use thiserror::Error;

/// Why a text is no program, with the place. Of a limit `value` is the greatest number that is allowed.
#[derive(Debug, Drop, Error)]
pub enum ParseFault {
    /// No character begins at this byte.
    #[error("not UTF-8 at {at}")]
    NotUtf8 { at: u32 },
    /// No token begins at this byte.
    #[error("token at {at}")]
    Token { at: u32 },
    /// No program continues at this token, or at the end of the text.
    #[error("unexpected token")]
    Unexpected { span: Span },
    /// A limit is passed.
    #[error("a limit is passed")]
    Limit { which: LimitKind, value: u64 },
    #[error("out of memory")]
    OutOfMemory,
}

impl From<AllocError> for ParseFault {
    ghost use Rattle.std.specs.Prelude.{◌≡◌};
    ghost use Rattle.ac_parse.specs.declared.parsing.ParseFault.TheVariants.{OutOfMemory};

    ghost from_gives = { λ _ e. e ≡ OutOfMemory };

    fn from(_error: AllocError) -> ParseFault {
        ParseFault::OutOfMemory
    }
}

/// The refusal where a limit is passed.
fn passed(which: LimitKind) -> ParseFault
    ensures { (bytes : List ℕ) → PassesLimit bytes which (limit_of which) → IsParseFault bytes result }
{
    ParseFault::Limit {
        which,
        value: which.number(),
    }
}

fn token_fault(fault: TokenFault) -> ParseFault
    ensures { (bytes : List ℕ) → IsShort bytes → HasTokenFault bytes fault → IsParseFault bytes result }
{
    match fault {
        TokenFault::Token { at } => ParseFault::Token { at },
        TokenFault::Literal { at: _ } => passed(LimitKind::Literal),
        TokenFault::Name { at: _ } => passed(LimitKind::NameLength),
        TokenFault::OutOfMemory => ParseFault::OutOfMemory,
    }
}

fn refused(refusal: Refusal) -> ParseFault
    ensures { (bytes : List ℕ) → IsShort bytes → IsRefusedAfterCut bytes refusal → IsParseFault bytes result }
{
    match refusal {
        Refusal::Nesting => passed(LimitKind::Nesting),
        Refusal::Operators => passed(LimitKind::Operators),
        Refusal::Unexpected(span) => ParseFault::Unexpected { span },
    }
}

/// The program that the bytes spell, if it is within the limits. Refusals come in this order: too many bytes; the first byte
/// that begins no character; the first byte at which no token begins, or a literal or a name passes its limit; the first
/// token at which the limit on nesting is passed, the limit on operators is passed, or no program continues, in this order
/// at one token; too many nodes.
pub fn parse(alloc: Global, bytes: &[u8]) -> Result<Program, ParseFault>
    ensures program { IfOk result (λ program. SpellsWithin bytes.now program) }
    ensures fault { IfErr result (λ fault. IsParseFault bytes.now fault) }
{
    if bytes.len() as u64 > LimitKind::ProgramBytes.number() {
        return Err(passed(LimitKind::ProgramBytes));
    }
    let text = match utf8_text(bytes) {
        Ok(text) => text,
        Err(at) => return Err(ParseFault::NotUtf8 { at }),
    };
    let tokens = match tokenize(alloc, text) {
        Ok(tokens) => tokens,
        Err(fault) => return Err(token_fault(fault)),
    };
    let tree = match read(alloc, tokens.as_slice(), bytes.len() as u32)? {
        Ok(tree) => tree,
        Err(refusal) => return Err(refused(refusal)),
    };
    match number(alloc, &tree)? {
        Some(program) => Ok(program),
        None => Err(passed(LimitKind::Nodes)),
    }
}
