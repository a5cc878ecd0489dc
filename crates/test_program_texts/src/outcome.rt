//! What texts of programs come to, and the texts of tables.
use ac_parse::{ParseFault, parse};
use ac_tree::LimitKind;
use std::alloc::{AllocError, Global};
use std::process::Abort;

/// What a text is, or why and where it is no program.
#[derive(Clone, Copy, Debug, PartialEq, Eq)]
pub enum Outcome {
    Whole,
    NotUtf8(usize),
    Token(usize),
    Unexpected(usize, usize),
    Limit(LimitKind, u64),
    OutOfMemory,
}

pub const LITERAL_LIMIT: Outcome = Outcome::Limit(LimitKind::Literal, 1_000_000_000_000);

pub const NAME_LIMIT: Outcome = Outcome::Limit(LimitKind::NameLength, 32);

pub const NESTING_LIMIT: Outcome = Outcome::Limit(LimitKind::Nesting, 64);

pub const OPERATORS_LIMIT: Outcome = Outcome::Limit(LimitKind::Operators, 256);

pub const NODES_LIMIT: Outcome = Outcome::Limit(LimitKind::Nodes, 50_000);

pub const BYTES_LIMIT: Outcome = Outcome::Limit(LimitKind::ProgramBytes, 1_048_576);

pub fn outcome_of(alloc: Global, bytes: &[u8]) -> Outcome {
    match parse(alloc, bytes) {
        Ok(_) => Outcome::Whole,
        Err(ParseFault::NotUtf8 { at }) => Outcome::NotUtf8(at as usize),
        Err(ParseFault::Token { at }) => Outcome::Token(at as usize),
        Err(ParseFault::Unexpected { span }) => Outcome::Unexpected(
            span.start as usize,
            span.end as usize,
        ),
        Err(ParseFault::Limit { which, value }) => Outcome::Limit(which, value),
        Err(ParseFault::OutOfMemory) => Outcome::OutOfMemory,
    }
}

/// One token of each kind.
pub const KINDS: &str =
    "q 7 all and as begin const do else end false for if implies init input not or put skip then to true use var while ( ) [ ] { } , ; : := .. + - * = <> < <= > >=";

/// The kinds of tokens that a word of a table stands for. A word in capitals stands for those with which a part begins.
fn kinds_in(word: &str) -> &str {
    match word {
        "DECLARATION" => "const input var",
        "EXTENT" => "q 7",
        "NUMBER" => "7 -",
        "STATEMENT" => "q if for while use skip",
        "ATOM" => "q 7 (",
        "OPERAND" => "q 7 - (",
        "TEST" => "q 7 - ( { not true false",
        "OPERATOR" => "+ - *",
        "RELATION" => "= <> < <= > >=",
        kind => kind,
    }
}

/// Whether a word of a table stands for a token, among others.
pub fn stands_for(word: &str, token: &str) -> bool {
    kinds_in(word).split_whitespace().any(|kind| kind == token)
}

/// A text: how it begins, a part that stands behind that so many times, and how it ends.
pub type Repeated<'a> = (&'a str, &'a str, u64, &'a str);

pub fn repeated(
    alloc: Global,
    (before, part, count, after): Repeated<'_>,
) -> Result<String, AllocError> {
    let mut text = String::from_str(alloc, before)?;
    for _ in 0..count {
        text.push_str(part)?;
    }
    text.push_str(after)?;
    Ok(text)
}

pub fn comes_to<R: Abort>(
    rt: &R,
    alloc: Global,
    parts: Repeated<'_>,
    expected: Outcome,
) -> Result<(), AllocError> {
    let text = repeated(alloc, parts)?;
    assert_eq!(rt;
        outcome_of(alloc, text.as_bytes()),
        expected,
        "on {parts:?}"
    );
    Ok(())
}
