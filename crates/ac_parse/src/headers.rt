//! The tokens of `for` before its ends, of `use` and of `skip`.

ghost use Rattle.std.specs.Prelude.{◌≡◌, IfOk};
ghost use Rattle.ac_parse.specs.ReadStatement.{for_name, for_assign, use_name, use_as, use_role, use_ends, skip_ends};

use crate::statement::{ExprUse, Frame, StmtReading, StmtState, at, end, evaluate, made};
use ac_expression_reader::expression::join;
use ac_expression_reader::refusal::{dismiss, give_up, refuse};
use ac_expression_reader::stack::Stack;
use ac_tree::{Keyword, Mark, Name, Sign, Span, Stmt, StmtKind, Token};
use sqlite_items::Items;
use std::alloc::{AllocError, Global};

/// The token behind `for`.
pub fn step_for(
    stack: Stack<Frame>,
    done: Items<Stmt>,
    start: Span,
    token: &Token,
) -> Result<Option<StmtReading>, AllocError>
    ensures { IfOk result (λ r. r ≡ for_name stack done start token.now.mark) }
{
    match &token.mark {
        Mark::Name(name) => match name.clone() {
            Ok(name) => Ok(at(stack, done, StmtState::ForName(start, name))),
            Err(error) => give_up((stack, done), error),
        },
        _ => refuse((stack, done)),
    }
}

/// The token behind the variable of a `for`.
pub fn step_for_name(
    alloc: Global,
    stack: Stack<Frame>,
    done: Items<Stmt>,
    start: Span,
    name: Name,
    token: &Token,
) -> Option<StmtReading>
    ensures { result ≡ for_assign stack done start name token.now.mark }
{
    match &token.mark {
        Mark::Sign(Sign::Assign) => evaluate(alloc, stack, done, ExprUse::Low(start, name)),
        _ => dismiss((stack, done, name)),
    }
}

/// The token behind `use`.
pub fn step_use(
    stack: Stack<Frame>,
    done: Items<Stmt>,
    start: Span,
    token: &Token,
) -> Result<Option<StmtReading>, AllocError>
    ensures { IfOk result (λ r. r ≡ use_name stack done start token.now.mark) }
{
    match &token.mark {
        Mark::Name(name) => match name.clone() {
            Ok(name) => Ok(at(stack, done, StmtState::UseName(start, name))),
            Err(error) => give_up((stack, done), error),
        },
        _ => refuse((stack, done)),
    }
}

/// The token behind the name that a `use` hands over.
pub fn step_use_name(
    stack: Stack<Frame>,
    done: Items<Stmt>,
    start: Span,
    name: Name,
    token: &Token,
) -> Option<StmtReading>
    ensures { result ≡ use_as stack done start name token.now.mark }
{
    match &token.mark {
        Mark::Keyword(Keyword::As) => at(stack, done, StmtState::UseAs(start, name)),
        _ => dismiss((stack, done, name)),
    }
}

/// The token behind `as`.
pub fn step_use_as(
    stack: Stack<Frame>,
    done: Items<Stmt>,
    start: Span,
    name: Name,
    token: &Token,
) -> Result<Option<StmtReading>, AllocError>
    ensures { IfOk result (λ r. r ≡ use_role stack done start name token.now.mark) }
{
    match &token.mark {
        Mark::Name(role) => match role.clone() {
            Ok(role) => Ok(at(stack, done, StmtState::UseRole(start, name, role))),
            Err(error) => give_up((stack, done, name), error),
        },
        _ => refuse((stack, done, name)),
    }
}

/// The token behind the role of a `use`.
pub fn step_use_role(
    stack: Stack<Frame>,
    done: Items<Stmt>,
    start: Span,
    name: Name,
    role: Name,
    token: &Token,
) -> Result<Option<StmtReading>, AllocError>
    ensures { IfOk result (λ r. r ≡ use_ends stack done start name role token.now.span token.now.mark) }
{
    match &token.mark {
        Mark::Sign(Sign::Semicolon) => end(
            stack,
            done,
            made(join(start, token.span), StmtKind::Hand { name, role }),
        ),
        _ => refuse((stack, done, name, role)),
    }
}

/// The token behind `skip`.
pub fn step_skip(
    stack: Stack<Frame>,
    done: Items<Stmt>,
    start: Span,
    token: &Token,
) -> Result<Option<StmtReading>, AllocError>
    ensures { IfOk result (λ r. r ≡ skip_ends stack done start token.now.span token.now.mark) }
{
    match &token.mark {
        Mark::Sign(Sign::Semicolon) => end(
            stack,
            done,
            made(join(start, token.span), StmtKind::Skip),
        ),
        _ => refuse((stack, done)),
    }
}
