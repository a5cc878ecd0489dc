//! The machine that reads the tokens of statements forwards.
ghost use Rattle.std.specs.Prelude.{◌≡◌, [], ◌∷◌, ◌++◌, IfOk, Some, None};
ghost use Rattle.ac_tree.specs.Grammar.{statement as statement_of};
ghost use Rattle.ac_expression_reader.specs.Steps.{taken, passed};
ghost use Rattle.ac_expression_reader.specs.ReadExpression as expression_of;
ghost use Rattle.ac_expression_reader.specs.ReadCondition as condition_of;
ghost use Rattle.ac_parse.specs.ReadStatement.{reading as reading_of, ended, opened, finished, ending, turned, turning, between, evaluating, testing, naming, indexing, value_ends, first_ends, second_ends, cell_ends, low_ends, high_ends, behind as behind_use, then_comes, do_comes, tested, step as step_of, step_at, value as value_of, value_at, is_open as is_open_of, is_own as is_own_mark, start as start_of};

use crate::begun::{Begun, Halfway};
use crate::headers;
use ac_expression_reader::children::box_two;
use ac_expression_reader::condition::{CondReading, Test};
use ac_expression_reader::expression::{Operand, Reading, join, unnumbered};
use ac_expression_reader::refusal::{dismiss, give_up, refuse};
use ac_expression_reader::stack::Stack;
use ac_expression_reader::{condition, expression};
use ac_tree::{Cond, Expr, Index, Keyword, Mark, Name, Sign, Span, Stmt, StmtKind, Token};
use sqlite_items::{Boxed, Items};
use std::alloc::{AllocError, Global};

/// What an expression of a statement is for: the value of an assignment to a scalar, an index, the value of an assignment to
/// a cell, or an end of a `for`.
#[derive(Drop)]
pub enum ExprUse {
    Value(Name, Span),
    First(Name, Span),
    Second(Name, Span, Expr),
    Cell(Name, Span, Index),
    Low(Span, Name),
    High(Span, Name, Expr),
}

/// The statement whose test a condition is.
#[derive(Drop)]
pub enum CondUse {
    If(Span),
    While(Span),
}

/// Where the innermost block has come to: between statements, or inside one.
#[derive(Drop)]
pub enum StmtState {
    Between,
    Named(Name, Span),
    Indexed(Name, Span, Index),
    Expression(ExprUse, Reading),
    Condition(CondUse, CondReading),
    For(Span),
    ForName(Span, Name),
    Use(Span),
    UseName(Span, Name),
    UseAs(Span, Name),
    UseRole(Span, Name, Name),
    Skip(Span),
}

/// A statement whose block is being read.
#[derive(Drop)]
pub enum OpenStmt {
    Yes(Span, Cond),
    No(Span, Cond, Items<Stmt>),
    ForBody(Span, Name, Expr, Expr),
    WhileBody(Span, Cond),
}

/// A statement whose block is being read, and the statements before it.
#[derive(Drop)]
pub struct Frame {
    pub before: Items<Stmt>,
    pub within: OpenStmt,
}

/// A block that is being read.
#[derive(Drop)]
pub struct StmtReading {
    pub stack: Stack<Frame>,
    pub done: Items<Stmt>,
    pub state: StmtState,
}

/// A statement whose node has no number yet.
pub fn made(span: Span, kind: StmtKind) -> Stmt
    ensures { result ≡ statement_of span kind }
{
    let node = unnumbered(span);
    Stmt { node, kind }
}

/// The beginning of a block.
pub fn begin(alloc: Global) -> StmtReading
    ensures { result ≡ start_of }
{
    StmtReading {
        stack: Stack::new(alloc),
        done: Items::new(alloc),
        state: StmtState::Between,
    }
}

/// A block that has come to a state.
pub fn at(stack: Stack<Frame>, done: Items<Stmt>, state: StmtState) -> Option<StmtReading>
    ensures { result ≡ Some (reading_of stack done state) }
{
    Some(StmtReading { stack, done, state })
}

/// A statement is whole.
pub fn end(
    stack: Stack<Frame>,
    done: Items<Stmt>,
    statement: Stmt,
) -> Result<Option<StmtReading>, AllocError>
    ensures { IfOk result (λ r. r ≡ Some (reading_of stack (done ++ statement ∷ []) StmtState.Between)) }
{
    let mut done = done;
    match done.push(statement) {
        Ok(()) => Ok(at(stack, done, StmtState::Between)),
        Err(error) => give_up((stack, done), error),
    }
}

/// A block begins.
fn open(
    alloc: Global,
    stack: Stack<Frame>,
    before: Items<Stmt>,
    within: OpenStmt,
) -> Result<Option<StmtReading>, AllocError>
    ensures { IfOk result (λ r. r ≡ Some (opened stack before within)) }
{
    let mut stack = stack;
    match stack.push(Frame { before, within }) {
        Ok(()) => Ok(at(stack, Items::new(alloc), StmtState::Between)),
        Err(error) => give_up(stack, error),
    }
}

/// An expression begins.
pub fn evaluate(
    alloc: Global,
    stack: Stack<Frame>,
    done: Items<Stmt>,
    purpose: ExprUse,
) -> Option<StmtReading>
    ensures { result ≡ Some (reading_of stack done (StmtState.Expression purpose expression_of.start)) }
{
    at(
        stack,
        done,
        StmtState::Expression(purpose, expression::begin(alloc)),
    )
}

/// A test begins.
fn test(
    alloc: Global,
    stack: Stack<Frame>,
    done: Items<Stmt>,
    purpose: CondUse,
) -> Option<StmtReading>
    ensures { result ≡ Some (reading_of stack done (StmtState.Condition purpose condition_of.start)) }
{
    at(
        stack,
        done,
        StmtState::Condition(purpose, condition::begin(alloc)),
    )
}

fn close(alloc: Global, within: OpenStmt, end: Span, block: Items<Stmt>) -> Stmt
    ensures { result ≡ finished within end block }
{
    match within {
        OpenStmt::Yes(start, test) => made(
            join(start, end),
            StmtKind::If {
                test,
                yes: block,
                no: Items::new(alloc),
            },
        ),
        OpenStmt::No(start, test, yes) => made(
            join(start, end),
            StmtKind::If {
                test,
                yes,
                no: block,
            },
        ),
        OpenStmt::ForBody(start, name, lo, hi) => made(
            join(start, end),
            StmtKind::For {
                name,
                lo,
                hi,
                body: block,
            },
        ),
        OpenStmt::WhileBody(start, test) => made(
            join(start, end),
            StmtKind::While { test, body: block },
        ),
    }
}

/// `end` behind a block.
fn step_end(
    alloc: Global,
    stack: Stack<Frame>,
    done: Items<Stmt>,
    at: Span,
) -> Result<Option<StmtReading>, AllocError>
    ensures { IfOk result (λ r. r ≡ ending stack done at) }
{
    let mut stack = stack;
    match stack.pop() {
        None => refuse((stack, done)),
        Some(frame) => {
            let statement = close(alloc, frame.within, at, done);
            end(stack, frame.before, statement)
        }
    }
}

fn turn(
    alloc: Global,
    stack: Stack<Frame>,
    before: Items<Stmt>,
    within: OpenStmt,
    done: Items<Stmt>,
) -> Result<Option<StmtReading>, AllocError>
    ensures { IfOk result (λ r. r ≡ turned stack before within done) }
{
    match within {
        OpenStmt::Yes(start, test) => open(alloc, stack, before, OpenStmt::No(start, test, done)),
        other => refuse((stack, before, other, done)),
    }
}

/// `else` behind a block.
fn step_else(
    alloc: Global,
    stack: Stack<Frame>,
    done: Items<Stmt>,
) -> Result<Option<StmtReading>, AllocError>
    ensures { IfOk result (λ r. r ≡ turning stack done) }
{
    let mut stack = stack;
    match stack.pop() {
        None => refuse((stack, done)),
        Some(frame) => turn(alloc, stack, frame.before, frame.within, done),
    }
}

/// A token between statements.
fn step_between(
    alloc: Global,
    stack: Stack<Frame>,
    done: Items<Stmt>,
    token: &Token,
) -> Result<Option<StmtReading>, AllocError>
    ensures { IfOk result (λ r. r ≡ between stack done token.now.span token.now.mark) }
{
    match &token.mark {
        Mark::Name(name) => match name.clone() {
            Ok(name) => Ok(at(stack, done, StmtState::Named(name, token.span))),
            Err(error) => give_up((stack, done), error),
        },
        Mark::Keyword(Keyword::If) => Ok(test(alloc, stack, done, CondUse::If(token.span))),
        Mark::Keyword(Keyword::While) => Ok(test(alloc, stack, done, CondUse::While(token.span))),
        Mark::Keyword(Keyword::For) => Ok(at(stack, done, StmtState::For(token.span))),
        Mark::Keyword(Keyword::Use) => Ok(at(stack, done, StmtState::Use(token.span))),
        Mark::Keyword(Keyword::Skip) => Ok(at(stack, done, StmtState::Skip(token.span))),
        Mark::Keyword(Keyword::Else) => step_else(alloc, stack, done),
        Mark::Keyword(Keyword::End) => step_end(alloc, stack, done, token.span),
        _ => refuse((stack, done)),
    }
}

fn step_named(
    alloc: Global,
    stack: Stack<Frame>,
    done: Items<Stmt>,
    name: Name,
    start: Span,
    token: &Token,
) -> Option<StmtReading>
    ensures { result ≡ naming stack done name start token.now.mark }
{
    match &token.mark {
        Mark::Sign(Sign::Assign) => evaluate(alloc, stack, done, ExprUse::Value(name, start)),
        Mark::Sign(Sign::OpenBracket) => evaluate(alloc, stack, done, ExprUse::First(name, start)),
        _ => dismiss((stack, done, name)),
    }
}

fn step_indexed(
    alloc: Global,
    stack: Stack<Frame>,
    done: Items<Stmt>,
    begun: Begun,
    index: Index,
    token: &Token,
) -> Option<StmtReading>
    ensures { result ≡ indexing stack done begun.name begun.start index token.now.mark }
{
    let Begun { start, name } = begun;
    match &token.mark {
        Mark::Sign(Sign::Assign) => evaluate(alloc, stack, done, ExprUse::Cell(name, start, index)),
        _ => dismiss((stack, done, name, index)),
    }
}

fn end_value(
    stack: Stack<Frame>,
    done: Items<Stmt>,
    name: Name,
    start: Span,
    x: Operand,
    token: &Token,
) -> Result<Option<StmtReading>, AllocError>
    ensures { IfOk result (λ r. r ≡ value_ends stack done name start x token.now.span token.now.mark) }
{
    match &token.mark {
        Mark::Sign(Sign::Semicolon) => end(
            stack,
            done,
            made(
                join(start, token.span),
                StmtKind::Set {
                    name,
                    value: x.expr,
                },
            ),
        ),
        _ => refuse((stack, done, name, x)),
    }
}

fn end_first(
    alloc: Global,
    stack: Stack<Frame>,
    done: Items<Stmt>,
    begun: Begun,
    x: Operand,
    token: &Token,
) -> Result<Option<StmtReading>, AllocError>
    ensures { IfOk result (λ r. r ≡ first_ends stack done begun.name begun.start x token.now.mark) }
{
    let Begun { start, name } = begun;
    match &token.mark {
        Mark::Sign(Sign::CloseBracket) => match Boxed::new(alloc, x.expr) {
            Ok(index) => Ok(at(
                stack,
                done,
                StmtState::Indexed(name, start, Index::One(index)),
            )),
            Err(error) => give_up((stack, done, name), error),
        },
        Mark::Sign(Sign::Comma) => Ok(evaluate(
            alloc,
            stack,
            done,
            ExprUse::Second(name, start, x.expr),
        )),
        _ => refuse((stack, done, name, x)),
    }
}

fn end_second(
    alloc: Global,
    stack: Stack<Frame>,
    done: Items<Stmt>,
    halfway: Halfway,
    x: Operand,
    token: &Token,
) -> Result<Option<StmtReading>, AllocError>
    ensures { IfOk result (λ r. r ≡ second_ends stack done halfway.name halfway.start halfway.first x token.now.mark) }
{
    let Halfway { start, name, first } = halfway;
    match &token.mark {
        Mark::Sign(Sign::CloseBracket) => match box_two(alloc, first, x.expr) {
            Ok((first, second)) => Ok(at(
                stack,
                done,
                StmtState::Indexed(name, start, Index::Two(first, second)),
            )),
            Err(error) => give_up((stack, done, name), error),
        },
        _ => refuse((stack, done, name, first, x)),
    }
}

fn end_cell(
    stack: Stack<Frame>,
    done: Items<Stmt>,
    begun: Begun,
    index: Index,
    x: Operand,
    token: &Token,
) -> Result<Option<StmtReading>, AllocError>
    ensures { IfOk result (λ r. r ≡ cell_ends stack done begun.name begun.start index x token.now.span token.now.mark) }
{
    let Begun { start, name } = begun;
    match &token.mark {
        Mark::Sign(Sign::Semicolon) => end(
            stack,
            done,
            made(
                join(start, token.span),
                StmtKind::Put {
                    name,
                    index,
                    value: x.expr,
                },
            ),
        ),
        _ => refuse((stack, done, name, index, x)),
    }
}

fn end_low(
    alloc: Global,
    stack: Stack<Frame>,
    done: Items<Stmt>,
    begun: Begun,
    x: Operand,
    token: &Token,
) -> Option<StmtReading>
    ensures { result ≡ low_ends stack done begun.start begun.name x token.now.mark }
{
    let Begun { start, name } = begun;
    match &token.mark {
        Mark::Keyword(Keyword::To) => evaluate(
            alloc,
            stack,
            done,
            ExprUse::High(start, name, x.expr),
        ),
        _ => dismiss((stack, done, name, x)),
    }
}

fn end_high(
    alloc: Global,
    stack: Stack<Frame>,
    done: Items<Stmt>,
    halfway: Halfway,
    x: Operand,
    token: &Token,
) -> Result<Option<StmtReading>, AllocError>
    ensures { IfOk result (λ r. r ≡ high_ends stack done halfway.start halfway.name halfway.first x token.now.mark) }
{
    let Halfway { start, name, first } = halfway;
    match &token.mark {
        Mark::Keyword(Keyword::Do) => open(
            alloc,
            stack,
            done,
            OpenStmt::ForBody(start, name, first, x.expr),
        ),
        _ => refuse((stack, done, name, first, x)),
    }
}

/// The token behind an expression.
fn behind(
    alloc: Global,
    stack: Stack<Frame>,
    done: Items<Stmt>,
    purpose: ExprUse,
    x: Operand,
    token: &Token,
) -> Result<Option<StmtReading>, AllocError>
    ensures { IfOk result (λ r. r ≡ behind_use stack done purpose token.now.span token.now.mark x) }
{
    match purpose {
        ExprUse::Value(name, start) => end_value(stack, done, name, start, x, token),
        ExprUse::First(name, start) => {
            end_first(alloc, stack, done, Begun { start, name }, x, token)
        }
        ExprUse::Second(name, start, first) => end_second(
            alloc,
            stack,
            done,
            Halfway { start, name, first },
            x,
            token,
        ),
        ExprUse::Cell(name, start, index) => {
            end_cell(stack, done, Begun { start, name }, index, x, token)
        }
        ExprUse::Low(start, name) => Ok(end_low(
            alloc,
            stack,
            done,
            Begun { start, name },
            x,
            token,
        )),
        ExprUse::High(start, name, first) => end_high(
            alloc,
            stack,
            done,
            Halfway { start, name, first },
            x,
            token,
        ),
    }
}

/// A token of an expression itself.
fn step_within(
    alloc: Global,
    stack: Stack<Frame>,
    done: Items<Stmt>,
    purpose: ExprUse,
    reading: Reading,
    token: &Token,
) -> Result<Option<StmtReading>, AllocError>
    ensures { IfOk result (λ r. r ≡ taken (evaluating stack done purpose) (expression_of.step reading token.now)) }
{
    match expression::step(alloc, reading, token) {
        Ok(Some(reading)) => Ok(at(stack, done, StmtState::Expression(purpose, reading))),
        Ok(None) => refuse((stack, done, purpose)),
        Err(error) => give_up((stack, done, purpose), error),
    }
}

/// The first token that is not the expression's own.
fn step_past(
    alloc: Global,
    stack: Stack<Frame>,
    done: Items<Stmt>,
    purpose: ExprUse,
    reading: Reading,
    token: &Token,
) -> Result<Option<StmtReading>, AllocError>
    ensures { IfOk result (λ r. r ≡ passed (behind_use stack done purpose token.now.span token.now.mark) (expression_of.value reading)) }
{
    match expression::finish(alloc, reading) {
        Ok(Some(x)) => behind(alloc, stack, done, purpose, x, token),
        Ok(None) => refuse((stack, done, purpose)),
        Err(error) => give_up((stack, done, purpose), error),
    }
}

/// A token of an expression.
fn step_expression(
    alloc: Global,
    stack: Stack<Frame>,
    done: Items<Stmt>,
    purpose: ExprUse,
    reading: Reading,
    token: &Token,
) -> Result<Option<StmtReading>, AllocError>
    ensures { IfOk result (λ r. r ≡ step_at stack done (StmtState.Expression purpose reading) token.now) }
{
    if expression::is_own(&reading, token) {
        step_within(alloc, stack, done, purpose, reading, token)
    } else {
        step_past(alloc, stack, done, purpose, reading, token)
    }
}

fn expect_then(
    alloc: Global,
    stack: Stack<Frame>,
    done: Items<Stmt>,
    start: Span,
    test: Test,
    token: &Token,
) -> Result<Option<StmtReading>, AllocError>
    ensures { IfOk result (λ r. r ≡ then_comes stack done start test token.now.mark) }
{
    match &token.mark {
        Mark::Keyword(Keyword::Then) => open(alloc, stack, done, OpenStmt::Yes(start, test.cond)),
        _ => refuse((stack, done, test)),
    }
}

fn expect_do(
    alloc: Global,
    stack: Stack<Frame>,
    done: Items<Stmt>,
    start: Span,
    test: Test,
    token: &Token,
) -> Result<Option<StmtReading>, AllocError>
    ensures { IfOk result (λ r. r ≡ do_comes stack done start test token.now.mark) }
{
    match &token.mark {
        Mark::Keyword(Keyword::Do) => open(
            alloc,
            stack,
            done,
            OpenStmt::WhileBody(start, test.cond),
        ),
        _ => refuse((stack, done, test)),
    }
}

/// The token behind a test.
fn behind_test(
    alloc: Global,
    stack: Stack<Frame>,
    done: Items<Stmt>,
    purpose: CondUse,
    test: Test,
    token: &Token,
) -> Result<Option<StmtReading>, AllocError>
    ensures { IfOk result (λ r. r ≡ tested stack done purpose token.now.mark test) }
{
    match purpose {
        CondUse::If(start) => expect_then(alloc, stack, done, start, test, token),
        CondUse::While(start) => expect_do(alloc, stack, done, start, test, token),
    }
}

/// A token of a test itself.
fn step_test(
    alloc: Global,
    stack: Stack<Frame>,
    done: Items<Stmt>,
    purpose: CondUse,
    reading: CondReading,
    token: &Token,
) -> Result<Option<StmtReading>, AllocError>
    ensures { IfOk result (λ r. r ≡ taken (testing stack done purpose) (condition_of.step reading token.now)) }
{
    match condition::step(alloc, reading, token) {
        Ok(Some(reading)) => Ok(at(stack, done, StmtState::Condition(purpose, reading))),
        Ok(None) => refuse((stack, done)),
        Err(error) => give_up((stack, done), error),
    }
}

/// The first token that is not the test's own.
fn end_test(
    alloc: Global,
    stack: Stack<Frame>,
    done: Items<Stmt>,
    purpose: CondUse,
    reading: CondReading,
    token: &Token,
) -> Result<Option<StmtReading>, AllocError>
    ensures { IfOk result (λ r. r ≡ passed (tested stack done purpose token.now.mark) (condition_of.value reading)) }
{
    match condition::finish(alloc, reading) {
        Ok(Some(test)) => behind_test(alloc, stack, done, purpose, test, token),
        Ok(None) => refuse((stack, done)),
        Err(error) => give_up((stack, done), error),
    }
}

/// A token of a test.
fn step_condition(
    alloc: Global,
    stack: Stack<Frame>,
    done: Items<Stmt>,
    purpose: CondUse,
    reading: CondReading,
    token: &Token,
) -> Result<Option<StmtReading>, AllocError>
    ensures { IfOk result (λ r. r ≡ step_at stack done (StmtState.Condition purpose reading) token.now) }
{
    if condition::is_own(token) {
        step_test(alloc, stack, done, purpose, reading, token)
    } else {
        end_test(alloc, stack, done, purpose, reading, token)
    }
}

/// One token of the block. None: no block goes on with it.
pub fn step(
    alloc: Global,
    reading: StmtReading,
    token: &Token,
) -> Result<Option<StmtReading>, AllocError>
    ensures { IfOk result (λ r. r ≡ step_of reading token.now) }
{
    let StmtReading { stack, done, state } = reading;
    match state {
        StmtState::Between => step_between(alloc, stack, done, token),
        StmtState::Named(name, start) => Ok(step_named(alloc, stack, done, name, start, token)),
        StmtState::Indexed(name, start, index) => Ok(step_indexed(
            alloc,
            stack,
            done,
            Begun { start, name },
            index,
            token,
        )),
        StmtState::Expression(purpose, reading) => step_expression(
            alloc, stack, done, purpose, reading, token,
        ),
        StmtState::Condition(purpose, reading) => step_condition(
            alloc, stack, done, purpose, reading, token,
        ),
        StmtState::For(start) => headers::step_for(stack, done, start, token),
        StmtState::ForName(start, name) => Ok(headers::step_for_name(
            alloc, stack, done, start, name, token,
        )),
        StmtState::Use(start) => headers::step_use(stack, done, start, token),
        StmtState::UseName(start, name) => Ok(headers::step_use_name(
            stack, done, start, name, token,
        )),
        StmtState::UseAs(start, name) => headers::step_use_as(stack, done, start, name, token),
        StmtState::UseRole(start, name, role) => headers::step_use_role(
            stack, done, start, name, role, token,
        ),
        StmtState::Skip(start) => headers::step_skip(stack, done, start, token),
    }
}

/// The statements, if the last is whole.
fn settled(done: Items<Stmt>, state: StmtState) -> Option<Items<Stmt>>
    ensures { result ≡ value_at [] done state }
{
    match state {
        StmtState::Between => Some(done),
        other => dismiss((done, other)),
    }
}

/// The statements, if none is open.
pub fn finish(reading: StmtReading) -> Option<Items<Stmt>>
    ensures { result ≡ value_of reading }
{
    let StmtReading { stack, done, state } = reading;
    let whole = settled(done, state);
    if !stack.is_empty() {
        drop((stack, whole));
        return None;
    }
    drop(stack);
    whole
}

/// Whether a statement is open.
fn is_open(stack: &Stack<Frame>) -> bool
    ensures { result ≡ is_open_of stack.now }
{
    !stack.is_empty()
}

/// Whether the token is the block's own. Where no statement is open, `end` belongs to the program.
pub fn is_own(reading: &StmtReading, token: &Token) -> bool
    ensures { result ≡ is_own_mark reading.now.stack token.now.mark }
{
    match &token.mark {
        Mark::Keyword(Keyword::End) => is_open(&reading.stack),
        _ => true,
    }
}
