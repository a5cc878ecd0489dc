ghost use Rattle.std.specs.Prelude.{◌≡◌, [], ◌∷◌, IfOk, Some, None};
ghost use Rattle.ac_expression_reader.specs.ReadExpression as expression;
ghost use Rattle.ac_expression_reader.specs.Steps.{taken, passed};
ghost use Rattle.ac_expression_reader.specs.ReadCondition.{negated, joined, added, fresh, conjunct_of, compared, part_comes, closing, wanting, having, noting, comparing, relating, relation_of as relation_of_mark, behind as behind_side, step as step_of, step_at, value as value_of, value_at, whole, is_own as is_own_mark, start as start_of, made as test_of};

use crate::children::box_two;
use crate::expression;
use crate::expression::{Operand, Reading, join, unnumbered};
use crate::refusal::{dismiss, give_up, refuse};
use crate::stack::Stack;
use ac_tree::{Cond, CondKind, Keyword, Mark, RelOp, Sign, Span, Token};
use sqlite_items::Boxed;
use std::alloc::{AllocError, Global};

/// A condition with its outer span, which counts the braces round it.
#[derive(Drop)]
pub struct Test {
    pub span: Span,
    pub cond: Cond,
}

/// What has been read before a part that is still to come.
#[derive(Drop)]
pub struct Before {
    pub or: Option<Test>,
    pub and: Option<Test>,
    pub not: Option<Span>,
}

/// An open brace and what stands before it.
#[derive(Drop)]
pub struct Braced {
    pub at: Span,
    pub before: Before,
}

/// The side of a comparison that is being read.
#[derive(Drop)]
pub enum Side {
    Left,
    Right(RelOp, Operand),
}

/// Where the innermost brace has come to: before a part, in a comparison, or behind an operand of `and`.
#[derive(Drop)]
pub enum CondState {
    Wants(Before),
    Compares(Before, Side, Reading),
    Has(Option<Test>, Test),
}

/// A condition that is being read.
#[derive(Drop)]
pub struct CondReading {
    pub stack: Stack<Braced>,
    pub state: CondState,
}

fn made(span: Span, kind: CondKind) -> Test
    ensures { result ≡ test_of span kind }
{
    let node = unnumbered(span);
    Test {
        span,
        cond: Cond { node, kind },
    }
}

fn negate(alloc: Global, not: Option<Span>, x: Test) -> Result<Test, AllocError>
    ensures { IfOk result (λ r. r ≡ negated not x) }
{
    let Some(word) = not else { return Ok(x) };
    let span = join(word, x.span);
    let inner = Boxed::new(alloc, x.cond)?;
    Ok(made(span, CondKind::Not(inner)))
}

fn conjoin(alloc: Global, and: Option<Test>, x: Test) -> Result<Test, AllocError>
    ensures { IfOk result (λ r. r ≡ joined and x) }
{
    let Some(left) = and else { return Ok(x) };
    let span = join(left.span, x.span);
    let (left, right) = box_two(alloc, left.cond, x.cond)?;
    Ok(made(span, CondKind::And(left, right)))
}

fn add(alloc: Global, or: Option<Test>, x: Test) -> Result<Test, AllocError>
    ensures { IfOk result (λ r. r ≡ added or x) }
{
    let Some(left) = or else { return Ok(x) };
    let span = join(left.span, x.span);
    let (left, right) = box_two(alloc, left.cond, x.cond)?;
    Ok(made(span, CondKind::Or(left, right)))
}

/// The operand of `or` so far, when a part has come.
fn conjunct(
    alloc: Global,
    and: Option<Test>,
    not: Option<Span>,
    x: Test,
) -> Result<Test, AllocError>
    ensures { IfOk result (λ r. r ≡ joined and (negated not x)) }
{
    match negate(alloc, not, x) {
        Ok(x) => conjoin(alloc, and, x),
        Err(error) => give_up(and, error),
    }
}

/// The state when a part has come.
fn take_part(
    alloc: Global,
    stack: Stack<Braced>,
    before: Before,
    x: Test,
) -> Result<CondReading, AllocError>
    ensures { IfOk result (λ r. r ≡ part_comes stack before x) }
{
    let Before { or, and, not } = before;
    match conjunct(alloc, and, not, x) {
        Ok(x) => Ok(CondReading {
            stack,
            state: CondState::Has(or, x),
        }),
        Err(error) => give_up((stack, or), error),
    }
}

/// Nothing has been read.
fn nothing() -> Before
    ensures { result ≡ fresh }
{
    Before {
        or: None,
        and: None,
        not: None,
    }
}

/// The beginning of a condition.
pub fn begin(alloc: Global) -> CondReading
    ensures { result ≡ start_of }
{
    CondReading {
        stack: Stack::new(alloc),
        state: CondState::Wants(nothing()),
    }
}

/// A brace opens.
fn open(stack: Stack<Braced>, at: Span, before: Before) -> Result<CondReading, AllocError>
    ensures { IfOk result (λ r. r ≡ record { stack = record { at = at; before = before } ∷ stack; state = CondState.Wants fresh }) }
{
    let mut stack = stack;
    match stack.push(Braced { at, before }) {
        Ok(()) => Ok(CondReading {
            stack,
            state: CondState::Wants(nothing()),
        }),
        Err(error) => give_up(stack, error),
    }
}

fn close(
    alloc: Global,
    stack: Stack<Braced>,
    at: Span,
    x: Test,
) -> Result<Option<CondReading>, AllocError>
    ensures { IfOk result (λ r. r ≡ closing stack at x) }
{
    let mut stack = stack;
    match stack.pop() {
        None => refuse((stack, x)),
        Some(braced) => {
            let x = Test {
                span: join(braced.at, at),
                cond: x.cond,
            };
            Ok(Some(take_part(alloc, stack, braced.before, x)?))
        }
    }
}

/// The state before a part, behind `or` or `and`.
fn wants(stack: Stack<Braced>, or: Option<Test>, and: Option<Test>) -> CondReading
    ensures { result ≡ record { stack = stack; state = CondState.Wants (record { or = or; and = and; not = None }) } }
{
    CondReading {
        stack,
        state: CondState::Wants(Before { or, and, not: None }),
    }
}

/// A token behind an operand of `and`.
fn step_has(
    alloc: Global,
    stack: Stack<Braced>,
    or: Option<Test>,
    x: Test,
    token: &Token,
) -> Result<Option<CondReading>, AllocError>
    ensures { IfOk result (λ r. r ≡ having stack or x token.now.span token.now.mark) }
{
    match &token.mark {
        Mark::Keyword(Keyword::Or) => match add(alloc, or, x) {
            Ok(x) => Ok(Some(wants(stack, Some(x), None))),
            Err(error) => give_up(stack, error),
        },
        Mark::Keyword(Keyword::And) => Ok(Some(wants(stack, or, Some(x)))),
        Mark::Sign(Sign::CloseBrace) => match add(alloc, or, x) {
            Ok(x) => close(alloc, stack, token.span, x),
            Err(error) => give_up(stack, error),
        },
        _ => refuse((stack, or, x)),
    }
}

fn step_not(stack: Stack<Braced>, before: Before, at: Span) -> Option<CondReading>
    ensures { result ≡ noting stack before before.not at }
{
    let Before { or, and, not } = before;
    match not {
        None => Some(CondReading {
            stack,
            state: CondState::Wants(Before {
                or,
                and,
                not: Some(at),
            }),
        }),
        Some(_) => dismiss((stack, or, and)),
    }
}

/// The first token of a comparison.
fn begin_side(
    alloc: Global,
    stack: Stack<Braced>,
    before: Before,
    token: &Token,
) -> Result<Option<CondReading>, AllocError>
    ensures { IfOk result (λ r. r ≡ taken (comparing stack before Side.Left) (expression.wanting [] expression.fresh token.now.span token.now.mark)) }
{
    match expression::step_want(alloc, Stack::new(alloc), expression::nothing(), token) {
        Ok(Some(reading)) => Ok(Some(CondReading {
            stack,
            state: CondState::Compares(before, Side::Left, reading),
        })),
        Ok(None) => refuse((stack, before)),
        Err(error) => give_up((stack, before), error),
    }
}

/// A token before a part.
fn step_wants(
    alloc: Global,
    stack: Stack<Braced>,
    before: Before,
    token: &Token,
) -> Result<Option<CondReading>, AllocError>
    ensures { IfOk result (λ r. r ≡ wanting stack before token.now.span token.now.mark) }
{
    match &token.mark {
        Mark::Keyword(Keyword::True) => Ok(Some(take_part(
            alloc,
            stack,
            before,
            made(token.span, CondKind::True),
        )?)),
        Mark::Keyword(Keyword::False) => Ok(Some(take_part(
            alloc,
            stack,
            before,
            made(token.span, CondKind::False),
        )?)),
        Mark::Keyword(Keyword::Not) => Ok(step_not(stack, before, token.span)),
        Mark::Sign(Sign::OpenBrace) => Ok(Some(open(stack, token.span, before)?)),
        _ => begin_side(alloc, stack, before, token),
    }
}

fn relation_of(mark: &Mark) -> Option<RelOp>
    ensures { result ≡ relation_of_mark mark.now }
{
    match mark {
        Mark::Sign(Sign::Equal) => Some(RelOp::Eq),
        Mark::Sign(Sign::NotEqual) => Some(RelOp::Ne),
        Mark::Sign(Sign::Less) => Some(RelOp::Lt),
        Mark::Sign(Sign::LessEqual) => Some(RelOp::Le),
        Mark::Sign(Sign::Greater) => Some(RelOp::Gt),
        Mark::Sign(Sign::GreaterEqual) => Some(RelOp::Ge),
        _ => None,
    }
}

fn compare(
    alloc: Global,
    relation: RelOp,
    left: Operand,
    right: Operand,
) -> Result<Test, AllocError>
    ensures { IfOk result (λ r. r ≡ compared relation left right) }
{
    let span = join(left.span, right.span);
    let (left, right) = box_two(alloc, left.expr, right.expr)?;
    Ok(made(span, CondKind::Rel(relation, left, right)))
}

/// The token behind the right side of a comparison.
fn step_compared(
    alloc: Global,
    stack: Stack<Braced>,
    before: Before,
    x: Test,
    token: &Token,
) -> Result<Option<CondReading>, AllocError>
    ensures { IfOk result (λ r. r ≡ having stack before.or (conjunct_of before x) token.now.span token.now.mark) }
{
    let Before { or, and, not } = before;
    match conjunct(alloc, and, not, x) {
        Ok(x) => step_has(alloc, stack, or, x, token),
        Err(error) => give_up((stack, or), error),
    }
}

/// The right side of a comparison begins.
fn relate(
    alloc: Global,
    stack: Stack<Braced>,
    before: Before,
    left: Operand,
    relation: Option<RelOp>,
) -> Option<CondReading>
    ensures { result ≡ relating stack before left relation }
{
    match relation {
        None => dismiss((stack, before, left)),
        Some(relation) => {
            let side = Side::Right(relation, left);
            Some(CondReading {
                stack,
                state: CondState::Compares(before, side, expression::begin(alloc)),
            })
        }
    }
}

/// The token behind a side of a comparison.
fn behind(
    alloc: Global,
    stack: Stack<Braced>,
    before: Before,
    side: Side,
    x: Operand,
    token: &Token,
) -> Result<Option<CondReading>, AllocError>
    ensures { IfOk result (λ r. r ≡ behind_side stack before side token.now.span token.now.mark x) }
{
    match side {
        Side::Left => Ok(relate(alloc, stack, before, x, relation_of(&token.mark))),
        Side::Right(relation, left) => match compare(alloc, relation, left, x) {
            Ok(x) => step_compared(alloc, stack, before, x, token),
            Err(error) => give_up((stack, before), error),
        },
    }
}

/// A token of the comparison's side itself.
fn step_within(
    alloc: Global,
    stack: Stack<Braced>,
    before: Before,
    side: Side,
    reading: Reading,
    token: &Token,
) -> Result<Option<CondReading>, AllocError>
    ensures { IfOk result (λ r. r ≡ taken (comparing stack before side) (expression.step reading token.now)) }
{
    match expression::step(alloc, reading, token) {
        Ok(Some(reading)) => Ok(Some(CondReading {
            stack,
            state: CondState::Compares(before, side, reading),
        })),
        Ok(None) => refuse((stack, before, side)),
        Err(error) => give_up((stack, before, side), error),
    }
}

/// The first token that is not the side's own.
fn step_past(
    alloc: Global,
    stack: Stack<Braced>,
    before: Before,
    side: Side,
    reading: Reading,
    token: &Token,
) -> Result<Option<CondReading>, AllocError>
    ensures { IfOk result (λ r. r ≡ passed (behind_side stack before side token.now.span token.now.mark) (expression.value reading)) }
{
    match expression::finish(alloc, reading) {
        Ok(Some(x)) => behind(alloc, stack, before, side, x, token),
        Ok(None) => refuse((stack, before, side)),
        Err(error) => give_up((stack, before, side), error),
    }
}

/// A token of a comparison.
fn step_side(
    alloc: Global,
    stack: Stack<Braced>,
    before: Before,
    side: Side,
    reading: Reading,
    token: &Token,
) -> Result<Option<CondReading>, AllocError>
    ensures { IfOk result (λ r. r ≡ step_at stack (CondState.Compares before side reading) token.now) }
{
    if expression::is_own(&reading, token) {
        step_within(alloc, stack, before, side, reading, token)
    } else {
        step_past(alloc, stack, before, side, reading, token)
    }
}

/// One token of the condition. None: no condition goes on with it.
pub fn step(
    alloc: Global,
    reading: CondReading,
    token: &Token,
) -> Result<Option<CondReading>, AllocError>
    ensures { IfOk result (λ r. r ≡ step_of reading token.now) }
{
    let CondReading { stack, state } = reading;
    match state {
        CondState::Wants(before) => step_wants(alloc, stack, before, token),
        CondState::Compares(before, side, reading) => step_side(
            alloc, stack, before, side, reading, token,
        ),
        CondState::Has(or, x) => step_has(alloc, stack, or, x, token),
    }
}

/// The whole condition that ends with a comparison.
fn end_compared(alloc: Global, before: Before, x: Test) -> Result<Test, AllocError>
    ensures { IfOk result (λ r. r ≡ added before.or (conjunct_of before x)) }
{
    let Before { or, and, not } = before;
    match conjunct(alloc, and, not, x) {
        Ok(x) => add(alloc, or, x),
        Err(error) => give_up(or, error),
    }
}

/// The whole condition, if its comparison has a right side.
fn finish_right(
    alloc: Global,
    before: Before,
    relation: RelOp,
    left: Operand,
    right: Option<Operand>,
) -> Result<Option<Test>, AllocError>
    ensures { IfOk result (λ r. r ≡ whole before (Side.Right relation left) right) }
{
    let Some(right) = right else {
        return refuse((before, left))
    };
    match compare(alloc, relation, left, right) {
        Ok(x) => Ok(Some(end_compared(alloc, before, x)?)),
        Err(error) => give_up(before, error),
    }
}

/// The whole condition that ends with a side of a comparison.
fn finish_side(
    alloc: Global,
    before: Before,
    side: Side,
    x: Option<Operand>,
) -> Result<Option<Test>, AllocError>
    ensures { IfOk result (λ r. r ≡ whole before side x) }
{
    match side {
        Side::Right(relation, left) => finish_right(alloc, before, relation, left, x),
        other => refuse((before, other, x)),
    }
}

/// The whole condition, if nothing is missing.
fn end(alloc: Global, state: CondState) -> Result<Option<Test>, AllocError>
    ensures { IfOk result (λ r. r ≡ value_at [] state) }
{
    match state {
        CondState::Wants(before) => refuse(before),
        CondState::Compares(before, side, reading) => match expression::finish(alloc, reading) {
            Ok(x) => finish_side(alloc, before, side, x),
            Err(error) => give_up((before, side), error),
        },
        CondState::Has(or, x) => Ok(Some(add(alloc, or, x)?)),
    }
}

/// The whole condition, if no brace is open and nothing is missing.
pub fn finish(alloc: Global, reading: CondReading) -> Result<Option<Test>, AllocError>
    ensures { IfOk result (λ r. r ≡ value_of reading) }
{
    let CondReading { stack, state } = reading;
    if !stack.is_empty() {
        drop((stack, state));
        return Ok(None);
    }
    drop(stack);
    end(alloc, state)
}

/// Whether the token is the condition's own, or belongs to the statement.
pub fn is_own(token: &Token) -> bool
    ensures { result ≡ is_own_mark token.now.mark }
{
    !matches!(
        &token.mark,
        Mark::Keyword(Keyword::Then | Keyword::Do | Keyword::End)
    )
}
