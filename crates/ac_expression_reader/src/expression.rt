ghost use Rattle.std.specs.Prelude.{◌≡◌, [], ◌∷◌, IfOk, IsTrue, ◌↔◌, Some, None};
ghost use Rattle.ac_tree.specs.Grammar.{join as joined_span};
ghost use Rattle.ac_expression_reader.specs.ReadExpression.{negated, multiplied, added, fresh, term_of, atom_comes, close_paren, close_index, next_index, closing, closer, wanting, having, naming, signing, step as step_of, value as value_of, value_at, is_open as is_open_of, is_own as is_own_mark, reading as reading_of, made as operand_of};
ghost use Rattle.ac_tree.specs.declared.program.ExprKind.TheVariants as kind;
ghost use Rattle.ac_tree.specs.declared.program.Index.TheVariants as index;

use crate::children::box_two;
use crate::refusal::{dismiss, give_up, refuse};
use crate::stack::Stack;
use ac_tree::{Expr, ExprKind, Index, Mark, Name, Node, NodeId, Sign, Span, Token};
use sqlite_items::Boxed;
use std::alloc::{AllocError, Global};

/// An expression with its outer span, which counts the parentheses round it.
#[derive(Drop)]
pub struct Operand {
    pub span: Span,
    pub expr: Expr,
}

/// A sum or difference that waits for its right side.
#[derive(Drop)]
pub enum Adding {
    Nothing,
    Plus(Operand),
    Minus(Operand),
}

/// What has been read before an atom that is still to come.
#[derive(Drop)]
pub struct Pending {
    pub sum: Adding,
    pub product: Option<Operand>,
    pub minus: Option<Span>,
}

/// An open bracket: a parenthesis, or the first or second index of a read.
#[derive(Drop)]
pub enum Bracket {
    Parenthesis(Span),
    First(Name, Span),
    Second(Name, Span, Expr),
}

/// An open bracket and what stands before it.
#[derive(Drop)]
pub struct Opened {
    pub bracket: Bracket,
    pub before: Pending,
}

/// Where the innermost bracket has come to: before an atom, behind a name that may take an index, or behind a term.
#[derive(Drop)]
pub enum State {
    Want(Pending),
    Named(Pending, Name, Span),
    Have(Adding, Operand),
}

/// An expression that is being read.
#[derive(Drop)]
pub struct Reading {
    pub stack: Stack<Opened>,
    pub state: State,
}

/// From the first span to the last.
pub fn join(first: Span, last: Span) -> Span
    ensures { result ≡ joined_span first last }
{
    Span {
        start: first.start,
        end: last.end,
    }
}

/// A node that isn't numbered yet.
pub fn unnumbered(span: Span) -> Node
    ensures { result ≡ record { id = record { 0 = 0 }; span = span } }
{
    Node {
        id: NodeId(0),
        span,
    }
}

fn made(span: Span, kind: ExprKind) -> Operand
    ensures { result ≡ operand_of span kind }
{
    let node = unnumbered(span);
    Operand {
        span,
        expr: Expr { node, kind },
    }
}

fn negate(alloc: Global, minus: Option<Span>, x: Operand) -> Result<Operand, AllocError>
    ensures { IfOk result (λ r. r ≡ negated minus x) }
{
    let Some(sign) = minus else { return Ok(x) };
    let span = join(sign, x.span);
    let inner = Boxed::new(alloc, x.expr)?;
    Ok(made(span, ExprKind::Neg(inner)))
}

fn multiply(alloc: Global, product: Option<Operand>, x: Operand) -> Result<Operand, AllocError>
    ensures { IfOk result (λ r. r ≡ multiplied product x) }
{
    let Some(left) = product else { return Ok(x) };
    let span = join(left.span, x.span);
    let (left, right) = box_two(alloc, left.expr, x.expr)?;
    Ok(made(span, ExprKind::Mul(left, right)))
}

fn add(alloc: Global, sum: Adding, x: Operand) -> Result<Operand, AllocError>
    ensures { IfOk result (λ r. r ≡ added sum x) }
{
    match sum {
        Adding::Nothing => Ok(x),
        Adding::Plus(left) => {
            let span = join(left.span, x.span);
            let (left, right) = box_two(alloc, left.expr, x.expr)?;
            Ok(made(span, ExprKind::Add(left, right)))
        }
        Adding::Minus(left) => {
            let span = join(left.span, x.span);
            let (left, right) = box_two(alloc, left.expr, x.expr)?;
            Ok(made(span, ExprKind::Sub(left, right)))
        }
    }
}

/// The term so far, when an atom has come.
fn term(
    alloc: Global,
    product: Option<Operand>,
    minus: Option<Span>,
    x: Operand,
) -> Result<Operand, AllocError>
    ensures { IfOk result (λ r. r ≡ multiplied product (negated minus x)) }
{
    match negate(alloc, minus, x) {
        Ok(x) => multiply(alloc, product, x),
        Err(error) => give_up(product, error),
    }
}

/// The state when an atom has come.
fn take_atom(
    alloc: Global,
    stack: Stack<Opened>,
    before: Pending,
    x: Operand,
) -> Result<Reading, AllocError>
    ensures { IfOk result (λ r. r ≡ atom_comes stack before x) }
{
    let Pending {
        sum,
        product,
        minus,
    } = before;
    match term(alloc, product, minus, x) {
        Ok(x) => Ok(Reading {
            stack,
            state: State::Have(sum, x),
        }),
        Err(error) => give_up((stack, sum), error),
    }
}

/// Nothing has been read.
pub fn nothing() -> Pending
    ensures { result ≡ fresh }
{
    Pending {
        sum: Adding::Nothing,
        product: None,
        minus: None,
    }
}

/// The beginning of an expression.
pub fn begin(alloc: Global) -> Reading
    ensures { result ≡ reading_of [] (State.Want fresh) }
{
    Reading {
        stack: Stack::new(alloc),
        state: State::Want(nothing()),
    }
}

/// A bracket opens.
fn open(stack: Stack<Opened>, bracket: Bracket, before: Pending) -> Result<Reading, AllocError>
    ensures { IfOk result (λ r. r ≡ reading_of (record { bracket = bracket; before = before } ∷ stack) (State.Want fresh)) }
{
    let mut stack = stack;
    match stack.push(Opened { bracket, before }) {
        Ok(()) => Ok(Reading {
            stack,
            state: State::Want(nothing()),
        }),
        Err(error) => give_up(stack, error),
    }
}

fn close_parenthesis(
    alloc: Global,
    stack: Stack<Opened>,
    bracket: Bracket,
    before: Pending,
    close: Span,
    x: Operand,
) -> Result<Option<Reading>, AllocError>
    ensures { IfOk result (λ r. r ≡ close_paren stack bracket before close x) }
{
    match bracket {
        Bracket::Parenthesis(start) => {
            let x = Operand {
                span: join(start, close),
                expr: x.expr,
            };
            Ok(Some(take_atom(alloc, stack, before, x)?))
        }
        other => refuse((stack, other, before, x)),
    }
}

fn close_bracket(
    alloc: Global,
    stack: Stack<Opened>,
    bracket: Bracket,
    before: Pending,
    close: Span,
    x: Operand,
) -> Result<Option<Reading>, AllocError>
    ensures { IfOk result (λ r. r ≡ close_index stack bracket before close x) }
{
    match bracket {
        Bracket::Parenthesis(_) => refuse((stack, before, x)),
        Bracket::First(name, start) => match read_one(alloc, name, join(start, close), x) {
            Ok(read) => Ok(Some(take_atom(alloc, stack, before, read)?)),
            Err(error) => give_up((stack, before), error),
        },
        Bracket::Second(name, start, first) => match read_two(
            alloc,
            name,
            join(start, close),
            first,
            x,
        ) {
            Ok(read) => Ok(Some(take_atom(alloc, stack, before, read)?)),
            Err(error) => give_up((stack, before), error),
        },
    }
}

fn read_one(alloc: Global, name: Name, span: Span, x: Operand) -> Result<Operand, AllocError>
    ensures { IfOk result (λ r. r ≡ operand_of span (kind.Read name (index.One x.expr))) }
{
    match Boxed::new(alloc, x.expr) {
        Ok(index) => Ok(made(span, ExprKind::Read(name, Index::One(index)))),
        Err(error) => give_up(name, error),
    }
}

fn read_two(
    alloc: Global,
    name: Name,
    span: Span,
    first: Expr,
    x: Operand,
) -> Result<Operand, AllocError>
    ensures { IfOk result (λ r. r ≡ operand_of span (kind.Read name (index.Two first x.expr))) }
{
    match box_two(alloc, first, x.expr) {
        Ok((first, second)) => Ok(made(span, ExprKind::Read(name, Index::Two(first, second)))),
        Err(error) => give_up(name, error),
    }
}

fn open_second(
    stack: Stack<Opened>,
    bracket: Bracket,
    before: Pending,
    comma: Span,
    x: Operand,
) -> Result<Option<Reading>, AllocError>
    ensures { IfOk result (λ r. r ≡ next_index stack bracket before comma x) }
{
    match bracket {
        Bracket::First(name, start) => Ok(Some(open(
            stack,
            Bracket::Second(name, start, x.expr),
            before,
        )?)),
        other => refuse((stack, other, before, x)),
    }
}

/// `)`, `]` or `,` behind an expression.
fn close(
    alloc: Global,
    stack: Stack<Opened>,
    sign: Sign,
    at: Span,
    x: Operand,
) -> Result<Option<Reading>, AllocError>
    ensures { IfOk result (λ r. r ≡ closing (closer sign) stack at x) }
{
    let mut stack = stack;
    match stack.pop() {
        None => refuse((stack, x)),
        Some(opened) => match sign {
            Sign::CloseParen => close_parenthesis(
                alloc,
                stack,
                opened.bracket,
                opened.before,
                at,
                x,
            ),
            Sign::CloseBracket => close_bracket(alloc, stack, opened.bracket, opened.before, at, x),
            _ => open_second(stack, opened.bracket, opened.before, at, x),
        },
    }
}

/// The state before an atom, behind a sign.
fn wants(stack: Stack<Opened>, sum: Adding, product: Option<Operand>) -> Reading
    ensures { result ≡ reading_of stack (State.Want (record { sum = sum; product = product; minus = None })) }
{
    Reading {
        stack,
        state: State::Want(Pending {
            sum,
            product,
            minus: None,
        }),
    }
}

/// A token behind a term.
fn step_have(
    alloc: Global,
    stack: Stack<Opened>,
    sum: Adding,
    x: Operand,
    token: &Token,
) -> Result<Option<Reading>, AllocError>
    ensures { IfOk result (λ r. r ≡ having stack sum x token.now.span token.now.mark) }
{
    let Mark::Sign(sign) = &token.mark else {
        return refuse((stack, sum, x))
    };
    match *sign {
        Sign::Plus => match add(alloc, sum, x) {
            Ok(x) => Ok(Some(wants(stack, Adding::Plus(x), None))),
            Err(error) => give_up(stack, error),
        },
        Sign::Minus => match add(alloc, sum, x) {
            Ok(x) => Ok(Some(wants(stack, Adding::Minus(x), None))),
            Err(error) => give_up(stack, error),
        },
        Sign::Star => Ok(Some(wants(stack, sum, Some(x)))),
        Sign::CloseParen | Sign::CloseBracket | Sign::Comma => match add(alloc, sum, x) {
            Ok(x) => close(alloc, stack, *sign, token.span, x),
            Err(error) => give_up(stack, error),
        },
        _ => refuse((stack, sum, x)),
    }
}

fn step_minus(stack: Stack<Opened>, before: Pending, at: Span) -> Option<Reading>
    ensures { result ≡ signing stack before before.minus at }
{
    let Pending {
        sum,
        product,
        minus,
    } = before;
    match minus {
        None => Some(Reading {
            stack,
            state: State::Want(Pending {
                sum,
                product,
                minus: Some(at),
            }),
        }),
        Some(_) => dismiss((stack, sum, product)),
    }
}

/// A token before an atom.
pub fn step_want(
    alloc: Global,
    stack: Stack<Opened>,
    before: Pending,
    token: &Token,
) -> Result<Option<Reading>, AllocError>
    ensures { IfOk result (λ r. r ≡ wanting stack before token.now.span token.now.mark) }
{
    match &token.mark {
        Mark::Literal(number) => {
            let x = made(token.span, ExprKind::Num(*number));
            Ok(Some(take_atom(alloc, stack, before, x)?))
        }
        Mark::Name(name) => match name.clone() {
            Ok(name) => Ok(Some(Reading {
                stack,
                state: State::Named(before, name, token.span),
            })),
            Err(error) => give_up((stack, before), error),
        },
        Mark::Sign(Sign::Minus) => Ok(step_minus(stack, before, token.span)),
        Mark::Sign(Sign::OpenParen) => Ok(Some(open(
            stack,
            Bracket::Parenthesis(token.span),
            before,
        )?)),
        _ => refuse((stack, before)),
    }
}

/// A token behind a name.
fn step_named(
    alloc: Global,
    stack: Stack<Opened>,
    before: Pending,
    name: Name,
    start: Span,
    token: &Token,
) -> Result<Option<Reading>, AllocError>
    ensures { IfOk result (λ r. r ≡ naming stack before name start token.now.span token.now.mark) }
{
    match &token.mark {
        Mark::Sign(Sign::OpenBracket) => Ok(Some(open(
            stack,
            Bracket::First(name, start),
            before,
        )?)),
        _ => {
            let Pending {
                sum,
                product,
                minus,
            } = before;
            match term(alloc, product, minus, made(start, ExprKind::Get(name))) {
                Ok(x) => step_have(alloc, stack, sum, x, token),
                Err(error) => give_up((stack, sum), error),
            }
        }
    }
}

/// One token of the expression. None: no expression goes on with it.
pub fn step(alloc: Global, reading: Reading, token: &Token) -> Result<Option<Reading>, AllocError>
    ensures { IfOk result (λ r. r ≡ step_of reading token.now) }
{
    let Reading { stack, state } = reading;
    match state {
        State::Want(before) => step_want(alloc, stack, before, token),
        State::Named(before, name, start) => step_named(alloc, stack, before, name, start, token),
        State::Have(sum, x) => step_have(alloc, stack, sum, x, token),
    }
}

/// The sum that ends with a name that takes no index.
fn end_named(alloc: Global, before: Pending, name: Name, start: Span) -> Result<Operand, AllocError>
    ensures { IfOk result (λ r. r ≡ added before.sum (term_of before (operand_of start (kind.Get name)))) }
{
    let Pending {
        sum,
        product,
        minus,
    } = before;
    match term(alloc, product, minus, made(start, ExprKind::Get(name))) {
        Ok(x) => add(alloc, sum, x),
        Err(error) => give_up(sum, error),
    }
}

/// The whole expression, if no atom is missing.
fn end(alloc: Global, state: State) -> Result<Option<Operand>, AllocError>
    ensures { IfOk result (λ r. r ≡ value_at [] state) }
{
    match state {
        State::Want(before) => refuse(before),
        State::Named(before, name, start) => Ok(Some(end_named(alloc, before, name, start)?)),
        State::Have(sum, x) => Ok(Some(add(alloc, sum, x)?)),
    }
}

/// The whole expression, if no bracket is open and no atom is missing.
pub fn finish(alloc: Global, reading: Reading) -> Result<Option<Operand>, AllocError>
    ensures { IfOk result (λ r. r ≡ value_of reading) }
{
    let Reading { stack, state } = reading;
    if !stack.is_empty() {
        drop((stack, state));
        return Ok(None);
    }
    drop(stack);
    end(alloc, state)
}

/// Whether a bracket is open.
fn is_open(stack: &Stack<Opened>) -> bool
    ensures { result ≡ is_open_of stack.now }
{
    !stack.is_empty()
}

/// Whether the token is the expression's own, or belongs to what stands round it.
pub fn is_own(reading: &Reading, token: &Token) -> bool
    ensures { result ≡ is_own_mark reading.now.stack token.now.mark }
{
    match &token.mark {
        Mark::Name(_) | Mark::Literal(_) => true,
        Mark::Keyword(_) => false,
        Mark::Sign(sign) => match *sign {
            Sign::CloseBracket | Sign::Comma => is_open(&reading.stack),
            Sign::OpenParen
            | Sign::CloseParen
            | Sign::OpenBracket
            | Sign::Plus
            | Sign::Minus
            | Sign::Star => true,
            _ => false,
        },
    }
}
