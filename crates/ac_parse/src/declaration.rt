//! The machine that reads the tokens of a program forwards: its declarations, and its body by the machine of statements.
ghost use Rattle.std.specs.Prelude.{◌≡◌, ◌≤◌, [], ◌∷◌, ◌++◌, ℤ, pos, neg_ℤ, IfOk, Some, None};
ghost use Rattle.ac_tree.specs.Grammar.{declaration as declaration_of};
ghost use Rattle.ac_expression_reader.specs.Steps.{passed};
ghost use Rattle.ac_tokens.specs.TokenFaults.{IsWithinLimits};
ghost use Rattle.ac_parse.specs.ReadProgram.{start as start_of, between, const_name, const_equal, int as int_of, negative as negative_of, input_kind as input_kind_of, const_ends, low_ends, high_ends, int_ends, stored_name, input_goes_on, var_kind as var_kind_of, var_ends, sized, named, extent_comes, extents_of as all_extents, next_extent, extent_ends, declare as declare_at, begin_of, program_of, body_ends, step as step_of, value as value_of};

use crate::begun::Begun;
use crate::statement;
use crate::statement::StmtReading;
use ac_expression_reader::expression::{join, unnumbered};
use ac_expression_reader::refusal::{dismiss, give_up, refuse};
use ac_tree::{
    Extent, Extents, Item, ItemKind, Keyword, Mark, Name, Program, Sign, Span, Stmt, Token,
};
use sqlite_items::Items;
use std::alloc::{AllocError, Global};

/// What has cells: an input or a variable.
#[derive(Clone, Copy)]
pub enum Storage {
    Input,
    Var,
}

/// What a number of a declaration is for: the value of a constant, or an end of the range of an input.
#[derive(Drop)]
pub enum IntUse {
    Value(Span, Name),
    Low(Span, Name, Option<Extents>),
    High(Span, Name, Option<Extents>, i64),
}

/// Where the declarations have come to: between two, or inside one. An extent has the one before it.
#[derive(Drop)]
pub enum DeclState {
    Between,
    Const(Span),
    ConstName(Span, Name),
    Int(IntUse),
    Minus(IntUse),
    IntRead(IntUse, i64),
    Stored(Storage, Span),
    StoredName(Storage, Span, Name),
    Extent(Storage, Span, Name, Option<Extent>),
    ExtentRead(Storage, Span, Name, Option<Extent>, Extent),
    Extended(Storage, Span, Name, Extents),
}

/// A program that is being read.
#[derive(Drop)]
pub enum ProgramReading {
    Declarations(Items<Item>, DeclState),
    Body(Items<Item>, Span, StmtReading),
    Whole(Program),
}

fn at(done: Items<Item>, state: DeclState) -> Option<ProgramReading>
    ensures { result ≡ Some (ProgramReading.Declarations done state) }
{
    Some(ProgramReading::Declarations(done, state))
}

/// The beginning of a program.
pub fn begin(alloc: Global) -> ProgramReading
    ensures { result ≡ start_of }
{
    ProgramReading::Declarations(Items::new(alloc), DeclState::Between)
}

/// A declaration is whole.
fn end(
    done: Items<Item>,
    span: Span,
    name: Name,
    kind: ItemKind,
) -> Result<Option<ProgramReading>, AllocError>
    ensures { IfOk result (λ r. r ≡ Some (ProgramReading.Declarations (done ++ declaration_of span name kind ∷ []) DeclState.Between)) }
{
    let mut done = done;
    let node = unnumbered(span);
    match done.push(Item { node, name, kind }) {
        Ok(()) => Ok(at(done, DeclState::Between)),
        Err(error) => give_up(done, error),
    }
}

fn step_between(alloc: Global, done: Items<Item>, token: &Token) -> Option<ProgramReading>
    ensures { result ≡ between done token.now.span token.now.mark }
{
    match &token.mark {
        Mark::Keyword(Keyword::Const) => at(done, DeclState::Const(token.span)),
        Mark::Keyword(Keyword::Input) => at(done, DeclState::Stored(Storage::Input, token.span)),
        Mark::Keyword(Keyword::Var) => at(done, DeclState::Stored(Storage::Var, token.span)),
        Mark::Keyword(Keyword::Begin) => Some(ProgramReading::Body(
            done,
            token.span,
            statement::begin(alloc),
        )),
        _ => dismiss(done),
    }
}

fn step_const(
    done: Items<Item>,
    start: Span,
    token: &Token,
) -> Result<Option<ProgramReading>, AllocError>
    ensures { IfOk result (λ r. r ≡ const_name done start token.now.mark) }
{
    match &token.mark {
        Mark::Name(name) => match name.clone() {
            Ok(name) => Ok(at(done, DeclState::ConstName(start, name))),
            Err(error) => give_up(done, error),
        },
        _ => refuse(done),
    }
}

fn step_const_name(
    done: Items<Item>,
    start: Span,
    name: Name,
    token: &Token,
) -> Option<ProgramReading>
    ensures { result ≡ const_equal done start name token.now.mark }
{
    match &token.mark {
        Mark::Sign(Sign::Equal) => at(done, DeclState::Int(IntUse::Value(start, name))),
        _ => dismiss((done, name)),
    }
}

fn step_int(done: Items<Item>, purpose: IntUse, token: &Token) -> Option<ProgramReading>
    requires { IsWithinLimits token.now.mark }
    ensures { result ≡ int_of done purpose token.now.mark }
{
    match &token.mark {
        Mark::Literal(number) => at(done, DeclState::IntRead(purpose, *number as i64)),
        Mark::Sign(Sign::Minus) => at(done, DeclState::Minus(purpose)),
        _ => dismiss((done, purpose)),
    }
}

fn step_minus(done: Items<Item>, purpose: IntUse, token: &Token) -> Option<ProgramReading>
    requires { IsWithinLimits token.now.mark }
    ensures { result ≡ negative_of done purpose token.now.mark }
{
    match &token.mark {
        Mark::Literal(number) => {
            let number = *number as i64;
            at(done, DeclState::IntRead(purpose, -number))
        }
        _ => dismiss((done, purpose)),
    }
}

fn input_kind(extents: Option<Extents>, lo: i64, hi: i64) -> ItemKind
    ensures { result ≡ input_kind_of extents lo hi }
{
    match extents {
        None => ItemKind::InputScalar { lo, hi },
        Some(extents) => ItemKind::InputArray { extents, lo, hi },
    }
}

fn end_const(
    done: Items<Item>,
    start: Span,
    name: Name,
    value: i64,
    token: &Token,
) -> Result<Option<ProgramReading>, AllocError>
    ensures { IfOk result (λ r. r ≡ const_ends done start name value token.now.span token.now.mark) }
{
    match &token.mark {
        Mark::Sign(Sign::Semicolon) => end(
            done,
            join(start, token.span),
            name,
            ItemKind::Const { value },
        ),
        _ => refuse((done, name)),
    }
}

fn end_low(
    done: Items<Item>,
    start: Span,
    name: Name,
    extents: Option<Extents>,
    lo: i64,
    token: &Token,
) -> Option<ProgramReading>
    ensures { result ≡ low_ends done start name extents lo token.now.mark }
{
    match &token.mark {
        Mark::Sign(Sign::DotDot) => at(
            done,
            DeclState::Int(IntUse::High(start, name, extents, lo)),
        ),
        _ => dismiss((done, name, extents)),
    }
}

fn end_high(
    done: Items<Item>,
    begun: Begun,
    extents: Option<Extents>,
    lo: i64,
    hi: i64,
    token: &Token,
) -> Result<Option<ProgramReading>, AllocError>
    ensures { IfOk result (λ r. r ≡ high_ends done begun.start begun.name extents lo hi token.now.span token.now.mark) }
{
    let Begun { start, name } = begun;
    match &token.mark {
        Mark::Sign(Sign::Semicolon) => end(
            done,
            join(start, token.span),
            name,
            input_kind(extents, lo, hi),
        ),
        _ => refuse((done, name, extents)),
    }
}

/// The token behind a number.
fn step_int_read(
    done: Items<Item>,
    purpose: IntUse,
    number: i64,
    token: &Token,
) -> Result<Option<ProgramReading>, AllocError>
    ensures { IfOk result (λ r. r ≡ int_ends done purpose number token.now.span token.now.mark) }
{
    match purpose {
        IntUse::Value(start, name) => end_const(done, start, name, number, token),
        IntUse::Low(start, name, extents) => Ok(end_low(done, start, name, extents, number, token)),
        IntUse::High(start, name, extents, lo) => end_high(
            done,
            Begun { start, name },
            extents,
            lo,
            number,
            token,
        ),
    }
}

fn step_stored(
    done: Items<Item>,
    storage: Storage,
    start: Span,
    token: &Token,
) -> Result<Option<ProgramReading>, AllocError>
    ensures { IfOk result (λ r. r ≡ stored_name done storage start token.now.mark) }
{
    match &token.mark {
        Mark::Name(name) => match name.clone() {
            Ok(name) => Ok(at(done, DeclState::StoredName(storage, start, name))),
            Err(error) => give_up(done, error),
        },
        _ => refuse(done),
    }
}

fn var_kind(extents: Option<Extents>) -> ItemKind
    ensures { result ≡ var_kind_of extents }
{
    match extents {
        None => ItemKind::VarScalar,
        Some(extents) => ItemKind::VarArray { extents },
    }
}

fn end_input(
    done: Items<Item>,
    start: Span,
    name: Name,
    extents: Option<Extents>,
    token: &Token,
) -> Option<ProgramReading>
    ensures { result ≡ input_goes_on done start name extents token.now.mark }
{
    match &token.mark {
        Mark::Sign(Sign::Colon) => at(done, DeclState::Int(IntUse::Low(start, name, extents))),
        _ => dismiss((done, name, extents)),
    }
}

fn end_var(
    done: Items<Item>,
    start: Span,
    name: Name,
    extents: Option<Extents>,
    token: &Token,
) -> Result<Option<ProgramReading>, AllocError>
    ensures { IfOk result (λ r. r ≡ var_ends done start name extents token.now.span token.now.mark) }
{
    match &token.mark {
        Mark::Sign(Sign::Semicolon) => end(done, join(start, token.span), name, var_kind(extents)),
        _ => refuse((done, name, extents)),
    }
}

/// The token behind a name and its extents.
fn step_sized(
    done: Items<Item>,
    storage: Storage,
    start: Span,
    name: Name,
    extents: Option<Extents>,
    token: &Token,
) -> Result<Option<ProgramReading>, AllocError>
    ensures { IfOk result (λ r. r ≡ sized done storage start name extents token.now.span token.now.mark) }
{
    match storage {
        Storage::Input => Ok(end_input(done, start, name, extents, token)),
        Storage::Var => end_var(done, start, name, extents, token),
    }
}

/// The token behind a name.
fn step_named(
    done: Items<Item>,
    storage: Storage,
    start: Span,
    name: Name,
    token: &Token,
) -> Result<Option<ProgramReading>, AllocError>
    ensures { IfOk result (λ r. r ≡ named done storage start name token.now.span token.now.mark) }
{
    match &token.mark {
        Mark::Sign(Sign::OpenBracket) => Ok(at(
            done,
            DeclState::Extent(storage, start, name, None),
        )),
        _ => step_sized(done, storage, start, name, None, token),
    }
}

fn step_extent(
    done: Items<Item>,
    storage: Storage,
    start: Span,
    name: Name,
    first: Option<Extent>,
    token: &Token,
) -> Result<Option<ProgramReading>, AllocError>
    ensures { IfOk result (λ r. r ≡ extent_comes done storage start name first token.now.mark) }
{
    match &token.mark {
        Mark::Literal(number) => Ok(at(
            done,
            DeclState::ExtentRead(storage, start, name, first, Extent::Lit(*number)),
        )),
        Mark::Name(other) => match other.clone() {
            Ok(other) => Ok(at(
                done,
                DeclState::ExtentRead(storage, start, name, first, Extent::Named(other)),
            )),
            Err(error) => give_up((done, name, first), error),
        },
        _ => refuse((done, name, first)),
    }
}

fn extents_of(first: Option<Extent>, last: Extent) -> Extents
    ensures { result ≡ all_extents first last }
{
    match first {
        None => Extents::One(last),
        Some(first) => Extents::Two(first, last),
    }
}

fn second_extent(
    done: Items<Item>,
    storage: Storage,
    start: Span,
    name: Name,
    before: Option<Extent>,
    first: Extent,
) -> Option<ProgramReading>
    ensures { result ≡ next_extent done storage start name before first }
{
    match before {
        None => at(done, DeclState::Extent(storage, start, name, Some(first))),
        Some(before) => dismiss((done, name, before, first)),
    }
}

/// The token behind an extent.
fn step_extent_read(
    done: Items<Item>,
    storage: Storage,
    begun: Begun,
    first: Option<Extent>,
    last: Extent,
    token: &Token,
) -> Option<ProgramReading>
    ensures { result ≡ extent_ends done storage begun.start begun.name first last token.now.mark }
{
    let Begun { start, name } = begun;
    match &token.mark {
        Mark::Sign(Sign::CloseBracket) => at(
            done,
            DeclState::Extended(storage, start, name, extents_of(first, last)),
        ),
        Mark::Sign(Sign::Comma) => second_extent(done, storage, start, name, first, last),
        _ => dismiss((done, name, first, last)),
    }
}

/// A token of the declarations.
fn declare(
    alloc: Global,
    done: Items<Item>,
    state: DeclState,
    token: &Token,
) -> Result<Option<ProgramReading>, AllocError>
    requires { IsWithinLimits token.now.mark }
    ensures { IfOk result (λ r. r ≡ declare_at done state token.now.span token.now.mark) }
{
    match state {
        DeclState::Between => Ok(step_between(alloc, done, token)),
        DeclState::Const(start) => step_const(done, start, token),
        DeclState::ConstName(start, name) => Ok(step_const_name(done, start, name, token)),
        DeclState::Int(purpose) => Ok(step_int(done, purpose, token)),
        DeclState::Minus(purpose) => Ok(step_minus(done, purpose, token)),
        DeclState::IntRead(purpose, number) => step_int_read(done, purpose, number, token),
        DeclState::Stored(storage, start) => step_stored(done, storage, start, token),
        DeclState::StoredName(storage, start, name) => step_named(
            done, storage, start, name, token,
        ),
        DeclState::Extent(storage, start, name, first) => step_extent(
            done, storage, start, name, first, token,
        ),
        DeclState::ExtentRead(storage, start, name, first, last) => Ok(step_extent_read(
            done,
            storage,
            Begun { start, name },
            first,
            last,
            token,
        )),
        DeclState::Extended(storage, start, name, extents) => step_sized(
            done,
            storage,
            start,
            name,
            Some(extents),
            token,
        ),
    }
}

/// Where the program begins: at its first declaration, else at `begin`.
fn beginning(items: &[Item], begin: Span) -> Span
    ensures { result ≡ begin_of items.now begin }
{
    match items {
        [] => begin,
        [first, ..] => first.node.span,
    }
}

fn whole(items: Items<Item>, begin: Span, end: Span, body: Items<Stmt>) -> Program
    ensures { result ≡ program_of items begin end body }
{
    let node = unnumbered(join(beginning(items.as_slice(), begin), end));
    Program { node, items, body }
}

/// The first token that is not the body's own.
fn step_past(
    items: Items<Item>,
    begin: Span,
    body: Option<Items<Stmt>>,
    token: &Token,
) -> Option<ProgramReading>
    ensures { result ≡ passed (body_ends items begin token.now.span token.now.mark) body }
{
    let Some(body) = body else {
        return dismiss(items)
    };
    match &token.mark {
        Mark::Keyword(Keyword::End) => Some(ProgramReading::Whole(whole(
            items, begin, token.span, body,
        ))),
        _ => dismiss((items, body)),
    }
}

/// A token of the body.
fn step_body(
    alloc: Global,
    items: Items<Item>,
    begin: Span,
    reading: StmtReading,
    token: &Token,
) -> Result<Option<ProgramReading>, AllocError>
    ensures { IfOk result (λ r. r ≡ step_of (ProgramReading.Body items begin reading) token.now) }
{
    if statement::is_own(&reading, token) {
        match statement::step(alloc, reading, token) {
            Ok(Some(reading)) => Ok(Some(ProgramReading::Body(items, begin, reading))),
            Ok(None) => refuse(items),
            Err(error) => give_up(items, error),
        }
    } else {
        Ok(step_past(items, begin, statement::finish(reading), token))
    }
}

/// One token of the program. None: no program goes on with it.
pub fn step(
    alloc: Global,
    reading: ProgramReading,
    token: &Token,
) -> Result<Option<ProgramReading>, AllocError>
    requires { IsWithinLimits token.now.mark }
    ensures { IfOk result (λ r. r ≡ step_of reading token.now) }
{
    match reading {
        ProgramReading::Declarations(done, state) => declare(alloc, done, state, token),
        ProgramReading::Body(items, begin, reading) => step_body(
            alloc, items, begin, reading, token,
        ),
        ProgramReading::Whole(program) => refuse(program),
    }
}

/// The program, if it is whole.
pub fn finish(reading: ProgramReading) -> Option<Program>
    ensures { result ≡ value_of reading }
{
    match reading {
        ProgramReading::Whole(program) => Some(program),
        other => dismiss(other),
    }
}
