//! The terms of expressions.
ghost use Rattle.std.specs.Prelude.{◌≡◌, ◌≤◌, ◌^◌, IfOk};
ghost use Rattle.std.specs.Option.{option_copied};
ghost use Rattle.ac_run.specs.Declarations.{kind_in, constant_in, constant_of};
ghost use Rattle.ac_policy.specs.Terms.{literal_term as literal, scalar_term as scalar, term_of as expr_term, first_index as first, second_index as second, zero_term};

use ac_logic::{ArrayTerm, Sym, Term};
use ac_shared::Shared;
use ac_tree::{Expr, ExprKind, Index, ItemKind, Name, Program, kind_of};
use std::alloc::{AllocError, Global};

/// The number of a name that is a constant.
pub fn constant(program: &Program, name: &Name) -> Option<i64>
    ensures { result ≡ constant_of program.now name.now }
{
    match kind_of(program.items.as_slice(), name) {
        Some(ItemKind::Const { value }) => Some(*value),
        _ => None,
    }
}

/// The term of a missing index.
pub fn zero(alloc: Global) -> Result<Shared<Term>, AllocError>
    ensures { IfOk result (λ t. t ≡ zero_term) }
{
    Shared::new(alloc, Term::Num(0))
}

/// The number of a literal. Where 63 bits do not hold it, it stands as a sum of its halves.
pub fn literal_term(alloc: Global, number: u64) -> Result<Shared<Term>, AllocError>
    ensures { IfOk result (λ t. t ≡ literal number) }
{
    match i64::try_from(number) {
        Ok(value) => Shared::new(alloc, Term::Num(value)),
        Err(_) => halves(alloc, number),
    }
}

fn halves(alloc: Global, number: u64) -> Result<Shared<Term>, AllocError>
    requires { 2 ^ 63 ≤ number }
    ensures { IfOk result (λ t. t ≡ literal number) }
{
    let half = (number / 2) as i64;
    let left = Shared::new(alloc, Term::Num(half))?;
    let right = Shared::new(alloc, Term::Num(half))?;
    let twice = Shared::new(alloc, Term::Add(left, right))?;
    let rest = Shared::new(alloc, Term::Num((number % 2) as i64))?;
    Shared::new(alloc, Term::Add(twice, rest))
}

/// The number of a constant, or the value of a scalar.
pub fn scalar_term(
    alloc: Global,
    program: &Program,
    name: &Name,
) -> Result<Shared<Term>, AllocError>
    ensures { IfOk result (λ t. t ≡ scalar program.now name.now) }
{
    match constant(program, name) {
        Some(value) => Shared::new(alloc, Term::Num(value)),
        None => {
            let name = name.clone()?;
            Shared::new(alloc, Term::Sym(Sym::Value(name)))
        }
    }
}

/// The term of an expression: a constant is its number, and all else is kept.
#[cycle(term)]
pub fn term_of(alloc: Global, expr: &Expr, program: &Program) -> Result<Shared<Term>, AllocError>
    ensures { IfOk result (λ t. t ≡ expr_term program.now expr.now.kind) }
{
    match &expr.kind {
        ExprKind::Num(number) => literal_term(alloc, *number),
        ExprKind::Get(name) => scalar_term(alloc, program, name),
        ExprKind::Read(name, index) => {
            let i = first_index(alloc, index, program)?;
            let j = second_index(alloc, index, program)?;
            let name = name.clone()?;
            let array = Shared::new(alloc, ArrayTerm::Sym(Sym::Value(name)))?;
            Shared::new(alloc, Term::Read(array, i, j))
        }
        ExprKind::Neg(a) => {
            let s = term_of(alloc, a.get(), program)?;
            Shared::new(alloc, Term::Neg(s))
        }
        ExprKind::Add(a, b) => {
            let s = term_of(alloc, a.get(), program)?;
            let t = term_of(alloc, b.get(), program)?;
            Shared::new(alloc, Term::Add(s, t))
        }
        ExprKind::Sub(a, b) => {
            let s = term_of(alloc, a.get(), program)?;
            let t = term_of(alloc, b.get(), program)?;
            Shared::new(alloc, Term::Sub(s, t))
        }
        ExprKind::Mul(a, b) => {
            let s = term_of(alloc, a.get(), program)?;
            let t = term_of(alloc, b.get(), program)?;
            Shared::new(alloc, Term::Mul(s, t))
        }
    }
}

/// The term of the first index.
#[cycle(term)]
pub fn first_index(
    alloc: Global,
    index: &Index,
    program: &Program,
) -> Result<Shared<Term>, AllocError>
    ensures { IfOk result (λ t. t ≡ first program.now index.now) }
{
    match index {
        Index::One(a) => term_of(alloc, a.get(), program),
        Index::Two(a, _) => term_of(alloc, a.get(), program),
    }
}

/// The term of the second index, 0 where there is none.
#[cycle(term)]
pub fn second_index(
    alloc: Global,
    index: &Index,
    program: &Program,
) -> Result<Shared<Term>, AllocError>
    ensures { IfOk result (λ t. t ≡ second program.now index.now) }
{
    match index {
        Index::One(_) => zero(alloc),
        Index::Two(_, b) => term_of(alloc, b.get(), program),
    }
}
