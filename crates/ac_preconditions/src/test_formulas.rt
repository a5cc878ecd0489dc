//! The formulas of tests, and their terms.
ghost use Rattle.std.specs.Prelude.{◌≡◌, IfOk};
ghost use Rattle.ac_logic.specs.Patterns.{Negation};
ghost use Rattle.ac_conditions.specs.Preconditions.{variable as variable_term};
ghost use Rattle.ac_conditions.specs.Tests.{one_more as next_term, relation as relation_of, formula_of as test_formula};

use ac_logic::{Formula, Sym, Term};
use ac_policy::term_of;
use ac_shared::Shared;
use ac_tree::{Cond, CondKind, Name, Program, RelOp};
use std::alloc::{AllocError, Global};

/// The value of a scalar.
pub fn variable(alloc: Global, name: &Name) -> Result<Shared<Term>, AllocError>
    ensures { IfOk result (λ t. t ≡ variable_term name.now) }
{
    let name = name.clone()?;
    Shared::new(alloc, Term::Sym(Sym::Value(name)))
}

/// The number after that of a term.
pub fn one_more(alloc: Global, term: Shared<Term>) -> Result<Shared<Term>, AllocError>
    ensures { IfOk result (λ t. t ≡ next_term term) }
{
    let one = Shared::new(alloc, Term::Num(1))?;
    Shared::new(alloc, Term::Add(term, one))
}

pub fn negation(alloc: Global, formula: Shared<Formula>) -> Result<Shared<Formula>, AllocError>
    ensures { IfOk result (λ f. f ≡ Negation formula) }
{
    Shared::new(alloc, Formula::Not(formula))
}

fn below(
    alloc: Global,
    left: Shared<Term>,
    right: Shared<Term>,
) -> Result<Shared<Formula>, AllocError>
    ensures { IfOk result (λ f. f ≡ relation_of RelOp.Lt left right) }
{
    let next = one_more(alloc, left)?;
    Shared::new(alloc, Formula::Le(next, right))
}

fn relation(
    alloc: Global,
    op: RelOp,
    left: Shared<Term>,
    right: Shared<Term>,
) -> Result<Shared<Formula>, AllocError>
    ensures { IfOk result (λ f. f ≡ relation_of op left right) }
{
    match op {
        RelOp::Eq => Shared::new(alloc, Formula::Eq(left, right)),
        RelOp::Ne => {
            let same = Shared::new(alloc, Formula::Eq(left, right))?;
            negation(alloc, same)
        }
        RelOp::Lt => below(alloc, left, right),
        RelOp::Le => Shared::new(alloc, Formula::Le(left, right)),
        RelOp::Gt => below(alloc, right, left),
        RelOp::Ge => Shared::new(alloc, Formula::Le(right, left)),
    }
}

/// The formula of a test.
#[cycle(formula_of)]
pub fn formula_of(
    alloc: Global,
    test: &Cond,
    program: &Program,
) -> Result<Shared<Formula>, AllocError>
    ensures { IfOk result (λ f. f ≡ test_formula program.now test.now.kind) }
{
    match &test.kind {
        CondKind::True => Shared::new(alloc, Formula::True),
        CondKind::False => Shared::new(alloc, Formula::False),
        CondKind::Rel(op, a, b) => {
            let s = term_of(alloc, a.get(), program)?;
            let t = term_of(alloc, b.get(), program)?;
            relation(alloc, *op, s, t)
        }
        CondKind::Not(a) => {
            let f = formula_of(alloc, a.get(), program)?;
            negation(alloc, f)
        }
        CondKind::And(a, b) => {
            let f = formula_of(alloc, a.get(), program)?;
            let g = formula_of(alloc, b.get(), program)?;
            Shared::new(alloc, Formula::And(f, g))
        }
        CondKind::Or(a, b) => {
            let f = formula_of(alloc, a.get(), program)?;
            let g = formula_of(alloc, b.get(), program)?;
            Shared::new(alloc, Formula::Or(f, g))
        }
    }
}
