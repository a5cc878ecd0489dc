//! What the parts of a state make of what comes behind them.
ghost use Rattle.std.specs.Prelude.{◌≡◌, IfOk};
ghost use Rattle.ac_tree.specs.declared.program.RelOp.TheVariants as relation_variant;
ghost use Rattle.ac_logic.specs.Patterns.{Sum, Difference, Product, Negation, Conjunction, Disjunction, Implication, ReadOf, PutOf};
ghost use Rattle.ac_formula_printer.specs.FormulaText.{related as related_formula};
ghost use Rattle.ac_formula_machine.specs.FormulaMachine.{signed as signed_term, multiplied as multiplied_term, added as added_term, denied as denied_formula, joined as joined_formula, either as either_formula, fresh as fresh_pending, unbound as unbound_before};

use crate::machine_state::{Adding, Before, Pending};
use crate::refusal::give_up;
use ac_logic::{ArrayTerm, Formula, Term};
use ac_shared::Shared;
use ac_tree::RelOp;
use std::alloc::{AllocError, Global};

/// A cell of an array.
#[derive(Drop)]
pub struct Cell {
    pub array: ArrayTerm,
    pub first: Term,
    pub second: Term,
}

/// A relation with its two sides.
#[derive(Drop)]
pub struct Relation {
    pub left: Term,
    pub sign: RelOp,
    pub right: Term,
}

impl Cell {
    pub(crate) fn of(array: ArrayTerm, first: Term, second: Term) -> Cell
        ensures { result ≡ record { array = array; first = first; second = second } }
    {
        Cell {
            array,
            first,
            second,
        }
    }
}

impl Relation {
    pub fn between(left: Term, sign: RelOp, right: Term) -> Relation
        ensures { result ≡ record { left = left; sign = sign; right = right } }
    {
        Relation { left, sign, right }
    }
}

/// Two parts of a node, shared. Who hands both over holds none of them where memory runs out.
fn share_two<L: Drop, R: Drop>(
    alloc: Global,
    left: L,
    right: R,
) -> Result<(Shared<L>, Shared<R>), AllocError>
    ensures { IfOk result (λ both. (both.0 ≡ left) × (both.1 ≡ right)) }
{
    let left = Shared::new(alloc, left)?;
    let right = Shared::new(alloc, right)?;
    Ok((left, right))
}

fn sum(alloc: Global, left: Term, right: Term) -> Result<Term, AllocError>
    ensures { IfOk result (λ t. t ≡ Sum left right) }
{
    let (left, right) = share_two(alloc, left, right)?;
    Ok(Term::Add(left, right))
}

fn difference(alloc: Global, left: Term, right: Term) -> Result<Term, AllocError>
    ensures { IfOk result (λ t. t ≡ Difference left right) }
{
    let (left, right) = share_two(alloc, left, right)?;
    Ok(Term::Sub(left, right))
}

fn product(alloc: Global, left: Term, right: Term) -> Result<Term, AllocError>
    ensures { IfOk result (λ t. t ≡ Product left right) }
{
    let (left, right) = share_two(alloc, left, right)?;
    Ok(Term::Mul(left, right))
}

/// What stands in a cell.
pub(crate) fn read(alloc: Global, cell: Cell) -> Result<Term, AllocError>
    ensures { IfOk result (λ t. t ≡ ReadOf cell.array cell.first cell.second) }
{
    let Cell {
        array,
        first,
        second,
    } = cell;
    match share_two(alloc, first, second) {
        Ok((first, second)) => {
            let array = Shared::new(alloc, array)?;
            Ok(Term::Read(array, first, second))
        }
        Err(error) => give_up(array, error),
    }
}

/// An array with a value put into a cell.
pub(crate) fn put(alloc: Global, cell: Cell, value: Term) -> Result<ArrayTerm, AllocError>
    ensures { IfOk result (λ t. t ≡ PutOf cell.array cell.first cell.second value) }
{
    let Cell {
        array,
        first,
        second,
    } = cell;
    match share_two(alloc, first, second) {
        Ok((first, second)) => {
            let (array, value) = share_two(alloc, array, value)?;
            Ok(ArrayTerm::Put(array, first, second, value))
        }
        Err(error) => give_up((array, value), error),
    }
}

fn signed(alloc: Global, minus: bool, term: Term) -> Result<Term, AllocError>
    ensures { IfOk result (λ t. t ≡ signed_term minus term) }
{
    if !minus {
        return Ok(term);
    }
    let inner = Shared::new(alloc, term)?;
    Ok(Term::Neg(inner))
}

/// A factor behind a product, or alone.
pub(crate) fn multiplied(alloc: Global, left: Option<Term>, term: Term) -> Result<Term, AllocError>
    ensures { IfOk result (λ t. t ≡ multiplied_term left term) }
{
    match left {
        None => Ok(term),
        Some(left) => product(alloc, left, term),
    }
}

/// A product behind a sum, or alone.
pub fn added(alloc: Global, before: Adding, term: Term) -> Result<Term, AllocError>
    ensures { IfOk result (λ t. t ≡ added_term before term) }
{
    match before {
        Adding::Nothing => Ok(term),
        Adding::Plus(left) => sum(alloc, left, term),
        Adding::Minus(left) => difference(alloc, left, term),
    }
}

/// Before the first factor of a term.
pub fn fresh() -> Pending
    ensures { result ≡ fresh_pending }
{
    Pending {
        sum: Adding::Nothing,
        product: None,
        minus: false,
    }
}

/// Before the first part of a formula.
pub fn unbound() -> Before
    ensures { result ≡ unbound_before }
{
    Before {
        or: None,
        and: None,
        nots: 0,
    }
}

/// A product with one more factor, an atom behind its sign.
pub fn factored(
    alloc: Global,
    product: Option<Term>,
    minus: bool,
    atom: Term,
) -> Result<Term, AllocError>
    ensures { IfOk result (λ t. t ≡ multiplied_term product (signed_term minus atom)) }
{
    match signed(alloc, minus, atom) {
        Ok(factor) => multiplied(alloc, product, factor),
        Err(error) => give_up(product, error),
    }
}

fn negation(alloc: Global, inner: Formula) -> Result<Formula, AllocError>
    ensures { IfOk result (λ f. f ≡ Negation inner) }
{
    let inner = Shared::new(alloc, inner)?;
    Ok(Formula::Not(inner))
}

fn equation(alloc: Global, left: Term, right: Term) -> Result<Formula, AllocError>
    ensures { IfOk result (λ f. f ≡ related_formula relation_variant.Eq left right) }
{
    let (left, right) = share_two(alloc, left, right)?;
    Ok(Formula::Eq(left, right))
}

fn inequation(alloc: Global, left: Term, right: Term) -> Result<Formula, AllocError>
    ensures { IfOk result (λ f. f ≡ related_formula relation_variant.Ne left right) }
{
    let equal = equation(alloc, left, right)?;
    negation(alloc, equal)
}

fn comparison(alloc: Global, left: Term, right: Term) -> Result<Formula, AllocError>
    ensures { IfOk result (λ f. f ≡ related_formula relation_variant.Le left right) }
{
    let (left, right) = share_two(alloc, left, right)?;
    Ok(Formula::Le(left, right))
}

fn strict_comparison(alloc: Global, left: Term, right: Term) -> Result<Formula, AllocError>
    ensures { IfOk result (λ f. f ≡ related_formula relation_variant.Lt left right) }
{
    match sum(alloc, left, Term::Num(1)) {
        Ok(next) => comparison(alloc, next, right),
        Err(error) => give_up(right, error),
    }
}

/// The formula that a relation is: equations and weak comparisons alone stand in formulas.
pub fn related(alloc: Global, relation: Relation) -> Result<Formula, AllocError>
    ensures { IfOk result (λ f. f ≡ related_formula relation.sign relation.left relation.right) }
{
    let Relation { left, sign, right } = relation;
    match sign {
        RelOp::Eq => equation(alloc, left, right),
        RelOp::Ne => inequation(alloc, left, right),
        RelOp::Lt => strict_comparison(alloc, left, right),
        RelOp::Le => comparison(alloc, left, right),
        RelOp::Gt => strict_comparison(alloc, right, left),
        RelOp::Ge => comparison(alloc, right, left),
    }
}

fn conjunction(alloc: Global, left: Formula, right: Formula) -> Result<Formula, AllocError>
    ensures { IfOk result (λ f. f ≡ Conjunction left right) }
{
    let (left, right) = share_two(alloc, left, right)?;
    Ok(Formula::And(left, right))
}

fn disjunction(alloc: Global, left: Formula, right: Formula) -> Result<Formula, AllocError>
    ensures { IfOk result (λ f. f ≡ Disjunction left right) }
{
    let (left, right) = share_two(alloc, left, right)?;
    Ok(Formula::Or(left, right))
}

/// One formula implies the other.
pub fn implication(alloc: Global, left: Formula, right: Formula) -> Result<Formula, AllocError>
    ensures { IfOk result (λ f. f ≡ Implication left right) }
{
    let (left, right) = share_two(alloc, left, right)?;
    Ok(Formula::Implies(left, right))
}

#[tactic(auto, using(crate::proofs::Denied::denied_more))]
fn denied(alloc: Global, nots: u64, formula: Formula) -> Result<Formula, AllocError>
    ensures { IfOk result (λ f. f ≡ denied_formula nots formula) }
{
    let mut inner = formula;
    for _i in 0..nots {
        inner = negation(alloc, inner)?;
    }
    Ok(inner)
}

fn joined(alloc: Global, left: Option<Formula>, formula: Formula) -> Result<Formula, AllocError>
    ensures { IfOk result (λ f. f ≡ joined_formula left formula) }
{
    match left {
        None => Ok(formula),
        Some(left) => conjunction(alloc, left, formula),
    }
}

/// A conjunction behind a disjunction, or alone.
pub fn either(alloc: Global, left: Option<Formula>, formula: Formula) -> Result<Formula, AllocError>
    ensures { IfOk result (λ f. f ≡ either_formula left formula) }
{
    match left {
        None => Ok(formula),
        Some(left) => disjunction(alloc, left, formula),
    }
}

/// A conjunction with one more part, behind its negations.
pub fn conjoined(
    alloc: Global,
    and: Option<Formula>,
    nots: u64,
    part: Formula,
) -> Result<Formula, AllocError>
    ensures { IfOk result (λ f. f ≡ joined_formula and (denied_formula nots part)) }
{
    match denied(alloc, nots, part) {
        Ok(negated) => joined(alloc, and, negated),
        Err(error) => give_up(and, error),
    }
}
